// The system's words for an error.
use file_status::errors::number_of;
use std::fmt::Write;
use std::io;
use text::Line;

// std prints the number behind the words, as `No such file or directory (os error 2)`, and that is left out.
pub fn of(error: io::Error) -> Line<128> {
    let mut said = Line::new();
    let _ = write!(said, "{}", io::Error::from_raw_os_error(number_of(error)));
    let number = said.as_bytes().iter().rposition(|&b| b == b'(');
    if let Some(n) = number {
        said.truncate(n.saturating_sub(1));
    }
    said
}
