// Reads a sheet on standard input and prints what it lists (document 01, "Worked figures"). One byte more than the longest sheet is read, so
// that a longer input is seen to be longer. An input that cannot be read is no sheet: that is said, and nothing is listed. `vanc list` lists a file.
#![tactic(auto)]

use console::arguments;
use listing::Text;
use std::io;
use std::io::Print;
use text::Line;

// What could not be read or written, and the system's words.
fn fail(rt: &HostRuntime, what: &[u8], error: io::Error) {
    let mut line = Line::<512>::of(what);
    line.push_bytes(b": ");
    line.push_bytes(files::words::of(error).as_bytes());
    line.push(b'\n');
    let _ = Print::write_all(&rt.stderr(), line.as_bytes());
}

fn list_input(rt: &HostRuntime) {
    let mut buf = [0u8; sheet_file::LONGEST + 1];
    match files::read_input(rt, &mut buf) {
        Ok(file) => {
            let mut text = Text::new();
            listing::listing(file, &mut text);
            if let Err(e) = files::print(rt, text.as_bytes()) {
                fail(rt, b"standard output", e);
            }
        }
        Err(e) => fail(rt, b"standard input", e),
    }
}

fn main(rt: HostRuntime) {
    if arguments::count(&rt) != 1 {
        let _ = rt.eprintln("lister reads a sheet on standard input; vanc list SHEET lists a file");
        return;
    }
    list_input(&rt);
}
