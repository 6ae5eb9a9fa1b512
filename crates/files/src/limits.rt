// How large the system lets a file become (C's RLIMIT_FSIZE). A write that begins behind that ends the process, by a signal that std does not hold
// back; so what has no room is not written, and that is an error of the write. Linux says in text what is needed for it.
ghost use Rattle.std.specs.Prelude.{◌≤◌};

use super::{open, read_some};
use file_status::errors::EFBIG;
use std::io::Print;
use std::{fs, io, str};

// The first number behind a label, in a base.
fn number_behind(text: &str, label: &str, base: u32) -> Option<u64>
    requires low { 2 ≤ base }
    requires high { base ≤ 36 }
{
    let (_, behind) = text.split_once(label)?;
    let word = behind.split_whitespace().next()?;
    u64::from_str_radix(word, base).ok()
}

// The same in the first lines of a file of the system's.
fn number_in(rt: &HostRuntime, path: &[u8], label: &str, base: u32) -> Option<u64>
    requires low { 2 ≤ base }
    requires high { base ≤ 36 }
{
    let mut file = open(rt, path).ok()?;
    let mut buf = [0u8; 512];
    let text = str::from_utf8(read_some(&mut file, &mut buf)).ok()?;
    number_behind(text, label, base)
}

// How many bytes a file may have, where there is a limit.
fn limit(rt: &HostRuntime) -> Option<u64> {
    number_in(rt, b"/proc/self/limits", "Max file size", 10)
}

// A file fails to be made longer than the limit.
pub fn check(rt: &HostRuntime, bytes: &[u8]) -> io::Result<()> {
    match limit(rt) {
        Some(most) if most < bytes.len() as u64 => Err(io::Error::from_raw_os_error(EFBIG)),
        _ => Ok(()),
    }
}

// A stream that may be a file: where the system tells of it.
#[derive(Clone, Copy)]
pub enum Stream {
    Output,
    Error,
}

// C's O_APPEND: each write begins at the file's end.
const APPEND: u64 = 0o2000;

// Where the next write to a stream begins, where it is a file.
fn place_of(rt: &HostRuntime, stream: Stream) -> Option<u64> {
    let (file, info) = match stream {
        Stream::Output => ("/proc/self/fd/1", "/proc/self/fdinfo/1"),
        Stream::Error => ("/proc/self/fd/2", "/proc/self/fdinfo/2"),
    };
    let is = fs::metadata(rt, file).ok()?;
    if !is.is_file() {
        return None;
    }
    let flags = number_in(rt, info.as_bytes(), "flags:", 8)?;
    if flags & APPEND != 0 {
        return Some(is.len());
    }
    number_in(rt, info.as_bytes(), "pos:", 10)
}

// How many bytes a stream has room for, where there is a limit.
fn room_of(rt: &HostRuntime, stream: Stream) -> Option<u64> {
    let most = limit(rt)?;
    let place = place_of(rt, stream)?;
    Some(most.saturating_sub(place))
}

// Writes all the bytes, or the first for which there is room.
pub fn write(rt: &HostRuntime, stream: Stream, to: &impl Print, bytes: &[u8]) -> io::Result<()> {
    match room_of(rt, stream) {
        Some(room) if room < bytes.len() as u64 => {
            to.write_all(&bytes[..room as usize])?;
            Err(io::Error::from_raw_os_error(EFBIG))
        }
        _ => to.write_all(bytes),
    }
}
