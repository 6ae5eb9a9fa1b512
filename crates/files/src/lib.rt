// What the command does with files and streams: an input read whole, an output found, and replaced whole. What goes wrong with a file is said on
// standard error by the name that the operator wrote, and the caller does nothing more.
#![tactic(auto)]

ghost use Rattle.std.specs.Prelude.{◌≤◌, length, IfOk, IfErr};

use file_status::errors::{EBADF, number_of};
use file_status::{Kind, Known, path_text};
use limits::Stream;
use output::Target;
use std::fmt::{Display, Write};
use std::fs::{File, OpenOptions};
use std::io;
use std::io::Read;
use std::os::fd::{AsFd, IntoRawFd};
use text::Line;

mod limits;
pub mod output;
pub mod words;

// ---- what is said

// What failed has been said on standard error.
#[derive(Clone, Copy)]
pub struct Failed;

// Room for two names of files, each as long as a path can be, and what is said of them.
type Message = Line<8448>;

fn about(what: &[u8]) -> Message {
    let mut line = Message::of(b"vanc: ");
    line.push_bytes(what);
    line
}

// Ends a line, and writes it in one write. Where that cannot be written, nobody can be told.
fn tell(rt: &HostRuntime, mut line: Message) {
    line.push(b'\n');
    say_page(rt, line.as_bytes());
}

// A page on standard error, as it stands.
pub fn say_page(rt: &HostRuntime, page: &[u8]) {
    let _ = limits::write(rt, Stream::Error, &rt.stderr(), page);
}

// A line on standard error: what it is about, and what is wrong. Not within its callers: each would have the line on its stack, said or not.
#[inline(never)]
pub fn say(rt: &HostRuntime, what: &[u8], why: impl Display + Drop) {
    let mut line = about(what);
    let _ = write!(line, "{why}");
    tell(rt, line);
}

// The same of what fails for it.
pub fn fail(rt: &HostRuntime, what: &[u8], why: impl Display + Drop) -> Failed {
    say(rt, what, why);
    Failed
}

// Of a word that an operator wrote, which is quoted: what it should be, and what is wrong.
pub fn fail_quoted(rt: &HostRuntime, what: &str, word: &[u8], why: &str) -> Failed {
    let mut line = about(what.as_bytes());
    line.push(b'\'');
    line.push_bytes(word);
    line.push(b'\'');
    line.push_bytes(why.as_bytes());
    tell(rt, line);
    Failed
}

// Of a call that failed, by its error: what it was about, and the system's words.
pub fn fail_by(rt: &HostRuntime, what: &[u8], why: &str, error: io::Error) -> Failed {
    let mut line = about(what);
    line.push_bytes(why.as_bytes());
    line.push_bytes(b": ");
    line.push_bytes(words::of(error).as_bytes());
    tell(rt, line);
    Failed
}

// A line of the result.
pub fn print(rt: &HostRuntime, line: &[u8]) -> io::Result<()> {
    limits::write(rt, Stream::Output, &rt.stdout(), line)
}

// A descriptor that cannot be doubled for another reason, as when there are too many, is open.
fn is_closed(stream: &impl AsFd) -> bool {
    match stream.as_fd().try_clone_to_owned() {
        Ok(_) => false,
        Err(e) => number_of(e) == EBADF,
    }
}

// Opens a file that stays open, to be written or to be read alone, by the lowest number that is free: whether that is the number.
fn hold(rt: &HostRuntime, number: i32, is_written: bool) -> bool {
    let mut how = OpenOptions::new();
    how.read(!is_written).append(is_written);
    match how.open(rt, "/dev/null") {
        Ok(file) => file.into_raw_fd() == number,
        Err(_) => false,
    }
}

// Sees to it that no file that is opened gets the number of a stream, and with it what is meant for that: a closed standard input becomes one that
// cannot be read, a closed standard error one that cannot be written. It fails where standard output is closed, or a number stays free.
pub fn hold_streams(rt: &HostRuntime) -> Result<(), Failed> {
    if is_closed(&rt.stdin()) {
        hold(rt, 0, true);
    }
    if is_closed(&rt.stdout()) {
        let error = io::Error::from_raw_os_error(EBADF);
        return Err(fail_by(rt, b"standard output", "", error));
    }
    if is_closed(&rt.stderr()) && !hold(rt, 2, false) {
        return Err(Failed);
    }
    Ok(())
}

// ---- reading

// A read that failed, and what was read before.
#[derive(Clone, Copy)]
struct Cut<'a> {
    bytes: &'a [u8],
    error: io::Error,
}

// Reads until the buffer is full or the file ends, or a read fails.
fn read_all<'a, R: Read>(from: &mut R, buf: &'a mut [u8]) -> Result<&'a [u8], Cut<'a>>
    ensures ok { IfOk result (λ bytes. length bytes.now ≤ length buf.old) }
    ensures err { IfErr result (λ cut. length cut.bytes.now ≤ length buf.old) }
{
    let mut at = 0;
    while at < buf.len() {
        match from.read(&mut buf[at..]) {
            Ok(0) => {
                break;
            }
            Ok(n) => at += n,
            Err(error) => {
                return Err(Cut {
                    bytes: &buf[..at],
                    error,
                });
            }
        }
    }
    Ok(&buf[..at])
}

// The same, whether a read fails or the file ends.
fn read_some<'a, R: Read>(from: &mut R, buf: &'a mut [u8]) -> &'a [u8]
    ensures { length result.now ≤ length buf.old }
{
    match read_all(from, buf) {
        Ok(bytes) => bytes,
        Err(cut) => cut.bytes,
    }
}

// What standard input has, as much as the buffer has room for. Nothing is said.
pub fn read_input<'a>(rt: &HostRuntime, buf: &'a mut [u8]) -> io::Result<&'a [u8]>
    ensures { IfOk result (λ bytes. length bytes.now ≤ length buf.old) }
{
    let mut input = rt.stdin();
    match read_all(&mut input, buf) {
        Ok(bytes) => Ok(bytes),
        Err(cut) => Err(cut.error),
    }
}

// The next n bytes of an open file. Fewer where the file ends or a read fails, and none where the buffer has not so much room.
pub fn read_next<'a, R: Read>(from: &mut R, buf: &'a mut [u8], n: usize) -> &'a [u8]
    ensures { length result.now ≤ length buf.old }
{
    if buf.len() < n {
        return &buf[..0];
    }
    read_some(from, &mut buf[..n])
}

// Sees to it that an open file is another than the output's; else it is said, by both names.
fn tell_apart(
    rt: &HostRuntime,
    file: &File,
    name: &[u8],
    output: Option<&Target>,
) -> Result<(), Failed> {
    let input = match Known::of_descriptor(file) {
        Ok(input) => input,
        Err(e) => return Err(fail_by(rt, name, "", e)),
    };
    match output {
        Some(output) if output.is_file(input) => {
            let mut line = about(output.name());
            line.push_bytes(b": the same file as ");
            line.push_bytes(name);
            tell(rt, line);
            Err(Failed)
        }
        _ => Ok(()),
    }
}

fn open(rt: &HostRuntime, path: &[u8]) -> io::Result<File> {
    File::open(rt, path_text(path)?)
}

// A file that was read: its name, and its bytes.
#[derive(Clone, Copy)]
pub struct Input<'a> {
    pub name: &'a [u8],
    pub bytes: &'a [u8],
}

// The bytes of the file with a name, which is at a path, as many as the buffer has room for. Where it cannot be read, or is the file of the output,
// that is said.
fn read_at<'a>(
    rt: &HostRuntime,
    name: &[u8],
    path: &[u8],
    output: Option<&Target>,
    buf: &'a mut [u8],
) -> Result<&'a [u8], Failed>
    ensures { IfOk result (λ bytes. length bytes.now ≤ length buf.old) }
{
    let mut file = match open(rt, path) {
        Ok(file) => file,
        Err(e) => return Err(fail_by(rt, name, "", e)),
    };
    tell_apart(rt, &file, name, output)?;
    match read_all(&mut file, buf) {
        Ok(bytes) => Ok(bytes),
        Err(cut) => Err(fail_by(rt, name, "", cut.error)),
    }
}

// The file with a name, as many bytes as the buffer has room for. Where it cannot be read, or is the file of the output, that is said.
pub fn read_file<'a>(
    rt: &HostRuntime,
    name: &'a [u8],
    output: Option<&Target>,
    buf: &'a mut [u8],
) -> Result<Input<'a>, Failed>
    ensures { IfOk result (λ input. length input.bytes.now ≤ length buf.old) }
{
    let bytes = read_at(rt, name, name, output, buf)?;
    Ok(Input { name, bytes })
}
