// How a command ends: its status, the line of the result, and what is said with it.
use files::{Failed, Input};
use refusals::{Fault, FoundFault, LineFault};
use rules::Refusal;
use std::fmt::{Display, Write};
use std::io;
use text::Line;

// How a command ends that was called rightly, and whose files and streams could be read and written.
#[derive(Clone, Copy)]
pub enum Status {
    Done,

    // By the rules.
    Refused,
}

pub type Ended = Result<Status, Failed>;

pub fn say_unchanged(rt: &HostRuntime) {
    files::say(rt, b"no file was changed", "");
}

// Ends with a status, where the result is printed. Where it could not be printed that is said, and whether a file was written before, by its name.
pub fn ended(
    rt: &HostRuntime,
    printed: io::Result<()>,
    status: Status,
    written: Option<&[u8]>,
) -> Ended {
    match printed {
        Ok(()) => Ok(status),
        Err(e) => {
            let failed = files::fail_by(rt, b"standard output", "", e);
            match written {
                Some(name) => files::say(rt, name, " was written"),
                None => say_unchanged(rt),
            }
            Err(failed)
        }
    }
}

// Prints the result, and ends.
pub fn printed(rt: &HostRuntime, line: &[u8], status: Status, written: Option<&[u8]>) -> Ended {
    ended(rt, files::print(rt, line), status, written)
}

// Ends with a line. The longest has some 90 bytes, whatever the numbers are.
fn ended_with(
    rt: &HostRuntime,
    text: impl Display + Drop,
    status: Status,
    written: Option<&[u8]>,
) -> Ended {
    let mut line = Line::<128>::new();
    let _ = write!(line, "{text}\n");
    printed(rt, line.as_bytes(), status, written)
}

// Ends with the line that says what was done, when a file was written.
pub fn done(rt: &HostRuntime, text: impl Display + Drop, written: &[u8]) -> Ended {
    ended_with(rt, text, Status::Done, Some(written))
}

// "A refusal prints one line, as `refused 10 at 0`." So it is printed by what reads areas and elements, whose refusals name no word.
fn refused_at(rt: &HostRuntime, number: u64, place: u64) -> Ended {
    let line = format_args!("refused {number} at {place}");
    ended_with(rt, line, Status::Refused, None)
}

// "Laying and the lister pass the word on after the place" (document 02, A2): `refused 8 at 31 6`.
fn refused_at_word(rt: &HostRuntime, fault: &Fault) -> Ended {
    let (number, place, word) = (fault.number, fault.place, fault.word);
    let line = format_args!("refused {number} at {place} {word}");
    ended_with(rt, line, Status::Refused, None)
}

// What is at fault, where, and what is wrong, on standard error.
fn say_fault(rt: &HostRuntime, what: &[u8], fault: impl Display + Drop) {
    files::say(rt, what, format_args!(": {fault}"));
}

// A refusal of what is no sheet, by a call that gives back no word.
pub fn refused(rt: &HostRuntime, what: &[u8], number: u64, place: u64) -> Ended {
    let fault = Fault {
        number,
        place,
        word: 0,
        sheet: &[],
    };
    say_fault(rt, what, fault);
    refused_at(rt, number, place)
}

// 20 of what is no sheet: the line at which the packet stands was found in it.
pub fn line_refused(rt: &HostRuntime, what: &[u8], fault: LineFault) -> Ended {
    say_fault(rt, what, fault);
    refused_at(rt, Refusal::PictureLine.number(), fault.place)
}

// A refusal by a call that gives back a word too, and was given the fault's sheet.
pub fn refused_with_word(rt: &HostRuntime, what: &[u8], fault: Fault) -> Ended {
    say_fault(rt, what, fault);
    refused_at_word(rt, &fault)
}

pub fn say_length(rt: &HostRuntime, name: &[u8]) {
    let why = ": a sheet file has an even number of bytes, 65536 at most";
    files::say(rt, name, why);
}

// A refusal of a sheet file; where the file's length is at fault, that is said too.
pub fn sheet_refused(rt: &HostRuntime, sheet: Input, fault: Fault) -> Ended {
    let ended = refused_with_word(rt, sheet.name, fault);
    if fault.number == Refusal::Shape.number() && !sheet_file::is_whole(sheet.bytes) {
        say_length(rt, sheet.name);
    }
    ended
}

// The same of a sheet file that was taken as found (document 02, A13).
pub fn found_refused(rt: &HostRuntime, sheet: Input, fault: Fault) -> Ended {
    if fault.number != Refusal::Word.number() {
        return sheet_refused(rt, sheet, fault);
    }
    say_fault(rt, sheet.name, FoundFault(fault));
    refused_at_word(rt, &fault)
}
