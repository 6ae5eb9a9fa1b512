// vanc list [SHEET]: what document 01's lister prints, of a sheet file or of standard input.
use console::ending::{Ended, Status};
use console::{arguments, ending};
use files::{Failed, Input};
use listing::Text;
use refusals::Fault;
use sheet_file::NUMBERS;

fn list(rt: &HostRuntime, sheet: Input) -> Ended {
    let mut s = [0u16; NUMBERS];
    let mut text = Text::new();
    let t = listing::list(sheet.bytes, &mut s, &mut text);
    if t.number != 0 {
        let fault = Fault {
            number: t.number,
            place: t.place,
            word: t.word,
            sheet: &s[..],
        };
        return ending::sheet_refused(rt, sheet, fault);
    }
    ending::printed(rt, text.as_bytes(), Status::Done, None)
}

// One byte more than the longest sheet is read, so that a longer file is seen to be longer.
fn list_file(rt: &HostRuntime, name: &[u8]) -> Ended {
    let mut file = [0u8; sheet_file::LONGEST + 1];
    list(rt, files::read_file(rt, name, None, &mut file)?)
}

fn read_input<'a>(rt: &HostRuntime, buf: &'a mut [u8]) -> Result<Input<'a>, Failed> {
    let name = b"standard input";
    match files::read_input(rt, buf) {
        Ok(bytes) => Ok(Input { name, bytes }),
        Err(e) => Err(files::fail_by(rt, name, "", e)),
    }
}

fn list_input(rt: &HostRuntime) -> Ended {
    let mut file = [0u8; sheet_file::LONGEST + 1];
    list(rt, read_input(rt, &mut file)?)
}

// Not within its caller: the buffers of all commands would then be on the stack of each.
#[inline(never)]
pub fn run(rt: &HostRuntime, count: usize) -> Ended {
    if count == 2 {
        return list_input(rt);
    }
    list_file(rt, arguments::path(rt, 2, "SHEET")?.as_bytes())
}
