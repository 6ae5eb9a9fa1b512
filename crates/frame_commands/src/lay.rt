// vanc lay PACKING SHEET AREA: lays the packets of a sheet file into the area that is in a file. Both are read whole, the area is replaced whole, and
// only when the sheet is laid.
use console::ending::Ended;
use console::{arguments, ending};
use files::Input;
use files::output::Target;
use frame::Hd1080x50i;
use refusals::{Fault, numbered};
use rules::Refusal;
use sheet_file::{LONGEST, NUMBERS};

fn refuse(rt: &HostRuntime, fault: Fault, sheet: Input, area: &[u8]) -> Ended {
    match numbered(fault.number) {
        Some(Refusal::Packing) => ending::refused_with_word(rt, b"PACKING", fault),
        Some(Refusal::AreaLength) => ending::refused_with_word(rt, area, fault),
        _ => ending::sheet_refused(rt, sheet, fault),
    }
}

fn lay_and_replace(
    rt: &HostRuntime,
    packing: u64,
    sheet: Input,
    area: &Target,
    bytes: &mut [u8],
) -> Ended {
    let mut s = [0u16; NUMBERS];
    let r = file_codec::lay_file(sheet.bytes, packing, &mut s, bytes);
    if r.number != 0 {
        let fault = Fault {
            number: r.number,
            place: r.place,
            word: r.word,
            sheet: &s[..],
        };
        return refuse(rt, fault, sheet, area.name());
    }
    area.replace(rt, bytes)?;
    let text = format_args!("laid packs {} bytes {}", r.packs, r.bytes);
    ending::done(rt, text, area.name())
}

// One byte more than the longest sheet file and the longest area is read, so that a longer file is seen to be longer.
fn lay_files(rt: &HostRuntime, packing: u64, sheet: &[u8], area: &[u8]) -> Ended {
    let target = Target::find(rt, area)?;
    let mut file = [0u8; LONGEST + 1];
    let sheet = files::read_file(rt, sheet, Some(&target), &mut file)?;
    let mut bytes = [0u8; Hd1080x50i::AREA + 1];
    let n = target.read(rt, &mut bytes)?.len();
    lay_and_replace(rt, packing, sheet, &target, &mut bytes[..n])
}

// Not within its caller: the buffers of all commands would then be on the stack of each.
#[inline(never)]
pub fn run(rt: &HostRuntime) -> Ended {
    let packing = arguments::number(rt, 2, "PACKING: ");
    let sheet = arguments::path(rt, 3, "SHEET");
    let area = arguments::path(rt, 4, "AREA");
    lay_files(rt, packing?, sheet?.as_bytes(), area?.as_bytes())
}
