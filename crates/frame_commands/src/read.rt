// vanc read SYSTEM AREA SHEET: reads the packets of the area that is in a file to a sheet file. The sheet file is made or replaced whole, and only
// when the area is read.
use console::ending::Ended;
use console::{arguments, ending};
use file_codec::lines;
use files::Input;
use files::output::Target;
use frame::{Hd1080x50i, LIMIT};
use refusals::{LineFault, numbered};
use rules::{ReadBack, Refusal};

// The numbers of the longest sheet that an area has: the most packets, and the words of the longest string.
const NUMBERS: usize = 4 + 2 * LIMIT + Hd1080x50i::STRING;

fn refuse(rt: &HostRuntime, r: ReadBack, system: u64, area: Input) -> Ended {
    match numbered(r.number) {
        Some(Refusal::System) => ending::refused(rt, b"SYSTEM", r.number, r.place),
        Some(Refusal::PictureLine) => {
            let fault = LineFault {
                place: r.place,
                system,
                line: lines::in_area(system, area.bytes, r.place),
            };
            ending::line_refused(rt, area.name, fault)
        }
        _ => ending::refused(rt, area.name, r.number, r.place),
    }
}

fn read_and_replace(rt: &HostRuntime, system: u64, area: Input, sheet: &Target) -> Ended {
    let mut s = [0u16; NUMBERS];
    let mut file = [0u8; 2 * NUMBERS];
    let r = file_codec::read_area(system, area.bytes, &mut s, &mut file);
    if r.number != 0 {
        return refuse(rt, r, system, area);
    }
    sheet.replace_by_first(rt, &file, 2 * r.numbers)?;
    let (packing, packets, numbers) = (r.packing, r.packets, r.numbers);
    let text = format_args!("read packing {packing} packets {packets} numbers {numbers}");
    ending::done(rt, text, sheet.name())
}

// One byte more than the longest area is read, so that a longer file is seen to be longer.
fn read_files(rt: &HostRuntime, system: u64, area: &[u8], sheet: &[u8]) -> Ended {
    let target = Target::find(rt, sheet)?;
    let mut bytes = [0u8; Hd1080x50i::AREA + 1];
    let area = files::read_file(rt, area, Some(&target), &mut bytes)?;
    read_and_replace(rt, system, area, &target)
}

// Not within its caller: the buffers of all commands would then be on the stack of each.
#[inline(never)]
pub fn run(rt: &HostRuntime) -> Ended {
    let system = arguments::system(rt, 2);
    let area = arguments::path(rt, 3, "AREA");
    let sheet = arguments::path(rt, 4, "SHEET");
    read_files(rt, system?, area?.as_bytes(), sheet?.as_bytes())
}
