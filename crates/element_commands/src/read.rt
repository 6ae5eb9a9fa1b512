// vanc mxf-read SYSTEM FI ELEMENT SHEET [--ten]: reads the packets of the ANC element (ST 436-1) that is in a file to a sheet file. The sheet file
// is made or replaced whole, and only when the element is read.
use crate::samples::Samples;
use console::ending::Ended;
use console::{arguments, ending};
use file_codec::lines;
use files::Input;
use files::output::Target;
use mxf::ElementRead;
use refusals::{LineFault, numbered};
use rules::Refusal;
use sheet_file::NUMBERS;

// The bytes of the longest element file that is read. The longest element without padding that has a sheet file is of 42,986, or of 56,456 with
// ten-bit samples; the rest of the room is for padding.
const LONGEST: usize = 262144;

// A longer sheet than a sheet file can have, which no command would take, is 17.
fn refuse(rt: &HostRuntime, r: ElementRead, system: u64, element: Input, sheet: &[u8]) -> Ended {
    match numbered(r.number) {
        Some(Refusal::System) => ending::refused(rt, b"SYSTEM", r.number, r.place),
        Some(Refusal::PictureLine) => {
            let fault = LineFault {
                place: r.place,
                system,
                line: lines::in_element(element.bytes, r.place),
            };
            ending::line_refused(rt, element.name, fault)
        }
        Some(Refusal::Buffer) => {
            let ended = ending::refused(rt, element.name, r.number, r.place);
            ending::say_length(rt, sheet);
            ended
        }
        _ => ending::refused(rt, element.name, r.number, r.place),
    }
}

fn read_and_replace(
    rt: &HostRuntime,
    samples: Samples,
    system: u64,
    fi: bool,
    element: Input,
    sheet: &Target,
) -> Ended {
    let mut s = [0u16; NUMBERS];
    let mut file = [0u8; sheet_file::LONGEST];
    let r = samples.read(system, fi, element.bytes, &mut s, &mut file);
    if r.number != 0 {
        return refuse(rt, r, system, element, sheet.name());
    }
    sheet.replace_by_first(rt, &file, 2 * r.numbers)?;
    let text = format_args!("read packets {} numbers {}", r.packets, r.numbers);
    ending::done(rt, text, sheet.name())
}

// One byte more than the longest element file is read, so that a longer file is seen to be longer.
fn read_files(
    rt: &HostRuntime,
    samples: Samples,
    system: u64,
    fi: bool,
    element: &[u8],
    sheet: &[u8],
) -> Ended {
    let target = Target::find(rt, sheet)?;
    let mut bytes = [0u8; LONGEST + 1];
    let element = files::read_file(rt, element, Some(&target), &mut bytes)?;
    if LONGEST < element.bytes.len() {
        let why = format_args!(": longer than the {LONGEST} bytes that are read");
        return Err(files::fail(rt, element.name, why));
    }
    read_and_replace(rt, samples, system, fi, element, &target)
}

// Not within its caller: the buffers of all commands would then be on the stack of each.
#[inline(never)]
pub fn run(rt: &HostRuntime, samples: Samples) -> Ended {
    let system = arguments::system(rt, 2);
    let fi = arguments::fi(rt, 3);
    let element = arguments::path(rt, 4, "ELEMENT");
    let sheet = arguments::path(rt, 5, "SHEET");
    let (system, fi) = (system?, fi?);
    read_files(
        rt,
        samples,
        system,
        fi,
        element?.as_bytes(),
        sheet?.as_bytes(),
    )
}
