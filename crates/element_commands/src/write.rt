// vanc mxf-write FI SHEET ELEMENT [--ten]: writes the ANC element (ST 436-1) of the packets of a sheet file. The element file is made or replaced
// whole, and only when the element is written.
use crate::samples::Samples;
use console::ending::Ended;
use console::{arguments, ending};
use files::Input;
use files::output::Target;
use frame::LIMIT;
use refusals::Fault;
use sheet_file::NUMBERS;

// The bytes of the longest element that a sheet file gives. It is one of ten-bit samples: 22, 14 for each packet, and for each four bytes for three
// of DC + 4 samples or a part of three, which is at most DC + 6 by three. A sheet of P packets has 4 + 2P numbers beside its words, and these are
// DC + 7 each: so it is the longest sheet's with the most packets, of 56,456 bytes. One of 8-bit samples has 42,986 at most.
const LONGEST: usize = 22 + 14 * LIMIT + 4 * ((NUMBERS - 4 - 3 * LIMIT) / 3);

fn write_and_replace(
    rt: &HostRuntime,
    samples: Samples,
    fi: bool,
    sheet: Input,
    element: &Target,
) -> Ended {
    let mut s = [0u16; NUMBERS];
    let mut bytes = [0u8; LONGEST];
    let r = samples.write(sheet.bytes, fi, &mut s, &mut bytes);
    if r.number != 0 {
        let fault = Fault {
            number: r.number,
            place: r.place,
            word: r.word,
            sheet: &s[..],
        };
        return samples.refuse(rt, sheet, fault);
    }
    element.replace_by_first(rt, &bytes, r.bytes)?;
    let text = format_args!("written packets {} bytes {}", r.packets, r.bytes);
    ending::done(rt, text, element.name())
}

// One byte more than the longest sheet file is read, so that a longer file is seen to be longer.
fn write_files(
    rt: &HostRuntime,
    samples: Samples,
    fi: bool,
    sheet: &[u8],
    element: &[u8],
) -> Ended {
    let target = Target::find(rt, element)?;
    let mut file = [0u8; sheet_file::LONGEST + 1];
    let sheet = files::read_file(rt, sheet, Some(&target), &mut file)?;
    write_and_replace(rt, samples, fi, sheet, &target)
}

// Not within its caller: the buffers of all commands would then be on the stack of each.
#[inline(never)]
pub fn run(rt: &HostRuntime, samples: Samples) -> Ended {
    let fi = arguments::fi(rt, 2);
    let sheet = arguments::path(rt, 3, "SHEET");
    let element = arguments::path(rt, 4, "ELEMENT");
    write_files(rt, samples, fi?, sheet?.as_bytes(), element?.as_bytes())
}
