// The calls under their C names, for programs in C or Rust: include/vanc.h says what each takes and gives back. A slice is two arguments there, its
// start and its length. A room of its own, which the archive is made of: it is proved in seconds, and one archive has all calls.
#![tactic(auto)]

ghost use Rattle.std.specs.Prelude.{◌≡◌};
ghost use Rattle.rules.specs.Demands.{Judges, Lays, Reads};
ghost use Rattle.mxf.specs.Demands.{Writes as WritesElement, Reads as ReadsElement};
ghost use Rattle.mxf10.specs.Demands.{WritesTen, ReadsTen};
ghost use Rattle.rules.specs.Walker.{walk as walked};

use frame::StringByte;
use mxf::{ElementRead, ElementWritten};
use rules::{Judged, Laid, ReadBack, Step};

#[unsafe(no_mangle)]
pub extern "C" fn vanc_test_packet(words: &[u16]) -> Judged
    ensures { Judges words.now result }
{
    packet::fault(words)
}

#[unsafe(no_mangle)]
pub extern "C" fn vanc_lay(sheet: &[u16], packing: u64, area: &mut [u8]) -> Laid
    ensures { Lays packing sheet.now area.old result area.new }
{
    vanc::lay(sheet, packing, area)
}

#[unsafe(no_mangle)]
pub extern "C" fn vanc_read(system: u64, area: &[u8], sheet: &mut [u16]) -> ReadBack
    ensures { Reads system area.now sheet.old result sheet.new }
{
    vanc::read(system, area, sheet)
}

#[unsafe(no_mangle)]
pub extern "C" fn vanc_walk(system: u64, string: &[u8], place: u64) -> Step
    ensures { result ≡ walked system string.now place }
{
    vanc::walk(system, string, StringByte(place))
}

#[unsafe(no_mangle)]
pub extern "C" fn vanc_mxf_write(sheet: &[u16], fi: bool, element: &mut [u8]) -> ElementWritten
    ensures { WritesElement fi sheet.now element.old result element.new }
{
    mxf::write(sheet, fi, element)
}

#[unsafe(no_mangle)]
pub extern "C" fn vanc_mxf_read(
    system: u64,
    fi: bool,
    element: &[u8],
    sheet: &mut [u16],
) -> ElementRead
    ensures { ReadsElement system fi element.now sheet.old result sheet.new }
{
    mxf::read(system, fi, element, sheet)
}

#[unsafe(no_mangle)]
pub extern "C" fn vanc_mxf_write10(sheet: &[u16], fi: bool, element: &mut [u8]) -> ElementWritten
    ensures { WritesTen fi sheet.now element.old result element.new }
{
    mxf10::write(sheet, fi, element)
}

#[unsafe(no_mangle)]
pub extern "C" fn vanc_mxf_read10(
    system: u64,
    fi: bool,
    element: &[u8],
    sheet: &mut [u16],
) -> ElementRead
    ensures { ReadsTen system fi element.now sheet.old result sheet.new }
{
    mxf10::read(system, fi, element, sheet)
}
