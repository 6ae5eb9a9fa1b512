// The codec on the bytes of files: what the command lays, reads and writes is, by these contracts, what the rules say of the sheet in the file.
// And, in the module lines, the line of a packet that is refused for it.
#![tactic(auto)]

ghost use Rattle.std.specs.Prelude.{◌≡◌, ◌*◌, ◌≤◌, length, take};
ghost use Rattle.rules.specs.Demands.{Lays, Reads};
ghost use Rattle.rules.specs.Lister.{file_of};
ghost use Rattle.mxf.specs.Demands.{Writes as WritesElement, Reads as ReadsElement};
ghost use Rattle.mxf10.specs.Demands.{WritesTen, ReadsTen};
ghost use Rattle.profile.specs.Demands.{LaysStrict};
ghost use Rattle.sheet_file.specs.Files.{sheet_in};

pub mod lines;

use mxf::{ElementRead, ElementWritten};
use rules::{Laid, ReadBack};
use sheet_file::NUMBERS;

// The sheet in a file: its numbers, at the start of s.
fn sheet_of<'a>(file: &[u8], s: &'a mut [u16; NUMBERS]) -> &'a [u16]
    ensures { result.now ≡ sheet_in file.now }
{
    let n = sheet_file::decode(file, s);
    &s[..n]
}

// The packets of a sheet file, laid into an area. The sheet's numbers then stand at the start of s.
pub fn lay_file(file: &[u8], packing: u64, s: &mut [u16; NUMBERS], area: &mut [u8]) -> Laid
    ensures { Lays packing (sheet_in file.now) area.old result area.new }
{
    vanc::lay(sheet_of(file, s), packing, area)
}

// The same within the eight-bit profile (document 02, A14).
pub fn lay_file_eight(file: &[u8], packing: u64, s: &mut [u16; NUMBERS], area: &mut [u8]) -> Laid
    ensures { LaysStrict packing (sheet_in file.now) area.old result area.new }
{
    profile::lay(sheet_of(file, s), packing, area)
}

// An area's packets as a sheet, and the bytes of its file.
pub fn read_area(system: u64, area: &[u8], s: &mut [u16], file: &mut [u8]) -> ReadBack
    requires { 2 * length s.old ≤ length file.old }
    ensures reads { Reads system area.now s.old result s.new
        × (take (2 * result.numbers) file.new ≡ file_of (take result.numbers s.new)) }
    ensures numbers_in_bounds { result.numbers ≤ length s.new }
{
    let r = vanc::read(system, area, s);
    let numbers = r.numbers as usize;
    sheet_file::encode_first(s, numbers, file);
    r
}

// The element of those packets of a sheet file that FI serves. The sheet's numbers then stand at the start of s.
pub fn write_element(
    file: &[u8],
    fi: bool,
    s: &mut [u16; NUMBERS],
    element: &mut [u8],
) -> ElementWritten
    ensures { WritesElement fi (sheet_in file.now) element.old result element.new }
{
    mxf::write(sheet_of(file, s), fi, element)
}

// The same of ten-bit samples, as found (document 02, A13).
pub fn write_element10(
    file: &[u8],
    fi: bool,
    s: &mut [u16; NUMBERS],
    element: &mut [u8],
) -> ElementWritten
    ensures { WritesTen fi (sheet_in file.now) element.old result element.new }
{
    mxf10::write(sheet_of(file, s), fi, element)
}

// An element's packets as a sheet, and the bytes of its file.
pub fn read_element(
    system: u64,
    fi: bool,
    element: &[u8],
    s: &mut [u16],
    file: &mut [u8],
) -> ElementRead
    requires { 2 * length s.old ≤ length file.old }
    ensures reads_element { ReadsElement system fi element.now s.old result s.new
        × (take (2 * result.numbers) file.new ≡ file_of (take result.numbers s.new)) }
    ensures numbers_in_bounds { result.numbers ≤ length s.new }
{
    let r = mxf::read(system, fi, element, s);
    let n = r.numbers as usize;
    sheet_file::encode_first(s, n, file);
    r
}

// The same of ten-bit samples, as found (document 02, A13).
pub fn read_element10(
    system: u64,
    fi: bool,
    element: &[u8],
    s: &mut [u16],
    file: &mut [u8],
) -> ElementRead
    requires { 2 * length s.old ≤ length file.old }
    ensures reads_ten { ReadsTen system fi element.now s.old result s.new
        × (take (2 * result.numbers) file.new ≡ file_of (take result.numbers s.new)) }
    ensures numbers_in_bounds { result.numbers ≤ length s.new }
{
    let r = mxf10::read(system, fi, element, s);
    let n = r.numbers as usize;
    sheet_file::encode_first(s, n, file);
    r
}
