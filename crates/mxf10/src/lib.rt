// Ten bits as found (document 02, A13; 004, 5.4.4 and 7.2): `write` makes the ANC element of a sheet as found, DID to CS of each packet in ten-bit
// samples, `read` the sheet of such an element. What each gives is a definition of specs/; how elements are written and read, whatever their
// samples, is the crate mxf's.
#![tactic(auto)]

ghost use Rattle.mxf10.specs.Demands.{WritesTen, ReadsTen};

mod tens;

use mxf::{ElementRead, ElementWritten};
use tens::Ten;

// "ten-bit export takes them as found and tests as A1" (document 02, A13).
pub fn write(sheet: &[u16], fi: bool, element: &mut [u8]) -> ElementWritten
    ensures { WritesTen fi sheet.now element.old result element.new }
{
    mxf::tell_written(mxf::write_sheet::<Ten>(sheet, fi, element))
}

// An element is accepted exactly when some list of packets as found with lines gives it, unused bits and padding aside: its sheet then stands in
// the buffer, or nothing is written.
pub fn read(system: u64, fi: bool, element: &[u8], sheet: &mut [u16]) -> ElementRead
    ensures { ReadsTen system fi element.now sheet.old result sheet.new }
{
    mxf::tell_read(mxf::read_sheet::<Ten>(system, fi, element, sheet))
}
