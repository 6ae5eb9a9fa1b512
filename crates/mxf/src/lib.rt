// An MXF element for each frame (document 02, A1; 004, tables 5 to 7, section 7.2, annex B): `write` makes the ANC element of a sheet,
// `read` the sheet of an element. What each gives is a definition of specs/.
#![tactic(auto)]

ghost use Rattle.std.specs.Prelude.{◌≡◌};
ghost use Rattle.mxf.specs.Element.{wrapping as wrappingOf};

mod judging;
mod reading;
mod samples;
mod writing;

pub use judging::{Counted, four, front_fault, head_fault, two};
pub use reading::{allowed, read, read_sheet, tell_read, write_locations};
pub use samples::{Eight, Samples};
pub use writing::{Measured, put_fields, put_head, serves, tell_written, write, write_sheet};

// 004, table 6.
const KEY: [u8; 16] = [
    0x06, 0x0E, 0x2B, 0x34, 0x01, 0x02, 0x01, 0x01, 0x0D, 0x01, 0x03, 0x01, 0x17, 0x01, 0x02, 0x01,
];

// 004, table 5: "83.xx.xx.xxh", a length in three bytes.
const LONG_FORM: u8 = 0x83;

// Bytes before the first structure: key, length, N.
pub const HEAD: usize = 22;

// Bytes of a structure before its samples: line, wrapping, coding, sample count, array count, array element length (004, table 7).
pub const FIELDS: usize = 14;

// "Wrapping is VANC frame for 1080, VANC progressive frame for 720" (document 02, A1).
pub fn wrapping(system: u64) -> u8
    ensures { result ≡ wrappingOf system }
{
    if system == 3 {
        return 4;
    }
    1
}

// What writing gives back. Number 0 is success; on refusal packets and bytes are 0. 7 to 10 name a word of the packet; else word is 0.
#[repr(C)]
#[derive(Clone, Copy)]
pub struct ElementWritten {
    pub number: u64,
    pub place: u64,
    pub word: u64,
    pub packets: u64,
    pub bytes: u64,
}

// What reading gives back. Number 0 is success; on refusal packets and numbers are 0.
#[repr(C)]
#[derive(Clone, Copy)]
pub struct ElementRead {
    pub number: u64,
    pub place: u64,
    pub packets: u64,
    pub numbers: u64,
}
