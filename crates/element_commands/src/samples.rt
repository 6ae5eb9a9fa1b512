// The samples of an element, and the steps that differ with them.
ghost use Rattle.std.specs.Prelude.{◌*◌, ◌≤◌, length};

use console::ending;
use console::ending::Ended;
use files::Input;
use mxf::{ElementRead, ElementWritten};
use refusals::Fault;
use sheet_file::NUMBERS;

// Of ten bits the packets are taken as they are found (document 02, A13).
#[derive(Clone, Copy, PartialEq, Eq)]
pub enum Samples {
    EightBits,
    TenBits,
}

impl Samples {
    pub fn read(
        self,
        system: u64,
        fi: bool,
        bytes: &[u8],
        s: &mut [u16],
        file: &mut [u8],
    ) -> ElementRead
        requires { 2 * length s.old ≤ length file.old }
        ensures { result.numbers ≤ length s.new }
    {
        match self {
            Samples::EightBits => file_codec::read_element(system, fi, bytes, s, file),
            Samples::TenBits => file_codec::read_element10(system, fi, bytes, s, file),
        }
    }

    pub fn write(
        self,
        file: &[u8],
        fi: bool,
        s: &mut [u16; NUMBERS],
        bytes: &mut [u8],
    ) -> ElementWritten {
        match self {
            Samples::EightBits => file_codec::write_element(file, fi, s, bytes),
            Samples::TenBits => file_codec::write_element10(file, fi, s, bytes),
        }
    }

    // Ends with the refusal of a sheet that was to be written.
    pub fn refuse(self, rt: &HostRuntime, sheet: Input, fault: Fault) -> Ended {
        match self {
            Samples::EightBits => ending::sheet_refused(rt, sheet, fault),
            Samples::TenBits => ending::found_refused(rt, sheet, fault),
        }
    }
}
