// What the command says of itself: an overview, a page for each command, the numbers of refusals in words, the version.
use crate::names;
use crate::names::Command;
use console::ending::{Ended, Status};
use console::{arguments, ending};
use files::Failed;
use refusals::{LAST, Words};
use std::fmt::Write;
use text::Line;

fn print(rt: &HostRuntime, page: &[u8]) -> Ended {
    ending::printed(rt, page, Status::Done, None)
}

const OVERVIEW: &str =
    "vanc lays the ancillary packets of a video frame into a DV frame (SMPTE 375M)\n\
    or an MXF element (SMPTE ST 436-1), and reads them back.\n\n\
    \x20 vanc list [SHEET]                        lists the packets of a sheet\n\
    \x20 vanc lay PACKING SHEET AREA              lays a sheet's packets into the area of a frame\n\
    \x20 vanc read SYSTEM AREA SHEET              reads the packets of an area to a sheet\n\
    \x20 vanc mxf-write FI SHEET ELEMENT          writes a sheet's packets as an ANC element\n\
    \x20 vanc mxf-read SYSTEM FI ELEMENT SHEET    reads the packets of an ANC element to a sheet\n\
    \x20 vanc help NAME, vanc NAME --help         says more of a command\n\
    \x20 vanc help refusals                       says the numbers of refusals in words\n\
    \x20 vanc --version                           says the version\n\n\
    With --ten behind its arguments, mxf-write or mxf-read takes samples of ten bits: packets as\n\
    they are found, damaged ones too.\n\
    A refusal prints its number and its place (refused 14 at 1). In list, lay and mxf-write the\n\
    packet's word at fault stands behind them, or 0 (refused 8 at 31 6). Standard error says\n\
    what is wrong, and what stands in that word. Then no file is changed; a file is replaced\n\
    whole or not at all.\n\
    Status: 0 done; 1 refused by the rules; 2 called wrongly, or a file or a stream that could\n\
    not be read or written.\n";

pub fn overview(rt: &HostRuntime) -> Ended {
    print(rt, OVERVIEW.as_bytes())
}

// For a call without arguments.
pub fn fail_overview(rt: &HostRuntime) -> Failed {
    files::say_page(rt, OVERVIEW.as_bytes());
    Failed
}

// The version, which include/vanc.h has too, and the toolchain that all was proved with (TOOLCHAIN).
const VERSION: &str = "vanc 0.6.0, proved with rattle-kit-13f logic dac8208d650f15bf\n";

pub fn version(rt: &HostRuntime) -> Ended {
    print(rt, VERSION.as_bytes())
}

// ---- a page for each command

const LIST: &str = "usage: vanc list [SHEET]\n\n\
    Lists the packets of the sheet file SHEET, or of standard input where none is named: first\n\
    system, packets, string bytes and packs in packing 1; then of each packet its number, line,\n\
    flags, DID and SDID (hexadecimal), and DC.\n";

const LAY: &str = "usage: vanc lay PACKING SHEET AREA\n\n\
    Lays the packets of the sheet file SHEET into the area in the file AREA, which is replaced:\n\
    the VAUX blocks of one frame, 9600 bytes, or 11520 in 1080/50i.\n\
    PACKING is 1 (packs of five) or 2 (long packs).\n\n\
    Prints: laid packs N bytes N\n";

const READ: &str = "usage: vanc read SYSTEM AREA SHEET\n\n\
    Reads the packets of the area in the file AREA, in either packing, to the sheet file SHEET,\n\
    which is made or replaced.\n\
    SYSTEM is 1 or 1080/60i, 2 or 1080/50i, 3 or 720/60p.\n\n\
    Prints: read packing N packets N numbers N\n";

const MXF_WRITE: &str = "usage: vanc mxf-write FI SHEET ELEMENT [--ten]\n\n\
    Writes the packets of the sheet file SHEET as an MXF ANC element (SMPTE ST 436-1) to the\n\
    file ELEMENT, which is made or replaced.\n\
    FI is 0 or 1: of a 720/60p sheet the packets with that FI are written, of a 1080 sheet all.\n\
    --ten: samples of ten bits, from DID to the checksum word. The packets are taken as they\n\
    are found: parity and checksum are kept and not tested, and 8 is a word over 3FFh.\n\n\
    Prints: written packets N bytes N\n";

const MXF_READ: &str = "usage: vanc mxf-read SYSTEM FI ELEMENT SHEET [--ten]\n\n\
    Reads the packets of the MXF ANC element (SMPTE ST 436-1) in the file ELEMENT to the sheet\n\
    file SHEET, which is made or replaced.\n\
    SYSTEM is 1 or 1080/60i, 2 or 1080/50i, 3 or 720/60p.\n\
    FI is 0 or 1: the packets of a 720/60p element get it, those of a 1080 element get 0.\n\
    --ten: an element of ten-bit samples. Its packets may be damaged: vanc list names the fault.\n\n\
    Prints: read packets N numbers N\n";

// The page of a command.
pub fn of(rt: &HostRuntime, command: Command) -> Ended {
    let page = match command {
        Command::List => LIST,
        Command::Lay => LAY,
        Command::Read => READ,
        Command::MxfWrite => MXF_WRITE,
        Command::MxfRead => MXF_READ,
        Command::Help => OVERVIEW,
        Command::HelpOption | Command::Version => return Err(command.fail_usage(rt)),
    };
    print(rt, page.as_bytes())
}

// The page of what an operator wrote for a command's name.
pub fn of_named(rt: &HostRuntime, name: &[u8]) -> Ended {
    match Command::named(name) {
        Some(command) => of(rt, command),
        None => Err(names::fail_unknown(rt, name)),
    }
}

// ---- the numbers of refusals

// Each number in two columns, and its words.
fn table(rt: &HostRuntime) -> Ended {
    let mut page = Line::<2048>::new();
    for refusal in (1..=LAST).filter_map(refusals::numbered) {
        let _ = write!(page, "{:>2}  {}\n", refusal.number(), Words(refusal));
    }
    print(rt, page.as_bytes())
}

// vanc help [NAME]
pub fn run(rt: &HostRuntime, count: usize) -> Ended {
    if count == 2 {
        return overview(rt);
    }
    let name = arguments::word(rt, 2);
    match name.as_bytes() {
        b"refusals" => table(rt),
        name => of_named(rt, name),
    }
}
