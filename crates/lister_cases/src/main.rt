// The lister's text on many files in one run: data/cases has them one after the other, each after its length in four bytes (made, with what is to be
// printed, by tests/lister_cases.py).
#![tactic(auto)]

use frame::wide;
use listing::Text;
use std::fs::File;
use std::io;

// One byte more than the longest sheet, as in the lister.
const ROOM: usize = sheet_file::LONGEST + 1;

// A case's length, as far as there is room.
fn size(head: &[u8; 4]) -> usize {
    let n = wide(head[1]) * 65536 + wide(head[2]) * 256 + wide(head[3]);
    n.min(ROOM)
}

// Lists the next case; false where there is none.
fn list_next(rt: &impl Print, cases: &mut File) -> io::Result<bool> {
    let mut head = [0u8; 4];
    if files::read_next(cases, &mut head, 4).len() < 4 {
        return Ok(false);
    }
    let mut buf = [0u8; ROOM];
    let file = files::read_next(cases, &mut buf, size(&head));
    let mut text = Text::new();
    listing::listing(file, &mut text);
    rt.write_all(text.as_bytes())?;
    Ok(true)
}

fn main(rt: HostRuntime) -> io::Result<()> {
    let mut cases = File::open(&rt, "cases")?;
    for _ in 0..4096 {
        if !list_next(&rt, &mut cases)? {
            break;
        }
    }
    Ok(())
}
