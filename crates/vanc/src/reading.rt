// Reading an area to a sheet (document 01, "Numbers given back": 3, 4, 13, then packet by packet 5, 14, 15, 16, then 17).
ghost use Rattle.std.specs.Prelude.{◌≡◌, ℕ, true, ◌≤◌, ◌<◌, Ok, Err, length, take};
ghost use Rattle.rules.specs.Base.{sum, Bytes};
ghost use Rattle.rules.specs.Systems.{System, known, system as systemOf};
ghost use Rattle.rules.specs.Blocks.{block_sizes};
ghost use Rattle.rules.specs.Numbers.{Outcome};
ghost use Rattle.rules.specs.Reading.{packets_of_opened, packets_of_user_bytes, packing_found};
ghost use Rattle.rules.specs.Demands.{Reads};
ghost use Rattle.sheet.specs.Write.{wrote, sheet_after};
ghost use Rattle.packing2.specs.Unlong.{opened_from};
ghost use Rattle.vanc.specs.Read.{Back, Shows, Finds, back_of};

use crate::refused;
use danc::Validated;
use frame::Line;
use rules::{ReadBack, Refusal, Refused};

// What the user bytes hold: the packing, 0 for an empty list, and the string of the packets.
#[derive(Clone, Copy)]
struct Found {
    packing: u64,
    string: Validated,
}

// A known system's number as the sheet has it.
fn narrow(system: u64) -> u16
    requires { system ≤ 3 }
    ensures { result ≡ system }
{
    system as u16
}

// The sheet of a string's packets at the start of the buffer, and how many numbers it has. Within reading its loops would have to share the
// registers.
#[inline(never)]
fn write_sheet(system: u64, us: &[u8; 9360], end: usize, sheet: &mut [u16]) -> Option<usize>
    requires { system ≤ 3 }
    ensures value { result ≡ wrote system (take end us.now) (length sheet.old) }
    ensures sheet_after { sheet.new ≡ sheet_after system (take end us.now) sheet.old }
{
    sheet::write_sheet(narrow(system), us, end, sheet)
}

// "17 | the sheet is longer than its buffer": known only once the list is. On refusal the buffer "is unchanged".
fn written(
    system: u64,
    found: Found,
    us: &[u8; 9360],
    sheet: &mut [u16],
) -> Result<ReadBack, Refused>
    requires { system ≤ 3 }
    ensures { (o : Outcome) (k : ℕ) → Finds k o (Ok found) us.now → Back system k sheet.old o (back_of result) sheet.new }
{
    let Some(numbers) = write_sheet(system, us, found.string.end, sheet) else {
        return Err(refused(Refusal::Buffer));
    };
    Ok(ReadBack {
        number: 0,
        place: 0,
        packing: found.packing,
        packets: found.string.packets as u64,
        numbers: numbers as u64,
    })
}

// "Or it is E3h": long packs (001, 4.1.2). "The string bytes of all packs are walked." That `us` has bytes is asked, since it is a slice
// that tells the proof so, and not an array.
fn read_long(system: u64, last: Line, us: &mut [u8; 9360]) -> Result<Validated, Refused>
    requires { (known system ≡ true) × (last.0 < 2047) × Bytes us.old }
    ensures { (y : System) → y.last ≡ last.0 → Shows (packets_of_opened y (opened_from system us.old)) result us.new }
{
    let Some(opened) = packing2::open_long(system, us) else {
        return Err(refused(Refusal::Packs));
    };
    danc::validate(last, opened.room, us, opened.bytes, 0, 0)
}

// "Refusal 13 is given unless one of these holds. The first user byte in laying order is FFh and so is every other. Or it is E1h, ..
// Or it is E3h, .." An empty list has "packing found (0 for an empty list)", and its sheet is that of no string.
fn read_users(system: u64, last: Line, us: &mut [u8; 9360], total: usize) -> Result<Found, Refused>
    requires { (known system ≡ true) × (total ≡ sum (block_sizes (systemOf system))) × (last.0 ≡ (systemOf system).last) }
    ensures { Finds (packing_found (take total us.old)) (packets_of_user_bytes (systemOf system) (block_sizes (systemOf system)) (take total us.old))
        result us.new }
{
    match us[0] {
        0xE1 => {
            let string = unpacking1::open_fives(last, us, total)?;
            Ok(Found { packing: 1, string })
        }
        0xE3 => {
            let string = read_long(system, last, us)?;
            Ok(Found { packing: 2, string })
        }
        0xFF => {
            if !danc::all_fill(&us[..total]) {
                return Err(refused(Refusal::Packs));
            }
            Ok(Found {
                packing: 0,
                string: Validated { packets: 0, end: 0 },
            })
        }
        _ => Err(refused(Refusal::Packs)),
    }
}

// "Reading tests 3, 4, 13, then packet by packet 5 (only a [1,276th]), 14, 15, 16, then 17." The user bytes are taken out into `us`.
fn read_with(
    system: u64,
    area: &[u8],
    us: &mut [u8; 9360],
    sheet: &mut [u16],
) -> Result<ReadBack, Refused>
    ensures { Reads system area.now sheet.old (back_of result) sheet.new }
{
    let Some(figures) = frame::figures_of(system) else {
        return Err(refused(Refusal::System));
    };
    if area.len() != figures.area {
        return Err(refused(Refusal::AreaLength));
    }
    let total = frame::collect(system, area, us);
    let found = read_users(system, figures.last_line, us, total)?;
    written(system, found, us, sheet)
}

// "On refusal the later figures are 0".
fn refusal(e: Refused) -> ReadBack
    ensures { result ≡ back_of (Err e) }
{
    ReadBack {
        number: e.refusal.number(),
        place: e.place as u64,
        packing: 0,
        packets: 0,
        numbers: 0,
    }
}

// Demand 3, "accepts exactly": the sheet of the list that gives the area's user bytes then stands in the buffer, or nothing is written.
// The user bytes need a place of their own, so that the area stays as it is.
pub fn read(system: u64, area: &[u8], sheet: &mut [u16]) -> ReadBack
    ensures { Reads system area.now sheet.old result sheet.new }
{
    let mut us = [0u8; 9360];
    match read_with(system, area, &mut us, sheet) {
        Ok(back) => back,
        Err(e) => refusal(e),
    }
}
