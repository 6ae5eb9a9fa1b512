// Laying a sheet's packets into the area of a frame (document 01, "Numbers given back"; 001, 4.1). Tests come first and the area is
// written last, so that on a refusal it "is unchanged". Quotations are from document 01.
ghost use Rattle.std.specs.Prelude.{ℕ, ◌≤◌, ◌≡◌, List, Err, length};
ghost use Rattle.rules.specs.Demands.{Lays};
ghost use Rattle.frame.specs.Systems.{figures_of};
ghost use Rattle.sections.specs.Sections.{Sections};
ghost use Rattle.packing1.specs.Fives.{Roomy};
ghost use Rattle.vanc.specs.Lay.{LaysInto, Passed, LaysList, number_of_packing, packing_of, success_of, given_of, TellsSheet, TellsShape};

use crate::refused;
use frame::Figures;
use rules::{Laid, Refusal, Refused};
use sheet::{Header, wide};

// "Packing 1, packs of 5", "Packing 2, long packs".
#[derive(Clone, Copy)]
enum Packing {
    Fives,
    Long,
}

impl Packing {
    // "1 | packing is neither 1 nor 2".
    fn of(number: u64) -> Option<Packing>
        ensures { result ≡ packing_of number }
    {
        match number {
            1 => Some(Packing::Fives),
            2 => Some(Packing::Long),
            _ => None,
        }
    }
}

// Packing 1. "All other user bytes are FFh": the user bytes begin as FFh, and the packs are laid over the first of them.
fn lay1(system: u64, ls: &[u16], ws: &[u16], area: &mut [u8])
    requires { Roomy ls.now ws.now }
    ensures { LaysInto 1 system ls.now ws.now area.old area.new }
{
    let mut us = [0xFFu8; 9360];
    packing1::lay_fives(ls, ws, &mut us);
    frame::spread(system, &us, area);
}

// Packing 2. "A DANC packet has as many bytes as its VANC packet has words", so the words' number is the string's length.
fn lay2(system: u64, ls: &[u16], ws: &[u16], area: &mut [u8])
    requires { Sections ls.now ws.now × (length ws.now ≤ 9000) }
    ensures { LaysInto 2 system ls.now ws.now area.old area.new }
{
    let mut s = [0xFFu8; 9000];
    sections::string_of(ls, ws, &mut s);
    packing2::lay_long(system, &s, ws.len(), area);
}

// What is given back of a list that is laid.
fn success(packs: usize, bytes: usize) -> Laid
    ensures { result ≡ success_of packs bytes }
{
    Laid {
        number: 0,
        place: 0,
        word: 0,
        packs: packs as u64,
        bytes: bytes as u64,
    }
}

// "12 | over the packs (packing 1) or string bytes (packing 2)", the last test: only then is the area written.
fn lay_list(
    packing: Packing,
    header: Header,
    figures: Figures,
    sheet: &[u16],
    area: &mut [u8],
) -> Result<Laid, Refused>
    requires { Passed header sheet.now × (figures ≡ figures_of header.system) }
    ensures { LaysList (number_of_packing packing) header sheet.now area.old (given_of result) area.new }
{
    let counts = header.counts;
    let ls = sections::section_b(sheet);
    let ws = sections::section_c(sheet);
    match packing {
        Packing::Fives => {
            if counts.packs > figures.packs {
                return Err(refused(Refusal::Room));
            }
            lay1(header.system, ls, ws, area);
            Ok(success(counts.packs, counts.bytes))
        }
        Packing::Long => {
            if counts.bytes > figures.string_bytes {
                return Err(refused(Refusal::Room));
            }
            lay2(header.system, ls, ws, area);
            Ok(success(packing2::long_count(counts.bytes), counts.bytes))
        }
    }
}

// 2, the first of the sheet's tests, which stands before the area's.
fn shape(tested: Result<Header, Refused>) -> Result<(), Refused>
    ensures { (s : List ℕ) → TellsSheet s tested → TellsShape s result }
{
    if let Err(e) = tested {
        if e.refusal == Refusal::Shape {
            return Err(e);
        }
    }
    Ok(())
}

// "Laying tests 1 to 6 in table order. Then packet by packet": 4, the area's, stands between the sheet's 3 and its 5.
fn lay_with(sheet: &[u16], packing: u64, area: &mut [u8]) -> Result<Laid, Refused>
    ensures { Lays packing sheet.now area.old (given_of result) area.new }
{
    let Some(packing) = Packing::of(packing) else {
        return Err(refused(Refusal::Packing));
    };
    let tested = sheet::tests(sheet);
    shape(tested)?;
    let Some(figures) = frame::figures_of(wide(sheet[1]) as u64) else {
        return Err(refused(Refusal::System));
    };
    if area.len() != figures.area {
        return Err(refused(Refusal::AreaLength));
    }
    let header = tested?;
    lay_list(packing, header, figures, sheet, area)
}

// "On refusal the later figures are 0". The word is the one that the sheet's tests name (document 02, A2).
fn refusal(e: Refused) -> Laid
    ensures { result ≡ given_of (Err e) }
{
    Laid {
        number: e.refusal.number(),
        place: e.place as u64,
        word: e.word as u64,
        packs: 0,
        bytes: 0,
    }
}

pub fn lay(sheet: &[u16], packing: u64, area: &mut [u8]) -> Laid
    ensures { Lays packing sheet.now area.old result area.new }
{
    match lay_with(sheet, packing, area) {
        Ok(laid) => laid,
        Err(e) => refusal(e),
    }
}
