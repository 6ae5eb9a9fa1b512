// The tests of a sheet as found (document 02, A13): the lister's, "but .. 8 only for a word over 3FFh, CS too, and never 10". What each function
// gives is a definition of the crate rules.
#![tactic(auto)]

ghost use Rattle.std.specs.Prelude.{◌≡◌, ◌+◌, ◌%◌, ◌≤◌, false, eqb, length, drop};
ghost use Rattle.rules.specs.Found.{are_ten, found_fault, found_of_words, ten_before, found_word_at};
ghost use Rattle.rules.specs.Refusals.{number};
ghost use Rattle.found.specs.Checked.{ChecksFound};
ghost use Rattle.found.specs.FoundWords.{found_words};

use packet::{WordTests, low_byte};
use rules::{Refusal, Refused};

// Not "a word over 3FFh". One that is does not end the loop, so that it has no branch.
fn are_ten(ws: &[u16]) -> bool
    ensures { result ≡ are_ten ws.now }
{
    let mut ok = true;
    for &w in ws {
        ok = ok & (w <= 0x3FF);
    }
    ok
}

// How many words a packet with this DC takes. "DC's low byte still gives the length", whatever stands above it (document 02, A13).
fn size_by(dc: u16) -> usize
    ensures { result ≡ dc % 256 + 7 }
{
    low_byte(dc) + 7
}

// The whole test of the packet that the words begin with, without the number of its fault.
fn is_found(ws: &[u16]) -> bool
    ensures { result ≡ eqb (found_fault ws.now) 0 }
{
    if !packet::is_flagged(ws) {
        return false;
    }
    let end = size_by(ws[5]);
    if ws.len() < end {
        return false;
    }
    are_ten(&ws[3..end])
}

// How many words stand in front of the first that is over 3FFh.
fn ten_words(ws: &[u16]) -> usize
    ensures value { result ≡ ten_before ws.now }
    ensures within { result ≤ length ws.now }
{
    for (i, w) in ws.iter().enumerate() {
        if *w > 0x3FF {
            return i;
        }
    }
    ws.len()
}

// The first word from DID on that is over 3FFh.
fn over_word(ws: &[u16]) -> usize
    ensures { result ≡ 3 + ten_before (drop 3 ws.now) }
{
    if ws.len() < 3 {
        return 3;
    }
    3 + ten_words(&ws[3..])
}

// The first fault of the packet that the words begin with, where it has one: 8 for DID, SDID and DC stands before 9, and for the user words and CS
// behind it.
fn fault_of(ws: &[u16]) -> Refusal
    requires { eqb (found_fault ws.now) 0 ≡ false }
    ensures { number result ≡ found_fault ws.now }
{
    if !packet::is_flagged(ws) {
        return Refusal::Flag;
    }
    if over_word(ws) < 6 {
        return Refusal::Word;
    }
    if ws.len() < size_by(ws[5]) {
        return Refusal::CutOff;
    }
    Refusal::Word
}

// The word that a packet's fault names (document 02, A2).
fn word_at(refusal: Refusal, ws: &[u16]) -> usize
    ensures { result ≡ found_word_at (number refusal) ws.now }
{
    match refusal {
        Refusal::Word => over_word(ws),
        _ => packet::refused_word(refusal, ws),
    }
}

// Packets as found: "tests as A1, but gives 8 only for a word over 3FFh, CS too, and never 10" (document 02, A13).
#[derive(Clone, Copy)]
pub struct AsFound;

impl WordTests for AsFound {
    ghost fault = { found_fault };

    ghost packet = { found_of_words };

    ghost word = { found_word_at };

    fn new() -> AsFound {
        AsFound
    }

    fn is_sound(&self, ws: &[u16]) -> bool {
        is_found(ws)
    }

    fn refused(&self, place: usize, ws: &[u16]) -> Refused {
        let refusal = fault_of(ws);
        Refused {
            refusal,
            place,
            word: word_at(refusal, ws),
        }
    }

    ghost laws = { found_words };
}

// "Sheets carry no mark: ten-bit export takes them as found and tests as A1": of any numbers whatever. A sheet that passes has a system.
pub fn test(s: &[u16]) -> Result<u64, Refused>
    ensures { ChecksFound s.now result }
{
    let header = sheet::tests_by::<AsFound>(s)?;
    Ok(header.system)
}
