// The sheet (document 01, "The sheet"): the tests 2, 3, 5 to 11 and 20 of its numbers, in the order in which refusals are given; and, in the
// module write, writing one.
// Other calls start with `test`; what each function gives is a definition of the crate rules.
#![tactic(auto)]

ghost use Rattle.std.specs.Prelude.{◌≡◌, true, ℕ, ◌*◌, ◌<◌, List, length};
ghost use Rattle.rules.specs.Systems.{System};
ghost use Rattle.rules.specs.Sheet.{system_in, words_in};
ghost use Rattle.rules.specs.Numbers.{Outcome};
ghost use Rattle.rules.specs.Laying.{shaped, word_at, location_stands, list_tests_by, sheet_tests};
ghost use Rattle.rules.specs.Refusals.{number, tell, told, told_of};
ghost use Rattle.rules.specs.Demands.{Tests};
ghost use Rattle.packet.specs.Tests.{packets_by, counts_of, told_by};
ghost use Rattle.sheet.specs.Standing.{in_front, in_place, location_tests, AllInPlace};
ghost use Rattle.sheet.specs.Telling.{Misplaced, header_of, told_sheet, tested_from};

mod write;

use frame::{Line, Raster, Raster720, Raster1080};
use packet::{Counts, Sound, WordTests};
use rules::{Refusal, Refused, Tested};
pub use write::{write_sheet, write_words};

// A number of the sheet as a place, so that no caller has to show that the cast keeps it.
pub fn wide(x: u16) -> usize
    ensures { (result ≡ x) × (result < 65536) }
{
    x as usize
}

// "Header: system, packets, string bytes, packs in packing 1": what a sheet that passes comes to.
#[derive(Clone, Copy, PartialEq, Eq)]
pub struct Header {
    pub system: u64,
    pub counts: Counts,
}

// For every number but 7 to 10 the word is 0 (document 02, A2).
fn refused(refusal: Refusal, place: usize) -> Refused
    ensures { told result ≡ tell (number refusal) place 0 }
{
    Refused {
        refusal,
        place,
        word: 0,
    }
}

// "2 | section A's count is not 1, the sheet ends early, or numbers follow section C".
// "A sheet has 4 + 2P + W numbers": up to 196,609, so the sums are of places and not of the sheet's own numbers.
pub fn is_shaped(s: &[u16]) -> bool
    ensures { result ≡ shaped s.now }
{
    if s.len() < 4 || s[0] != 1 {
        return false;
    }
    let first = 4 + 2 * wide(s[2]);
    if s.len() < first {
        return false;
    }
    let w = first - 1;
    s.len() == first + wide(s[w])
}

// "6 | line or flags out of range | location": how many locations in front of the first at fault. Each is a pair, "line (0 for none,
// else 1 to the last line) and flags 0 to 3".
fn standing(last: Line, ls: &[u16]) -> usize
    ensures { (y : System) → y.last ≡ last.0 → result ≡ in_front (location_stands y) ls.now }
{
    for k in 0..ls.len() / 2 {
        if ls[2 * k] > last.0 || ls[2 * k + 1] > 3 {
            return k;
        }
    }
    ls.len() / 2
}

// How many locations in front of the first that is out of range or on a line that is not allowed: where there is none, neither 6 nor 20 is
// given.
pub fn in_place(last: Line, ls: &[u16]) -> usize
    ensures { (y : System) → y.last ≡ last.0 → result ≡ in_front (in_place y) ls.now }
{
    for k in 0..ls.len() / 2 {
        if ls[2 * k + 1] > 3 || !frame::may_stand(last, Line(ls[2 * k])) {
            return k;
        }
    }
    ls.len() / 2
}

// Whether each location is in its place: in one pass without a branch, so that the compiler tests many at a time.
fn all_in<R: Raster>(ls: &[u16]) -> bool
    ensures { (y : System) → y.last ≡ R.last → result ≡ true → AllInPlace y ls.now }
{
    let mut all = true;
    for k in 0..ls.len() / 2 {
        all = all & (ls[2 * k + 1] <= 3) & R::is_allowed(Line(ls[2 * k]));
    }
    all
}

// The last line tells 1080 from 720.
fn all_in_place(last: Line, ls: &[u16]) -> bool
    ensures { (y : System) → y.last ≡ last.0 → result ≡ true → AllInPlace y ls.now }
{
    if last.0 == 1125 {
        return all_in::<Raster1080>(ls);
    }
    if last.0 == 750 {
        return all_in::<Raster720>(ls);
    }
    false
}

// How many locations one pass takes, where there are more.
const RUN: usize = 64;

// What in_place gives, of P locations, in passes: each takes as many as three times those before it and `RUN` more, so that a sheet is tested in few
// of them, and one that is refused for its first locations is not gone over whole.
#[inline(never)]
fn placed_in_passes(last: Line, p: usize, ls: &[u16]) -> usize
    requires { length ls.now ≡ 2 * p }
    ensures { (y : System) → y.last ≡ last.0 → result ≡ in_front (in_place y) ls.now }
{
    let mut from = 0;
    while from < p {
        let to = p.min(4 * from + RUN);
        let part = &ls[2 * from..2 * to];
        if !all_in_place(last, part) {
            let k = in_place(last, part);
            if k < to - from {
                return from + k;
            }
        }
        from = to;
    }
    p
}

// What in_place gives, of P locations: the first that is not in its place is looked for only where there is one.
fn placed(last: Line, p: usize, ls: &[u16]) -> usize
    requires { length ls.now ≡ 2 * p }
    ensures { (y : System) → y.last ≡ last.0 → result ≡ in_front (in_place y) ls.now }
{
    if RUN < p {
        return placed_in_passes(last, p, ls);
    }
    if all_in_place(last, ls) {
        return p;
    }
    in_place(last, ls)
}

// "after 6 on all locations" 20 (document 02, A3), of P locations of which the k-th is the first that is not in its place.
pub fn location_fault(last: Line, p: usize, k: usize, ls: &[u16]) -> Refused
    requires { length ls.now ≡ 2 * p }
    ensures { (y : System) → y.last ≡ last.0 → k ≡ in_front (in_place y) ls.now → (k ≡ p → ⊥)
        → (o : Outcome) → Misplaced result (location_tests y ls.now o) }
{
    let first = standing(last, ls);
    if first != p {
        return refused(Refusal::Location, first);
    }
    refused(Refusal::PictureLine, k)
}

// The tests of the list: "5 | laying: P over [1,275]", 6, 20, 7 to 10 packet by packet, "11 | packets and locations differ in number".
fn list_tests<T: WordTests>(last: Line, s: &[u16]) -> Result<Counts, Refused>
    requires { shaped s.now ≡ true }
    ensures { (y : System) → y.last ≡ last.0
        → told_of result ≡ told_by T.word counts_of (words_in s.now) (list_tests_by (packets_by T.fault T.packet) y s.now) }
{
    let p = wide(s[2]);
    if p > frame::LIMIT {
        return Err(refused(Refusal::PacketLimit, 0));
    }
    let end = 3 + 2 * p;
    let ls = &s[3..end];
    let k = placed(last, p, ls);
    if k != p {
        return Err(location_fault(last, p, k, ls));
    }
    let first = end + 1;
    let counts = packet::packets::<T>(&s[first..])?;
    if counts.packets != p {
        return Err(refused(Refusal::PacketCount, 0));
    }
    Ok(counts)
}

// "the tests 2, 3, 5 to 11", and 20, of any numbers whatever: "3 | system not 1 to 3" stands before the list's own. The packets of its words are
// tested as sound ones or as they are found (document 02, A13).
pub fn tests_by<T: WordTests>(s: &[u16]) -> Result<Header, Refused>
    ensures { told_of result ≡ told_sheet T.fault T.packet T.word s.now }
{
    if !is_shaped(s) {
        return Err(refused(Refusal::Shape, 0));
    }
    let system = wide(s[1]) as u64;
    let Some(figures) = frame::figures_of(system) else {
        return Err(refused(Refusal::System, 0));
    };
    let counts = list_tests::<T>(figures.last_line, s)?;
    Ok(Header { system, counts })
}

// The lister's tests of a sheet.
pub fn tests(s: &[u16]) -> Result<Header, Refused>
    ensures { told_of result ≡ told_by word_at (header_of (system_in s.now)) (words_in s.now) (sheet_tests s.now) }
{
    tests_by::<Sound>(s)
}

// The same as the C interface's calls give it back: "On refusal the later figures are 0".
pub fn test(s: &[u16]) -> Tested
    ensures { Tests s.now result }
{
    match tests(s) {
        Ok(header) => Tested {
            number: 0,
            place: 0,
            word: 0,
            system: header.system,
            packets: header.counts.packets as u64,
            bytes: header.counts.bytes as u64,
            packs: header.counts.packs as u64,
        },
        Err(e) => Tested {
            number: e.refusal.number(),
            place: e.place as u64,
            word: e.word as u64,
            system: 0,
            packets: 0,
            bytes: 0,
            packs: 0,
        },
    }
}
