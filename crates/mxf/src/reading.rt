// Reading an element to a sheet (document 02, A1: "on reading 3, 19 .., 5, 17"; A3: 20 "after 19"). The whole element is judged before a
// number of the sheet is written.
ghost use Rattle.std.specs.Prelude.{◌+◌, ◌*◌, ◌≤◌, ◌<◌, ◌≡◌, cond, eqb, length, Ok};
ghost use Rattle.rules.specs.Systems.{System};
ghost use Rattle.rules.specs.Numbers.{and_then};
ghost use Rattle.rules.specs.Laying.{location_allowed};
ghost use Rattle.rules.specs.Sheet.{locations, all_words, sheet_of};
ghost use Rattle.sheet.specs.Standing.{in_front};
ghost use Rattle.mxf.specs.Element.{luma};
ghost use Rattle.mxf.specs.Served.{fi_read};
ghost use Rattle.mxf.specs.Judging.{judged_as};
ghost use Rattle.mxf.specs.Reading.{last_tests, reading_of, read_of};
ghost use Rattle.mxf.specs.Demands.{Reads};
ghost use Rattle.mxf.specs.Parts.{packets_of_structures, Judged, Found, Shown, Sized, Answers, told_read};

use crate::ElementRead;
use crate::judging::{Counted, four, judge, two};
use crate::samples::{Eight, Samples};
use frame::Line;
use rules::{Refusal, Refused};

// "FI is the call's, 0 for 1080".
fn fi_of(system: u64, fi: bool) -> u16
    ensures { result ≡ fi_read system fi }
{
    if system == 3 && fi {
        return 1;
    }
    0
}

// Flags: "bit 0 is FI, bit 1 is YCF". 001, figure 6: YCF 1 is luma.
fn flags_of<S: Samples>(first: u16, coding: u8) -> u16
    requires { first < 2 }
    ensures { result ≡ first + 2 * cond (eqb coding (luma S.writer.coding)) 1 0 }
{
    if coding == S::LUMA {
        return first + 2;
    }
    first
}

// "P pairs: line .. and flags".
pub fn write_locations<S: Samples>(system: u64, fi: bool, n: usize, s: &[u8], out: &mut [u16])
    requires judged { Judged S.writer.coding system fi n s.now }
    requires out_len { length out.old ≡ 2 * n }
    ensures { out.new ≡ locations (packets_of_structures S.writer.coding system fi n s.now) }
{
    let first = fi_of(system, fi);
    let mut at = 0;
    for k in 0..n {
        out[2 * k] = two(s, at) as u16;
        out[2 * k + 1] = flags_of::<S>(first, s[at + 3]);
        at += crate::FIELDS + four(s, at + 6);
    }
}

// "W words: packets back to back".
fn write_packets<S: Samples>(n: usize, s: &[u8], out: &mut [u16])
    requires { Shown S.writer.coding n s.now out.old }
    ensures { (t : Shown S.writer.coding n s.now out.old)
        → out.new ≡ all_words (packets_of_structures S.writer.coding t.sys t.fi n s.now) }
{
    let reader = S::new();
    let mut at = 0;
    let mut o = 0;
    for k in 0..n {
        let samples = two(s, at + 4);
        let from = at + crate::FIELDS;
        let next = o + (samples + S::BESIDE);
        reader.write_words(samples, &s[from..], &mut out[o..next]);
        o = next;
        at = from + four(s, at + 6);
    }
}

// "A: the count 1, then the system." "B: the count P of locations, then P pairs". "C: the count W of words, then W words". Within `written` its loops
// would have to share the registers.
#[inline(never)]
fn write_sections<S: Samples>(system: u64, fi: bool, packets: usize, s: &[u8], out: &mut [u16])
    requires { Sized S.writer.coding system fi packets s.now out.old }
    ensures { out.new ≡ sheet_of system (packets_of_structures S.writer.coding system fi packets s.now) }
{
    out[0] = 1;
    out[1] = system as u16;
    out[2] = packets as u16;
    let mid = 3 + 2 * packets;
    write_locations::<S>(system, fi, packets, s, &mut out[3..mid]);
    out[mid] = (out.len() - mid - 1) as u16;
    write_packets::<S>(packets, s, &mut out[mid + 1..]);
}

// 20, "a line in the frame that isn't allowed" (document 02, A3): how many packets in front of the first, of an element that has been judged.
pub fn allowed(last: Line, n: usize, s: &[u8]) -> usize
    requires { Found n s.now }
    ensures { (t : Found n s.now) (y : System) → y.last ≡ last.0
        → result ≡ in_front (location_allowed y) (locations (packets_of_structures t.coding t.sys t.fi n s.now)) }
{
    let mut at = 0;
    for k in 0..n {
        if !frame::may_stand(last, Line(two(s, at) as u16)) {
            return k;
        }
        at += crate::FIELDS + four(s, at + 6);
    }
    n
}

// 5 at the limit's place, then 17, "W over 65,535 too", of an element that has been judged: only then is the sheet written.
fn written<S: Samples>(
    system: u64,
    fi: bool,
    j: Counted,
    e: &[u8],
    sheet: &mut [u16],
) -> Result<Counted, Refused>
    requires { (system ≤ 3) × (told_read (Ok j) ≡ read_of system (judged_as S.writer.coding system fi e.now)) }
    ensures { Answers system sheet.old
        (and_then (judged_as S.writer.coding system fi e.now) (last_tests system (length sheet.old))) (told_read result) sheet.new }
{
    if j.packets > frame::LIMIT {
        return Err(Refused {
            refusal: Refusal::PacketLimit,
            place: frame::LIMIT,
            word: 0,
        });
    }
    if 65535 < j.numbers - 4 - 2 * j.packets || sheet.len() < j.numbers {
        return Err(Refused {
            refusal: Refusal::Buffer,
            place: 0,
            word: 0,
        });
    }
    write_sections::<S>(
        system,
        fi,
        j.packets,
        &e[crate::HEAD..],
        &mut sheet[..j.numbers],
    );
    Ok(j)
}

// 3, 19, 20, 5, 17: what an element of these samples shows stands in the buffer, or nothing is written.
pub fn read_sheet<S: Samples>(
    system: u64,
    fi: bool,
    element: &[u8],
    sheet: &mut [u16],
) -> Result<Counted, Refused>
    ensures { Answers system sheet.old
        (reading_of system (judged_as S.writer.coding system fi element.now) (length sheet.old)) (told_read result) sheet.new }
{
    let Some(figures) = frame::figures_of(system) else {
        return Err(Refused {
            refusal: Refusal::System,
            place: 0,
            word: 0,
        });
    };
    match judge::<S>(system, figures.last_line, element) {
        Err(place) => Err(Refused {
            refusal: Refusal::Element,
            place,
            word: 0,
        }),
        Ok(j) => {
            let k = allowed(figures.last_line, j.packets, &element[crate::HEAD..]);
            if k != j.packets {
                return Err(Refused {
                    refusal: Refusal::PictureLine,
                    place: k,
                    word: 0,
                });
            }
            written::<S>(system, fi, j, element, sheet)
        }
    }
}

// On refusal the later figures are 0.
pub fn tell_read(r: Result<Counted, Refused>) -> ElementRead
    ensures { result ≡ told_read r }
{
    match r {
        Ok(j) => ElementRead {
            number: 0,
            place: 0,
            packets: j.packets as u64,
            numbers: j.numbers as u64,
        },
        Err(e) => ElementRead {
            number: e.refusal.number(),
            place: e.place as u64,
            packets: 0,
            numbers: 0,
        },
    }
}

// An element is accepted exactly when some list of sound packets with lines gives it, padding aside: its sheet then stands in the buffer,
// or nothing is written.
pub fn read(system: u64, fi: bool, element: &[u8], sheet: &mut [u16]) -> ElementRead
    ensures { Reads system fi element.now sheet.old result sheet.new }
{
    tell_read(read_sheet::<Eight>(system, fi, element, sheet))
}
