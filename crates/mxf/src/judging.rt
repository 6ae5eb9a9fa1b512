// 19, "an element not of this form or a line outside the frame, with the position of the first byte at fault" (document 02, A1): the
// element is judged field by field from the left (004, tables 5 to 7).
ghost use Rattle.std.specs.Prelude.{ℕ, ◌+◌, ◌≤◌, ◌<◌, ◌≡◌, Bool, true, length, OnOk};
ghost use Rattle.rules.specs.Systems.{system as systemOf};
ghost use Rattle.rules.specs.Numbers.{Outcome};
ghost use Rattle.mxf.specs.Element.{key, wrapping as wrappingOf};
ghost use Rattle.mxf.specs.Judging.{two_in, three_in, four_in, front_then, array_then, structures, key_then, head_then, judged_as};
ghost use Rattle.mxf.specs.Reading.{read_of};
ghost use Rattle.mxf.specs.Parts.{fault_or, told_judged, Whole, Passes, Begun};

use crate::samples::Samples;
use frame::{Line, wide};

// How many packets an element shows, and the numbers of their sheet.
#[derive(Clone, Copy)]
pub struct Counted {
    pub packets: usize,
    pub numbers: usize,
}

// Numbers of two, three and four bytes, high byte first (004, 5.4).
pub fn two(s: &[u8], at: usize) -> usize
    requires { at + 2 ≤ length s.now }
    ensures { (result ≡ two_in s.now at) × (result < 65536) }
{
    wide(s[at]) * 256 + wide(s[at + 1])
}

fn three(s: &[u8], at: usize) -> usize
    requires { at + 3 ≤ length s.now }
    ensures { (result ≡ three_in s.now at) × (result < 16777216) }
{
    wide(s[at]) * 65536 + two(s, at + 1)
}

pub fn four(s: &[u8], at: usize) -> usize
    requires { at + 4 ≤ length s.now }
    ensures { (result ≡ four_in s.now at) × (result < 4294967296) }
{
    wide(s[at]) * 16777216 + three(s, at + 1)
}

// The key byte by byte: the place of the first that is wrong or missing.
fn key_fault(e: &[u8]) -> Result<(), usize>
    ensures { (o : Outcome) → key_then 0 key e.now o ≡ fault_or result o }
{
    for i in 0..16 {
        if i == e.len() || e[i] != crate::KEY[i] {
            return Err(i);
        }
    }
    Ok(())
}

// Key, length and N (004, tables 5 and 6): the place of the first fault.
pub fn head_fault(e: &[u8]) -> Result<(), usize>
    ensures fault { (o : Outcome) → head_then e.now o ≡ fault_or result o }
    ensures right { OnOk result ((22 ≤ length e.now) × (length e.now < 16777236)) }
{
    key_fault(e)?;
    if e.len() < 17 {
        return Err(e.len());
    }
    if e[16] != crate::LONG_FORM {
        return Err(16);
    }
    if e.len() < 20 {
        return Err(e.len());
    }
    if 20 + three(e, 17) != e.len() {
        return Err(17);
    }
    if e.len() < crate::HEAD {
        return Err(e.len());
    }
    Ok(())
}

// Line, wrapping and coding of a structure that starts at place `at` (004, table 7): the place of the first fault.
pub fn front_fault<S: Samples>(system: u64, last: Line, at: usize, s: &[u8]) -> Result<(), usize>
    requires { at + length s.now < 4294967296 }
    ensures { last.0 ≡ (systemOf system).last → (o : Outcome) → front_then S.writer.coding system at s.now o ≡ fault_or result o }
{
    let missing = at + s.len();
    if s.len() < 2 {
        return Err(missing);
    }
    let line = two(s, 0);
    if line == 0 || (last.0 as usize) < line {
        return Err(at);
    }
    if s.len() < 3 {
        return Err(missing);
    }
    if s[2] != crate::wrapping(system) {
        return Err(at + 2);
    }
    if s.len() < 4 {
        return Err(missing);
    }
    if s[3] != S::LUMA && s[3] != S::COLOUR {
        return Err(at + 3);
    }
    Ok(())
}

// Sample count, array and DC of a structure that starts at place `at` (004, table 7): the place of the first fault. The array's count is of 32
// bits and says nothing of the bytes that are there: it is compared with those left, so that no sum can wrap.
fn array_fault<S: Samples>(at: usize, s: &[u8]) -> Result<(), usize>
    requires { at + length s.now < 4294967296 }
    ensures fault { (o : Outcome) → array_then S.writer.coding at s.now o ≡ fault_or result o }
    ensures whole { OnOk result (Whole S.writer.coding s.now) }
{
    let missing = at + s.len();
    if s.len() < 6 {
        return Err(missing);
    }
    let samples = two(s, 4);
    if samples < S::OTHERS || S::OTHERS + 255 < samples {
        return Err(at + 4);
    }
    if s.len() < 10 {
        return Err(missing);
    }
    let count = four(s, 6);
    if count < S::array_bytes(samples) || s.len() < crate::FIELDS + count {
        return Err(at + 6);
    }
    if four(s, 10) != 1 {
        return Err(at + 10);
    }
    if S::dc(s) + S::OTHERS != samples {
        return Err(at + 16);
    }
    Ok(())
}

// A structure that starts at place `at`: the place of the first fault.
fn structure_fault<S: Samples>(system: u64, last: Line, at: usize, s: &[u8]) -> Result<(), usize>
    requires { at + length s.now < 4294967296 }
    ensures fault { last.0 ≡ (systemOf system).last → (o : Outcome)
        → front_then S.writer.coding system at s.now (array_then S.writer.coding at s.now o) ≡ fault_or result o }
    ensures whole { OnOk result (Whole S.writer.coding s.now) }
{
    front_fault::<S>(system, last, at, s)?;
    array_fault::<S>(at, s)
}

// Whether a structure has no fault, told with fewer tests: in its first bytes each field is there, DC the last. A no says nothing.
fn is_structure<S: Samples>(wrapping: u8, last: Line, s: &[u8]) -> bool
    ensures whole { result ≡ true → Whole S.writer.coding s.now }
    ensures passes { result ≡ true → (system : ℕ) → wrapping ≡ wrappingOf system → last.0 ≡ (systemOf system).last
        → Passes S.writer.coding system s.now }
{
    if s.len() < 16 + S::DC_BYTES {
        return false;
    }
    let line = two(s, 0);
    if (last.0 as usize) < line || line == 0 {
        return false;
    }
    if s[2] != wrapping {
        return false;
    }
    if s[3] != S::LUMA && s[3] != S::COLOUR {
        return false;
    }
    let samples = two(s, 4);
    if samples != S::dc(s) + S::OTHERS {
        return false;
    }
    let count = four(s, 6);
    if count < S::array_bytes(samples) || s.len() - crate::FIELDS < count {
        return false;
    }
    four(s, 10) == 1
}

// Structures in front that have been passed over: how many, where the last ends, and the numbers of their sheet.
#[derive(Clone, Copy)]
struct Passed {
    count: usize,
    at: usize,
    numbers: usize,
}

// The structures in front that have no fault, up to the first of which `is_structure` says nothing: the bytes from there on, with these
// figures, give the same answer. A packet has its words and a location.
fn sound_structures<S: Samples>(system: u64, last: Line, n: usize, s: &[u8]) -> Passed
    requires { (n < 65536) × (length s.now < 16777216) }
    ensures { Begun S.writer.coding system last.0 n s.now result.count result.at result.numbers }
{
    let wrapping = crate::wrapping(system);
    let mut at = 0;
    let mut numbers = 4;
    for k in 0..n {
        if !is_structure::<S>(wrapping, last, &s[at..]) {
            return Passed {
                count: k,
                at,
                numbers,
            };
        }
        numbers += two(s, at + 4) + (S::BESIDE + 2);
        at += crate::FIELDS + four(s, at + 6);
    }
    Passed {
        count: n,
        at,
        numbers,
    }
}

// N structures, from place 22 on: the place of the first fault, "surplus bytes" after the last among them; or how many packets they show, and the
// numbers of their sheet. Within `judge` its loop would have to share the registers.
#[inline(never)]
fn judge_structures<S: Samples>(
    system: u64,
    last: Line,
    n: usize,
    s: &[u8],
) -> Result<Counted, usize>
    requires { (n < 65536) × (length s.now < 16777216) }
    ensures { last.0 ≡ (systemOf system).last → (fi : Bool)
        → told_judged result ≡ read_of system (structures S.writer.coding system fi n 22 s.now) }
{
    let run = sound_structures::<S>(system, last, n, s);
    let mut at = run.at;
    let mut numbers = run.numbers;
    for k in run.count..n {
        structure_fault::<S>(system, last, crate::HEAD + at, &s[at..])?;
        numbers += two(s, at + 4) + (S::BESIDE + 2);
        at += crate::FIELDS + four(s, at + 6);
    }
    if at < s.len() {
        return Err(crate::HEAD + at);
    }
    Ok(Counted {
        packets: n,
        numbers,
    })
}

// 19 over the whole element.
pub fn judge<S: Samples>(system: u64, last: Line, e: &[u8]) -> Result<Counted, usize>
    ensures { last.0 ≡ (systemOf system).last → (fi : Bool)
        → told_judged result ≡ read_of system (judged_as S.writer.coding system fi e.now) }
{
    head_fault(e)?;
    judge_structures::<S>(system, last, two(e, 20), &e[crate::HEAD..])
}
