// The walker on many strings in one run: data/cases has them (made, with what is to be printed, by tests/walker_cases.py, which says how a case is
// written). Of each string every answer is printed to the end or a refusal, two further ones, and steps from places that are no packet's.
#![tactic(auto)]

use frame::{StringByte, wide};
use rules::Step;
use std::fmt::Write;
use std::fs::File;
use std::io;
use text::Line;
use walker::Walked;

fn print_step(rt: &impl Print, s: Step, at: u64) -> io::Result<()> {
    let mut line = Line::<96>::new();
    let _ = write!(line, "{} {} {} {at}\n", s.number, s.place, s.length);
    rt.write_all(line.as_bytes())
}

fn print_walked(rt: &impl Print, w: Walked) -> io::Result<()> {
    let at = w.at;
    print_step(rt, w.answer, at.0)
}

// Every answer to the first without a length, the next one, and the last that there is.
fn print_answers(rt: &impl Print, system: u64, string: &[u8]) -> io::Result<()> {
    for k in 0..10000 {
        let s = walker::kth(system, string, k);
        print_step(rt, s, k)?;
        if s.length == 0 {
            print_step(rt, walker::kth(system, string, k + 1), k + 1)?;
            return print_step(rt, walker::kth(system, string, u64::MAX), 0);
        }
    }
    Ok(())
}

// A step from every third place, past the end too.
fn print_places(rt: &impl Print, system: u64, string: &[u8]) -> io::Result<()> {
    for place in (0..60).step_by(3) {
        print_walked(rt, walker::next(system, string, StringByte(place)))?;
    }
    print_walked(
        rt,
        walker::next(system, string, StringByte(string.len() as u64)),
    )?;
    print_walked(rt, walker::next(system, string, StringByte(u64::MAX)))
}

fn print_case(rt: &impl Print, system: u64, string: &[u8]) -> io::Result<()> {
    print_answers(rt, system, string)?;
    print_places(rt, system, string)
}

fn length_of(high: u8, low: u8) -> usize {
    wide(high) * 256 + wide(low)
}

// The next string: its system, its length in two bytes, its bytes. False where there is none.
fn print_next(rt: &impl Print, cases: &mut File) -> io::Result<bool> {
    let mut head = [0u8; 3];
    if files::read_next(cases, &mut head, 3).len() < 3 {
        return Ok(false);
    }
    let mut body = [0u8; 65536];
    let string = files::read_next(cases, &mut body, length_of(head[1], head[2]));
    print_case(rt, wide(head[0]) as u64, string)?;
    Ok(true)
}

fn main(rt: HostRuntime) -> io::Result<()> {
    let mut cases = File::open(&rt, "cases")?;
    for _ in 0..4096 {
        if !print_next(&rt, &mut cases)? {
            break;
        }
    }
    Ok(())
}
