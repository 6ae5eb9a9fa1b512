// Laying and reading on many cases in one run: data/cases has them (made, with what is to be printed, by tests/vanc_cases.py, which says how a
// case is written). Each lays a sheet into an area of noise, damages the area, and reads it into a buffer of noise; what is printed has both
// answers and a number mixed of every byte of the area, and of every number of the buffer, afterwards.
#![tactic(auto)]

ghost use Rattle.std.specs.Prelude.{◌+◌, ◌*◌, ◌≤◌, ◌<◌, length};

use frame::wide;
use rules::{Laid, ReadBack};
use std::fs::File;
use std::io;

// Two bytes, high byte first.
fn two(b: &[u8], at: usize) -> usize
    requires { at + 2 ≤ length b.now }
    ensures { result ≤ 65535 }
{
    wide(b[at]) * 256 + wide(b[at + 1])
}

fn four(b: &[u8], at: usize) -> usize
    requires { at + 4 ≤ length b.now }
    ensures { result ≤ 4294967295 }
{
    two(b, at) * 65536 + two(b, at + 2)
}

fn decode(b: &[u8], s: &mut [u16]) {
    for (n, pair) in s.iter_mut().zip(b.chunks_exact(2)) {
        *n = u16::from_be_bytes([pair[0], pair[1]]);
    }
}

fn next(x: u64) -> u64
    ensures { result < 2147483648 }
{
    (x % 2147483648 * 1103515245 + 12345) % 2147483648
}

fn noise(area: &mut [u8], seed: u64) {
    let mut x = seed;
    for b in area.iter_mut() {
        x = next(x);
        *b = (x / 65536 % 256) as u8;
    }
}

fn noise_numbers(buffer: &mut [u16]) {
    let mut x = 256;
    for n in buffer.iter_mut() {
        x = next(x);
        *n = (x / 65536 % 256) as u16;
    }
}

fn prepare(area: &mut [u8], fill: usize) {
    if fill < 256 {
        area.fill(fill as u8);
        return;
    }
    noise(area, fill as u64);
}

fn flip(area: &mut [u8], at: usize, x: u8) {
    if at < area.len() {
        area[at] ^= x;
    }
}

fn damage(area: &mut [u8], marks: &[u8]) {
    for mark in marks.chunks_exact(3) {
        flip(area, two(mark, 0), mark[2]);
    }
}

fn mix(h: u64, x: u16) -> u64
    ensures { result < 4294967296 }
{
    (h % 4294967296 * 31 + u64::from(x)) % 4294967296
}

fn mixed(s: &[u8]) -> u64 {
    s.iter().fold(0, |h, &x| mix(h, u16::from(x)))
}

fn mixed_numbers(s: &[u16]) -> u64 {
    s.iter().fold(0, |h, &x| mix(h, x))
}

fn show_laid(rt: &impl Print, r: Laid, h: u64) -> io::Result<()> {
    let Laid {
        number,
        place,
        word,
        packs,
        bytes,
    } = r;
    print!(rt; "laid {number} {place} {word} {packs} {bytes} {h}")
}

fn show_read(rt: &impl Print, r: ReadBack, h: u64) -> io::Result<()> {
    let ReadBack {
        number,
        place,
        packing,
        packets,
        numbers,
    } = r;
    println!(rt; " read {number} {place} {packing} {packets} {numbers} {h}")
}

// A case's packing, system, and what its area is filled with.
#[derive(Drop)]
pub struct Case {
    pub packing: u64,
    pub system: u64,
    pub fill: usize,
}

// The sheet and the area are as long as the case says.
fn lay_and_read(
    rt: &impl Print,
    case: Case,
    marks: &[u8],
    sheet: &[u16],
    area: &mut [u8],
    buffer: &mut [u16],
) -> io::Result<()> {
    prepare(area, case.fill);
    let laid = vanc::lay(sheet, case.packing, area);
    show_laid(rt, laid, mixed(area))?;
    damage(area, marks);
    noise_numbers(buffer);
    let back = vanc::read(case.system, area, buffer);
    show_read(rt, back, mixed_numbers(buffer))
}

// How long the parts of a case are.
#[derive(Drop)]
pub struct Sizes {
    pub sheet: usize,
    pub area: usize,
    pub buffer: usize,
}

// Parts of the three buffers, as long as the case says.
fn in_parts(
    rt: &impl Print,
    case: Case,
    sizes: Sizes,
    body: &[u8],
    sheet: &mut [u16],
    area: &mut [u8],
    buffer: &mut [u16],
) -> io::Result<()> {
    let a = sizes.sheet;
    let b = sizes.area;
    let c = sizes.buffer;
    let words = 2 * (a % 65536);
    if sheet.len() < a {
        return Ok(());
    }
    if area.len() < b {
        return Ok(());
    }
    if buffer.len() < c {
        return Ok(());
    }
    if body.len() < words {
        return Ok(());
    }
    decode(body, sheet);
    lay_and_read(
        rt,
        case,
        &body[words..],
        &sheet[..a],
        &mut area[..b],
        &mut buffer[..c],
    )
}

fn case_of(head: &[u8; 24]) -> Case {
    Case {
        packing: two(head, 20) as u64,
        system: two(head, 22) as u64,
        fill: four(head, 8),
    }
}

fn sizes_of(head: &[u8; 24]) -> Sizes {
    Sizes {
        sheet: four(head, 0),
        area: four(head, 4),
        buffer: four(head, 12),
    }
}

// The sheet's and the damages' bytes.
fn body_size(head: &[u8; 24]) -> usize {
    2 * four(head, 0) + 3 * four(head, 16)
}

fn with_body(rt: &impl Print, head: &[u8; 24], body: &[u8]) -> io::Result<()> {
    let mut sheet = [0u16; 16384];
    let mut area = [0u8; 12000];
    let mut buffer = [0u16; 12000];
    in_parts(
        rt,
        case_of(head),
        sizes_of(head),
        body,
        &mut sheet,
        &mut area,
        &mut buffer,
    )
}

// Does the next case; false where there is none.
fn next_case(rt: &impl Print, cases: &mut File) -> io::Result<bool> {
    let mut head = [0u8; 24];
    if files::read_next(cases, &mut head, 24).len() < 24 {
        return Ok(false);
    }
    let mut body = [0u8; 65536];
    let body = files::read_next(cases, &mut body, body_size(&head));
    with_body(rt, &head, body)?;
    Ok(true)
}

fn main(rt: HostRuntime) -> io::Result<()> {
    let mut cases = File::open(&rt, "cases")?;
    for _ in 0..4096 {
        if !next_case(&rt, &mut cases)? {
            break;
        }
    }
    Ok(())
}
