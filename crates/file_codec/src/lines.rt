// The line of a packet that reading refuses with 20 (document 02, A3), for the words on standard error: no more is promised of it than that it is
// found within the bytes. What stands in front of such a packet is whole, so the starters of packs of 5 are counted, and the lengths of packets and
// of structures are added up.
ghost use Rattle.std.specs.Prelude.{◌≤◌, ◌<◌, length, IfSome};

use danc::line_of;
use frame::wide;

// A starter's first byte (001, 4.1.1, figure 4).
const STARTER: u8 = 0xE1;

// The most packs of 5 that a frame has (system 2).
const PACKS: usize = 1872;

// The last place at which a packet of seven bytes can start.
const LAST_START: usize = 9353;

// A structure's fields, in front of its samples, and the key, length and N in front of the first (004, tables 5 to 7).
const FIELDS: usize = 14;

const HEAD: usize = 22;

fn line(h0: u8, h1: u8) -> u64 {
    u64::from(line_of(h0, h1).0)
}

// The first starter from a pack on.
fn next_starter(us: &[u8; 9360], from: usize) -> Option<usize>
    ensures { IfSome result (λ pack. pack < 1872) }
{
    for pack in from..PACKS {
        if us[5 * pack] == STARTER {
            return Some(pack);
        }
    }
    None
}

// Header bytes 0 and 1 stand behind the starter's first byte and its reserved one (001, figure 4).
fn in_packs_of_5(us: &[u8; 9360], k: u64) -> Option<u64> {
    let mut pack = next_starter(us, 0)?;
    for _ in 0..k {
        pack = next_starter(us, pack + 1)?;
    }
    Some(line(us[5 * pack + 2], us[5 * pack + 3]))
}

fn in_string(us: &[u8; 9360], k: u64) -> Option<u64> {
    let mut at = 0;
    for _ in 0..k {
        at += wide(us[at + 5]) + 7;
        if LAST_START < at {
            return None;
        }
    }
    Some(line(us[at], us[at + 1]))
}

// The line of packet k of an area; 0 where it is not found.
pub fn in_area(system: u64, area: &[u8], k: u64) -> u64 {
    let mut us = [0u8; 9360];
    frame::collect(system, area, &mut us);
    if us[0] == STARTER {
        return in_packs_of_5(&us, k).unwrap_or(0);
    }
    packing2::open_long(system, &mut us);
    in_string(&us, k).unwrap_or(0)
}

// A byte of the element; 0 where it ends before it.
fn byte_at(e: &[u8], i: usize) -> usize
    ensures { result < 256 }
{
    e.get(i).map_or(0, |b| wide(*b))
}

fn two_at(e: &[u8], i: usize) -> usize
    requires { i ≤ length e.now }
    ensures { result < 65536 }
{
    byte_at(e, i) * 256 + byte_at(e, i + 1)
}

// Where structure k starts: the array count says how long its samples are, padding included.
fn start_of(e: &[u8], k: u64) -> Option<usize>
    ensures { IfSome result (λ at. at ≤ length e.now) }
{
    if e.len() < HEAD {
        return None;
    }
    let mut at = HEAD;
    for _ in 0..k {
        if e.len() - at < FIELDS {
            return None;
        }
        at += FIELDS + two_at(e, at + 6) * 65536 + two_at(e, at + 8);
        if e.len() < at {
            return None;
        }
    }
    Some(at)
}

// The line of packet k of an element; 0 where it is not found.
pub fn in_element(element: &[u8], k: u64) -> u64 {
    match start_of(element, k) {
        Some(at) => two_at(element, at) as u64,
        None => 0,
    }
}
