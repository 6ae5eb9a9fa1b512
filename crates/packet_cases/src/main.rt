// Outside vectors: the ten-bit words of 264 ancillary packets as the ancillary encoder of GStreamer 1.22 writes them, a packet to a line, in
// hexadecimal (data/words291.txt): every DC from 0 to 255, every DID and SDID, and document 01's worked packets. Each is to be accepted, word
// for word, as the type that its DID has; and with one bit of one word flipped, whichever it is, refused with the right number (7 in the flag, 10 in
// CS, 8 between them) at that word (document 02, A2).
#![tactic(auto)]

ghost use Rattle.std.specs.Prelude.{◌≡◌, ◌+◌, ◌*◌, ◌<◌, ◌≤◌, length};

use rules::Judged;
use std::{fs, io};

// `firsts` of the packets are of type 1.
#[derive(Clone, Copy)]
pub struct Counts {
    pub packets: u64,
    pub firsts: u64,
    pub sevens: u64,
    pub eights: u64,
    pub tens: u64,
    pub wrong: u64,
}

fn nibble(b: u8) -> u16
    ensures { result < 16 }
{
    if b < 65 {
        return (b % 16) as u16;
    }
    ((b % 16 + 9) % 16) as u16
}

// The word at three hexadecimal digits.
fn word_at(text: &[u8], at: usize) -> u16
    requires { at + 3 ≤ length text.now }
{
    nibble(text[at]) * 256 + nibble(text[at + 1]) * 16 + nibble(text[at + 2])
}

// Whether each word is the one that its low byte has, and CS the sum's.
fn word_for_word(ws: &[u16]) -> bool {
    if ws.len() < 7 {
        return false;
    }
    let last = ws.len() - 1;
    for w in &ws[3..last] {
        if packet::word_of((*w % 256) as u8) != *w {
            return false;
        }
    }
    packet::check_of(&ws[3..last]) == ws[last]
}

// The number that a fault in word i has, where so many words are left from it on.
fn right_number(i: usize, left: usize) -> u64 {
    if i < 3 {
        return 7;
    }
    if 1 < left {
        return 8;
    }
    10
}

// Whether the answer is a refusal with this number and this word.
fn is_refusal(j: Judged, number: u64, word: usize) -> bool {
    j.number == number && j.word == word as u64 && j.kind == 0
}

// How many of the ten flips of word i are refused with this number and this word.
fn flips(ws: &mut [u16], i: usize, number: u64) -> u64
    requires { i < length ws.old }
    ensures { result ≤ 10 }
{
    let w = ws[i];
    let mut bit: u16 = 1;
    let mut good: u64 = 0;
    for _ in 0..10u64 {
        ws[i] = w ^ bit;
        if is_refusal(packet::fault(ws), number, i) {
            good += 1;
        }
        bit = bit % 32768 * 2;
    }
    ws[i] = w;
    good
}

fn counted(c: Counts, number: u64, good: u64) -> Counts {
    let wrong = c.wrong.wrapping_add(10 - good % 11);
    if number == 7 {
        return Counts {
            packets: c.packets,
            firsts: c.firsts,
            sevens: c.sevens.wrapping_add(good),
            eights: c.eights,
            tens: c.tens,
            wrong,
        };
    }
    if number == 8 {
        return Counts {
            packets: c.packets,
            firsts: c.firsts,
            sevens: c.sevens,
            eights: c.eights.wrapping_add(good),
            tens: c.tens,
            wrong,
        };
    }
    Counts {
        packets: c.packets,
        firsts: c.firsts,
        sevens: c.sevens,
        eights: c.eights,
        tens: c.tens.wrapping_add(good),
        wrong,
    }
}

fn all_flips(ws: &mut [u16], from: Counts) -> Counts {
    let mut c = from;
    for i in 0..ws.len() {
        let number = right_number(i, ws.len() - i);
        let good = flips(ws, i, number);
        c = counted(c, number, good);
    }
    c
}

// The type of a packet: bit 7 of its DID is set in those of type 1, "DID 80h or above" (document 02, A2).
fn right_kind(ws: &[u16]) -> u64 {
    if 3 < ws.len() {
        return 2 - (ws[3] / 128 % 2) as u64;
    }
    0
}

fn is_accepted(j: Judged, kind: u64) -> bool {
    j.number == 0 && j.word == 0 && j.kind == kind
}

fn accepted(c: Counts, kind: u64) -> Counts {
    Counts {
        packets: c.packets.wrapping_add(1),
        firsts: c.firsts.wrapping_add(kind % 2),
        sevens: c.sevens,
        eights: c.eights,
        tens: c.tens,
        wrong: c.wrong,
    }
}

fn try_packet(ws: &mut [u16], from: Counts) -> Counts {
    let mut c = from;
    let kind = right_kind(ws);
    if word_for_word(ws) {
        if is_accepted(packet::fault(ws), kind) {
            c = accepted(from, kind);
        }
    }
    all_flips(ws, c)
}

// The packet so far with one word more.
fn with_word(ws: &mut [u16], k: usize, w: u16) -> usize
    requires { (k ≤ 262) × (length ws.old ≡ 262) }
    ensures { result ≤ 262 }
{
    if k < 262 {
        ws[k] = w;
        return k + 1;
    }
    k
}

#[derive(Drop)]
pub struct Next {
    pub k: usize,
    pub counts: Counts,
}

// At a line's end the packet is whole, and is tried.
fn after_word(ws: &mut [u16], k: usize, behind: u8, counts: Counts) -> Next
    requires { (k ≤ 262) × (length ws.old ≡ 262) }
    ensures { result.k ≤ 262 }
{
    if behind == b'\n' {
        let after = try_packet(&mut ws[..k], counts);
        return Next {
            k: 0,
            counts: after,
        };
    }
    Next { k, counts }
}

// Every word is three digits and a space or a line end.
fn try_all(text: &[u8], ws: &mut [u16]) -> Counts
    requires { length ws.old ≡ 262 }
{
    let mut c = Counts {
        packets: 0,
        firsts: 0,
        sevens: 0,
        eights: 0,
        tens: 0,
        wrong: 0,
    };
    let mut k = 0;
    let mut at = 0;
    while at + 4 <= text.len() {
        k = with_word(ws, k, word_at(text, at));
        let n = after_word(ws, k, text[at + 3], c);
        c = n.counts;
        k = n.k;
        at += 4;
    }
    c
}

fn say(rt: &impl Print, text: &str, n: u64) -> io::Result<()> {
    println!(rt; "{text}{n}")
}

// CS of so many words 3FFh. Their low nine bits come to 511 for each, so to 512 less their number, modulo 512.
fn say_check(rt: &impl Print, ws: &[u16]) -> io::Result<()> {
    let n = ws.len();
    let check = packet::check_of(ws);
    println!(rt; "CS of words 3FFh, {n} of them: {check}")
}

// The most words that a packet sums, one less, and longer lists, which are summed in parts.
fn check_long_lists(rt: &impl Print) -> io::Result<()> {
    let ws = [0x3FFu16; 1000];
    say_check(rt, &ws[..0])?;
    say_check(rt, &ws[..257])?;
    say_check(rt, &ws[..258])?;
    say_check(rt, &ws[..259])?;
    say_check(rt, &ws[..516])?;
    say_check(rt, &ws[..517])?;
    say_check(rt, &ws)
}

fn main(rt: HostRuntime) -> io::Result<()> {
    check_long_lists(&rt)?;
    let text = fs::read(&rt, "words291.txt")?;
    let mut ws = [0u16; 262];
    let c = try_all(&text, &mut ws);
    say(&rt, "packets accepted, word for word: ", c.packets)?;
    say(&rt, "of these of type 1, and said to be: ", c.firsts)?;
    say(&rt, "flips refused with 7 at the word: ", c.sevens)?;
    say(&rt, "flips refused with 8 at the word: ", c.eights)?;
    say(&rt, "flips refused with 10 at the word: ", c.tens)?;
    say(&rt, "flips with another answer: ", c.wrong)
}
