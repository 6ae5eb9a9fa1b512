// Packing 1, packs of 5 (001, 4.1.1, figures 4 and 7), laid over a run of user bytes from the sections B and C of a sheet that has passed its
// tests. Where the user bytes lie in an area is no concern of theirs. Quotations are from document 01.
#![tactic(auto)]

ghost use Rattle.std.specs.Prelude.{◌+◌, ◌-◌, ◌*◌, ◌/◌, ◌≤◌, ◌<◌, ◌≡◌, [], ◌∷◌, map, length, drop};
ghost use Rattle.std.proofs.lemmas.List.Edits.{sets};
ghost use Rattle.rules.specs.Laying.{low};
ghost use Rattle.rules.specs.Packing1.{flat, carriers, carriers_for};
ghost use Rattle.packing1.specs.Fives.{last_words, packet_fives, Roomy, LaysFives};

use danc::{head0, head1};
use frame::Line;
use packet::{low, low_byte};

// 001, figure 4: a pack's first byte says what the pack is.
const STARTER: u8 = 0xE1;

const CARRIER: u8 = 0xE2;

// "Reserved bits are written 1".
const RESERVED: u8 = 0xFF;

// "the last carrier's unused bytes are FFh"
const UNUSED: u8 = 0xFF;

// A pack is five bytes (001, figure 4). All five are read before the first is stored, so that four low bytes become one move.
fn put_five(us: &mut [u8; 9360], at: usize, a: u8, b: u8, c: u8, d: u8, e: u8)
    requires { at + 5 ≤ 9360 }
    ensures { us.new ≡ sets us.old at (a ∷ b ∷ c ∷ d ∷ e ∷ []) }
{
    us[at] = a;
    us[at + 1] = b;
    us[at + 2] = c;
    us[at + 3] = d;
    us[at + 4] = e;
}

// "A carrier is E2h and four further bytes": those that four words fill (001, 4.1.1).
fn lay_carriers(ws: &[u16], full: usize, us: &mut [u8; 9360], at: usize)
    requires { (4 * full ≤ length ws.now) × (at + 5 * full ≤ 9360) }
    ensures { us.new ≡ sets us.old at (flat (carriers full (map low ws.now))) }
{
    for i in 0..full {
        let f = 4 * i;
        put_five(
            us,
            at + 5 * i,
            CARRIER,
            low(ws[f]),
            low(ws[f + 1]),
            low(ws[f + 2]),
            low(ws[f + 3]),
        );
    }
}

// "the last carrier's unused bytes are FFh": the carrier of a packet's last one, two or three words. No byte is tested by itself; and tests
// for each number of words would become a jump through a table, which is slower than these two.
fn lay_last(words: &[u16], rest: usize, us: &mut [u8; 9360], at: usize)
    requires { (0 < rest) × (rest < 4) × (rest ≤ length words.now) × (at + 5 ≤ 9360) }
    ensures { us.new ≡ sets us.old at (flat (carriers 1 (map low (last_words rest words.now)))) }
{
    let end = words.len();
    if 2 < rest {
        put_five(
            us,
            at,
            CARRIER,
            low(words[end - 3]),
            low(words[end - 2]),
            low(words[end - 1]),
            UNUSED,
        );
        return;
    }
    if 1 < rest {
        put_five(
            us,
            at,
            CARRIER,
            low(words[end - 2]),
            low(words[end - 1]),
            UNUSED,
            UNUSED,
        );
        return;
    }
    put_five(us, at, CARRIER, low(words[end - 1]), UNUSED, UNUSED, UNUSED);
}

// A packet's last words that fill no carrier, if there are any: they are the next pack's. The place behind it is given back.
fn lay_rest(words: &[u16], rest: usize, us: &mut [u8; 9360], next: usize) -> usize
    requires { (rest < 4) × (rest ≤ length words.now) × (next + 5 * ((rest + 3) / 4) ≤ 9360) }
    ensures { (us.new
        ≡ sets us.old next (flat (carriers ((rest + 3) / 4) (map low (last_words rest words.now)))))
        × (result ≡ next + 5 * ((rest + 3) / 4)) }
{
    if rest == 0 {
        return next;
    }
    lay_last(words, rest, us, next);
    next + 5
}

// "A starter pack is E1h, a reserved byte, and the three header bytes", and carriers for the words behind the flag (001, figure 7): DID,
// SDID, DC, the user words and CS. The carriers are counted from DC, which the packet's length gives, so that the compiler sees that one at
// least is full. The place of the next packet's packs is given back.
fn lay_packet(words: &[u16], h0: u8, h1: u8, us: &mut [u8; 9360], to: usize) -> usize
    requires { (7 ≤ length words.now) × (to + 5 * (1 + carriers_for (length words.now - 7)) ≤ 9360) }
    ensures { (us.new
        ≡ sets us.old to (flat (packet_fives (length words.now - 7) h0 h1 (map low (drop 3 words.now)))))
        × (result ≡ to + 5 * (1 + carriers_for (length words.now - 7))) }
{
    put_five(us, to, STARTER, RESERVED, h0, h1, RESERVED);
    let dc = words.len() - 7;
    let full = dc / 4 + 1;
    lay_carriers(&words[3..], full, us, to + 5);
    lay_rest(words, dc % 4, us, to + 5 + 5 * full)
}

// "Packets follow each other in the next pack" (001, 4.1.1). The sheet and its room have been tested before: no packet is tested again, and
// DC says where it ends. Within laying its loop would have to share the registers.
#[inline(never)]
pub fn lay_fives(ls: &[u16], ws: &[u16], us: &mut [u8; 9360])
    requires { Roomy ls.now ws.now }
    ensures { LaysFives ls.now ws.now us.old us.new }
{
    let mut at = 0;
    let mut o = 0;
    for pair in ls.chunks_exact(2) {
        let dc = low_byte(ws[at + 5]);
        let line = Line(pair[0]);
        let words = &ws[at..at + dc + 7];
        o = lay_packet(words, head0(line), head1(line, pair[1]), us, o);
        at += dc + 7;
    }
}
