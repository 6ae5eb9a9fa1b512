// The ten-bit words of a packet (document 01, "The packet"; SMPTE 291): the word of a byte, CS, the tests 7 to 10, and the word that they name.
// What each function gives is a definition of the crate rules.
#![tactic(auto)]

ghost use Rattle.std.specs.Prelude.{◌≡◌, ℕ, ◌+◌, ◌-◌, ◌*◌, ◌/◌, ◌%◌, ◌≤◌, ◌<◌, false};
ghost use Rattle.std.specs.Prelude.{not, ◌||◌, List, eqb, ltb, length, drop};
ghost use Rattle.rules.specs.Packet.{Packet, word, check};
ghost use Rattle.rules.specs.Laying.{is_word, flagged, words_fault, packet_of_words, dc_in, words_before};
ghost use Rattle.rules.specs.Laying.{flag_word, word_at, from_packet, type_of, judged};
ghost use Rattle.rules.specs.Refusals.{number, tell, told, told_of};
ghost use Rattle.rules.specs.Demands.{Judges};
ghost use Rattle.packet.specs.Run.{pass_of, run_of, check_sum, word_table, Passed, SizeOf};
ghost use Rattle.packet.specs.Tests.{packets_by, counts_of, told_by, WordLaws};
ghost use Rattle.packet.specs.Told.{kind_number, judged_of};
ghost use Rattle.packet.specs.SoundWords.{sound_words};

use rules::{Judged, Refusal, Refused};

mod table;

// Bit 8 makes the count of ones even, and bit 9 is its inverse (SMPTE 291).
// The eight bits are folded onto one, without a table or a branch, since this is done for every word.
fn with_parity(b: u16) -> u16
    requires { b < 256 }
    ensures { result ≡ word b }
{
    let x = b ^ (b / 16);
    let y = x ^ (x / 4);
    let p = (y ^ (y / 2)) % 2;
    b + 512 - 256 * p
}

// Whether a word is that of its low byte.
fn is_right(w: u16) -> bool
    ensures { result ≡ is_word w }
{
    w == with_parity(w % 256)
}

// The ten-bit word of a byte (SMPTE 291).
pub fn word_of(b: u8) -> u16
    ensures { result ≡ word b }
{
    with_parity(b as u16)
}

// What CS sums of a word: "the low nine bits" (document 01).
fn low_nine(w: u16) -> u32
    ensures { result ≡ w % 512 }
{
    (w % 512) as u32
}

// CS sums the words from DID to the last user word: 258 at most.
const MOST: usize = 258;

// What one pass over some words finds: whether each is the word of its low byte, and the whole sum of their low nine bits.
#[derive(Clone, Copy)]
struct Pass {
    words: bool,
    sum: u32,
}

// A wrong word does not end the loop, so that it has no branch. The sum is 258 × 511 = 131,838 at most.
fn pass_of(ws: &[u16]) -> Pass
    requires { length ws.now ≤ 258 }
    ensures { result ≡ pass_of ws.now }
{
    let mut ok = true;
    let mut sum: u32 = 0;
    for &w in ws {
        ok = ok & is_right(w);
        sum += low_nine(w);
    }
    Pass { words: ok, sum }
}

// What passes over some words find together, with the sum "modulo 512" (document 01).
#[derive(Clone, Copy)]
pub struct Run {
    pub words: bool,
    pub sum: u16,
}

// A packet's words take one pass, and their sum is reduced once. A longer list takes more, so that no sum outgrows its type.
pub fn run_of(ws: &[u16]) -> Run
    ensures { result ≡ run_of ws.now }
{
    let mut at = 0;
    let mut ok = true;
    let mut sum = 0;
    while MOST < ws.len() - at {
        let part = pass_of(&ws[at..at + MOST]);
        ok = ok & part.words;
        sum = (sum + part.sum) % 512;
        at += MOST;
    }
    let last = pass_of(&ws[at..]);
    Run {
        words: ok & last.words,
        sum: ((sum + last.sum) % 512) as u16,
    }
}

// CS of a sum of low nine bits, which is taken "modulo 512" here. Bit 9 of CS is the inverse of its bit 8, which is the sum's own and no parity
// (document 01, "Errors that look right").
pub fn check_sum(sum: u32) -> u16
    ensures { result ≡ check_sum sum }
{
    ((sum % 512 + 256) % 512 + 256) as u16
}

// CS of the words from DID to the last user word. DID and SDID are summed apart: DC alone is then left to the loop of a packet without user
// words, and 256 words of the longest packet, which vectors sum without a rest.
pub fn check_of(ws: &[u16]) -> u16
    ensures { result ≡ check ws.now }
{
    if ws.len() < 2 {
        return check_sum(run_of(ws).sum as u32);
    }
    let ids = low_nine(ws[0]) + low_nine(ws[1]);
    let rest = run_of(&ws[2..]).sum as u32;
    check_sum(ids + rest)
}

// The words of all bytes, to look a few words up in: that takes a third of the instructions of computing each. It is a constant, since a frame
// of small packets would take longer to make it than to use it.
pub fn words() -> [u16; 256]
    ensures { result ≡ word_table }
{
    table::WORDS
}

// "the low eight bits of each word" (document 01): what a DANC packet, an element's sample and a row of the lister have of it.
pub fn low(w: u16) -> u8
    ensures { result ≡ w % 256 }
{
    (w % 256) as u8
}

// A word's low byte as a place in the table, or a DC, so that no caller has to show that the cast keeps it.
pub fn low_byte(w: u16) -> usize
    ensures { result ≡ w % 256 }
{
    (w % 256) as usize
}

// Whether a word is that of its low byte, by the table: with any other table the answer says nothing.
fn is_word(table: &[u16; 256], w: u16) -> bool
    ensures { table.now ≡ word_table → result ≡ is_word w }
{
    w == table[low_byte(w)]
}

// The same pass for a few words, by the table. It ends at a wrong word.
fn looked_up(table: &[u16; 256], ws: &[u16]) -> Pass
    requires { length ws.now ≤ 258 }
    ensures { Passed table.now ws.now result }
{
    let mut total: u32 = 0;
    for &w in ws {
        if !is_word(table, w) {
            return Pass {
                words: false,
                sum: 0,
            };
        }
        total += low_nine(w);
    }
    Pass {
        words: true,
        sum: total,
    }
}

// From so many words on, computing several at a time is faster than looking each up.
const MANY: usize = 16;

// The faster of the two passes.
fn pass_by(table: &[u16; 256], ws: &[u16]) -> Pass
    requires { length ws.now ≤ 258 }
    ensures { Passed table.now ws.now result }
{
    if ws.len() < MANY {
        return looked_up(table, ws);
    }
    pass_of(ws)
}

// What packets back to back come to: how many they are, their string bytes, their packs in packing 1.
#[derive(Clone, Copy, PartialEq, Eq)]
pub struct Counts {
    pub packets: usize,
    pub bytes: usize,
    pub packs: usize,
}

// "7 | fewer than 7 words left, or no 000h 3FFh 3FFh" (document 01): whether neither holds.
pub fn is_flagged(ws: &[u16]) -> bool
    ensures { result ≡ not (ltb (length ws.now) 7 || not (flagged ws.now)) }
{
    if ws.len() < 7 || ws[0] != 0x000 || ws[1] != 0x3FF || ws[2] != 0x3FF {
        return false;
    }
    true
}

// The whole test of the packet that the words begin with, without the number of its fault: what is not carried leaves the loop over many packets
// a register more. DID, SDID and DC are looked up one by one; the whole sums are added for CS, so that no word is summed twice. The table is
// lent, so that a caller with many packets has it once.
fn is_sound(table: &[u16; 256], ws: &[u16]) -> bool
    ensures { table.now ≡ word_table → result ≡ eqb (words_fault ws.now) 0 }
{
    if !is_flagged(ws) {
        return false;
    }
    let did = ws[3];
    let sdid = ws[4];
    let dc = ws[5];
    if !is_word(table, did) || !is_word(table, sdid) || !is_word(table, dc) {
        return false;
    }
    let end = low_byte(dc) + 6;
    if ws.len() <= end {
        return false;
    }
    let user = pass_by(table, &ws[6..end]);
    if !user.words {
        return false;
    }
    ws[end] == check_sum(low_nine(did) + low_nine(sdid) + low_nine(dc) + user.sum)
}

// How many words stand in front of the first that is not the word of its low byte.
fn right_words(ws: &[u16]) -> usize
    ensures value { result ≡ words_before ws.now }
    ensures within { result ≤ length ws.now }
{
    for (i, w) in ws.iter().enumerate() {
        if !is_right(*w) {
            return i;
        }
    }
    ws.len()
}

// The first word from DID on that is not the word of its low byte.
fn wrong_word(ws: &[u16]) -> usize
    ensures { result ≡ 3 + words_before (drop 3 ws.now) }
{
    if ws.len() < 3 {
        return 3;
    }
    3 + right_words(&ws[3..])
}

// DC; 0 where the words end before it.
fn dc_of(ws: &[u16]) -> usize
    ensures { result ≡ dc_in ws.now }
{
    if ws.len() < 6 {
        return 0;
    }
    low_byte(ws[5])
}

// How many words the packet in front takes, DC + 7, as far as there are so many.
pub fn size_of(ws: &[u16]) -> usize
    ensures { SizeOf ws.now result }
{
    let n = dc_of(ws) + 7;
    if ws.len() < n {
        return ws.len();
    }
    n
}

// The first fault of the packet that the words begin with, in document 01's order, where it has one. It is asked once, of the packet that is not
// sound, and needs no speed: the packet's first wrong word says whether DID, SDID and DC are right, and then the user words. The passes are left to
// `is_sound` alone, so that they become part of its code. What is left is CS.
fn fault_of(ws: &[u16]) -> Refusal
    requires { eqb (words_fault ws.now) 0 ≡ false }
    ensures { number result ≡ words_fault ws.now }
{
    if !is_flagged(ws) {
        return Refusal::Flag;
    }
    let cs = low_byte(ws[5]) + 6;
    let n = size_of(ws);
    let wrong = wrong_word(&ws[..n]);
    if wrong < 6 {
        return Refusal::Word;
    }
    if ws.len() <= cs {
        return Refusal::CutOff;
    }
    if wrong < cs {
        return Refusal::Word;
    }
    Refusal::Checksum
}

// "the first wrong flag word, else the first missing word" (document 02, A2).
fn flag_word(ws: &[u16]) -> usize
    ensures { result ≡ flag_word ws.now }
{
    if ws.len() == 0 || ws[0] != 0x000 {
        return 0;
    }
    if ws.len() == 1 || ws[1] != 0x3FF {
        return 1;
    }
    if ws.len() == 2 || ws[2] != 0x3FF {
        return 2;
    }
    ws.len()
}

// The word that the number of a packet's fault names. CS stands behind DC and the user words.
pub fn word_at(number: u64, ws: &[u16]) -> u64
    ensures { result ≡ word_at number ws.now }
{
    match number {
        7 => flag_word(ws) as u64,
        8 => wrong_word(ws) as u64,
        9 => ws.len() as u64,
        10 => dc_of(ws) as u64 + 6,
        _ => 0,
    }
}

// The word that a refusal names among packets back to back, where its place is the packet.
pub fn word_named(number: u64, place: u64, ws: &[u16]) -> u64
    ensures { result ≡ word_at number (from_packet place ws.now) }
{
    let mut at = 0;
    for _ in 0..place {
        at += size_of(&ws[at..]);
    }
    word_at(number, &ws[at..])
}

// The same by the refusal.
pub fn refused_word(refusal: Refusal, ws: &[u16]) -> usize
    ensures { result ≡ word_at (number refusal) ws.now }
{
    word_at(refusal.number(), ws) as usize
}

// What is told of the packet at fault, whose words are given: it is looked at once more only then, and apart from the loop that has tested the
// packets, so that those without a fault cost no more.
fn refused(place: usize, ws: &[u16]) -> Refused
    requires { eqb (words_fault ws.now) 0 ≡ false }
    ensures { told result ≡ tell (words_fault ws.now) place (word_at (words_fault ws.now) ws.now) }
{
    let refusal = fault_of(ws);
    Refused {
        refusal,
        place,
        word: refused_word(refusal, ws),
    }
}

// What is asked of the words of a packet, 7 to 10: of sound packets here, of packets as found in the crate found (document 02, A13).
pub trait WordTests: Copy {
    ghost fault: { List ℕ → ℕ };

    ghost packet: { List ℕ → Packet };

    ghost word: { ℕ → List ℕ → ℕ };

    // What the tests need, which is made once for many packets.
    fn new() -> Self;

    // The whole test of the packet that the words begin with, without the number of its fault.
    fn is_sound(&self, ws: &[u16]) -> bool
        ensures { result ≡ eqb (fault ws.now) 0 };

    // What is told of the packet that the words begin with, where it is at fault.
    fn refused(&self, place: usize, ws: &[u16]) -> Refused
        requires { eqb (fault ws.now) 0 ≡ false }
        ensures { told result ≡ tell (fault ws.now) place (word (fault ws.now) ws.now) };

    ghost laws: { WordLaws fault packet word };
}

// "Each word .. is .. its low byte with right bits above": the table is right.
#[derive(Clone, Copy)]
pub struct Sound {
    table: [u16; 256],
    ghost right: { table ≡ word_table },
}

impl WordTests for Sound {
    ghost fault = { words_fault };

    ghost packet = { packet_of_words };

    ghost word = { word_at };

    fn new() -> Sound {
        Sound { table: words() }
    }

    fn is_sound(&self, ws: &[u16]) -> bool {
        is_sound(&self.table, ws)
    }

    fn refused(&self, place: usize, ws: &[u16]) -> Refused {
        refused(place, ws)
    }

    ghost laws = { sound_words };
}

// "Then packet by packet", "packets back to back": what all of them come to, or the first packet at fault.
// "A DANC packet has as many bytes as its VANC packet has words, DC + 7." "A packet takes 2 + DC/4 packs, the quotient rounded up."
// Many frames have no packets, and then no table is taken. The packet that ends the loop is behind the last word or at fault.
pub fn packets<T: WordTests>(ws: &[u16]) -> Result<Counts, Refused>
    ensures { told_of result ≡ told_by T.word counts_of ws.now (packets_by T.fault T.packet ws.now) }
{
    if ws.len() == 0 {
        return Ok(Counts {
            packets: 0,
            bytes: 0,
            packs: 0,
        });
    }
    let tests = T::new();
    let mut at = 0;
    let mut packets = 0;
    let mut packs = 0;
    while tests.is_sound(&ws[at..]) {
        let dc = low_byte(ws[at + 5]);
        packs += (dc + 3) / 4;
        at += dc + 7;
        packets += 1;
    }
    if at == ws.len() {
        return Ok(Counts {
            packets,
            bytes: at,
            packs: packs + 2 * packets,
        });
    }
    Err(tests.refused(packets, &ws[at..]))
}

// "Type 1 (DID 80h or above) or Type 2" (document 02, A2).
#[derive(Clone, Copy, PartialEq, Eq)]
enum Kind {
    One = 1,
    Two = 2,
}

impl Kind {
    fn number(self) -> u64
        ensures { result ≡ kind_number self }
    {
        self as u64
    }
}

fn type_of(did: u16) -> Kind
    ensures { kind_number result ≡ type_of (did % 256) }
{
    if did % 256 < 0x80 {
        return Kind::Two;
    }
    Kind::One
}

// The test of one packet alone, which also says its type (document 02, A2). What stands behind the packet is not looked at.
fn judge(ws: &[u16]) -> Result<Kind, Refused>
    ensures { judged_of result ≡ judged ws.now }
{
    if ws.len() == 0 {
        return Err(Refused {
            refusal: Refusal::Flag,
            place: 0,
            word: 0,
        });
    }
    let n = size_of(ws);
    packets::<Sound>(&ws[..n])?;
    Ok(type_of(ws[3]))
}

// The same as the C interface gives it back.
pub fn fault(ws: &[u16]) -> Judged
    ensures { Judges ws.now result }
{
    match judge(ws) {
        Ok(kind) => Judged {
            number: 0,
            word: 0,
            kind: kind.number(),
        },
        Err(e) => Judged {
            number: e.refusal.number(),
            word: e.word as u64,
            kind: 0,
        },
    }
}
