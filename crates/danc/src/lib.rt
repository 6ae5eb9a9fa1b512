// The DANC packet and the string: header bytes, a packet's faults, the walker's step, the validation of a string.
// Document 01, "The packet", "Numbers given back" (5, 14 to 16), "The walker"; 001, figure 6. Quotations are from document 01.
#![tactic(auto)]

ghost use Rattle.std.specs.Prelude.{◌≡◌, true, cond, ℕ, ◌+◌, ◌-◌, ◌*◌, ◌/◌, ◌%◌, ◌≤◌, ◌<◌, eqb, length, get_or, take, drop, IfOk};
ghost use Rattle.std.specs.Result.{result_err};
ghost use Rattle.rules.specs.Base.{all_is, sum};
ghost use Rattle.rules.specs.Systems.{System};
ghost use Rattle.rules.specs.Sheet.{limit};
ghost use Rattle.rules.specs.Reading.{flags_of, bytes_fault, string_fault, string_ends};
ghost use Rattle.rules.specs.Refusals.{number, number_of, told, told_of, tell};
ghost use Rattle.rules.specs.Walker.{step, walk as walked};
ghost use Rattle.frame.specs.Lines.{lines_of};
ghost use Rattle.danc.specs.Header.{cs_right, line_read, line_number};
ghost use Rattle.danc.specs.Validated.{Within, Stop, validated, judged_as};

mod coded;

pub use coded::{BASE, REFUSED, refusal};
use frame::{LIMIT, Line, StringByte, figures_of, is_in, lines_of, may_stand, wide};
use rules::{Refusal, Refused, Step};

// Header byte 0 (001, figure 6). "LE is 1 where there is a line."
pub fn head0(line: Line) -> u8
    ensures { result ≡ cond (eqb line.0 0) 0 (128 + line.0 % 128) }
{
    if line.0 == 0 {
        return 0;
    }
    (128 + line.0 % 128) as u8
}

// Header byte 1 (001, figure 6). "Reserved bits are written 1". Line and flags are cut to their bits, so that any fit a byte.
pub fn head1(line: Line, flags: u16) -> u8
    ensures { result ≡ flags % 2 * 128 + 96 + flags / 2 % 2 * 16 + line.0 / 128 % 16 }
{
    (flags % 2 * 128 + 96 + flags / 2 % 2 * 16 + line.0 / 128 % 16) as u8
}

// The line of header bytes 0 and 1 (001, figure 6). "a reader disregards line bits when LE is 0"
pub fn line_of(h0: u8, h1: u8) -> Line
    ensures { result ≡ line_read h0 h1 }
{
    if h0 < 128 {
        return Line(0);
    }
    Line(u16::from(h0 % 128) + u16::from(h1 % 16) * 128)
}

// The flags of header byte 1 (001, figure 6): FI in bit 7, YCF in bit 4. "The flags are carried and not judged."
pub fn flags_of(h1: u8) -> u16
    ensures { result ≡ flags_of h1 }
{
    u16::from(h1 / 128 + 2 * (h1 / 16 % 2))
}

// "16 | LE is 1 and the line is 0 or past the last", then 20, "a line in the frame that isn't allowed" (document 02, A3).
fn line_fault(last: Line, h0: u8, h1: u8) -> Result<(), Refusal>
    ensures { (y : System) → y.last ≡ last.0 → number_of (result_err result) ≡ line_number y h0 h1 }
{
    if h0 < 128 {
        return Ok(());
    }
    let line = line_of(h0, h1);
    if line.0 == 0 || last.0 < line.0 {
        return Err(Refusal::Line);
    }
    if may_stand(last, line) {
        return Ok(());
    }
    Err(Refusal::PictureLine)
}

// "Summing bytes: the low eight bits agree", and a stored CS byte has no others: the sum of some bytes onto one that was begun. From DID to
// the last user byte there are 258 bytes at most, which come to 65,790: more than a u16 holds. The whole sum is reduced once.
fn sum_onto(begun: u32, s: &[u8]) -> u8
    requires { (begun ≤ 510) × (length s.now ≤ 256) }
    ensures { result ≡ (begun + sum s.now) % 256 }
{
    let mut sum = begun;
    for b in s {
        sum += u32::from(*b);
    }
    (sum % 256) as u8
}

// "15 | stored CS byte is not the sum's low byte": whether it is, of bytes from header byte 0 to CS. DID and SDID are summed apart: DC alone
// is then left to the loop of a packet without user bytes, and 256 bytes of the longest, which vectors sum without a rest.
fn is_cs_right(s: &[u8]) -> bool
    requires { get_or s.now 5 0 + 7 ≤ length s.now }
    ensures { result ≡ cs_right s.now }
{
    let end = wide(s[5]) + 6;
    let ids = u32::from(s[3]) + u32::from(s[4]);
    let sum = sum_onto(ids, &s[5..end]);
    s[end] == sum
}

// 15, then 16, 20, of the same bytes.
fn packet_fault(last: Line, s: &[u8]) -> Result<(), Refusal>
    requires { get_or s.now 5 0 + 7 ≤ length s.now }
    ensures { (y : System) → y.last ≡ last.0 → number_of (result_err result) ≡ bytes_fault y s.now }
{
    if !is_cs_right(s) {
        return Err(Refusal::StoredChecksum);
    }
    line_fault(last, s[0], s[1])
}

// Whether the same bytes have no fault, told with fewer tests: their line is looked for among the frame's. A frame that has no table has none
// there, so a no says nothing.
fn is_sound(lines: &[u64; 32], s: &[u8]) -> bool
    requires { get_or s.now 5 0 + 7 ≤ length s.now }
    ensures { (y : System) → lines.now ≡ lines_of y.last → result ≡ true → bytes_fault y s.now ≡ 0 }
{
    if !is_cs_right(s) {
        return false;
    }
    let h0 = s[0];
    if h0 < 128 {
        return true;
    }
    is_in(lines, line_of(h0, s[1]))
}

// "14 is given if fewer than 7 or fewer than DC + 7 bytes remain", then 15, 16, 20, of the packet at the front; its size where it has no fault.
// It has two callers, and each has it within its own loop: a call for each packet would cost.
#[inline(always)]
pub fn fault(last: Line, s: &[u8]) -> Result<usize, Refusal>
    ensures number { (y : System) → y.last ≡ last.0 → number_of (result_err result) ≡ string_fault y s.now }
    ensures size { IfOk result (λ size. (size ≡ get_or s.now 5 0 + 7) × (size ≤ length s.now)) }
{
    if s.len() < 7 {
        return Err(Refusal::Length);
    }
    let size = wide(s[5]) + 7;
    if s.len() < size {
        return Err(Refusal::Length);
    }
    packet_fault(last, s)?;
    Ok(size)
}

// A step of the walker in one line, so that its four answers read like the list in document 01.
fn answer(number: u64, place: u64, length: u64) -> Step
    ensures { result ≡ step number place length }
{
    Step {
        number,
        place,
        length,
    }
}

// "Each step gives the next packet's place and length, the string's end, or 14, 15 or 16", and 20. The place is any number that a caller
// hands in: it is compared before it is an index.
pub fn walk(system: u64, string: &[u8], place: StringByte) -> Step
    ensures { result ≡ walked system string.now place.0 }
{
    let Some(figures) = figures_of(system) else {
        return answer(3, 0, 0);
    };
    if string.len() as u64 <= place.0 {
        return answer(0, place.0, 0);
    }
    let at = place.0 as usize;
    match fault(figures.last_line, &string[at..]) {
        Err(refusal) => answer(refusal.number(), place.0, 0),
        Ok(size) => answer(0, place.0, size as u64),
    }
}

// No frame has more user bytes than 1,872 packs of 5, so no string is longer.
const LONGEST: usize = 9360;

// What the validation of a string gives: the packets, with those before its first, and the place where the last of them ends.
#[derive(Clone, Copy)]
pub struct Validated {
    pub packets: usize,
    pub end: usize,
}

// Whether every byte is FFh, with one test at the end: a test for each byte is slower.
pub fn all_fill(s: &[u8]) -> bool
    ensures { result ≡ all_is 0xFF s.now }
{
    let mut all: u8 = 255;
    for b in s {
        all &= *b;
    }
    all == 255
}

// "past the first string byte of the last pack, if all that remains is FFh or nothing remains, the walk ends": fewer bytes remain
// than that pack has room for. A packet may begin with FFh, so the first FFh is no end.
fn ends(room: usize, s: &[u8]) -> bool
    ensures { result ≡ string_ends room s.now }
{
    s.len() < room && all_fill(s)
}

// One packet more.
fn one_more(run: Validated, size: usize) -> Validated
    requires { (run.packets < limit) × (run.end + size ≤ 9360) }
    ensures { (result.packets ≡ run.packets + 1) × (result.end ≡ run.end + size) }
{
    Validated {
        packets: run.packets + 1,
        end: run.end + size,
    }
}

// Packet k is refused.
fn refused(refusal: Refusal, k: usize) -> Refused
    ensures { told result ≡ tell (number refusal) k 0 }
{
    Refused {
        refusal,
        place: k,
        word: 0,
    }
}

// "A string is nothing, or one packet and then a string that is shorter by that packet": the bytes left fall at each call. At a
// packet boundary the end is tested, then "5 | .. after [1,275] packets, not the end", 14, 15, 16, 20. Over an array, and with an answer that
// is written where it is kept, the calls become a loop; a `Result` that each handed to the one before it would keep them calls.
fn packets_from(
    last: Line,
    room: usize,
    us: &[u8; 9360],
    end: usize,
    run: Validated,
    answer: &mut Result<Validated, Refused>,
)
    requires { Within end run.end run.packets }
    ensures { (y : System) → y.last ≡ last.0 → told_of answer.new ≡ validated y room (take end us.now) run.end run.packets }
{
    let s = &us[..];
    let k = run.packets;
    if ends(room, &s[run.end..end]) {
        *answer = Ok(run);
        return;
    }
    if k == LIMIT {
        *answer = Err(refused(Refusal::PacketLimit, k));
        return;
    }
    match fault(last, &s[run.end..end]) {
        Ok(size) => packets_from(last, room, us, end, one_more(run, size), answer),
        Err(refusal) => *answer = Err(refused(refusal, k)),
    }
}

// Up to where a packet that begins is surely within the string, since the longest has 262 bytes, and surely not one too many, since the
// shortest has 7.
fn stop_of(end: usize, run: Validated) -> usize
    requires { Within end run.end run.packets }
    ensures { Stop end run.end run.packets result }
{
    end.saturating_sub(261)
        .min(run.end + 7 * (LIMIT - run.packets))
}

// The packets in front that have no fault, as long as they begin before `stop`, where neither the end nor 5 nor 14 has to be tested. From where
// the last of them ends the string gives the same answer.
fn sound_run(
    lines: &[u64; 32],
    us: &[u8; 9360],
    end: usize,
    stop: usize,
    run: Validated,
) -> Validated
    requires { Within end run.end run.packets × Stop end run.end run.packets stop }
    ensures within { Within end result.end result.packets }
    ensures same { (y : System) → lines.now ≡ lines_of y.last → (room : ℕ)
        → validated y room (take end us.now) result.end result.packets ≡ validated y room (take end us.now) run.end run.packets }
{
    let s = &us[..];
    if run.end < stop && is_sound(lines, &s[run.end..end]) {
        let size = wide(us[run.end + 5]) + 7;
        return sound_run(lines, us, end, stop, one_more(run, size));
    }
    run
}

// The string that ends at `end`, from place `at` on, where packet k begins. Out of the bounds of a frame nothing is read, so that no sum can wrap.
pub fn validate(
    last: Line,
    room: usize,
    us: &[u8; 9360],
    end: usize,
    at: usize,
    k: usize,
) -> Result<Validated, Refused>
    ensures { (y : System) → y.last ≡ last.0 → Within end at k → told_of result ≡ validated y room (take end us.now) at k }
{
    if LONGEST < end || end < at || LIMIT < k {
        return Err(refused(Refusal::Length, k));
    }
    let lines = lines_of(last);
    let before = Validated {
        packets: k,
        end: at,
    };
    let run = sound_run(&lines, us, end, stop_of(end, before), before);
    let mut answer = Ok(run);
    packets_from(last, room, us, end, run, &mut answer);
    answer
}

// The whole packet from `at` to `end` that is packet k. What is refused is told by the validation of a string that ends there; with room for
// one byte the string ends where nothing remains.
pub fn judged(
    lines: &[u64; 32],
    last: Line,
    us: &[u8; 9360],
    end: usize,
    at: usize,
    k: usize,
) -> Result<(), Refused>
    requires { (at + (get_or us.now (at + 5) 0 + 7) ≡ end) × (end ≤ 9360) }
    ensures { (y : System) → y.last ≡ last.0 → lines.now ≡ lines_of last.0 → k < limit
        → told_of result ≡ judged_as y (take (end - at) (drop at us.now)) k }
{
    let s = &us[..];
    if is_sound(lines, &s[at..end]) {
        return Ok(());
    }
    validate(last, 1, us, end, at, k)?;
    Ok(())
}
