// What the lister prints of a sheet file (document 01, "Worked figures"), made in a buffer so that it is written in one call.
// The tests of the file are proved; that the text is right to the byte is tested.
#![tactic(auto)]

ghost use Rattle.std.specs.Prelude.{◌≡◌, ◌≤◌, length};
ghost use Rattle.rules.specs.Sheet.{system_in, words_in};
ghost use Rattle.rules.specs.Lister.{tested_in, numbers_of, listing as Lister·listing};

use rules::Tested;
use sheet_file::NUMBERS;
use std::fmt::Write;
use text::Line;

// Room for the longest text: a first line, and 1,275 rows of at most 22 bytes.
pub const ROOM: usize = 32768;

// The lister's tests of a file, with the word that a refusal names (document 02, A2). The file's numbers then stand at the start of s.
fn tested(file: &[u8], s: &mut [u16; NUMBERS]) -> Tested
    ensures { result ≡ tested_in (system_in (numbers_of file.now)) (words_in (numbers_of file.now))
        (Lister·listing file.now) }
{
    let n = sheet_file::decode(file, s);
    let numbers = &s[..];
    sheet::test(&numbers[..n])
}

// ---- the text

// The text of a file, as far as there is room.
pub type Text = Line<ROOM>;

// A number of sixteen bits, as all of a row are, and what stands behind it. They are not put by `write!`, which takes more time than all else that is
// done for a packet.
fn put_number(out: &mut Text, n: usize, behind: u8) {
    let mut is_begun = false;
    for power in [10000, 1000, 100, 10, 1] {
        let digit = n / power % 10;
        is_begun |= digit != 0 || power == 1;
        if is_begun {
            out.push(b'0' + digit as u8);
        }
    }
    out.push(behind);
}

// "two upper-case hex digits", and a space.
fn put_hex(out: &mut Text, b: u8) {
    const DIGITS: &[u8; 16] = b"0123456789ABCDEF";
    out.push(DIGITS[usize::from(b / 16)]);
    out.push(DIGITS[usize::from(b % 16)]);
    out.push(b' ');
}

// "Row: packet, line, flags, DID and SDID as two upper-case hex digits, DC.": of packet k, with its location's numbers, and its words.
fn put_row(out: &mut Text, k: usize, location: &[u16], words: &[u16])
    requires { (2 ≤ length location.now) × (6 ≤ length words.now) }
{
    let (line, flags) = (location[0], location[1]);
    let did = packet::low(words[3]);
    let sdid = packet::low(words[4]);
    let dc = packet::low(words[5]);
    put_number(out, k, b' ');
    put_number(out, usize::from(line), b' ');
    put_number(out, usize::from(flags), b' ');
    put_hex(out, did);
    put_hex(out, sdid);
    put_number(out, usize::from(dc), b'\n');
}

// A row for each packet of a sheet that has passed, whose sections B and C these are. (The two tests never fail then; they keep the loop safe on any
// numbers.)
fn put_rows(out: &mut Text, locations: &[u16], words: &[u16]) {
    let mut left = words;
    for (k, location) in locations.chunks_exact(2).enumerate() {
        if left.len() < 6 {
            return;
        }
        put_row(out, k, location, left);
        let next = packet::low_byte(left[5]) + 7;
        if left.len() < next {
            return;
        }
        left = &left[next..];
    }
}

// "Header: system, packets, string bytes, packs in packing 1."
fn put_first(out: &mut Text, t: Tested) {
    let (system, packets, bytes, packs) = (t.system, t.packets, t.bytes, t.packs);
    let _ = write!(
        out,
        "system {system} packets {packets} bytes {bytes} packs {packs}\n"
    );
}

// The lister's tests of a file, whose text is put. The file's numbers then stand at the start of s.
pub fn list(file: &[u8], s: &mut [u16; NUMBERS], out: &mut Text) -> Tested
    ensures { result ≡ tested_in (system_in (numbers_of file.now)) (words_in (numbers_of file.now))
        (Lister·listing file.now) }
{
    let t = tested(file, s);
    put_text(out, file, s, t);
    t
}

// The text of a file whose numbers stand in s, and which was tested. "Laying and the lister pass the word on after the place" (document 02, A2).
fn put_text(out: &mut Text, file: &[u8], s: &[u16; NUMBERS], t: Tested) {
    if t.number != 0 {
        let _ = write!(out, "refused {} at {} {}\n", t.number, t.place, t.word);
        return;
    }
    put_first(out, t);
    let n = file.len() / 2;
    let first = 4 + 2 * usize::from(s[2]);
    if first <= n && n <= NUMBERS {
        put_rows(out, &s[3..first - 1], &s[first..n]);
    }
}

// The text alone. It is put where it stays: a text that is given back is copied.
pub fn listing(file: &[u8], out: &mut Text) {
    let mut s = [0u16; NUMBERS];
    list(file, &mut s, out);
}
