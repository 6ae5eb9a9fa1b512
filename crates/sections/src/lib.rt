// The sections B and C of a sheet (document 01, "The sheet") as the calls that lay and write take them: where they stand, and the string that
// they give (001, figure 6). The sheet has passed its tests before the string is laid, so no packet is tested again. Quotations are from
// document 01.
#![tactic(auto)]

ghost use Rattle.std.specs.Prelude.{ℕ, ◌≤◌, ◌≡◌, List, map, length};
ghost use Rattle.std.proofs.lemmas.List.Edits.{sets};
ghost use Rattle.rules.specs.Sheet.{locations_in, words_in};
ghost use Rattle.rules.specs.Laying.{low};
ghost use Rattle.sections.specs.Sections.{Sections, LaysString};

use danc::{head0, head1};
use frame::Line;
use packet::{low, low_byte};
use sheet::wide;

// "B: the count P of locations, then P pairs": the pairs.
pub fn section_b(sheet: &[u16]) -> &[u16]
    ensures { result.now ≡ locations_in sheet.now }
{
    if sheet.len() < 3 {
        return &sheet[..0];
    }
    let end = 3 + 2 * wide(sheet[2]);
    if sheet.len() < end {
        return &sheet[3..];
    }
    &sheet[3..end]
}

// "C: the count W of words, then W words: packets back to back": the words.
pub fn section_c(sheet: &[u16]) -> &[u16]
    ensures { result.now ≡ words_in sheet.now }
{
    if sheet.len() < 4 {
        return &sheet[..0];
    }
    let first = 4 + 2 * wide(sheet[2]);
    if sheet.len() < first {
        return &sheet[..0];
    }
    &sheet[first..]
}

// The low byte of each word: of the flags too, where header bytes are laid later.
fn low_bytes(ws: &[u16], s: &mut [u8; 9000])
    requires { length ws.now ≤ 9000 }
    ensures { s.new ≡ sets s.old 0 (map low ws.now) }
{
    for (i, w) in ws.iter().enumerate() {
        s[i] = low(*w);
    }
}

// "Three header bytes stand in place of the flag" (001, figure 6), in one packet of DC + 7 words after the other. "Header byte 2: reserved"
// stands there already: FFh is the low byte of the flag's last word, 3FFh.
fn lay_heads(ls: &[u16], ws: &[u16], s: &mut [u8; 9000])
    requires { Sections ls.now ws.now × (length ws.now ≤ 9000) }
    ensures { (before : List ℕ) → s.old ≡ sets before 0 (map low ws.now)
        → LaysString ls.now ws.now before s.new }
{
    let mut at = 0;
    for k in 0..ls.len() / 2 {
        let line = Line(ls[2 * k]);
        s[at] = head0(line);
        s[at + 1] = head1(line, ls[2 * k + 1]);
        at += low_byte(ws[at + 5]) + 7;
    }
}

// "A string is nothing, or one packet and then a string that is shorter by that packet": DANC packets back to back (001, figure 6).
// One pass over all words and then the headers, since short runs of bytes are slower than one long one.
pub fn string_of(ls: &[u16], ws: &[u16], s: &mut [u8; 9000])
    requires { Sections ls.now ws.now × (length ws.now ≤ 9000) }
    ensures { LaysString ls.now ws.now s.old s.new }
{
    low_bytes(ws, s);
    lay_heads(ls, ws, s);
}
