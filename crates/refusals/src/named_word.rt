// The word that a refusal names (document 02, A2), in words: which of the packet's it is, what it is called (SMPTE 291), and what stands there.
ghost use Rattle.std.specs.Prelude.{◌≤◌, ◌<◌, length};

use std::fmt;
use text::Word;

// The low byte of a word; 0 where the words end before it.
fn low_at(words: &[u16], i: usize) -> usize
    ensures { result < 256 }
{
    match words.get(i) {
        Some(w) => usize::from(w % 256),
        None => 0,
    }
}

// "C: the count W of words, then W words": the words. What stands behind them in a buffer is no part of the sheet.
fn section_c(sheet: &[u16]) -> &[u16] {
    if sheet.len() < 4 {
        return &sheet[..0];
    }
    let first = 4 + 2 * usize::from(sheet[2]);
    if sheet.len() < first {
        return &sheet[..0];
    }
    let count = usize::from(sheet[first - 1]);
    let words = &sheet[first..];
    &words[..words.len().min(count)]
}

// The words from packet k on: a packet has DC + 7 words. None, where the words end before it.
fn from_packet(words: &[u16], k: u64) -> &[u16]
    ensures { length result.now ≤ length words.now }
{
    let mut left = words;
    for _ in 0..k {
        let next = low_at(left, 5) + 7;
        if left.len() < next {
            return &left[..0];
        }
        left = &left[next..];
    }
    left
}

// CS stands behind the user words, and no word behind it is named. "Type 1 (DID 80h or above) or Type 2": the data block number of the one stands
// behind DID, the second ID of the other.
fn put_name<W: fmt::Write>(f: &mut fmt::Formatter<W>, packet: &[u16], word: u64) -> fmt::Result {
    match word {
        0..=2 => f.write_str("flag"),
        3 => f.write_str("DID"),
        4 if low_at(packet, 3) < 0x80 => f.write_str("SDID"),
        4 => f.write_str("DBN"),
        5 => f.write_str("DC"),
        _ if word - 6 < low_at(packet, 5) as u64 => write!(f, "user word {}", word - 6),
        _ => f.write_str("CS"),
    }
}

// A word of packet k of a sheet. It is missing where section C ends before it.
pub fn put<W: fmt::Write>(
    f: &mut fmt::Formatter<W>,
    sheet: &[u16],
    k: u64,
    word: u64,
) -> fmt::Result {
    let packet = from_packet(section_c(sheet), k);
    write!(f, ", word {word} (")?;
    put_name(f, packet, word)?;
    match packet.get(word as usize) {
        Some(w) => write!(f, ") is {}", Word(*w)),
        None => f.write_str(") is missing"),
    }
}
