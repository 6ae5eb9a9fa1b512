// Laying within the eight-bit profile (document 02, A14; 003, 6.5.1): for equipment that drops the two low bits of each word. One test more, 29,
// stands behind laying's 11 and before its 12; what passes it is laid by `vanc::lay`.
#![tactic(auto)]

ghost use Rattle.std.specs.Prelude.{◌≡◌};
ghost use Rattle.profile.specs.Profile.{eight_ids};
ghost use Rattle.profile.specs.Demands.{LaysStrict};
ghost use Rattle.profile.specs.Search.{Seeks, Answers};

use packet::low_byte;
use rules::{Laid, Refusal};

// "DID 04h, 08h or 0Ch only; SDID a multiple of four and not 00h."
fn are_eight(did: usize, sdid: usize) -> bool
    ensures { result ≡ eight_ids did sdid }
{
    ((did == 0x04) | (did == 0x08) | (did == 0x0C)) & ((sdid % 4 == 0) & (sdid != 0x00))
}

// The first packet outside the profile, where there is one.
// "29 with the packet": packets back to back, of DC + 7 words each. The words have not been tested yet, so that a packet may be cut off, and what is
// found among the words of no sound list is not asked for.
fn first_outside(ws: &[u16]) -> Option<u64>
    ensures { Seeks ws.now result }
{
    let mut at = 0;
    let mut k: u64 = 0;
    while at + 5 < ws.len() {
        if !are_eight(low_byte(ws[at + 3]), low_byte(ws[at + 4])) {
            return Some(k);
        }
        at += low_byte(ws[at + 5]) + 7;
        k += 1;
    }
    None
}

// Whether laying comes as far as its last test: the packing is one, the sheet passes its tests, and the area has the length of its system's.
fn comes_to_room(sheet: &[u16], packing: u64, bytes: usize) -> bool
    ensures { Answers packing sheet.now bytes result }
{
    if packing != 1 && packing != 2 {
        return false;
    }
    let Ok(header) = sheet::tests(sheet) else {
        return false;
    };
    match frame::figures_of(header.system) {
        Some(figures) => bytes == figures.area,
        None => false,
    }
}

// "29 .., after 11 and before 12". The profile is looked at first, since that is quick; the sheet is tested for it only where a packet is outside, so
// that a list within the profile is tested once.
pub fn lay(sheet: &[u16], packing: u64, area: &mut [u8]) -> Laid
    ensures { LaysStrict packing sheet.now area.old result area.new }
{
    if let Some(place) = first_outside(sections::section_c(sheet)) {
        if comes_to_room(sheet, packing, area.len()) {
            return Laid {
                number: Refusal::EightBits.number(),
                place,
                word: 0,
                packs: 0,
                bytes: 0,
            };
        }
    }
    vanc::lay(sheet, packing, area)
}
