// Three ten-bit samples in four bytes, from the high end; the two low-order bits are not used (004, 5.4.4, figure 5).
ghost use Rattle.std.specs.Prelude.{◌+◌, ◌*◌, ◌/◌, ◌%◌, ◌≤◌, ◌<◌, ◌≡◌, true, length, take, refl};
ghost use Rattle.std.proofs.lemmas.List.Edits.{sets};
ghost use Rattle.rules.specs.Found.{are_ten};
ghost use Rattle.mxf.specs.Element.{four, ten};
ghost use Rattle.mxf.specs.Judging.{array_for, samples_in};
ghost use Rattle.mxf10.specs.Element.{packed, tens};
ghost use Rattle.mxf10.specs.FoundTens.{found_tens};

use frame::wide;
use mxf::Samples;
use rules::Refused;

// Three samples to four bytes.
fn put_three(a: u16, b: u16, c: u16, out: &mut [u8], at: usize)
    requires { (a < 1024) × (b < 1024) × (c < 1024) × (at + 4 ≤ length out.old) }
    ensures { out.new ≡ sets out.old at (four (packed a b c)) }
{
    out[at] = (a / 4) as u8;
    out[at + 1] = (a % 4 * 64 + b / 16) as u8;
    out[at + 2] = (b % 16 * 16 + c / 64) as u8;
    out[at + 3] = (c % 64 * 4) as u8;
}

// The samples of words, "bits 2 to 31"; what is not used is 0.
pub fn pack(ws: &[u16], out: &mut [u8])
    requires { (are_ten ws.now ≡ true) × (length out.old ≡ array_for ten (length ws.now)) }
    ensures { out.new ≡ tens ws.now }
{
    let threes = ws.len() / 3;
    for k in 0..threes {
        let i = 3 * k;
        put_three(ws[i], ws[i + 1], ws[i + 2], out, 4 * k);
    }
    let i = 3 * threes;
    match ws.len() % 3 {
        2 => put_three(ws[i], ws[i + 1], 0, out, 4 * threes),
        1 => put_three(ws[i], 0, 0, out, 4 * threes),
        _ => {}
    }
}

// The first, second and third sample of four bytes.
fn first(a: u8, b: u8) -> u16
    ensures { result ≡ a * 4 + b / 64 }
{
    a as u16 * 4 + b as u16 / 64
}

fn second(b: u8, c: u8) -> u16
    ensures { result ≡ b % 64 * 16 + c / 16 }
{
    b as u16 % 64 * 16 + c as u16 / 16
}

fn third(c: u8, d: u8) -> u16
    ensures { result ≡ c % 16 * 64 + d / 4 }
{
    c as u16 % 16 * 64 + d as u16 / 4
}

// As many samples as there is room for.
pub fn unpack(s: &[u8], out: &mut [u16])
    requires { array_for ten (length out.old) ≤ length s.now }
    ensures { out.new ≡ take (length out.old) (samples_in s.now) }
{
    let threes = out.len() / 3;
    for k in 0..threes {
        let i = 3 * k;
        let o = 4 * k;
        out[i] = first(s[o], s[o + 1]);
        out[i + 1] = second(s[o + 1], s[o + 2]);
        out[i + 2] = third(s[o + 2], s[o + 3]);
    }
    let i = 3 * threes;
    let o = 4 * threes;
    match out.len() % 3 {
        2 => {
            out[i] = first(s[o], s[o + 1]);
            out[i + 1] = second(s[o + 1], s[o + 2]);
        }
        1 => out[i] = first(s[o], s[o + 1]),
        _ => {}
    }
}

// DID to CS of a packet as found, bit for bit (document 02, A13; 004, 7.2).
#[derive(Drop)]
pub struct Ten;

impl Samples for Ten {
    ghost writer = { found_tens };

    ghost LUMA = { 7 };

    ghost COLOUR = { 8 };

    ghost OTHERS = { 4 };

    ghost BESIDE = { 3 };

    ghost DC_BYTES = { 2 };

    ghost named = { (refl, refl, refl, refl, refl) };

    // 004, table 7, sample coding: 10-bit luma samples, 10-bit color difference samples.
    const LUMA: u8 = 7;

    const COLOUR: u8 = 8;

    const OTHERS: usize = 4;

    const BESIDE: usize = 3;

    const DC_BYTES: usize = 2;

    fn new() -> Ten {
        Ten
    }

    fn system_of(sheet: &[u16]) -> Result<u64, Refused> {
        found::test(sheet)
    }

    // "4 bytes representing 3 source samples" (004, 5.4.4).
    fn array_bytes(samples: usize) -> usize {
        4 * ((samples + 2) / 3)
    }

    fn put_samples(ws: &[u16], out: &mut [u8]) {
        pack(ws, out)
    }

    // Its low byte lies in bits 9 to 2 of the array's third and fourth byte.
    fn dc(s: &[u8]) -> usize {
        (wide(s[16]) * 256 + wide(s[17])) / 4 % 256
    }

    // "This allows faithful bit-accurate reproduction of the source sample words": DID to CS as they stand in the array, behind the flag.
    fn write_words(&self, samples: usize, s: &[u8], out: &mut [u16]) {
        out[0] = 0x000;
        out[1] = 0x3FF;
        out[2] = 0x3FF;
        unpack(s, &mut out[3..]);
    }
}
