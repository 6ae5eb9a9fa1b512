// Samples of one coding (004, table 7, "Payload Sample Coding"): what the elements of 8-bit and of ten-bit samples differ in.
ghost use Rattle.std.specs.Prelude.{ℕ, ◌+◌, ◌≤◌, ◌<◌, ◌≡◌, length, refl};
ghost use Rattle.packet.specs.Run.{word_table};
ghost use Rattle.mxf.specs.Element.{luma, colour};
ghost use Rattle.mxf.specs.Judging.{others, array_for, dc_in, dc_bytes};
ghost use Rattle.mxf.specs.Parts.{beside, words_by};
ghost use Rattle.rules.specs.Refusals.{told_of};
ghost use Rattle.mxf.specs.Writer.{Writer, tested_by};
ghost use Rattle.mxf.specs.Eights.{eights};

use frame::wide;
use packet::low;
use rules::Refused;

pub trait Samples: Drop {
    ghost writer: { Writer };

    ghost LUMA: { ℕ };

    ghost COLOUR: { ℕ };

    ghost OTHERS: { ℕ };

    ghost BESIDE: { ℕ };

    ghost DC_BYTES: { ℕ };

    // Luma samples, and color difference samples.
    const LUMA: u8;

    const COLOUR: u8;

    // The samples of a packet beside its user words.
    const OTHERS: usize;

    // The words of a packet beside its samples.
    const BESIDE: usize;

    // The bytes of an array that DC's sample lies in, from the third on.
    const DC_BYTES: usize;

    fn new() -> Self;

    // The tests of a sheet whose packets are written in these samples: its system, or the refusal.
    fn system_of(sheet: &[u16]) -> Result<u64, Refused>
        ensures { told_of result ≡ tested_by writer sheet.now (writer.tests sheet.now) };

    // How many bytes so many samples take.
    fn array_bytes(samples: usize) -> usize
        requires { samples ≤ 65535 }
        ensures { result ≡ array_for writer.coding samples };

    // The samples of words.
    fn put_samples(ws: &[u16], out: &mut [u8])
        requires fits { writer.fits ws.now }
        requires out_len { length out.old ≡ array_for writer.coding (length ws.now) }
        ensures { out.new ≡ writer.array ws.now };

    // DC of a structure.
    fn dc(s: &[u8]) -> usize
        requires { 16 + dc_bytes writer.coding ≤ length s.now }
        ensures { (result ≡ dc_in writer.coding s.now) × (result < 256) };

    // The words of a packet from so many samples at the front of an array: "A decoder regenerating a video signal .. shall generate the required
    // ANC packet flag words, the checksum word, parity and inverted parity-bits" (004, 7.2).
    fn write_words(&self, samples: usize, s: &[u8], out: &mut [u16])
        requires room { array_for writer.coding samples ≤ length s.now }
        requires out_len { length out.old ≡ samples + beside writer.coding }
        ensures { out.new ≡ words_by writer.coding samples s.now };

    ghost named: { (LUMA ≡ luma writer.coding) × (COLOUR ≡ colour writer.coding) × (OTHERS ≡ others writer.coding)
        × (BESIDE ≡ beside writer.coding) × (DC_BYTES ≡ dc_bytes writer.coding) };
}

// 8-bit samples, "from DID to the last user word, without CS" (document 02, A1).
#[derive(Drop)]
pub struct Eight {
    words: [u16; 256],
    ghost table: { words ≡ word_table },
}

impl Samples for Eight {
    ghost writer = { eights };

    ghost LUMA = { 4 };

    ghost COLOUR = { 5 };

    ghost OTHERS = { 3 };

    ghost BESIDE = { 4 };

    ghost DC_BYTES = { 1 };

    ghost named = { (refl, refl, refl, refl, refl) };

    // 004, table 7, sample coding: 8-bit luma samples, 8-bit color difference samples.
    const LUMA: u8 = 4;

    const COLOUR: u8 = 5;

    const OTHERS: usize = 3;

    const BESIDE: usize = 4;

    const DC_BYTES: usize = 1;

    // A few words at a time are looked up.
    fn new() -> Eight {
        Eight {
            words: packet::words(),
        }
    }

    // "the lister's" tests.
    fn system_of(sheet: &[u16]) -> Result<u64, Refused> {
        let header = sheet::tests(sheet)?;
        Ok(header.system)
    }

    fn array_bytes(samples: usize) -> usize {
        samples
    }

    // "The low-order 8-bits from the source ANC packet" (004, 7.2).
    fn put_samples(ws: &[u16], out: &mut [u8]) {
        for (i, w) in ws.iter().enumerate() {
            out[i] = low(*w);
        }
    }

    fn dc(s: &[u8]) -> usize {
        wide(s[16])
    }

    fn write_words(&self, samples: usize, s: &[u8], out: &mut [u16]) {
        sheet::write_words(&self.words, &s[..samples], out);
    }
}
