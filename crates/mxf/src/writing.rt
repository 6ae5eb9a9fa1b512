// Writing the element of those packets of a sheet that a call serves (document 02, A1; 004, tables 5 to 7). Tests and measure come first
// and the element is written last, so that on a refusal its buffer is unchanged.
ghost use Rattle.std.specs.Prelude.{ℕ, ◌+◌, ◌*◌, ◌≤◌, ◌<◌, ◌≡◌, List, ◌∷◌, ◌++◌, map, length, drop};
ghost use Rattle.std.proofs.lemmas.List.Edits.{sets};
ghost use Rattle.rules.specs.Base.{joined};
ghost use Rattle.rules.specs.Systems.{System};
ghost use Rattle.rules.specs.Packet.{Packet};
ghost use Rattle.mxf.specs.Element.{two, three, four, key, coding_of};
ghost use Rattle.mxf.specs.Served.{serves as servesFlags, served};
ghost use Rattle.mxf.specs.Writing.{export, with_room_for, written_by, laid_by};
ghost use Rattle.mxf.specs.Writer.{structure_of, SectionsBy, Answered, told_written};
ghost use Rattle.mxf.specs.Demands.{Writes};

use crate::ElementWritten;
use crate::samples::{Eight, Samples};
use frame::Line;
use packet::low_byte;
use rules::{Refusal, Refused};
use sections::{section_b, section_c};

// How many packets are served, and the bytes of their element.
#[derive(Clone, Copy)]
pub struct Measured {
    pub packets: u64,
    pub bytes: usize,
}

// On refusal the later figures are 0. The word is the one that the tests of the sheet name (document 02, A2).
pub fn tell_written(r: Result<Measured, Refused>) -> ElementWritten
    ensures { result ≡ told_written r }
{
    match r {
        Ok(m) => ElementWritten {
            number: 0,
            place: 0,
            word: 0,
            packets: m.packets,
            bytes: m.bytes as u64,
        },
        Err(e) => ElementWritten {
            number: e.refusal.number(),
            place: e.place as u64,
            word: e.word as u64,
            packets: 0,
            bytes: 0,
        },
    }
}

// "For 720/60p one call serves one FI value and passes over packets of the other." Flags: "bit 0 is FI".
pub fn serves(system: u64, fi: bool, flags: u16) -> bool
    ensures { result ≡ servesFlags system fi flags }
{
    if system != 3 {
        return true;
    }
    if fi {
        return flags % 2 == 1;
    }
    flags % 2 == 0
}

// 18, "for one served without a line": its number in the sheet. Or how many packets are served, and the bytes of their element.
fn measure<S: Samples>(system: u64, fi: bool, ls: &[u16], ws: &[u16]) -> Result<Measured, Refused>
    requires { SectionsBy S.writer ls.now ws.now }
    ensures { (y : System) (ps : List Packet) → S.writer.Of y ps ls.now ws.now
        → told_written result ≡ written_by (S.writer.make system) (export system fi ps) }
{
    let mut at = 0;
    let mut packets: u64 = 0;
    let mut bytes = crate::HEAD;
    for k in 0..ls.len() / 2 {
        let dc = low_byte(ws[at + 5]);
        if serves(system, fi, ls[2 * k + 1]) {
            if ls[2 * k] == 0 {
                return Err(Refused {
                    refusal: Refusal::NoLine,
                    place: k,
                    word: 0,
                });
            }
            packets += 1;
            bytes += crate::FIELDS + S::array_bytes(dc + S::OTHERS);
        }
        at += dc + 7;
    }
    Ok(Measured { packets, bytes })
}

// A number of 16 bits, high byte first (004, 5.4).
fn put_two(out: &mut [u8], at: usize, n: u16)
    requires { at + 2 ≤ length out.old }
    ensures { out.new ≡ sets out.old at (two n) }
{
    out[at] = (n / 256) as u8;
    out[at + 1] = (n % 256) as u8;
}

// 001, figure 6: YCF 1 is luma. Flags: "bit 1 is YCF".
fn coding_of<S: Samples>(flags: u16) -> u8
    ensures { result ≡ coding_of S.writer.coding flags }
{
    if flags / 2 == 1 {
        return S::LUMA;
    }
    S::COLOUR
}

// The fields of a structure before its array's bytes (004, table 7). These are few: the high halves of the array's count and element length
// are 0.
pub fn put_fields(line: Line, wrapping: u8, coding: u8, samples: u16, array: u16, out: &mut [u8])
    requires { 14 ≤ length out.old }
    ensures { out.new ≡ sets out.old 0 (two line.0 ++ wrapping ∷ coding ∷ two samples ++ four array ++ four 1) }
{
    put_two(out, 0, line.0);
    out[2] = wrapping;
    out[3] = coding;
    put_two(out, 4, samples);
    put_two(out, 6, 0);
    put_two(out, 8, array);
    put_two(out, 10, 0);
    put_two(out, 12, 1);
}

// A packet's structure (004, table 7) of the words that are sampled, without padding (B.5).
fn put_structure<S: Samples>(line: Line, wrapping: u8, flags: u16, ws: &[u16], out: &mut [u8])
    requires few { length ws.now ≤ 259 }
    requires fits { S.writer.fits ws.now }
    requires out_len { length out.old ≡ 14 + length (S.writer.array ws.now) }
    ensures { out.new ≡ structure_of S.writer.coding S.writer.array line.0 wrapping flags ws.now }
{
    let samples = ws.len();
    let array = S::array_bytes(samples) as u16;
    put_fields(
        line,
        wrapping,
        coding_of::<S>(flags),
        samples as u16,
        array,
        out,
    );
    S::put_samples(ws, &mut out[crate::FIELDS..]);
}

// "This data shall be repeated for each ANC Structure" (004, 7.1): the served packets, in the sheet's order.
fn put_structures<S: Samples>(system: u64, fi: bool, ls: &[u16], ws: &[u16], out: &mut [u8])
    requires sections { SectionsBy S.writer ls.now ws.now }
    requires out_len { (y : System) (ps : List Packet) → S.writer.Of y ps ls.now ws.now
        → length out.old ≡ length (joined (S.writer.bytes system) (map S.writer.item (served system fi ps))) }
    ensures { (y : System) (ps : List Packet) → S.writer.Of y ps ls.now ws.now
        → out.new ≡ joined (S.writer.bytes system) (map S.writer.item (served system fi ps)) }
{
    let wrapping = crate::wrapping(system);
    let mut at = 0;
    let mut o = 0;
    for k in 0..ls.len() / 2 {
        let dc = low_byte(ws[at + 5]);
        let flags = ls[2 * k + 1];
        if serves(system, fi, flags) {
            let samples = dc + S::OTHERS;
            let from = at + 3;
            let next = o + (crate::FIELDS + S::array_bytes(samples));
            put_structure::<S>(
                Line(ls[2 * k]),
                wrapping,
                flags,
                &ws[from..from + samples],
                &mut out[o..next],
            );
            o = next;
        }
        at += dc + 7;
    }
}

// 004, table 6.
fn put_key(out: &mut [u8])
    requires { 16 ≤ length out.old }
    ensures { out.new ≡ sets out.old 0 key }
{
    out[..16].copy_from_slice(&crate::KEY);
}

// Key, length and N (004, tables 5 and 6). "The value of the length property shall be the length of the ANC Element Value": of the bytes
// after it, N included.
pub fn put_head(packets: u16, out: &mut [u8])
    requires { (22 ≤ length out.old) × (length out.old < 16777216) }
    ensures { (n : ℕ) → length out.old ≡ 20 + n
        → out.new ≡ (key ++ 0x83 ∷ three n ++ two packets) ++ drop 22 out.old }
{
    let value = out.len() - 20;
    put_key(out);
    out[16] = crate::LONG_FORM;
    out[17] = (value / 65536) as u8;
    put_two(out, 18, (value % 65536) as u16);
    put_two(out, 20, packets);
}

// The element of the served packets, over the whole of a buffer that is as long as the element.
fn put_element<S: Samples>(
    system: u64,
    fi: bool,
    packets: u16,
    ls: &[u16],
    ws: &[u16],
    out: &mut [u8],
)
    requires sections { SectionsBy S.writer ls.now ws.now }
    requires packets_value { (y : System) (ps : List Packet) → S.writer.Of y ps ls.now ws.now
        → (packets ≡ length (served system fi ps)) × (length out.old ≡ length (S.writer.make system (served system fi ps)))
        × (length out.old < 16777216) }
    ensures { (y : System) (ps : List Packet) → S.writer.Of y ps ls.now ws.now
        → out.new ≡ S.writer.make system (served system fi ps) }
{
    put_head(packets, out);
    put_structures::<S>(system, fi, ls, ws, &mut out[crate::HEAD..]);
}

// 18, then 17, of a sheet that has passed its tests: only then is the element written.
fn write_list<S: Samples>(
    system: u64,
    fi: bool,
    sheet: &[u16],
    element: &mut [u8],
) -> Result<Measured, Refused>
    requires { (ps : List Packet) × S.writer.Sheet system ps sheet.now }
    ensures { (ps : List Packet) → S.writer.Sheet system ps sheet.now
        → (told_written result ≡ written_by (S.writer.make system)
        (with_room_for (S.writer.make system) (length element.old) (export system fi ps)))
        × (element.new ≡ laid_by (S.writer.make system) element.old
        (with_room_for (S.writer.make system) (length element.old) (export system fi ps))) }
{
    let ls = section_b(sheet);
    let ws = section_c(sheet);
    let m = measure::<S>(system, fi, ls, ws)?;
    if element.len() < m.bytes {
        return Err(Refused {
            refusal: Refusal::Buffer,
            place: 0,
            word: 0,
        });
    }
    put_element::<S>(
        system,
        fi,
        m.packets as u16,
        ls,
        ws,
        &mut element[..m.bytes],
    );
    Ok(m)
}

// The tests of a sheet, 18, 17: the element of these samples is written over the front of its buffer, or nothing is.
pub fn write_sheet<S: Samples>(
    sheet: &[u16],
    fi: bool,
    element: &mut [u8],
) -> Result<Measured, Refused>
    ensures { Answered S.writer fi sheet.now element.old (told_written result) element.new }
{
    let system = S::system_of(sheet)?;
    write_list::<S>(system, fi, sheet, element)
}

// "Refusals: on export the lister's, 18, with the packet, for one served without a line, 17" (document 02, A1).
pub fn write(sheet: &[u16], fi: bool, element: &mut [u8]) -> ElementWritten
    ensures { Writes fi sheet.now element.old result element.new }
{
    tell_written(write_sheet::<Eight>(sheet, fi, element))
}
