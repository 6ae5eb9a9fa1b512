// The frame: the three systems with their figures, where the blocks of an area start, and user bytes out of an area and into it.
// Moving the bytes is in blocks.rt, the lines on which a packet may stand in lines.rt.
#![tactic(auto)]

ghost use Rattle.std.specs.Prelude.{◌≡◌, ◌<◌};
ghost use Rattle.rules.specs.Blocks.{block_start};
ghost use Rattle.frame.specs.Systems.{figures_found};
ghost use Rattle.frame.specs.Bytes.{fits_area, collected, bytes_after, area_with};

mod blocks;
mod lines;

pub use lines::{Raster, Raster720, Raster1080, is_in, lines_of, may_stand};

// "P is at most [1,275]" (document 02, A6). Here because every room that counts packets stands on this one.
pub const LIMIT: usize = 1275;

// The standards number lines, channels, sequences and string bytes separately: one does not stand for another.
#[derive(Clone, Copy)]
pub struct Line(pub u16);

#[derive(Clone, Copy)]
pub struct Channel(pub u8);

#[derive(Clone, Copy)]
pub struct Sequence(pub u8);

#[derive(Clone, Copy)]
pub struct StringByte(pub u64);

// How many sequences a channel has: no sequence's number.
#[derive(Clone, Copy)]
pub struct Sequences(pub u8);

// Document 01, "Three systems": each system carries its figures under its own name.
#[derive(Clone, Copy)]
pub struct Hd1080x60i;

impl Hd1080x60i {
    pub const SEQUENCES: usize = 10;

    pub const LAST_LINE: Line = Line(1125);

    pub const AREA: usize = 9600;

    pub const PACKS: usize = 1560;

    pub const STRING: usize = 7440;
}

#[derive(Clone, Copy)]
pub struct Hd1080x50i;

impl Hd1080x50i {
    pub const SEQUENCES: usize = 12;

    pub const LAST_LINE: Line = Line(1125);

    pub const AREA: usize = 11520;

    pub const PACKS: usize = 1872;

    pub const STRING: usize = 8928;
}

#[derive(Clone, Copy)]
pub struct Hd720x60p;

impl Hd720x60p {
    pub const SEQUENCES: usize = 10;

    pub const LAST_LINE: Line = Line(750);

    pub const AREA: usize = 9600;

    pub const PACKS: usize = 1560;

    pub const STRING: usize = 7440;
}

// All figures of a system.
#[derive(Clone, Copy)]
pub struct Figures {
    pub sequences: usize,
    pub last_line: Line,
    pub area: usize,
    pub packs: usize,
    pub string_bytes: usize,
}

// A sheet and a call name their system by number: its figures are what the rules compute from the blocks. None of one that is not known.
pub fn figures_of(system: u64) -> Option<Figures>
    ensures { result ≡ figures_found system }
{
    match system {
        1 => Some(Figures {
            sequences: Hd1080x60i::SEQUENCES,
            last_line: Hd1080x60i::LAST_LINE,
            area: Hd1080x60i::AREA,
            packs: Hd1080x60i::PACKS,
            string_bytes: Hd1080x60i::STRING,
        }),
        2 => Some(Figures {
            sequences: Hd1080x50i::SEQUENCES,
            last_line: Hd1080x50i::LAST_LINE,
            area: Hd1080x50i::AREA,
            packs: Hd1080x50i::PACKS,
            string_bytes: Hd1080x50i::STRING,
        }),
        3 => Some(Figures {
            sequences: Hd720x60p::SEQUENCES,
            last_line: Hd720x60p::LAST_LINE,
            area: Hd720x60p::AREA,
            packs: Hd720x60p::PACKS,
            string_bytes: Hd720x60p::STRING,
        }),
        _ => None,
    }
}

// A byte as a place or a number of bytes, so that no caller has to show that the cast keeps it.
pub fn wide(x: u8) -> usize
    ensures { (result ≡ x) × (result < 256) }
{
    x as usize
}

// Where a block of an area starts (document 01; 001, figure 1: one channel after the other, in it one sequence after the other).
// The numbers are bytes, so that no sum can wrap.
pub fn block_start(n: Sequences, channel: Channel, sequence: Sequence, block: u8) -> usize
    ensures { result ≡ block_start n.0 channel.0 sequence.0 block }
{
    80 * (3 * (wide(n.0) * wide(channel.0) + wide(sequence.0)) + wide(block))
}

// Reading takes the user bytes as one run: they go to the start of `us` in laying order (001, table 4), and their number comes back.
// Where the system is not known or the area is of another length that is 0, and `us` stays as it is. No Option: who needs the number has tested both,
// and would have an arm that never runs.
pub fn collect(system: u64, area: &[u8], us: &mut [u8; 9360]) -> usize
    ensures value { result ≡ collected system area.now }
    ensures us_after { us.new ≡ bytes_after system area.now us.old }
{
    let Some(figures) = figures_of(system) else {
        return 0;
    };
    let n = figures.sequences;
    if area.len() != figures.area {
        return 0;
    }
    blocks::rows_out(area, 240 * n, n / 2, us);
    780 * n
}

// Laying puts the first bytes of `us` into the blocks in laying order; VS, VSC and all else stay as they are (001, figure 2).
// Where the system is not known or the area is of another length the answer is false, and the area stays as it is.
pub fn spread(system: u64, us: &[u8; 9360], area: &mut [u8]) -> bool
    ensures value { result ≡ fits_area system area.old }
    ensures area_after { area.new ≡ area_with system us.now area.old }
{
    let Some(figures) = figures_of(system) else {
        return false;
    };
    let n = figures.sequences;
    if area.len() != figures.area {
        return false;
    }
    blocks::rows_in(us, area, 240 * n, n / 2);
    true
}
