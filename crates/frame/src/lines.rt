// The lines on which a packet may stand (document 02, A3): no line, or a line of the vertical interval where no signal is switched (003, table
// 3a).
ghost use Rattle.std.specs.Prelude.{◌≡◌, ℕ};
ghost use Rattle.rules.specs.Systems.{System, allowed};
ghost use Rattle.frame.specs.Lines.{lines_of, is_in};

use crate::Line;

// No line, as bits.
const NO_LINES: [u64; 32] = [0; 32];

// A format whose lines 003, table 3a tells.
pub trait Raster {
    ghost last: { ℕ };

    // Whether a packet may stand on the line: 0 is no line. In a loop over lines its comparisons become vector code.
    fn is_allowed(line: Line) -> bool
        ensures { (y : System) → y.last ≡ last → result ≡ allowed y line.0 };

    // The same lines as bits: line n is bit n % 64 of number n / 64. Line 0 is not among them: where LE is 1 it is a fault.
    fn lines() -> [u64; 32]
        ensures { result ≡ lines_of last };
}

pub struct Raster1080;

impl Raster for Raster1080 {
    ghost last = { 1125 };

    // "1124 - 1125; 1 - 20; 561 - 583" without "7 - 8; 569 - 570".
    fn is_allowed(line: Line) -> bool {
        matches!(line.0, 0..=20 | 561..=583 | 1124..=1125) && !matches!(line.0, 7..=8 | 569..=570)
    }

    fn lines() -> [u64; 32] {
        let mut lines = NO_LINES;
        lines[0] = 0x1FFE7E;
        lines[8] = 0xF9FE000000000000;
        lines[9] = 0xFF;
        lines[17] = 0x3000000000;
        lines
    }
}

pub struct Raster720;

impl Raster for Raster720 {
    ghost last = { 750 };

    // "746 - 750; 1 - 25" without "7 - 8".
    fn is_allowed(line: Line) -> bool {
        matches!(line.0, 0..=25 | 746..=750) && !matches!(line.0, 7..=8)
    }

    fn lines() -> [u64; 32] {
        let mut lines = NO_LINES;
        lines[0] = 0x3FFFE7E;
        lines[11] = 0x7C0000000000;
        lines
    }
}

// The last line tells 1080 from 720.
pub fn may_stand(last: Line, line: Line) -> bool
    ensures { (y : System) → y.last ≡ last.0 → result ≡ allowed y line.0 }
{
    match last.0 {
        1125 => Raster1080::is_allowed(line),
        750 => Raster720::is_allowed(line),
        _ => line.0 <= last.0,
    }
}

// The same lines as bits, which a caller asks for once: to find a line among them takes no branch.
pub fn lines_of(last: Line) -> [u64; 32]
    ensures { result ≡ lines_of last.0 }
{
    match last.0 {
        1125 => Raster1080::lines(),
        750 => Raster720::lines(),
        _ => NO_LINES,
    }
}

// Whether a line is among them, by its low eleven bits: a header has no more.
pub fn is_in(lines: &[u64; 32], line: Line) -> bool
    ensures { result ≡ is_in lines.now line.0 }
{
    (lines[(line.0 / 64 % 32) as usize] >> (line.0 % 64)) % 2 == 1
}
