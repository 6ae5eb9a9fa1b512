// Packing 2, long packs (001, 4.1.2): a string into the blocks of an area in laying order, one pack to a block.
//
// In order: a pack's three bytes; one pack; the same block of four channels; a row of two sequences; a row of fill; all rows; the
// call; the count.
// A block has N user bytes, 75 or 45: copies of constant length become a few wide moves.
ghost use Rattle.std.specs.Prelude.{◌≡◌, false, cond, [], ◌+◌, ◌-◌, ◌*◌, ◌≤◌, ◌<◌, leb, length};
ghost use Rattle.rules.specs.Blocks.{into};
ghost use Rattle.packing2.specs.Long.{Padded, long_fits, long_after, CountOf, rows_found, four_runs, row_runs, rows_runs, PackAt, Packed, LaidAt};

// "E3h", the first byte of a long pack.
const LONG: u8 = 0xE3;

// "a third byte not used for the string, treated as reserved": written FFh.
const THIRD: u8 = 0xFF;

// "END is 1, but 0 in the pack that holds the string's last byte": the second byte, with the reserved bits above END as 1.
fn end_byte(len: usize, end: usize) -> u8
    ensures { result ≡ 254 + cond (leb len end) 0 1 }
{
    if len <= end {
        return 0xFE;
    }
    0xFF
}

// "then 72 or 42 string bytes": the pack of a block of N user bytes, all FFh where no string byte is left.
// Behind the string's end the lent buffer has FFh, so what is copied looks at no length.
fn pack<const N: usize>(s: &[u8; 9000], at: usize, len: usize) -> [u8; N]
    requires { (3 ≤ N) × (at + (N - 3) ≤ 9000) × (len < 9000) }
    ensures { PackAt N s.now len at result }
{
    let mut bytes = [0xFFu8; N];
    if len <= at {
        return bytes;
    }
    let end = at + (N - 3);
    let a = &mut bytes[..];
    a[0] = LONG;
    a[1] = end_byte(len, end);
    a[2] = THIRD;
    a[3..].copy_from_slice(&s[at..end]);
    bytes
}

// Stores a pack at its block's place in the area.
fn put<const N: usize>(bytes: [u8; N], area: &mut [u8], to: usize)
    requires { to + N ≤ length area.old }
    ensures { area.new ≡ into area.old to N bytes.entry }
{
    area[to..to + N].copy_from_slice(&bytes);
}

// "by sequence, within it by block, within it by channel": the same block of the four channels, which stand `step` bytes apart.
// "One pack of 75 or 45 bytes per block": built in an array of its own and then stored, which is faster than byte by byte.
fn four<const N: usize>(
    s: &[u8; 9000],
    at: usize,
    len: usize,
    area: &mut [u8],
    to: usize,
    step: usize,
)
    requires { (45 ≤ N) × (N ≤ 75) × (at + 4 * (N - 3) ≤ 9000) × (len < 9000) × (to + 3 * step + N ≤ length area.old) }
    ensures { LaidAt (four_runs N to step) s.now len at area.old area.new }
{
    let room = N - 3;
    put::<N>(pack(s, at, len), area, to);
    put::<N>(pack(s, at + room, len), area, to + step);
    put::<N>(pack(s, at + 2 * room, len), area, to + 2 * step);
    put::<N>(pack(s, at + 3 * room, len), area, to + 3 * step);
}

// Blocks 0, 1 and 2 of an even sequence and then of an odd one: 45 user bytes "in block 2 of an even sequence" and "in block 0 of
// an odd one". A row is 480 bytes of a channel, so that its places are constants (001, figure 2).
fn lay_row(s: &[u8; 9000], at: usize, len: usize, area: &mut [u8], to: usize, step: usize)
    requires { (at + 1488 ≤ 9000) × (len < 9000) × (to + 3 * step + 480 ≤ length area.old) }
    ensures { LaidAt (row_runs step to) s.now len at area.old area.new }
{
    four::<75>(s, at, len, area, to + 3, step);
    four::<75>(s, at + 288, len, area, to + 83, step);
    four::<45>(s, at + 576, len, area, to + 163, step);
    four::<45>(s, at + 744, len, area, to + 273, step);
    four::<75>(s, at + 912, len, area, to + 323, step);
    four::<75>(s, at + 1200, len, area, to + 403, step);
}

// Behind the string's end, "All other user bytes are FFh": the same block of the four channels as fill.
fn fill<const N: usize>(area: &mut [u8], to: usize, step: usize)
    requires { (45 ≤ N) × (N ≤ 75) × (to + 3 * step + N ≤ length area.old) }
    ensures { Packed (four_runs N to step) [] area.old area.new }
{
    put([0xFFu8; N], area, to);
    put([0xFFu8; N], area, to + step);
    put([0xFFu8; N], area, to + 2 * step);
    put([0xFFu8; N], area, to + 3 * step);
}

// A row behind the string's end: fill that is stored without a look at the string is faster than 24 packs that find nothing left of it.
fn fill_row(area: &mut [u8], to: usize, step: usize)
    requires { to + 3 * step + 480 ≤ length area.old }
    ensures { Packed (row_runs step to) [] area.old area.new }
{
    fill::<75>(area, to + 3, step);
    fill::<75>(area, to + 83, step);
    fill::<45>(area, to + 163, step);
    fill::<45>(area, to + 273, step);
    fill::<75>(area, to + 323, step);
    fill::<75>(area, to + 403, step);
}

// A row of packs, or of fill where no string byte is left.
fn lay_or_fill(s: &[u8; 9000], at: usize, len: usize, area: &mut [u8], to: usize, step: usize)
    requires { (at + 1488 ≤ 9000) × (len < 9000) × (to + 3 * step + 480 ≤ length area.old) }
    ensures { LaidAt (row_runs step to) s.now len at area.old area.new }
{
    if at >= len {
        fill_row(area, to, step);
        return;
    }
    lay_row(s, at, len, area, to, step);
}

// Row after row: 1,488 string bytes into 480 bytes of each channel every time. A channel is as long as its rows.
fn lay_rows(rows: usize, s: &[u8; 9000], len: usize, area: &mut [u8])
    requires { (rows ≤ 6) × (len < 9000) × (length area.old ≡ 1920 * rows) }
    ensures { LaidAt (rows_runs (480 * rows) 0 rows) s.now len 0 area.old area.new }
{
    let step = 480 * rows;
    for row in 0..rows {
        lay_or_fill(s, 1488 * row, len, area, 480 * row, step);
    }
}

// "Sequences per channel (n)", two to a row; none where "system not 1 to 3".
pub(crate) fn rows_of(system: u64) -> Option<usize>
    ensures { result ≡ rows_found system }
{
    match system {
        1 => Some(5),
        2 => Some(6),
        3 => Some(5),
        _ => None,
    }
}

// Lays a string into the blocks of an area: the buffer's first `len` bytes, with FFh behind them. VS, VSC and all else stay as they
// are (001, figure 2). False, and nothing is laid, where the string is over the "String capacity, long packs", the area is not the
// system's, or the "system not 1 to 3".
pub fn lay_long(system: u64, string: &[u8; 9000], len: usize, area: &mut [u8]) -> bool
    ensures value { result ≡ long_fits system len area.old }
    ensures area_after { Padded len string.now → area.new ≡ long_after system len string.now area.old }
    ensures area_unchanged { long_fits system len area.old ≡ false → area.new ≡ area.old }
{
    let Some(rows) = rows_of(system) else {
        return false;
    };
    if 1488 * rows < len {
        return false;
    }
    if area.len() != 1920 * rows {
        return false;
    }
    lay_rows(rows, string, len, area);
    true
}

// "The unit counts packs laid": 24 in a whole row of 1,488 string bytes; in the last row 8 of 72 bytes, then 8 of 42, then 8 of 72.
pub fn long_count(len: usize) -> usize
    ensures { CountOf len result }
{
    let whole = len / 1488;
    let rest = len % 1488;
    if rest <= 576 {
        return 24 * whole + (rest + 71) / 72;
    }
    if rest <= 912 {
        return 24 * whole + 8 + (rest - 576 + 41) / 42;
    }
    24 * whole + 16 + (rest - 912 + 71) / 72
}
