// The user bytes of blocks moved between an area and one run of bytes, in laying order (001, figure 2 and table 4).
// A block goes through a local array of constant length, so that both copies become vector moves.
ghost use Rattle.std.specs.Prelude.{◌≡◌, ◌+◌, ◌*◌, ◌≤◌, length, drop};
ghost use Rattle.rules.specs.Blocks.{into};
ghost use Rattle.frame.specs.Moves.{moved, four, row_out, row_in, rows_out, rows_in};

// The N user bytes of a block, from a place of one list to a place of another: the same for reading and for laying. They are 75 of a whole block,
// and 45 of the two of a row that hold VS and VSC (001, figure 2).
fn move_block<const N: usize>(src: &[u8], from: usize, dst: &mut [u8], to: usize)
    requires { (from + N ≤ length src.now) × (to + N ≤ length dst.old) }
    ensures { dst.new ≡ into dst.old to N (drop from src.now) }
{
    let mut block = [0u8; N];
    block.copy_from_slice(&src[from..from + N]);
    dst[to..to + N].copy_from_slice(&block);
}

// Laying order goes over the four channels within a block (001, table 4): `fs` and `ts` are the steps from one to the next.
fn four<const N: usize>(src: &[u8], from: usize, fs: usize, dst: &mut [u8], to: usize, ts: usize)
    requires { (from + 3 * fs + N ≤ length src.now) × (to + 3 * ts + N ≤ length dst.old) }
    ensures { dst.new ≡ moved (four N from fs to ts) src.now dst.old }
{
    move_block::<N>(src, from, dst, to);
    move_block::<N>(src, from + fs, dst, to + ts);
    move_block::<N>(src, from + 2 * fs, dst, to + 2 * ts);
    move_block::<N>(src, from + 3 * fs, dst, to + 3 * ts);
}

// A row is an even sequence and the odd one after it, so that its places are constants (001, figure 2): the block at 163 has its
// 45 bytes before VS and VSC, the one at 273 after them. Channels stand `step` bytes apart.
fn row_out(area: &[u8], from: usize, step: usize, us: &mut [u8], to: usize)
    requires { (from + 3 * step + 480 ≤ length area.now) × (to + 1560 ≤ length us.old) }
    ensures { us.new ≡ moved (row_out step from to) area.now us.old }
{
    four::<75>(area, from + 3, step, us, to, 75);
    four::<75>(area, from + 83, step, us, to + 300, 75);
    four::<45>(area, from + 163, step, us, to + 600, 45);
    four::<45>(area, from + 273, step, us, to + 780, 45);
    four::<75>(area, from + 323, step, us, to + 960, 75);
    four::<75>(area, from + 403, step, us, to + 1260, 75);
}

// The same blocks into an area.
fn row_in(us: &[u8], from: usize, area: &mut [u8], to: usize, step: usize)
    requires { (from + 1560 ≤ length us.now) × (to + 3 * step + 480 ≤ length area.old) }
    ensures { area.new ≡ moved (row_in step from to) us.now area.old }
{
    four::<75>(us, from, 75, area, to + 3, step);
    four::<75>(us, from + 300, 75, area, to + 83, step);
    four::<45>(us, from + 600, 45, area, to + 163, step);
    four::<45>(us, from + 780, 45, area, to + 273, step);
    four::<75>(us, from + 960, 75, area, to + 323, step);
    four::<75>(us, from + 1260, 75, area, to + 403, step);
}

// All rows of an area, out of it. A channel is `step` bytes long.
pub(crate) fn rows_out(area: &[u8], step: usize, rows: usize, us: &mut [u8; 9360])
    requires { (480 * rows ≤ step) × (length area.now ≡ 4 * step) × (rows ≤ 6) }
    ensures { us.new ≡ moved (rows_out step 0 0 rows) area.now us.old }
{
    for h in 0..rows {
        row_out(area, 480 * h, step, us, 1560 * h);
    }
}

// All rows of an area, into it.
pub(crate) fn rows_in(us: &[u8; 9360], area: &mut [u8], step: usize, rows: usize)
    requires { (480 * rows ≤ step) × (length area.old ≡ 4 * step) × (rows ≤ 6) }
    ensures { area.new ≡ moved (rows_in step 0 0 rows) us.now area.old }
{
    for h in 0..rows {
        row_in(us, 1560 * h, area, 480 * h, step);
    }
}
