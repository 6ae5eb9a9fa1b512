// Reading packing 2, long packs (001, 4.1.2): the string out of a frame's user bytes in laying order, one pack to a block.
//
// In order: bytes pulled down in place; the packs by number; fill behind the last; whole rows; the call.
ghost use Rattle.std.specs.Prelude.{◌≡◌, Some, None, cond, ◌+◌, ◌*◌, ◌-◌, ◌≤◌, ◌<◌, length, take, drop, replicate};
ghost use Rattle.std.proofs.lemmas.List.Edits.{sets};
ghost use Rattle.rules.specs.Base.{all_is};
ghost use Rattle.packing2.specs.Long.{row_sizes, rows_sizes};
ghost use Rattle.packing2.specs.Unlong.{opened_from, opened_of, Pulled, room_at, go_on, pulled_down, opened_on};

// The string bytes of all packs, and those of the last one.
#[derive(Clone, Copy)]
pub struct Opened {
    pub bytes: usize,
    pub room: usize,
}

// Pulls the N string bytes of a pack down in place: through an array of their own, since the places may overlap, and a copy of
// constant length becomes a few wide moves.
fn down<const N: usize>(us: &mut [u8; 9360], from: usize, to: usize)
    requires { (from + N ≤ 9360) × (to ≤ from) }
    ensures { us.new ≡ sets us.old to (take N (drop from us.old)) }
{
    let mut bytes = [0u8; N];
    bytes.copy_from_slice(&us[from..from + N]);
    us[to..to + N].copy_from_slice(&bytes);
}

// "then 72 or 42 string bytes": those of pack k of a row of two sequences, which has 8 packs of 75, 8 of 45 and 8 of 75 (001,
// 4.1.2, figure 8), are pulled down. The answer is how many they are.
fn pull(us: &mut [u8; 9360], k: usize, from: usize, to: usize) -> usize
    requires { (from + room_at k ≤ 9360) × (to ≤ from) }
    ensures value { result ≡ room_at k }
    ensures us_after { us.new ≡ sets us.old to (take (room_at k) (drop from us.old)) }
{
    if 8 <= k && k < 16 {
        down::<42>(us, from, to);
        return 42;
    }
    down::<72>(us, from, to);
    72
}

// What the pack with END 0 gives, if only fill is behind it.
fn last(us: &[u8; 9360], at: usize, total: usize, opened: Opened) -> Option<Opened>
    requires { (at ≤ total) × (total ≤ 9360) }
    ensures { result ≡ cond (all_is 0xFF (take (total - at) (drop at us.now))) (Some opened) None }
{
    let s = &us[..];
    danc::all_fill(&s[at..total]).then_some(opened)
}

// "only the last has END 0": whether eight packs of one size all go on, which is to begin with E3h and have END 1. The loop does not end
// at one that fails, so that it has no branch.
fn eight_go_on(us: &[u8], at: usize, size: usize) -> bool
    requires { (2 ≤ size) × (size ≤ 75) × (at + 8 * size ≤ length us.now) }
    ensures { result ≡ go_on (replicate 8 size) (drop at us.now) }
{
    let mut ok = true;
    for i in 0..8 {
        let f = at + size * i;
        ok = ok & (us[f] == 0xE3) & (us[f + 1] % 2 == 1);
    }
    ok
}

// The same for a row of two sequences: 8 packs of 75, 8 of 45 and 8 of 75.
fn row_goes_on(us: &[u8], at: usize) -> bool
    requires { at + 1560 ≤ length us.now }
    ensures { result ≡ go_on row_sizes (drop at us.now) }
{
    if !eight_go_on(us, at, 75) {
        return false;
    }
    if !eight_go_on(us, at + 600, 45) {
        return false;
    }
    eight_go_on(us, at + 960, 75)
}

// Pulls the string bytes of eight packs down in place, N of each.
fn eight<const N: usize>(us: &mut [u8; 9360], from: usize, to: usize)
    requires { (from + 8 * (N + 3) ≤ 9360) × (to ≤ from) }
    ensures { us.new ≡ pulled_down (replicate 8 (N + 3)) us.old from to }
{
    for i in 0..8 {
        down::<N>(us, from + (N + 3) * i + 3, to + N * i);
    }
}

// The same for a row.
fn pull_row(us: &mut [u8; 9360], from: usize, to: usize)
    requires { (from + 1560 ≤ 9360) × (to ≤ from) }
    ensures { us.new ≡ pulled_down row_sizes us.old from to }
{
    eight::<72>(us, from, to);
    eight::<42>(us, from + 600, to + 576);
    eight::<72>(us, from + 960, to + 912);
}

// Pulls down the rows at the start whose packs all go on, and says how many they are. Within a row every size is known, so this is
// faster than pack by pack. What is left opens to the same onto the string bytes so far.
fn pull_rows(us: &mut [u8; 9360], rows: usize) -> usize
    requires { rows ≤ 6 }
    ensures upper_bound { result ≤ rows }
    ensures result_after { opened_on (rows_sizes (rows - result)) (1560 * rows) us.new (1560 * result) (1488 * result)
        ≡ opened_on (rows_sizes rows) (1560 * rows) us.old 0 0 }
{
    for r in 0..rows {
        if !row_goes_on(&us[..], 1560 * r) {
            return r;
        }
        pull_row(us, 1560 * r, 1488 * r);
    }
    rows
}

// "the packs run from the first block without a gap, only the last has END 0, and every later user byte is FFh". The string bytes
// of all packs are pulled down to the start of `us`; none, where the packs are not so. The third byte is "treated as reserved".
pub fn open_long(system: u64, us: &mut [u8; 9360]) -> Option<Opened>
    ensures value { result ≡ opened_of (opened_from system us.old) }
    ensures pulled { Pulled (opened_from system us.old) us.new }
{
    let rows = crate::long::rows_of(system)?;
    let total = 1560 * rows;
    let whole = pull_rows(us, rows);
    let mut at = 1560 * whole;
    let mut len = 1488 * whole;
    for _ in whole..rows {
        for k in 0..24 {
            let s = &us[..];
            if s[at] != 0xE3 {
                return None;
            }
            let end = s[at + 1] % 2;
            let room = pull(us, k, at + 3, len);
            at += 3 + room;
            len += room;
            if end == 0 {
                return last(us, at, total, Opened { bytes: len, room });
            }
        }
    }
    None
}
