// Where the blocks of an area start, in laying order: 001, table 4, for the three systems. A line has the sequence, the block's name there
// (VA block, channel) and its start; tests/block_cases.py writes what is to be printed.
#![tactic(auto)]

use frame::{Channel, Hd720x60p, Hd1080x50i, Hd1080x60i, Sequence, Sequences};
use std::io;

fn line(rt: &impl Print, n: u8, q: u8, j: u8, i: u8) -> io::Result<()> {
    let start = frame::block_start(Sequences(n), Channel(i), Sequence(q), j);
    println!(rt; "{q} VA {j},{i} {start}")
}

// By sequence, within it by block, within that by channel.
fn blocks(rt: &impl Print, n: u8) -> io::Result<()> {
    for q in 0..n {
        for j in 0..3 {
            for i in 0..4 {
                line(rt, n, q, j, i)?;
            }
        }
    }
    Ok(())
}

fn main(rt: HostRuntime) -> io::Result<()> {
    blocks(&rt, Hd1080x60i::SEQUENCES as u8)?;
    blocks(&rt, Hd1080x50i::SEQUENCES as u8)?;
    blocks(&rt, Hd720x60p::SEQUENCES as u8)
}
