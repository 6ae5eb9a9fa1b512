// Packing 2, long packs (001, 4.1.2): laid into the blocks of an area by `long`, opened from a run of user bytes by `unlong`.
#![tactic(auto)]

mod long;
mod unlong;

pub use long::{lay_long, long_count};
pub use unlong::{Opened, open_long};
