// What every command has in common: its arguments, and how it ends.
#![tactic(auto)]

pub mod arguments;
pub mod ending;
