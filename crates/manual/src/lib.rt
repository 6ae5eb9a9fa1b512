// The commands by name, how each is called, and what the command says of itself.
#![tactic(auto)]

pub mod help;
pub mod names;
