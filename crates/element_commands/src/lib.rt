// The commands on sheets and MXF elements (document 02, A1); what is proved of them as in `frame_commands`.
#![tactic(auto)]

pub mod read;
pub mod samples;
pub mod write;
