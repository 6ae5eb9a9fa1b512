// The commands on sheets and the areas of frames. What they print and what they do with files is tested, and not proved; that they lay and read what
// the rules say, the contracts of `file_codec` promise.
#![tactic(auto)]

pub mod lay;
pub mod list;
pub mod read;
