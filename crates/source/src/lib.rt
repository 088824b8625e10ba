// What every description of a conversation stands behind: the source.
#![tactic(auto)]

pub mod label;
pub mod source;
pub mod still;
