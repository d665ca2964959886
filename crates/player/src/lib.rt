// A player of whole sheets: the events of one block, each with its frame.
#![tactic(auto)]

pub mod play;
pub mod sheet;
