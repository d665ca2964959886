// What everything stands on: numbers, words and draws, and the laws of loops.
#![tactic(auto)]

pub mod bits;
pub mod floats;
pub mod random;
