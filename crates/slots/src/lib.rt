// The eight slots of a bank, what a call answers, and the table of refusals.
#![tactic(auto)]

pub mod answers;
pub mod slots;
pub mod table;
