#![tactic(auto)]

pub mod acts;
pub mod calls;
pub mod generator;
