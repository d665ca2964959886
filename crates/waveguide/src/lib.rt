// The string as a digital waveguide.
#![tactic(auto)]

pub mod string;
