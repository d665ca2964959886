// The string voice: an excitation, its filter, and the string.
#![tactic(auto)]

pub mod string_voice;
