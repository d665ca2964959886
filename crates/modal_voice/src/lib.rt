// The modal voice: a click or dust, its filter, and the resonator.
#![tactic(auto)]

pub mod modal_voice;
#[cfg(test)]
mod tests;
