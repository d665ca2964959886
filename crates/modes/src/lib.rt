// The modes of the modal voice: a bank of filters, and products that may be subnormal.
#![tactic(auto)]

pub mod resonator;
pub mod subnormal;
