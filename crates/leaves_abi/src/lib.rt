// The leaves, for a host to call: one by one, and some over a buffer.
// A struct crosses as a lent slice of its fields; of another length, or where a place is outside its line, a call gives 0 and changes nothing.
#![tactic(auto)]

pub mod buffers;
pub mod filter;
pub mod floats;
pub mod interpolator;
pub mod line;
pub mod oscillator;
pub mod random;
pub mod rows;
pub mod shaping;
