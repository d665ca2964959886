// A slot as bytes: its words, a slot read from its bytes, and a slot written into them.
#![tactic(auto)]

pub mod decode;
pub mod encode;
pub mod record;
pub mod words;
