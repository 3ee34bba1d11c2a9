// The words that every crate shares: refusals and their numbers, units, little-endian words, the exclusive or of bytes, writing.
#![tactic(auto)]

pub mod refusal;
pub mod sum;
pub mod unit;
pub mod word;
pub mod write;
