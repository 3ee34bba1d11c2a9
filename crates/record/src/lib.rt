// The turn record: tagged fields of 754 bytes, written whole and read in place.
#![tactic(auto)]

mod count;
mod field;
mod place;
mod put;
pub mod read;
pub mod write;
