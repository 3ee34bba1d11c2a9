// The C interface: each function calls the library's, and hands over the C form of an answer that the library's promise allows.
// C's forms are numbers and structs: a phase, a stage, a state, a stop, a flag and a refusal are bytes. What turns one form into the other is a From,
// and a function where both types are another crate's, or where a refusal gives back the very state that came in.
#![tactic(auto)]

mod answer;
pub mod codec;
pub mod collector;
pub mod hosts;
pub mod model;
pub mod reader;
pub mod records;
pub mod replies;
pub mod rings;
mod sample;
pub mod sessions;
pub mod turns;
