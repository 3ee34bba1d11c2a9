// The ring of turn records in a memory that the caller lends: one head byte and 64 slots of 768 bytes.
#![tactic(auto)]

mod memory;
mod place;
mod reading;
mod storing;

pub use place::SLOTS;
pub use reading::{all_read, held, turn, turn_refusal, turn_start};
pub use storing::{add, erase, store};
