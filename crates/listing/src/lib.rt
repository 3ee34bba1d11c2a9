// The text of a ring, written into a lent buffer.
#![tactic(auto)]

mod image;
mod line;
mod turn;

pub use image::{ROOM, list};
pub use line::{LINE_ROOM, list_turn};
