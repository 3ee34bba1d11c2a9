// From samples to turns: a turn opens at a sample with S = 1 and closes at the next one.
#![tactic(auto)]

mod cells;
pub mod gather;
mod row;
mod take;
