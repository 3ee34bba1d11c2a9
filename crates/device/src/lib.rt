// The bench's side of the line: the collector of requests and the model of the scanner.
#![tactic(auto)]

pub mod collector;
pub mod model;
