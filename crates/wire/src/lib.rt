// What goes over the line: requests, descriptors, info and health replies, samples; each written and read.
#![tactic(auto)]

pub mod descriptor;
pub mod reply;
pub mod request;
pub mod sample;
