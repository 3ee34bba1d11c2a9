// What every program does beside its own work: its words, its standard input and output, and a line where something fails.
#![tactic(auto)]

pub mod input;
pub mod output;
pub mod word;

// A program: what it runs on, and its name, which stands before what it says.
#[derive(Clone, Copy)]
pub struct Program<'a> {
    pub rt: &'a HostRuntime,
    pub name: &'a [u8],
}
