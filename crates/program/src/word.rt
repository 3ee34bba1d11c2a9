// The words that a program is started with.
use crate::Program;
use std::env::FillError;
use std::io::Error;
use std::rt::Env;

// The system's number of the error where a name is too long: its words are printed.
const ENAMETOOLONG: i32 = 36;

// The most words that are counted.
const MANY: usize = 16;

// What a word says to every program. Plain is one that does not begin with a dash, or none at all.
#[derive(Clone, Copy, Debug, PartialEq, Eq)]
pub enum Word {
    Help,
    Version,
    Verbose,
    Unknown,
    Plain,
}

// Why a word that is longer than any name is not taken.
pub fn too_long() -> Error {
    Error::from_raw_os_error(ENAMETOOLONG)
}

impl Program<'_> {
    // What word i says. A file whose name begins with a dash is named with its folder, as ./-x.
    pub fn word(self, i: usize) -> Word {
        let mut text = [0u8; 16];
        let n = self.rt.arg(i, &mut text).unwrap_or(0);
        if text[0] != b'-' {
            return Word::Plain;
        }
        match &text[..n] {
            b"--help" => Word::Help,
            b"--version" => Word::Version,
            b"--verbose" => Word::Verbose,
            _ => Word::Unknown,
        }
    }

    // How many words the program was started with, its own name among them, and no more than 16.
    pub fn arg_count(self) -> usize {
        let mut text = [0u8; 1];
        for n in 0..MANY {
            if let Err(FillError::NotPresent) = self.rt.arg(n, &mut text) {
                return n;
            }
        }
        MANY
    }

    // The version of all programs, in a line behind the program's name.
    pub fn print_version(self) -> bool {
        self.print(self.name) && self.print(b" 1.0\n")
    }
}
