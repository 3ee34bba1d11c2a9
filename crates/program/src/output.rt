// What a program says. Results go to standard output; what fails is a line on standard error that begins with the program's name.
ghost use Rattle.std.specs.Prelude.{◌≡◌, ◌≤◌, length, Ok, IsErr, MatchResult};
ghost use Rattle.io.specs.Counts.{IsPrefixLen};

use crate::Program;
use std::fmt::Display;
use std::io::{Cursor, Error, ErrorKind, Write};
use text::Text;

// The numbers of standard output and error.
pub const STDOUT: i32 = 1;

pub const STDERR: i32 = 2;

// That something failed, and that why was said.
#[derive(Clone, Copy, Debug, PartialEq, Eq)]
pub struct Said;

// What is shown, in a text that may be too short for all of it.
pub fn shown<'a, D: Display + Drop>(text: &'a mut [u8], what: D) -> &'a [u8]
    ensures { length result.now ≤ length text.old }
{
    let mut at = Cursor::new(&mut *text);
    let _ = write!(at, "{what}");
    let end = at.position() as usize;
    &text[..end.min(text.len())]
}

// The system's words for an error, without its number behind them.
fn words(text: &[u8]) -> &[u8] {
    let end = (0..text.len())
        .find(|i| text[*i..].starts_with(b" (os error "))
        .unwrap_or(text.len());
    &text[..end]
}

impl Program<'_> {
    // What failed, and why by the system's own words.
    pub fn failed(self, what: &[u8], why: Error) {
        let mut text = [0u8; 256];
        self.tell(STDERR, what, words(shown(&mut text, why)));
    }

    // What failed, and why, told to a descriptor.
    pub fn tell(self, fd: i32, what: &[u8], why: &[u8]) {
        for part in [self.name, b": ", what, b": ", why, b"\n"] {
            io::write_all(fd, part);
        }
    }

    // What came of a try at something; where it failed, why is said.
    pub fn or_say<T>(self, what: &[u8], outcome: std::io::Result<T>) -> Result<T, Said>
        ensures { MatchResult outcome (λ x. result ≡ Ok x) (λ _. IsErr result) }
    {
        outcome.map_err(|why| {
            self.failed(what, why);
            Said
        })
    }

    // A text on standard output; where it cannot be written whole, that is said, and why is handed on.
    pub fn try_print(self, text: &[u8]) -> std::io::Result<()> {
        self.rt
            .stdout()
            .write_all(text)
            .inspect_err(|why| self.failed(b"standard output", *why))
    }

    // A text on standard output; where it cannot be written whole, that is said.
    pub fn print(self, text: &[u8]) -> bool {
        self.try_print(text).is_ok()
    }

    // A line of a word, a space and a number.
    pub fn print_number(self, word: &[u8], n: u64) -> bool {
        let mut bytes = [0u8; 64];
        let mut line = Text {
            bytes: &mut bytes,
            end: 0,
        };
        line.bytes(word);
        line.byte(b' ');
        line.number(n);
        line.byte(b'\n');
        self.print(line.as_bytes())
    }
}

// Whether output was a pipe that nobody reads any more.
pub fn is_left(why: Error) -> bool {
    why.kind() == ErrorKind::BrokenPipe
}
