// Bytes from standard input and from files. A read that fails is told apart from the input's end.
ghost use Rattle.std.specs.Prelude.{MatchResult, ◌≤◌, length};
ghost use Rattle.std.specs.Io.{ReadsAtMost};
ghost use Rattle.io.specs.Counts.{IsPrefixLen};

use crate::Program;
use crate::output::{STDERR, Said};
use std::fs::{File, OpenOptions};
use std::io::{Error, Read};
use std::os::fd::{AsRawFd, IntoRawFd};

const STDIN: i32 = 0;

// The system's number of the error where a name is no text: its words are printed.
const EILSEQ: i32 = 84;

// A read that failed: how many bytes came before it, and why.
#[derive(Clone, Copy, Debug)]
pub struct Broken {
    pub bytes: usize,
    pub why: Error,
}

// Why a name that is no text is not taken.
pub fn no_text() -> Error {
    Error::from_raw_os_error(EILSEQ)
}

// A name as the text that files are opened by.
pub fn name_text(path: &[u8]) -> std::io::Result<&str> {
    std::str::from_utf8(path).map_err(|_| no_text())
}

// Opens a file for reading.
pub fn open_read(rt: &HostRuntime, path: &[u8]) -> std::io::Result<File> {
    File::open(rt, name_text(path)?)
}

// Opens what a free number of standard input, output and error is given to: a descriptor that cannot be read in place of standard input, and one that
// cannot be written in place of the others.
fn open_blank(rt: &HostRuntime) -> std::io::Result<File> {
    let file = File::open(rt, "/")?;
    if file.as_raw_fd() != STDIN {
        return Ok(file);
    }
    drop(file);
    OpenOptions::new().append(true).open(rt, "/dev/null")
}

impl Program<'_> {
    // From here on no file that the program opens is standard input, output or error. Where that cannot be had it is said.
    pub fn keep_standard(self) -> Result<(), Said> {
        for _ in 0..4 {
            let file = self.or_say(b"standard input, output and error", open_blank(self.rt))?;
            if file.as_raw_fd() > STDERR {
                return Ok(());
            }
            file.into_raw_fd();
        }
        Err(Said)
    }

    // Whether standard input can be read at all; where not, why is said.
    pub fn is_readable(self) -> bool {
        self.receive(&mut []).is_ok()
    }

    // One read of standard input: how many bytes came, 0 where the input ends. Where it cannot be read, why is said.
    pub fn receive(self, part: &mut [u8]) -> Result<usize, Said>
        ensures { ReadsAtMost result part.new }
    {
        self.or_say(b"standard input", self.rt.stdin().read(part))
    }
}

// Reads until the buffer is full, the input ends or a read fails, and answers how many bytes came. (`read_exact` takes the input's end for an error.)
pub fn read_whole<R: Read>(from: &mut R, buffer: &mut [u8]) -> Result<usize, Broken>
    ensures { MatchResult result (λ n. IsPrefixLen n buffer.new) (λ e. IsPrefixLen e.bytes buffer.new) }
{
    let mut n: usize = 0;
    while n < buffer.len() {
        match from.read(&mut buffer[n..]) {
            Ok(0) => return Ok(n),
            Ok(m) => n += m,
            Err(why) => return Err(Broken { bytes: n, why }),
        }
    }
    Ok(n)
}
