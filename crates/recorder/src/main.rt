// Adds every closed turn of the scan on standard input to the ring in a file: recorder [--verbose] RING [SERIAL]. A missing file becomes an empty ring.
#![tactic(auto)]

mod argument;
mod end;
mod file;
mod scan;
mod show;
mod store;

use end::End;
use program::Program;
use program::input::read_whole;
use program::output::{STDERR, Said};
use program::word::{Word, too_long};
use ringfile::{RingFile, real_path};
use scan::Recorder;
use std::env::FillError;
use std::fs::File;
use std::os::fd::AsRawFd;
use std::rt::Env;

const USAGE: &[u8] =
    b"usage: recorder [--verbose] RING [SERIAL]: adds the turns of the scan on standard input to the ring in file RING; SERIAL is 32 hex digits\n";

// How the program is started, where it was not started so.
fn usage() {
    io::write_all(STDERR, USAGE);
}

// What the program is to do: the ring that it adds to, the serial of the records, and whether it tells of each turn.
#[derive(Clone, Copy)]
struct Task<'a> {
    ring: RingFile<'a>,
    serial: [u8; 16],
    verbose: bool,
}

impl Task<'_> {
    // Says where the file has another name by now than the one it had.
    fn say_moved(self, file: &File, was: &[u8]) {
        let mut room = io::buffer();
        let program = self.ring.program;
        let is = real_path(program.rt, file.as_raw_fd(), &mut room).unwrap_or(b"");
        if is != was {
            program.tell(
                STDERR,
                self.ring.path,
                b"it was removed or renamed meanwhile, and the turns are in the file that it was",
            );
        }
    }

    // The file holds these bytes. What is no ring, or has a turn that does not read, stays as it is. A recording whose reader has left says no more.
    fn add_to(self, file: &File, image: &mut [u8]) -> Result<(), Said> {
        let RingFile { program, path } = self.ring;
        if let Err(r) = ring::all_read(image) {
            program.print_number(b"refused", u64::from(r.number()));
            return Err(Said);
        }
        self.ring.make_sure(file, store::head(image))?;
        let mut room = io::buffer();
        let was = real_path(program.rt, file.as_raw_fd(), &mut room).unwrap_or(b"");
        let mut recorder = Recorder::new(self, file, image);
        match recorder.take_all() {
            Ok(()) => {}
            Err(End::Left) => return Err(Said),
            Err(End::Refused(_)) => program.tell(STDERR, path, b"a turn is refused"),
            Err(End::Failed(why)) => program.failed(path, why),
        }
        self.say_moved(file, was);
        program.print_number(b"kept", recorder.kept);
        Ok(())
    }

    // Adds to the file as it is.
    fn add(self, file: &File) -> Result<(), Said> {
        let mut image = [0u8; ringfile::LONGER];
        let mut from = file;
        match read_whole(&mut from, &mut image) {
            Ok(n) => self.add_to(file, &mut image[..n]),
            Err(broken) => {
                self.ring.program.failed(self.ring.path, broken.why);
                Err(Said)
            }
        }
    }

    // The ring that the path names.
    fn record(self) -> Result<(), Said> {
        if !self.ring.program.is_readable() {
            return Err(Said);
        }
        let file = self.ring.open_or_make()?;
        self.add(&file)
    }
}

// The ring and the serial that the words name, behind the word for verbose. No message goes before the look at where messages go.
fn record_asked(program: Program<'_>, verbose: bool) {
    let first = if verbose { 2 } else { 1 };
    let mut room = io::buffer();
    let n = match program.rt.arg(first, &mut room) {
        Ok(n) => n,
        Err(FillError::NotPresent) => 0,
        Err(FillError::TooLong) => return program.failed(b"RING", too_long()),
    };
    let path = &room[..n];
    let ring = RingFile { program, path };
    if !ring.is_no_output() {
        return;
    }
    match argument::serial_of(program, first + 1) {
        Some(serial) if n > 0 && program.arg_count() <= first + 2 => {
            let task = Task {
                ring,
                serial,
                verbose,
            };
            let _ = task.record();
        }
        _ => usage(),
    }
}

fn main(rt: HostRuntime) {
    let program = Program {
        rt: &rt,
        name: b"recorder",
    };
    if program.keep_standard().is_err() {
        return;
    }
    match program.word(1) {
        Word::Help => {
            program.print(USAGE);
        }
        Word::Version => {
            program.print_version();
        }
        Word::Verbose => match program.word(2) {
            Word::Plain => record_asked(program, true),
            _ => usage(),
        },
        Word::Plain => record_asked(program, false),
        Word::Unknown => usage(),
    }
}
