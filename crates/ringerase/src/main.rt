// Erases the ring in a file: ringerase FILE. One store, of 0 at the head; the records stay where they are, and no turn is held any more.
#![tactic(auto)]

use program::Program;
use program::input::read_whole;
use program::output::{STDERR, Said};
use program::word::{Word, too_long};
use ringfile::RingFile;
use std::env::FillError;
use std::fs::File;
use std::rt::Env;

const USAGE: &[u8] =
    b"usage: ringerase FILE: erases the ring in a file, which holds no turn then\n";

// Says how the program is used, where its words were wrong.
fn usage() {
    io::write_all(STDERR, USAGE);
}

// The head of a ring.
fn head(image: &[u8]) -> u8 {
    image.first().copied().unwrap_or(0)
}

// Stores the head, and has it on the disk.
fn store_head(file: &File, b: u8) -> std::io::Result<()> {
    ringfile::store(file, 0, b)?;
    ringfile::sync(file)
}

// Erases the ring that the file holds, in the image and then in the file.
fn erase_in(ring: RingFile<'_>, file: &File, image: &mut [u8]) -> Result<(), Said> {
    let was = head(image);
    if let Err(r) = ring::erase(image) {
        ring.program.print_number(b"refused", u64::from(r.number()));
        return Err(Said);
    }
    ring.make_sure(file, was)?;
    let stored = store_head(file, head(image));
    ring.program.or_say(ring.path, stored)?;
    ring.program.print(b"erased\n");
    Ok(())
}

fn erase_file(ring: RingFile<'_>) -> Result<(), Said> {
    let file = ring.open()?;
    let mut image = [0u8; ringfile::LONGER];
    let mut from = &file;
    let read = read_whole(&mut from, &mut image).map_err(|broken| broken.why);
    let n = ring.program.or_say(ring.path, read)?;
    erase_in(ring, &file, &mut image[..n])
}

// No message goes before the look at where messages go.
fn erase_asked(program: Program<'_>) {
    let mut room = io::buffer();
    let n = match program.rt.arg(1, &mut room) {
        Ok(n) => n,
        Err(FillError::NotPresent) => 0,
        Err(FillError::TooLong) => return program.failed(b"the file's name", too_long()),
    };
    let ring = RingFile {
        program,
        path: &room[..n],
    };
    if !ring.is_no_output() {
        return;
    }
    if program.arg_count() != 2 {
        return usage();
    }
    // what failed was said
    let _ = erase_file(ring);
}

fn main(rt: HostRuntime) {
    let program = Program {
        rt: &rt,
        name: b"ringerase",
    };
    if program.keep_standard().is_err() {
        return;
    }
    match program.word(1) {
        Word::Help => {
            program.print(USAGE);
        }
        Word::Version => {
            program.print_version();
        }
        Word::Plain => erase_asked(program),
        _ => usage(),
    }
}
