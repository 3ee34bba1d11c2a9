// Prints the text of a ring image: ringlist [FILE], standard input where no file is given. An image of any length is taken: a longer one is cut one
// byte past a ring's length, and so is refused as it is.
#![tactic(auto)]

ghost use Rattle.std.specs.Prelude.{◌≡◌};
ghost use Rattle.ring.specs.Ring.{slots};
ghost use Rattle.listing.specs.Text.{text_of};

use program::Program;
use program::input::{open_read, read_whole};
use program::output::{STDERR, Said};
use program::word::{Word, too_long};
use ringfile::RingFile;
use std::env::FillError;
use std::io::Read;
use std::os::fd::AsRawFd;
use std::rt::Env;

const USAGE: &[u8] =
    b"usage: ringlist [FILE]: lists the turns of a ring image in a file or on standard input\n";

// Says how the program is used, where its words were wrong.
fn usage() {
    io::write_all(STDERR, USAGE);
}

// The text of an image, at the front of a buffer that has room for it.
fn show<'a>(image: &[u8], text: &'a mut [u8; listing::ROOM]) -> &'a [u8]
    ensures { result.now ≡ text_of slots image.now }
{
    match listing::list(image, text) {
        Ok(n) => &text[..n],
        Err(_) => &[],
    }
}

// Lists the image that is read from a file.
fn list<R: Read + AsRawFd>(ring: RingFile<'_>, from: &mut R) -> Result<(), Said> {
    let program = ring.program;
    let mut image = [0u8; ringfile::LONGER];
    let read = read_whole(from, &mut image).map_err(|broken| broken.why);
    let n = program.or_say(ring.path, read)?;
    if n == ringfile::MEMORY && !ring.is_apart(from.as_raw_fd()) {
        return Err(Said);
    }
    let mut text = [0u8; listing::ROOM];
    program.print(show(&image[..n], &mut text));
    Ok(())
}

fn list_file(ring: RingFile<'_>) -> Result<(), Said> {
    if !ring.is_text() {
        return Err(Said);
    }
    let opened = open_read(ring.program.rt, ring.path);
    let mut file = ring.program.or_say(ring.path, opened)?;
    list(ring, &mut file)
}

// The image in the file that the first word names.
fn list_named(program: Program<'_>) -> Result<(), Said> {
    let mut room = io::buffer();
    match program.rt.arg(1, &mut room) {
        Ok(n) => list_file(RingFile {
            program,
            path: &room[..n],
        }),
        Err(FillError::NotPresent) => Ok(()),
        Err(FillError::TooLong) => program.or_say(b"the file's name", Err(too_long())),
    }
}

fn list_asked(program: Program<'_>) -> Result<(), Said> {
    match program.arg_count() {
        0 | 1 => {
            let path = b"standard input";
            list(RingFile { program, path }, &mut program.rt.stdin())
        }
        2 => list_named(program),
        _ => {
            usage();
            Ok(())
        }
    }
}

fn run(program: Program<'_>) -> Result<(), Said> {
    program.keep_standard()?;
    match program.word(1) {
        Word::Help => {
            program.print(USAGE);
        }
        Word::Version => {
            program.print_version();
        }
        Word::Plain => list_asked(program)?,
        _ => usage(),
    }
    Ok(())
}

// What failed was said.
fn main(rt: HostRuntime) {
    let _ = run(Program {
        rt: &rt,
        name: b"ringlist",
    });
}
