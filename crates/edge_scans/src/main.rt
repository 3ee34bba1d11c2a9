// Reads captures whole and then at several cuts and rooms. Prints a line for each: how many words and a digest of everything that was given, in
// order, bytes skipped and held, and whether the other readings came to the same.
#![tactic(auto)]

ghost use Rattle.std.specs.Prelude.{◌<◌, ◌≤◌, length};

use std::fs::File;
use std::io::{Cursor, Error, Write};
use std::os::fd::AsRawFd;
use stream::{Reader, Reading, Stop};
use wire::request::Request;

// The descriptors of standard output and standard error.
const STDOUT_FILENO: i32 = 1;

const STDERR_FILENO: i32 = 2;

// The most words that a reading is lent.
const ROOM: usize = 3072;

// A sum of what was given, and the sum of these sums, which tells another order from the same.
#[derive(Clone, Copy)]
struct Digest {
    sum: u64,
    sums: u64,
}

impl Digest {
    fn with(self, n: u64) -> Digest {
        let sum = self.sum.wrapping_add(n);
        Digest {
            sum,
            sums: self.sums.wrapping_add(sum),
        }
    }

    fn with_each<T: Copy + Into<u64>>(self, given: &[T]) -> Digest {
        given
            .iter()
            .fold(self, |digest, n| digest.with((*n).into()))
    }

    // A stop with its number, past those of the words, and its twenty bytes.
    fn with_stop(self, stop: Stop, reply: &[u8; 20]) -> Digest {
        match stop {
            Stop::AllTaken | Stop::NoRoom => self,
            _ => self.with(65536 + stop as u64).with_each(reply),
        }
    }
}

// What a reading came to.
#[derive(Clone, Copy, PartialEq, Eq)]
struct Given {
    words: u64,
    digest: u64,
    skipped: u32,
    held: u8,
}

// One call of a reader, which takes some of the bytes.
fn call(reader: Reader, input: &[u8], words: &mut [u16]) -> Reading
    requires input_some { 0 < length input.now }
    requires words_room { 3 ≤ length words.old }
    ensures taken { (0 < result.taken) × (result.taken ≤ length input.now) }
    ensures words { result.words ≤ length words.new }
{
    reader.read(input, words)
}

// A reading: where its reader stands, and the words and the digest of what it gave so far.
#[derive(Clone, Copy)]
struct Tally {
    reader: Reader,
    words: u64,
    digest: Digest,
}

impl Tally {
    fn new(request: Request) -> Tally {
        let fresh = Reader::new();
        Tally {
            reader: fresh.tell(request).unwrap_or(fresh),
            words: 0,
            digest: Digest { sum: 0, sums: 0 },
        }
    }

    // After a call that gave these words.
    fn after(self, reading: Reading, words: &[u16]) -> Tally {
        Tally {
            reader: reading.reader,
            words: self.words.wrapping_add(words.len() as u64),
            digest: self
                .digest
                .with_each(words)
                .with_stop(reading.stop, &reading.reply),
        }
    }

    // A piece, by as many calls as it takes.
    fn read(self, piece: &[u8], words: &mut [u16]) -> Tally
        requires { 3 ≤ length words.old }
    {
        let mut tally = self;
        let mut rest = piece;
        while !rest.is_empty() {
            let reading = call(tally.reader, rest, words);
            tally = tally.after(reading, &words[..reading.words]);
            rest = &rest[reading.taken..];
        }
        tally
    }

    fn given(self) -> Given {
        Given {
            words: self.words,
            digest: self.digest.sums,
            skipped: self.reader.skipped,
            held: self.reader.n,
        }
    }
}

// A part of a line. (`println!` would make one write of a line, which is made of several here.)
fn print(label: &[u8], n: u64) {
    io::write_all(STDOUT_FILENO, label);
    io::print_decimal(STDOUT_FILENO, n);
}

// A capture, as the answer to a request.
#[derive(Clone, Copy)]
struct Capture<'a> {
    name: &'a [u8],
    request: Request,
    bytes: &'a [u8],
}

impl Capture<'_> {
    // Read in pieces of `cut` bytes, with `room` words.
    fn given(self, cut: usize, room: usize) -> Given
        requires cut_bound { 1 ≤ cut }
        requires room_bound { (3 ≤ room) × (room ≤ 3072) }
    {
        let mut words = [0u16; ROOM];
        let mut tally = Tally::new(self.request);
        for piece in self.bytes.chunks(cut) {
            tally = tally.read(piece, &mut words[..room]);
        }
        tally.given()
    }

    fn show(self) {
        let whole = self.given(4096, ROOM);
        io::write_all(STDOUT_FILENO, self.name);
        print(b" words ", whole.words);
        print(b" digest ", whole.digest);
        print(b" skipped ", u64::from(whole.skipped));
        print(b" held ", u64::from(whole.held));
        for (cut, room) in [(1, 3), (7, 5), (64, 48)] {
            let is_same = self.given(cut, room) == whole;
            let word: &[u8] = if is_same { b" same" } else { b" differs" };
            io::write_all(STDOUT_FILENO, word);
        }
        io::write_all(STDOUT_FILENO, b"\n");
    }
}

// The words of an error's text: its number stands behind them in brackets, or zeros.
fn words(text: &[u8]) -> &[u8] {
    let mut parts = text.split(|b| matches!(*b, b'(' | 0));
    parts.next().unwrap_or(&[]).trim_ascii_end()
}

// A file that cannot be opened, and why by the system's own words.
fn say_unopened(name: &str, why: Error) {
    let mut to = Cursor::new([0u8; 256]);
    let _ = write!(to, "{why}");
    for part in [name.as_bytes(), b": ", words(&to.into_inner()), b"\n"] {
        io::write_all(STDERR_FILENO, part);
    }
}

// The capture in a file.
fn show_file(rt: &HostRuntime, name: &str, request: Request) {
    match File::open(rt, name) {
        Ok(file) => {
            let mut input = [0u8; 4096];
            let n = io::read_full(file.as_raw_fd(), &mut input);
            let capture = Capture {
                name: name.as_bytes(),
                request,
                bytes: &input[..n],
            };
            capture.show();
        }
        Err(why) => say_unopened(name, why),
    }
}

fn main(rt: HostRuntime) {
    let captures = [
        ("clean.bin", Request::scan()),
        ("damaged.bin", Request::scan()),
        ("noise.bin", Request::force_scan()),
        ("replies.bin", Request::get_info()),
        ("replies.bin", Request::get_health()),
        ("replies.bin", Request::scan()),
        ("bad_health.bin", Request::get_health()),
    ];
    for (name, request) in captures {
        show_file(&rt, name, request);
    }
}
