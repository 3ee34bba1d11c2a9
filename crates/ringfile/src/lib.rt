// The file of a ring: opened for one writer alone, made where it is missing, and on the disk before it is written to.
#![tactic(auto)]

mod make;
mod name;
mod process;
mod standard;
mod told;
mod writer;

ghost use Rattle.std.specs.Prelude.{◌≡◌, ◌≤◌, length, Ok, IfOk, IsErr, MatchResult};

use name::{open_update, sync_folder};
use process::Descriptor;
use program::Program;
use program::input::name_text;
use program::output::{STDERR, Said};
use standard::is_printed;
use std::fs::File;
use std::io::{ErrorKind, Seek, SeekFrom};
use std::os::fd::AsRawFd;
use std::os::unix::fs::FileExt;

// The bytes of a ring, and one byte more: a longer file is read so far, and so is refused as it is.
pub const MEMORY: usize = 1 + 768 * ring::SLOTS;

pub const LONGER: usize = 1 + MEMORY;

// One store: one positioned write of one byte.
pub fn store(file: &File, place: u16, b: u8) -> std::io::Result<()> {
    file.write_all_at(&[b], u64::from(place))
}

// What was written is on the disk.
pub fn sync(file: &File) -> std::io::Result<()> {
    file.sync_all()
}

// The path of the file behind a descriptor of this process, at the front of a text.
pub fn real_path<'a>(rt: &HostRuntime, fd: i32, text: &'a mut [u8]) -> std::io::Result<&'a [u8]>
    ensures { IfOk result (λ path. length path.now ≤ length text.old) }
{
    Descriptor::own(rt, fd).path(text)
}

// A ring's file, named by its path, and the program that wants it.
#[derive(Clone, Copy)]
pub struct RingFile<'a> {
    pub program: Program<'a>,
    pub path: &'a [u8],
}

impl RingFile<'_> {
    // What came of a try with the file; where it failed, why is said.
    fn or_say<T>(self, outcome: std::io::Result<T>) -> Result<T, Said>
        ensures { MatchResult outcome (λ x. result ≡ Ok x) (λ _. IsErr result) }
    {
        self.program.or_say(self.path, outcome)
    }

    // Says what is wrong with the file.
    fn say(self, why: &[u8]) -> Said {
        self.program.tell(STDERR, self.path, why);
        Said
    }

    // Makes sure that the ring that was read is on the disk: a program that was killed may have left its last stores, and the file's name, in memory
    // alone. The head is stored again because a sync that failed before may be done the next time with nothing written.
    pub fn make_sure(self, file: &File, head: u8) -> Result<(), Said> {
        self.or_say(store(file, 0, head))?;
        self.or_say(sync(file))?;
        let synced = sync_folder_of(self.program.rt, file);
        self.program.or_say(b"the ring's folder", synced)
    }

    // Whether the path is text, as it has to be here. Where it is not, that is said, but not into what may be the ring.
    pub fn is_text(self) -> bool {
        name_text(self.path)
            .inspect_err(|why| self.say_no_text(*why))
            .is_ok()
    }

    // Whether what the program says goes elsewhere than into this file, which need not be there. It is asked before anything is said, and where it is not
    // so, nothing more is said.
    pub fn is_no_output(self) -> bool {
        if !is_printed(self.program.rt) {
            return true;
        }
        if !self.is_text() {
            return false;
        }
        match open_update(self.program.rt, self.path) {
            Ok(file) => self.is_apart(file.as_raw_fd()),
            Err(_) => true,
        }
    }

    // The open file, where it can be written at any place and by this program alone.
    fn checked(self, file: File) -> Result<File, Said> {
        let mut at = &file;
        self.or_say(at.seek(SeekFrom::Start(0)))?;
        self.check_alone(file.as_raw_fd(), 0)?;
        Ok(file)
    }

    // The open file, which this program alone writes to.
    pub fn open(self) -> Result<File, Said> {
        let file = self.or_say(open_update(self.program.rt, self.path))?;
        self.checked(file)
    }

    // The same; a file that is missing becomes an empty ring first.
    pub fn open_or_make(self) -> Result<File, Said> {
        match open_update(self.program.rt, self.path) {
            Err(e) if e.kind() == ErrorKind::NotFound => {
                self.make()?;
                self.open()
            }
            found => self.checked(self.or_say(found)?),
        }
    }
}

// The names in the folder of an open file are on the disk.
fn sync_folder_of(rt: &HostRuntime, file: &File) -> std::io::Result<()> {
    let mut text = io::buffer();
    sync_folder(rt, real_path(rt, file.as_raw_fd(), &mut text)?)
}
