// A ring's file where there is none: an empty ring, made whole under a name that nobody has, synced and renamed.
use crate::name::{create_named, is_link, open_update, put_new_name, rename, sync_folder, unlink};
use crate::{MEMORY, RingFile};
use program::output::Said;
use std::fs::File;
use std::io::{Error, ErrorKind, Write};
use std::os::fd::AsRawFd;
use text::Text;

// Longer names are refused, so that a new name always has room.
const LONGEST: usize = 4000;

// Names that are tried.
const TRIES: u64 = 1000;

// The system's number of the error where all of them are taken: its words are printed.
const EEXIST: i32 = 17;

// Makes a file under a name that nobody has, and puts that name.
fn create(rt: &HostRuntime, path: &[u8], name: &mut Text<'_>) -> std::io::Result<File> {
    for k in 0..TRIES {
        put_new_name(path, k, name);
        match create_named(rt, name.as_bytes()) {
            Err(e) if e.kind() == ErrorKind::AlreadyExists => {}
            made => return made,
        }
    }
    Err(Error::from_raw_os_error(EEXIST))
}

// An empty ring, on the disk.
fn write_empty(file: &File) -> std::io::Result<()> {
    let image = [0u8; MEMORY];
    let mut to = file;
    to.write_all(&image)?;
    file.sync_all()
}

// Whether something has this name by now.
fn is_there(rt: &HostRuntime, path: &[u8]) -> bool {
    match open_update(rt, path) {
        Ok(_) => true,
        Err(e) => e.kind() != ErrorKind::NotFound,
    }
}

impl RingFile<'_> {
    // Makes the new file whole and gives it the ring's name. From the look on, every other program that wants to make this ring sees the new file; so a
    // ring that is there now was made before, and is left as it is.
    fn finish(self, file: &File, name: &[u8]) -> Result<(), Said> {
        let rt = self.program.rt;
        self.check_alone(file.as_raw_fd(), name.len().saturating_sub(self.path.len()))?;
        self.or_say(write_empty(file))?;
        if is_there(rt, self.path) {
            let _ = unlink(rt, name);
            return Ok(());
        }
        self.or_say(rename(rt, name, self.path))
    }

    // A new file that gets the ring's name, or of which nothing is left.
    fn make_new(self) -> Result<(), Said> {
        let rt = self.program.rt;
        let mut bytes = io::buffer();
        let mut name = Text {
            bytes: &mut bytes,
            end: 0,
        };
        let file = self.or_say(create(rt, self.path, &mut name))?;
        let done = self.finish(&file, name.as_bytes());
        if done.is_err() {
            let _ = unlink(rt, name.as_bytes());
        }
        done
    }

    // A file of an empty ring, whose name is on the disk.
    pub(crate) fn make(self) -> Result<(), Said> {
        let rt = self.program.rt;
        if is_link(rt, self.path) {
            return Err(self.say(b"it is a symbolic link that leads nowhere"));
        }
        if self.path.len() > LONGEST {
            return Err(self.say(b"the name is too long"));
        }
        self.make_new()?;
        self.program
            .or_say(b"the ring's folder", sync_folder(rt, self.path))
    }
}
