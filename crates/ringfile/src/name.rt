// Names of files and folders.
ghost use Rattle.std.specs.Prelude.{◌≡◌, ◌≤◌, length, take, IfOk, IfSome};
ghost use Rattle.ringfile.specs.Name.{Ended};

use program::input::{name_text, no_text, open_read};
use std::ffi::CStr;
use std::fs::{File, OpenOptions};
use std::io::ErrorKind;
use text::Text;

// The bytes of the system's longest path, with the 0 behind it.
const PATH_MAX: usize = 4096;

const LAST: usize = PATH_MAX - 1;

// A path as the system takes it, with a 0 behind it.
fn ended(path: &[u8]) -> [u8; PATH_MAX]
    ensures { Ended result }
{
    let mut name = io::buffer();
    if let Some(room) = name.get_mut(..path.len()) {
        room.copy_from_slice(path);
    }
    name[LAST] = 0;
    name
}

// The text before the 0 of a path.
fn front_text(name: &[u8; PATH_MAX]) -> std::io::Result<&str> {
    let path = CStr::from_bytes_until_nul(name).map_err(|_| no_text())?;
    name_text(path.to_bytes())
}

// Where a symbolic link leads, at the front of a text, or nothing where it has no room: an error where the path is no link.
pub(crate) fn link<'a>(
    rt: &HostRuntime,
    path: &[u8],
    text: &'a mut [u8],
) -> std::io::Result<&'a [u8]>
    ensures { IfOk result (λ path. length path.now ≤ length text.old) }
{
    let name = ended(path);
    let to = std::fs::read_link(rt, front_text(&name)?).map_err(|e| {
        if e.kind() == ErrorKind::InvalidFilename {
            no_text()
        } else {
            e
        }
    })?;
    let to = to.as_str().as_bytes();
    let Some(room) = text.get_mut(..to.len()) else {
        return Ok(&[]);
    };
    room.copy_from_slice(to);
    Ok(room)
}

// Whether a path is a symbolic link.
pub(crate) fn is_link(rt: &HostRuntime, path: &[u8]) -> bool {
    let name = ended(path);
    let Ok(text) = front_text(&name) else {
        return false;
    };
    std::fs::symlink_metadata(rt, text).is_ok_and(|found| found.is_symlink())
}

// Opens a file for reading and writing.
pub(crate) fn open_update(rt: &HostRuntime, path: &[u8]) -> std::io::Result<File> {
    OpenOptions::new()
        .read(true)
        .write(true)
        .open(rt, name_text(path)?)
}

// Makes a file under a name that nobody has.
pub(crate) fn create_named(rt: &HostRuntime, path: &[u8]) -> std::io::Result<File> {
    OpenOptions::new()
        .write(true)
        .create_new(true)
        .open(rt, name_text(path)?)
}

pub(crate) fn rename(rt: &HostRuntime, from: &[u8], to: &[u8]) -> std::io::Result<()> {
    std::fs::rename(rt, name_text(from)?, name_text(to)?)
}

pub(crate) fn unlink(rt: &HostRuntime, path: &[u8]) -> std::io::Result<()> {
    std::fs::remove_file(rt, name_text(path)?)
}

// The folder that a path names before its file, the last slash with it.
fn folder(path: &[u8]) -> Option<&[u8]>
    ensures { IfSome result (λ front. (length front.now ≤ length path.now) × (front.now ≡ take (length front.now) path.now)) }
{
    let last = path.iter().rposition(|b| *b == b'/')?;
    Some(&path[..=last])
}

// The names in a file's folder are on the disk.
pub(crate) fn sync_folder(rt: &HostRuntime, path: &[u8]) -> std::io::Result<()> {
    open_read(rt, folder(path).unwrap_or(b"."))?.sync_all()
}

// What a new ring is called until it is whole: the ring's name, `.new` and a number.
pub(crate) fn put_new_name(path: &[u8], k: u64, name: &mut Text<'_>) {
    name.end = 0;
    name.bytes(path);
    name.bytes(b".new");
    name.number(k);
}
