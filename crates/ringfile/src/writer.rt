// One writer at a time. Whoever writes to a ring has its file open for writing, and only then looks whether another process has: of two, the one that
// looks later sees the other. What a process has open ends with it, so nothing is left behind by one that is killed.
ghost use Rattle.std.specs.Prelude.{◌≤◌};

use crate::RingFile;
use crate::name::link;
use crate::process::{Descriptor, Process, TOLD, read_short};
use crate::told::{can_write, is_same_file};
use program::Program;
use program::input::{name_text, no_text};
use program::output::{STDERR, Said, shown};
use std::io::{Error, ErrorKind, Read};
use std::rt::Files;

// The descriptors of a process that are looked at; a ring's own is always one of them.
const DESCRIPTORS: u16 = 64;

// The largest number of a process that Linux gives.
const PROCESSES: u32 = 4194304;

// Whether a text has bytes, and all of them are decimal digits.
fn are_digits(text: &[u8]) -> bool {
    !text.is_empty() && text.iter().all(|b| b.is_ascii_digit())
}

// Whether a path is a ring's, or that of a new one which is not whole yet.
fn is_of_ring(path: &[u8], ring: &[u8]) -> bool {
    let Some(rest) = path.strip_prefix(ring) else {
        return false;
    };
    rest.is_empty() || rest.strip_prefix(b".new").is_some_and(are_digits)
}

// The number of a process, in decimal. None for 0, which no process has.
fn number_in(text: &[u8]) -> Option<u32> {
    let text = std::str::from_utf8(text).ok()?;
    text.parse::<u32>().ok().filter(|n| *n > 0)
}

// The largest number that a process has here.
fn largest(rt: &HostRuntime) -> u32
    ensures { result ≤ 4194304 }
{
    let mut text = [0u8; 16];
    let told = read_short(rt, b"/proc/sys/kernel/pid_max", &mut text);
    number_in(told.trim_ascii_end())
        .unwrap_or(PROCESSES)
        .min(PROCESSES)
}

// Whether the system's own files tell of the processes that this program sees: it is among them under its own number.
fn is_shown(rt: &HostRuntime) -> bool {
    let mut text = [0u8; 16];
    match link(rt, b"/proc/self", &mut text) {
        Ok(own) => number_in(own) == Some(std::process::id(rt.process())),
        Err(_) => false,
    }
}

// The system's number of the error where a process is gone: no kind of error stands for it.
const ESRCH: i32 = 3;

// Whether the threads of a process are not told because it has ended or is another user's.
fn is_gone(why: Error) -> bool {
    why.raw_os_error() == Some(ESRCH)
        || matches!(
            why.kind(),
            ErrorKind::NotFound | ErrorKind::PermissionDenied
        )
}

// The first answer that is given for one of the processes with these names, each ended by a 0.
fn first_among<F: Fn(u32) -> std::io::Result<Option<u32>>>(
    names: &[u8],
    ask: F,
) -> std::io::Result<Option<u32>>
    requires { F.IsAlwaysCallable ask }
{
    for process in names.split(|b| *b == 0).filter_map(number_in) {
        if let Some(found) = ask(process)? {
            return Ok(Some(found));
        }
    }
    Ok(None)
}

// The first answer that is given for one of the processes that a folder tells of, in so many reads at most.
fn first_in<R: Read, F: Fn(u32) -> std::io::Result<Option<u32>>>(
    folder: &mut R,
    most: u32,
    ask: F,
) -> std::io::Result<Option<u32>>
    requires { F.IsAlwaysCallable ask }
{
    let mut names = io::buffer();
    for _ in 0..most {
        let n = folder.read(&mut names)?;
        if n == 0 {
            return Ok(None);
        }
        if let Some(found) = first_among(&names[..n], &ask)? {
            return Ok(Some(found));
        }
    }
    Ok(None)
}

// A ring that this process has open: by which descriptor, its path, and what is told of the descriptor.
#[derive(Clone, Copy)]
pub(crate) struct OpenRing<'a> {
    pub(crate) rt: &'a HostRuntime,
    pub(crate) fd: i32,
    pub(crate) path: &'a [u8],
    pub(crate) told: &'a [u8],
}

impl OpenRing<'_> {
    // Whether a descriptor writes to the ring. A path that memory has no room for is taken for the ring's.
    pub(crate) fn is_written_by(self, descriptor: Descriptor<'_>) -> bool {
        let mut text = [0u8; TOLD];
        let told = descriptor.told(&mut text);
        if !can_write(told) {
            return false;
        }
        if is_same_file(told, self.told) {
            return true;
        }
        let mut path = io::buffer();
        match descriptor.path(&mut path) {
            Ok(path) => is_of_ring(path, self.path),
            Err(e) => e.kind() == ErrorKind::OutOfMemory,
        }
    }

    // Whether a process writes to the ring, by another descriptor than this process's own.
    fn is_written_in(self, process: u32) -> bool {
        let is_own = process == std::process::id(self.rt.process());
        (0..DESCRIPTORS).any(|n| {
            (!is_own || i32::from(n) != self.fd)
                && self.is_written_by(Descriptor {
                    rt: self.rt,
                    process: Process::Number(process),
                    n,
                })
        })
    }

    // The first thread of a process that writes to the ring.
    fn thread_told(self, process: u32) -> std::io::Result<Option<u32>> {
        let mut text = [0u8; 64];
        let name = shown(&mut text, format_args!("/proc/{process}/task"));
        let mut threads = self.rt.open_dir(name_text(name)?)?;
        Descriptor::own(self.rt, self.fd).check_told()?;
        first_in(&mut threads, PROCESSES, |p| {
            Ok(self.is_written_in(p).then_some(p))
        })
    }

    // The same. Where the process has ended or is another user's, it alone is looked at.
    fn thread_writer(self, process: u32) -> std::io::Result<Option<u32>> {
        match self.thread_told(process) {
            Err(e) if is_gone(e) => Ok(self.is_written_in(process).then_some(process)),
            told => told,
        }
    }

    // The first process that writes to the ring by another descriptor than this process's own.
    fn other_writer(self) -> std::io::Result<Option<u32>> {
        let mut processes = self.rt.open_dir("/proc")?;
        first_in(&mut processes, largest(self.rt), |process| {
            self.thread_writer(process)
        })
    }
}

fn say_unseen(program: Program<'_>) -> Said {
    program.tell(
        STDERR,
        b"/proc",
        b"this program is not shown, so another that writes would not be seen",
    );
    Said
}

impl RingFile<'_> {
    // Says why the real path of the file is not told: by its own name where that path is no text.
    fn say_untold(self, why: Error) -> Said {
        let is_text = why.raw_os_error() != no_text().raw_os_error();
        let what: &[u8] = if is_text { b"/proc" } else { self.path };
        self.program.failed(what, why);
        Said
    }

    fn say_writer(self, process: u32) -> Said {
        let mut why = [0u8; 64];
        self.say(shown(
            &mut why,
            format_args!("process {process} writes to it, and one alone may"),
        ))
    }

    // This program alone writes to the ring behind a descriptor, whose path has so many bytes more than the ring's. Where it does not, who does is said.
    pub(crate) fn check_alone(self, fd: i32, more: usize) -> Result<(), Said> {
        let rt = self.program.rt;
        let own = Descriptor::own(rt, fd);
        if own.n >= DESCRIPTORS {
            return Err(self.say(b"too many files are open"));
        }
        if !is_shown(rt) {
            return Err(say_unseen(self.program));
        }
        let mut text = [0u8; TOLD];
        let told = own.told(&mut text);
        let mut room = io::buffer();
        let real = own.path(&mut room).map_err(|why| self.say_untold(why))?;
        let path = &real[..real.len().saturating_sub(more)];
        if told.is_empty() || path.is_empty() {
            self.program.or_say(b"/proc", own.check_told())?;
            return Err(say_unseen(self.program));
        }
        let ring = OpenRing { rt, fd, path, told };
        match self.program.or_say(b"/proc", ring.other_writer())? {
            None => Ok(()),
            Some(process) => Err(self.say_writer(process)),
        }
    }
}
