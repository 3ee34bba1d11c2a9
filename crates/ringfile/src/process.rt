// What the system tells of processes, in its own files under /proc.
ghost use Rattle.std.specs.Prelude.{◌≤◌, length, IfOk};

use crate::name::link;
use program::input::{Broken, name_text, open_read, read_whole};
use program::output::shown;
use std::fmt;
use std::fs::Metadata;

// What is told of a descriptor is shorter.
pub(crate) const TOLD: usize = 256;

// A process: this one, or one by its number.
#[derive(Clone, Copy)]
pub(crate) enum Process {
    Own,
    Number(u32),
}

impl fmt::Display for Process {
    fn fmt<W: fmt::Write>(&self, f: &mut fmt::Formatter<W>) -> fmt::Result {
        match self {
            Process::Own => f.write_str("self"),
            Process::Number(n) => write!(f, "{n}"),
        }
    }
}

// A descriptor of a process.
#[derive(Clone, Copy)]
pub(crate) struct Descriptor<'a> {
    pub(crate) rt: &'a HostRuntime,
    pub(crate) process: Process,
    pub(crate) n: u16,
}

impl<'a> Descriptor<'a> {
    // This process's by its number, or its largest where no descriptor has that.
    pub(crate) fn own(rt: &'a HostRuntime, fd: i32) -> Descriptor<'a> {
        Descriptor {
            rt,
            process: Process::Own,
            n: u16::try_from(fd).unwrap_or(u16::MAX),
        }
    }

    // The name of the system's file on it in a folder of its process.
    fn name<'b>(self, folder: &str, text: &'b mut [u8]) -> &'b [u8] {
        let process = self.process;
        let n = self.n;
        shown(text, format_args!("/proc/{process}/{folder}/{n}"))
    }

    // What is told of it: nothing where that cannot be read.
    pub(crate) fn told<'b>(self, text: &'b mut [u8]) -> &'b [u8] {
        let mut name = [0u8; 64];
        read_short(self.rt, self.name("fdinfo", &mut name), text)
    }

    // An error where nothing is told of it: of this process's, too many files may be open to look at another's.
    pub(crate) fn check_told(self) -> std::io::Result<()> {
        let mut name = [0u8; 64];
        open_read(self.rt, self.name("fdinfo", &mut name))?;
        Ok(())
    }

    // The path of the file behind it.
    pub(crate) fn path<'b>(self, text: &'b mut [u8]) -> std::io::Result<&'b [u8]>
        ensures { IfOk result (λ path. length path.now ≤ length text.old) }
    {
        let mut name = [0u8; 64];
        link(self.rt, self.name("fd", &mut name), text)
    }

    // What kind of file is behind it.
    pub(crate) fn metadata(self) -> std::io::Result<Metadata> {
        let mut name = [0u8; 64];
        std::fs::metadata(self.rt, name_text(self.name("fd", &mut name))?)
    }
}

// The bytes of a short file, so far as they can be read.
pub(crate) fn read_short<'a>(rt: &HostRuntime, path: &[u8], text: &'a mut [u8]) -> &'a [u8]
    ensures { length result.now ≤ length text.old }
{
    let Ok(mut file) = open_read(rt, path) else {
        return &[];
    };
    match read_whole(&mut file, text) {
        Ok(n) | Err(Broken { bytes: n, .. }) => &text[..n],
    }
}
