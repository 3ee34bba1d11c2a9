// A program's standard output and error. A ring's file may be neither: what the program says would be written into it.
use crate::process::{Descriptor, Process, TOLD};
use crate::writer::OpenRing;
use crate::{MEMORY, RingFile};
use program::output::{STDERR, STDOUT};
use std::fs::Metadata;
use std::io::{Error, IsTerminal};
use std::os::unix::fs::FileTypeExt;

// The two, by their descriptors.
#[derive(Clone, Copy)]
enum Stream {
    Output = 1,
    Error = 2,
}

impl Stream {
    fn descriptor(self, rt: &HostRuntime) -> Descriptor<'_> {
        Descriptor {
            rt,
            process: Process::Own,
            n: self as u16,
        }
    }

    fn is_terminal(self, rt: &HostRuntime) -> bool {
        match self {
            Stream::Output => rt.stdout().is_terminal(),
            Stream::Error => rt.stderr().is_terminal(),
        }
    }

    // Whether it may be of a kind of file, which no terminal is. What nothing is told of may be.
    fn may_be<F: Fn(Metadata) -> bool>(self, rt: &HostRuntime, is_kind: F) -> bool
        requires { F.IsAlwaysCallable is_kind }
    {
        !self.is_terminal(rt) && self.descriptor(rt).metadata().map_or(true, is_kind)
    }

    // Whether it is of something with places, as a file is and a terminal or a pipe is not.
    fn has_places(self, rt: &HostRuntime) -> bool {
        self.may_be(rt, |found| {
            let kind = found.file_type();
            !kind.is_fifo() && !kind.is_socket()
        })
    }

    // Whether it may be a ring: a file of its length.
    fn may_be_ring(self, rt: &HostRuntime) -> bool {
        self.may_be(rt, |found| found.is_file() && found.len() == MEMORY as u64)
    }
}

// Whether what the program says goes into a file at all.
pub(crate) fn is_printed(rt: &HostRuntime) -> bool {
    Stream::Output.has_places(rt) || Stream::Error.has_places(rt)
}

impl RingFile<'_> {
    // Says why a file has no name that it can be opened by. Which file it is cannot be seen, so that nothing is said where it may be both.
    pub(crate) fn say_no_text(self, why: Error) {
        let rt = self.program.rt;
        if !Stream::Error.may_be_ring(rt) {
            self.program.failed(self.path, why);
        } else if !Stream::Output.may_be_ring(rt) {
            self.program
                .tell(STDOUT, self.path, b"standard error may be this file");
        }
    }

    // Where nothing is told of this process: whether none of what it says goes into a file, which may be the ring.
    fn is_no_file(self, output: bool, errors: bool) -> bool {
        if output && !errors {
            self.program.tell(
                STDERR,
                b"/proc",
                b"this program is not shown, so its output may be the ring",
            );
        }
        !output && !errors
    }

    // Whether neither is the program's file; where one is, that is said on the other.
    fn is_neither(self, output: bool, errors: bool) -> bool {
        match (output, errors) {
            (false, false) => return true,
            (true, false) => {
                self.program
                    .tell(STDERR, self.path, b"standard output is this file");
            }
            (false, true) => {
                self.program
                    .tell(STDOUT, self.path, b"standard error is this file");
            }
            (true, true) => {}
        }
        false
    }

    // Whether the file behind a descriptor is neither standard output nor standard error, where what the program says would be written into it. Where it is
    // one of them, that is said on the other, and nothing more may be said.
    pub fn is_apart(self, fd: i32) -> bool {
        let rt = self.program.rt;
        let output = Stream::Output.has_places(rt);
        let errors = Stream::Error.has_places(rt);
        let mut text = [0u8; TOLD];
        let own = Descriptor::own(rt, fd);
        let told = own.told(&mut text);
        let mut room = io::buffer();
        let path = own.path(&mut room).unwrap_or(&[]);
        if told.is_empty() {
            return self.is_no_file(output, errors);
        }
        let ring = OpenRing { rt, fd, path, told };
        self.is_neither(
            ring.is_written_by(Stream::Output.descriptor(rt)),
            ring.is_written_by(Stream::Error.descriptor(rt)),
        )
    }
}
