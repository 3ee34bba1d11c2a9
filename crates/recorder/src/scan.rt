// From the bytes on standard input to turns in the ring.
use crate::end::End;
use crate::file::keep;
use crate::{Task, show};
use host::Host;
use host::number::next_number;
use std::fs::File;
use wire::request::Request;

const PIECE: usize = 4096;

const ROOM: usize = 3072;

// The host that a scan's bytes are for: it has sent SCAN.
fn asked(serial: [u8; 16]) -> Host {
    let fresh = Host::new();
    let mut out = [0u8; 2];
    let host = match fresh.send(0, Request::scan(), b"", &mut out) {
        Ok(asked) => asked.host,
        Err(_) => fresh,
    };
    Host { serial, ..host }
}

// Hands on what is left of some items until all of them are taken, or a call takes none.
fn hand_on<T, F: FnMut(&[T]) -> Result<usize, End>>(items: &[T], mut take: F) -> Result<(), End>
    requires { F.IsAlwaysCallable take }
{
    let mut rest = items;
    while !rest.is_empty() {
        let n = take(rest)?.min(rest.len());
        if n == 0 {
            return Ok(());
        }
        rest = &rest[n..];
    }
    Ok(())
}

// A scan that is recorded: the ring's file and its bytes, the host, the cells of the open turn and those of the one that closed last, and how many turns
// are kept. The bytes have a lifetime of their own, since they are lent on in one call with the file.
#[derive(Drop)]
pub struct Recorder<'a, 'm> {
    task: Task<'a>,
    file: &'a File,
    image: &'m mut [u8],
    host: Host,
    filling: [u16; 360],
    closed: [u16; 360],
    pub kept: u64,
}

impl<'a, 'm> Recorder<'a, 'm> {
    pub fn new(task: Task<'a>, file: &'a File, image: &'m mut [u8]) -> Recorder<'a, 'm> {
        Recorder {
            task,
            file,
            image,
            host: asked(task.serial),
            filling: [0u16; 360],
            closed: [0u16; 360],
            kept: 0,
        }
    }

    // A turn that closed goes to the ring, and is told where that is wanted. Where it is not known to be on the disk, nothing more is stored.
    fn keep(&mut self, rec: &[u8; 754]) -> Result<(), End> {
        let synced = keep(self.file, self.image, rec)?;
        self.kept = self.kept.wrapping_add(1);
        synced?;
        if self.task.verbose {
            show::turn(self.task.ring.program, rec)?;
        }
        Ok(())
    }

    // A row of the reader's words, up to and including a sample that closes a turn, which is kept. Answers how many words were taken.
    fn gather(&mut self, row: &[u16]) -> Result<usize, End> {
        let mut rec = [0u8; 754];
        // The ring reads, and so has a next number.
        let number = next_number(self.image).unwrap_or(0);
        let turned = self
            .host
            .gather(row, number, &mut self.filling, &mut self.closed, &mut rec)?;
        self.host = turned.host;
        if turned.turn.is_some() {
            self.keep(&rec)?;
        }
        Ok(turned.words)
    }

    // The whole row.
    fn take_row(&mut self, row: &[u16]) -> Result<(), End> {
        hand_on(row, |rest| self.gather(rest))
    }

    // One call of the reader, and the turns that it closes. Answers how many bytes were taken.
    fn hear(&mut self, input: &[u8], words: &mut [u16]) -> Result<usize, End> {
        let heard = self.host.read(input, words);
        self.host = heard.host;
        let n = heard.words.min(words.len());
        self.take_row(&words[..n])?;
        Ok(heard.taken)
    }

    // A piece of the input.
    fn take_piece(&mut self, piece: &[u8], words: &mut [u16]) -> Result<(), End> {
        hand_on(piece, |rest| self.hear(rest, words))
    }

    // Keeps every closed turn of the scan on standard input. A proved loop has to end, and nothing says that an input does: so it ends after a number of
    // pieces that no run comes to.
    pub fn take_all(&mut self) -> Result<(), End> {
        let mut piece = [0u8; PIECE];
        let mut words = [0u16; ROOM];
        for _ in 0..u64::MAX {
            let n = self.task.ring.program.receive(&mut piece).unwrap_or(0);
            if n == 0 {
                return Ok(());
            }
            self.take_piece(&piece[..n], &mut words)?;
        }
        Ok(())
    }
}
