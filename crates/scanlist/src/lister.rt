// Reading the input piece by piece, and printing what each call gives.
ghost use Rattle.std.specs.Prelude.{◌<◌, ◌≤◌, length, IfOk};
ghost use Rattle.scantext.specs.Listing.{Lists};
ghost use Rattle.scanlist.specs.Calls.{Goes};

use crate::argument::{Asked, MOST_CUT, MOST_ROOM};
use crate::show;
use program::Program;
use program::output::Said;
use stream::{Phase, Reader, Reading};
use wire::request::Request;

// The text of a call with so many words.
const TEXT: usize = scantext::WORD_ROOM * MOST_ROOM + scantext::STOP_ROOM;

// A listing: the words of a call and their text.
#[derive(Drop)]
struct Lister<'a> {
    program: Program<'a>,
    asked: Asked,
    words: [u16; MOST_ROOM],
    text: [u8; TEXT],
}

impl Lister<'_> {
    // One call over what is left of a piece.
    fn read(&mut self, reader: Reader, rest: &[u8]) -> Reading
        requires { 0 < length rest.now }
        ensures goes { Goes reader rest.now result }
        ensures words { result.words ≤ 24576 }
    {
        reader.read(rest, &mut self.words[..self.asked.room])
    }

    // Prints the lines of a call that began in a phase.
    fn print_call(&mut self, phase: Phase, reading: &Reading) -> Result<(), Said>
        requires { reading.now.words ≤ 24576 }
    {
        let words = &self.words[..reading.words];
        let text = show::call(phase, words, reading, &mut self.text);
        self.program.try_print(text).map_err(|_| Said)
    }

    // Reads one piece to its end, and prints what is given; a line that cannot be printed ends it.
    fn list_piece(&mut self, reader: Reader, piece: &[u8]) -> Result<Reader, Said>
        ensures { IfOk result (λ z. Lists reader piece.now z) }
    {
        let mut next = reader;
        let mut rest = piece;
        while !rest.is_empty() {
            let reading = self.read(next, rest);
            self.print_call(next.phase, &reading)?;
            next = reading.reader;
            rest = &rest[reading.taken..];
        }
        Ok(next)
    }

    // Reads the whole input, each piece as it comes, and ends with the last line, or without it where a read fails. A proved loop has to end, and nothing
    // says that an input does: so it ends where a piece more might not be counted.
    fn list(&mut self, reader: Reader) -> Result<(), Said> {
        let mut piece = [0u8; MOST_CUT];
        let mut next = reader;
        let mut taken: u64 = 0;
        while taken <= u64::MAX - MOST_CUT as u64 {
            let n = self.program.receive(&mut piece[..self.asked.cut])?;
            if n == 0 {
                let mut text = [0u8; 59];
                self.program.print(show::end(taken, &next, &mut text));
                return Ok(());
            }
            next = self.list_piece(next, &piece[..n])?;
            taken += n as u64;
        }
        Ok(())
    }
}

// Lists the input, or prints that the code is refused.
pub fn list(program: Program<'_>, asked: Asked) -> Result<(), Said> {
    match Reader::new().tell(Request(asked.code)) {
        Ok(reader) => {
            let mut lister = Lister {
                program,
                asked,
                words: [0; MOST_ROOM],
                text: [0; TEXT],
            };
            lister.list(reader)
        }
        Err(refusal) => {
            let mut text = [0u8; 12];
            program.print(show::refused(refusal, &mut text));
            Ok(())
        }
    }
}
