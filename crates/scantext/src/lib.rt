// The text of what the reader of the response stream gives, line by line into a lent output.
#![tactic(auto)]

mod line;
mod row;

ghost use Rattle.std.specs.Prelude.{◌<◌, ◌≤◌, MatchBool, length};
ghost use Rattle.paper.specs.Outcome.{gives};
ghost use Rattle.paper.specs.Writing.{Writes};
ghost use Rattle.text.specs.Refused.{refused_line};
ghost use Rattle.scantext.specs.Lines.{call_out, end_line, room_for};

use paper::refusal::Refusal;
use paper::write::write;
use stream::{Phase, Stop};
use text::Text;

// Bytes that suffice for the lines of a call: so many for each word, and so many for what ended it.
pub const WORD_ROOM: usize = 9;

pub const STOP_ROOM: usize = 47;

// The lines of a call that began in a phase, at the front of the output: the bytes written, or OutputShort and the output as it was.
pub fn given(
    phase: Phase,
    words: &[u16],
    stop: Stop,
    reply: &[u8; 20],
    out: &mut [u8],
) -> Result<usize, Refusal>
    ensures { Writes (call_out (length out.old) phase words.now stop reply.now) out.old result out.new }
{
    if !has_room(out.len(), words.len()) {
        return Err(Refusal::OutputShort);
    }
    let mut text = Text { bytes: out, end: 0 };
    row::put_row(&mut text, words);
    line::put_stop(&mut text, phase, stop, reply);
    Ok(text.end)
}

// Whether an output of a size suffices for the lines of a call with so many words.
fn has_room(size: usize, words: usize) -> bool
    ensures { MatchBool result (room_for words ≤ size) (size < room_for words) }
{
    size.checked_sub(STOP_ROOM)
        .is_some_and(|rest| words <= rest / WORD_ROOM)
}

// The last line.
pub fn end(taken: u64, skipped: u32, held: u8, out: &mut [u8]) -> Result<usize, Refusal>
    ensures { Writes (gives (end_line taken skipped held)) out.old result out.new }
{
    let mut room = [0u8; 59];
    let mut text = Text {
        bytes: &mut room,
        end: 0,
    };
    line::put_end(&mut text, taken, skipped, held);
    write(text.as_bytes(), out)
}

// The line of a code that the reader refuses.
pub fn refused(number: u8, out: &mut [u8]) -> Result<usize, Refusal>
    ensures { Writes (gives (refused_line number)) out.old result out.new }
{
    let mut room = [0u8; 12];
    let mut text = Text {
        bytes: &mut room,
        end: 0,
    };
    text.refused(number);
    write(text.as_bytes(), out)
}
