// The text of a whole ring.
ghost use Rattle.std.specs.Prelude.{◌≡◌, ◌*◌};
ghost use Rattle.paper.specs.Outcome.{gives};
ghost use Rattle.ring.specs.Ring.{slots, turns};
ghost use Rattle.ring.specs.Answers.{counting};
ghost use Rattle.text.specs.Appends.{PieceAdded};
ghost use Rattle.listing.specs.Text.{lines, held_line, text_of, room_for, AddedWithin};
ghost use Rattle.listing.specs.Promises.{ListGiven};

use crate::line::put_line;
use paper::refusal::Refusal;
use paper::write::write;
use text::Text;

// A buffer of so many bytes is never too short: 9 for the count, 27 for each turn.
pub const ROOM: usize = 9 + 27 * (ring::SLOTS - 1);

// The line of the count.
fn put_held(text: &mut Text, n: usize)
    ensures { PieceAdded text.old (held_line n) text.new }
{
    text.bytes(b"held ");
    text.number(n as u64);
    text.byte(b'\n');
}

// The lines of the n turns that are held.
fn put_turns(text: &mut Text, mem: &[u8], n: usize)
    requires { counting slots mem.now ≡ gives n }
    ensures { AddedWithin (27 * n) text.old (lines (turns slots mem.now)) text.new }
{
    for i in 0..n {
        put_line(text, ring::turn(mem, i));
    }
}

// The text of an image.
fn compose(text: &mut Text, mem: &[u8])
    ensures { AddedWithin (room_for slots) text.old (text_of slots mem.now) text.new }
{
    match ring::held(mem) {
        Ok(n) => {
            put_held(text, n);
            put_turns(text, mem, n);
        }
        Err(r) => text.refused(r.number()),
    }
}

// Writes the text of an image at the front of the output: the bytes written, or OutputShort and the output as it was.
pub fn list(mem: &[u8], out: &mut [u8]) -> Result<usize, Refusal>
    ensures { ListGiven slots mem.now out.old result out.new }
{
    let mut room = [0u8; ROOM];
    let mut text = Text {
        bytes: &mut room,
        end: 0,
    };
    compose(&mut text, mem);
    write(text.as_bytes(), out)
}
