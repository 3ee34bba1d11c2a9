// Writing the line of a turn.
ghost use Rattle.std.specs.Prelude.{◌≡◌, ◌++◌, MatchResult};
ghost use Rattle.paper.specs.Outcome.{refuses};
ghost use Rattle.paper.specs.Refusals.{number_of};
ghost use Rattle.record.specs.Record.{turn_of};
ghost use Rattle.text.specs.Decimal.{decimal};
ghost use Rattle.text.specs.Refused.{space};
ghost use Rattle.text.specs.Appends.{PieceAdded};
ghost use Rattle.listing.specs.Text.{distance, line_by, AddedWithin};
ghost use Rattle.listing.specs.Promises.{LineGiven};

use crate::turn::{cells_of, filled, nearest};
use paper::refusal::Refusal;
use paper::write::write;
use text::Text;

// A number and the space behind it.
fn put_field(text: &mut Text, n: u64)
    ensures { PieceAdded text.old (decimal n ++ space) text.new }
{
    text.number(n);
    text.byte(b' ');
}

// A distance in q2, or `-` where there is none.
fn put_distance(text: &mut Text, q: u16)
    ensures { PieceAdded text.old (distance q) text.new }
{
    if q == 0 {
        return text.byte(b'-');
    }
    text.number(u64::from(q))
}

// The line of a record that reads, or why it does not.
#[tactic(auto, using(crate::proofs::Lines::refused_same))]
fn put_turn(text: &mut Text, rec: &[u8]) -> Result<(), Refusal>
    ensures { MatchResult result (λ _. AddedWithin 27 text.old (line_by (turn_of rec.now)) text.new) (λ r. (text.new ≡ text.old) × (turn_of rec.now ≡ refuses (number_of r))) }
{
    let number = record::read::number(rec)?;
    let count = record::read::count(rec)?;
    let cells = cells_of(rec)?;
    put_field(text, u64::from(number));
    put_field(text, u64::from(count));
    put_field(text, filled(&cells) as u64);
    put_distance(text, nearest(&cells));
    text.byte(b'\n');
    Ok(())
}

// The line of any bytes: those that do not read are refused in it.
pub(crate) fn put_line(text: &mut Text, rec: &[u8])
    ensures { AddedWithin 27 text.old (line_by (turn_of rec.now)) text.new }
{
    if let Err(r) = put_turn(text, rec) {
        text.refused(r.number());
    }
}

// A buffer of so many bytes is never too short for a line.
pub const LINE_ROOM: usize = 27;

// Writes the line of one record at the front of the output: the bytes written, or OutputShort and the output as it was.
pub fn list_turn(rec: &[u8], out: &mut [u8]) -> Result<usize, Refusal>
    ensures { LineGiven rec.now out.old result out.new }
{
    let mut room = [0u8; LINE_ROOM];
    let mut text = Text {
        bytes: &mut room,
        end: 0,
    };
    put_line(&mut text, rec);
    write(text.as_bytes(), out)
}
