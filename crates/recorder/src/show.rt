// What the program tells of its work.
ghost use Rattle.std.specs.Prelude.{◌≡◌};
ghost use Rattle.record.specs.Record.{turn_of};
ghost use Rattle.listing.specs.Text.{line_by};

use crate::end::End;
use listing::{LINE_ROOM, list_turn};
use program::Program;
use program::output::is_left;

// The line of a record, as the listing has it, at the front of a buffer that has room for it.
#[tactic(auto, using(crate::proofs::Lines::line_within))]
fn line<'a>(rec: &[u8], text: &'a mut [u8; LINE_ROOM]) -> &'a [u8]
    ensures { result.now ≡ line_by (turn_of rec.now) }
{
    let n = list_turn(rec, text).unwrap_or(0);
    &text[..n]
}

// The line of a turn that was kept. Where it cannot be printed, that is said, and the recording ends where nobody reads it any more.
pub fn turn(program: Program<'_>, rec: &[u8; 754]) -> Result<(), End> {
    let mut text = [0u8; LINE_ROOM];
    match program.try_print(line(rec, &mut text)) {
        Err(why) if is_left(why) => Err(End::Left),
        _ => Ok(()),
    }
}
