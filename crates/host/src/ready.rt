// The record of a turn that closed.
ghost use Rattle.std.specs.Prelude.{◌≡◌};
ghost use Rattle.paper.specs.Outcome.{if_given};
ghost use Rattle.paper.specs.Writing.{over};
ghost use Rattle.record.specs.Record.{record_of};

use record::write::write;

// A memory of 754 bytes always has room, so that only the count decides; one that does not fit leaves the memory as it was.
pub(crate) fn make_ready(
    number: u32,
    count: u16,
    serial: &[u8; 16],
    cells: &[u16; 360],
    rec: &mut [u8; 754],
)
    ensures { rec.new ≡ if_given (record_of (record { number = number; count = count; serial = serial.now; cells = cells.now })) (over rec.old) rec.old }
{
    let _ = write(number, count, serial, cells, rec);
}
