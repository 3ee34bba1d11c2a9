// The turn record.
ghost use Rattle.std.specs.Prelude.{◌≡◌};
ghost use Rattle.paper.specs.Outcome.{mapped};
ghost use Rattle.paper.specs.Writing.{Writes};
ghost use Rattle.record.specs.Record.{Turn, turn_of};
ghost use Rattle.bernkessel.specs.Record.{number_out, count_out, cell_out};
ghost use Rattle.bernkessel.specs.Promises.{RecordWritten, RecordChecked, RecordNumber, RecordCount, RecordCell, RecordSerial};

use crate::answer::{BkWritten, answer_out, split};
use crate::sample::BkDistanceQ2;
use paper::refusal::Refusal;
use paper::unit::DistanceQ2;
use record::{read, write};

#[repr(C)]
#[derive(Clone, Copy)]
pub struct BkNumber {
    pub number: u32,
    pub refusal: u8,
}

#[repr(C)]
#[derive(Clone, Copy)]
pub struct BkCount {
    pub count: u16,
    pub refusal: u8,
}

#[repr(C)]
#[derive(Clone, Copy)]
pub struct BkCell {
    pub distance: BkDistanceQ2,
    pub refusal: u8,
}

#[unsafe(no_mangle)]
pub extern "C" fn bk_record_write(
    number: u32,
    count: u16,
    serial: &[u8; 16],
    cells: &[u16; 360],
    out: &mut [u8],
) -> BkWritten
    ensures { RecordWritten number count serial.now cells.now out.old result out.new }
{
    write::write(number, count, serial, cells, out).into()
}

#[unsafe(no_mangle)]
pub extern "C" fn bk_record_check(rec: &[u8]) -> u8
    ensures { RecordChecked rec.now result }
{
    answer_out(read::check(rec))
}

#[unsafe(no_mangle)]
pub extern "C" fn bk_record_number(rec: &[u8]) -> BkNumber
    ensures { RecordNumber rec.now result }
{
    read::number(rec).into()
}

#[unsafe(no_mangle)]
pub extern "C" fn bk_record_count(rec: &[u8]) -> BkCount
    ensures { RecordCount rec.now result }
{
    read::count(rec).into()
}

#[unsafe(no_mangle)]
pub extern "C" fn bk_record_cell(rec: &[u8], c: usize) -> BkCell
    ensures { RecordCell rec.now c result }
{
    read::cell(rec, c).into()
}

#[unsafe(no_mangle)]
pub extern "C" fn bk_record_serial(rec: &[u8], out: &mut [u8]) -> BkWritten
    ensures { RecordSerial rec.now out.old result out.new }
{
    write_serial(rec, out).into()
}

#[tactic(auto, unfolding(record::specs::Record::turn_of, paper::specs::Outcome::refuse_if, paper::specs::Outcome::if_given, paper::specs::Outcome::mapped, paper::specs::Refusals::outcome, paper::specs::Writing::fitting))]
fn write_serial(rec: &[u8], out: &mut [u8]) -> Result<usize, Refusal>
    ensures { Writes (mapped (λ (t : Turn). t.serial) (turn_of rec.now)) out.old result out.new }
{
    read::check(rec)?;
    paper::write::write(read::serial(rec), out)
}

impl From<Result<u32, Refusal>> for BkNumber {
    ghost from_gives = { λ a r. r ≡ number_out a };

    #[tactic(auto, unfolding(crate::specs::Record::number_out, crate::specs::Answers::split))]
    fn from(answer: Result<u32, Refusal>) -> BkNumber {
        let (number, refusal) = split(answer, 0);
        BkNumber { number, refusal }
    }
}

impl From<Result<u16, Refusal>> for BkCount {
    ghost from_gives = { λ a r. r ≡ count_out a };

    #[tactic(auto, unfolding(crate::specs::Record::count_out, crate::specs::Answers::split))]
    fn from(answer: Result<u16, Refusal>) -> BkCount {
        let (count, refusal) = split(answer, 0);
        BkCount { count, refusal }
    }
}

impl From<Result<DistanceQ2, Refusal>> for BkCell {
    ghost from_gives = { λ a r. r ≡ cell_out a };

    #[tactic(auto, unfolding(crate::specs::Record::cell_out, crate::specs::Answers::split))]
    fn from(answer: Result<DistanceQ2, Refusal>) -> BkCell {
        let (q2, refusal) = split(answer.map(|d| d.0), 0);
        BkCell {
            distance: BkDistanceQ2 { q2 },
            refusal,
        }
    }
}
