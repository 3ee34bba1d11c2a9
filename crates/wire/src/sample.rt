// Samples: five bytes on the line, three words in a row of words; each written and read.
ghost use Rattle.std.specs.Prelude.{◌≡◌, [], ◌∷◌, ◌<◌, ◌≤◌, length, take};
ghost use Rattle.paper.specs.Writing.{Writes};
ghost use Rattle.wire.specs.Sample.{angle_in, fit, first_byte, mark, bytes_of_sample, words_of_sample};
ghost use Rattle.wire.specs.Promises.{SampleIsRead, WordsAreRead};

use paper::refusal::Refusal;
use paper::unit::{AngleQ6, DistanceQ2};
use paper::{word, write};

#[derive(Clone, Copy, Debug, PartialEq, Eq)]
pub struct Sample {
    pub start: bool,
    pub quality: u8,
    pub angle: AngleQ6,
    pub distance: DistanceQ2,
}

impl Sample {
    // A sample's bytes, its words, and what its angle and its quality stay below.
    pub const BYTES: usize = 5;

    pub const WORDS: usize = 3;

    pub const ANGLES: u16 = 23040;

    pub const QUALITIES: u16 = 64;

    // Of exactly five bytes.
    pub fn read(bytes: &[u8]) -> Result<Sample, Refusal>
        ensures { SampleIsRead bytes.now result }
    {
        if bytes.len() != Sample::BYTES {
            return Err(Refusal::NotASample);
        }
        Sample::front(bytes)
    }

    // Of the first five bytes of a part. All are read before the checks, so that these can be made together.
    #[tactic(auto, unfolding(paper::specs::Refusals::outcome, crate::specs::Sample::sample_of, crate::specs::Sample::is_sample, crate::specs::Sample::passes, crate::specs::Sample::sample_in, paper::specs::Outcome::refuse_if))]
    pub fn front(part: &[u8]) -> Result<Sample, Refusal>
        ensures { SampleIsRead (take 5 part.now) result }
    {
        if part.len() < Sample::BYTES {
            return Err(Refusal::NotASample);
        }
        let b0 = part[0];
        let b1 = part[1];
        let angle = angle_of(b1, part[2]);
        let distance = word::word16(part[3], part[4]);
        if b0 % 2 == b0 / 2 % 2 {
            return Err(Refusal::NotASample);
        }
        if b1 % 2 == 0 {
            return Err(Refusal::NotASample);
        }
        if Sample::ANGLES <= angle {
            return Err(Refusal::NotASample);
        }
        Ok(Sample {
            start: b0 % 2 == 1,
            quality: b0 / 4,
            angle: AngleQ6(angle),
            distance: DistanceQ2(distance),
        })
    }

    // Of its three words.
    pub fn read_words(angle: u16, distance: u16, mark: u16) -> Result<Sample, Refusal>
        ensures { WordsAreRead (angle ∷ distance ∷ mark ∷ []) result }
    {
        let quality = mark / 2;
        if !fits(angle, quality) {
            return Err(Refusal::NotASample);
        }
        Ok(Sample {
            start: mark % 2 == 1,
            quality: quality as u8,
            angle: AngleQ6(angle),
            distance: DistanceQ2(distance),
        })
    }

    pub fn write(self, out: &mut [u8]) -> Result<usize, Refusal>
        ensures { Writes (bytes_of_sample self) out.old result out.new }
    {
        let angle = self.angle.0;
        let quality = self.quality;
        if !fits(angle, u16::from(quality)) {
            return Err(Refusal::NotASample);
        }
        let d = word::bytes16(self.distance.0);
        let bytes = [
            first_byte(self.start, quality),
            (angle % 128 * 2 + 1) as u8,
            (angle / 128) as u8,
            d[0],
            d[1],
        ];
        write::write(&bytes, out)
    }

    // Its words at the front of a lent row.
    pub fn write_words(self, row: &mut [u16]) -> Result<usize, Refusal>
        ensures { Writes (words_of_sample self) row.old result row.new }
    {
        let angle = self.angle.0;
        let quality = self.quality;
        if !fits(angle, u16::from(quality)) {
            return Err(Refusal::NotASample);
        }
        if row.len() < Sample::WORDS {
            return Err(Refusal::OutputShort);
        }
        row[0] = angle;
        row[1] = self.distance.0;
        row[2] = mark_of(self.start, quality);
        Ok(Sample::WORDS)
    }
}

// An angle below a whole turn, and a quality of six bits.
fn fits(angle: u16, quality: u16) -> bool
    ensures { result ≡ fit angle quality }
{
    if Sample::ANGLES <= angle {
        return false;
    }
    quality < Sample::QUALITIES
}

// Bytes 1 and 2 without the check bit.
fn angle_of(b1: u8, b2: u8) -> u16
    ensures { result ≡ angle_in b1 b2 }
{
    u16::from(b1) / 2 + u16::from(b2) * 128
}

fn first_byte(start: bool, quality: u8) -> u8
    requires { quality < 64 }
    ensures { result ≡ first_byte start quality }
{
    if start {
        quality * 4 + 1
    } else {
        quality * 4 + 2
    }
}

// Twice the quality plus S.
fn mark_of(start: bool, quality: u8) -> u16
    ensures { result ≡ mark start quality }
{
    u16::from(quality) * 2 + u16::from(start)
}
