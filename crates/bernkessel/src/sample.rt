// The C form of a sample and of its units.
ghost use Rattle.std.specs.Prelude.{◌≡◌};
ghost use Rattle.bernkessel.specs.Sample.{sample_in, sample_out};

use paper::unit::{AngleQ6, DistanceQ2};
use wire::sample::Sample;

// In 64ths of a degree.
#[repr(C)]
#[derive(Clone, Copy, Default)]
pub struct BkAngleQ6 {
    pub q6: u16,
}

// In quarters of a millimetre.
#[repr(C)]
#[derive(Clone, Copy, Default)]
pub struct BkDistanceQ2 {
    pub q2: u16,
}

// S is 0 where the byte `start` is 0, and otherwise 1.
#[repr(C)]
#[derive(Clone, Copy, Default)]
pub struct BkSample {
    pub start: u8,
    pub quality: u8,
    pub angle: BkAngleQ6,
    pub distance: BkDistanceQ2,
}

impl From<BkSample> for Sample {
    ghost from_gives = { λ c r. r ≡ sample_in c };

    #[tactic(auto, unfolding(crate::specs::Sample::sample_in, crate::specs::Answers::flag_in))]
    fn from(c: BkSample) -> Sample {
        Sample {
            start: c.start != 0,
            quality: c.quality,
            angle: AngleQ6(c.angle.q6),
            distance: DistanceQ2(c.distance.q2),
        }
    }
}

impl From<Sample> for BkSample {
    ghost from_gives = { λ m r. r ≡ sample_out m };

    #[tactic(auto, unfolding(crate::specs::Sample::sample_out, crate::specs::Answers::flag_out))]
    fn from(m: Sample) -> BkSample {
        BkSample {
            start: u8::from(m.start),
            quality: m.quality,
            angle: BkAngleQ6 { q6: m.angle.0 },
            distance: BkDistanceQ2 { q2: m.distance.0 },
        }
    }
}
