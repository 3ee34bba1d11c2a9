// Bytes that are held, and the count of skipped bytes.
ghost use Rattle.std.specs.Prelude.{◌≡◌, [], ◌++◌, ◌+◌, ◌≤◌, length, take, replicate};
ghost use Rattle.stream.specs.Table.{width};
ghost use Rattle.stream.specs.State.{held_of, twenty, capped};
ghost use Rattle.stream.specs.inner.Hold.{holding, stopping};
ghost use Rattle.stream.specs.inner.Joint.{Joined};

use crate::{Phase, Reader, Reading, Stop, seek};
use wire::reply::{Health, Info};
use wire::sample::Sample;

impl Phase {
    // How many bytes are looked at together.
    #[tactic(auto, unfolding(crate::specs::Table::width))]
    pub(crate) fn wide(self) -> usize
        ensures { result ≡ width self }
    {
        match self {
            Phase::Idle => 1,
            Phase::SeekInfo | Phase::SeekHealth | Phase::SeekScan => seek::BYTES,
            Phase::InfoReply => Info::BYTES,
            Phase::HealthReply => Health::BYTES,
            Phase::Scanning => Sample::BYTES,
        }
    }
}

impl Reader {
    // A reader that holds the bytes of a part.
    pub(crate) fn holding(phase: Phase, part: &[u8], skipped: u32) -> Reader
        requires { length part.now ≤ 20 }
        ensures { result ≡ holding phase part.now skipped }
    {
        let mut held = [0u8; 20];
        join(&mut held, part, &[]);
        Reader {
            phase,
            n: part.len() as u8,
            held,
            skipped,
        }
    }

    // A reader that holds none.
    pub(crate) fn empty(phase: Phase, skipped: u32) -> Reader
        ensures { result ≡ holding phase [] skipped }
    {
        Reader::holding(phase, &[], skipped)
    }

    // The bytes held: fewer than the phase looks at together. How many these are is handed over: to look it up makes a call that seeks a tenth
    // slower.
    pub(crate) fn bytes_held(&self, wide: usize) -> &[u8]
        requires { wide ≡ width self.now.phase }
        ensures { result.now ≡ held_of self.now }
    {
        let h = usize::from(self.n).min(wide - 1);
        &self.held[..h]
    }
}

impl Reading {
    // An answer with no words and no reply.
    #[tactic(auto, unfolding(crate::specs::inner::Hold::stopping, crate::specs::State::twenty))]
    pub(crate) fn stopping(reader: Reader, taken: usize, stop: Stop) -> Reading
        ensures { result ≡ stopping reader taken stop }
    {
        Reading {
            reader,
            taken,
            words: 0,
            stop,
            reply: [0u8; 20],
        }
    }
}

// n more skipped bytes; the count stays at its largest value.
pub(crate) fn more_skipped(a: u32, n: usize) -> u32
    ensures { result ≡ capped (a + n) }
{
    a.saturating_add(u32::try_from(n).unwrap_or(u32::MAX))
}

// The bytes held and the first of the input, in the front of an array: a part in which the windows that begin in held bytes are whole.
#[derive(Clone, Copy)]
pub(crate) struct Joint {
    pub bytes: [u8; 20],
    pub end: usize,
    pub held: usize,
}

impl Joint {
    pub(crate) fn new(reader: &Reader, wide: usize, input: &[u8]) -> Joint
        requires { (wide ≡ width reader.now.phase) × (wide ≤ 10) }
        ensures within { result.end ≤ 20 }
        ensures joined { Joined reader.now input.now (take result.end result.bytes) result.held }
    {
        let held = reader.bytes_held(wide);
        let m = input.len().min(wide - 1);
        let mut joint = Joint {
            bytes: [0u8; 20],
            end: held.len() + m,
            held: held.len(),
        };
        join(&mut joint.bytes, held, &input[..m]);
        joint
    }
}

// Bytes and then more of them, in a lent array of zeros: to hand one back makes a call with a byte a tenth slower.
pub(crate) fn join(joint: &mut [u8; 20], bytes: &[u8], more: &[u8])
    requires zeros { joint.old ≡ replicate 20 0 }
    requires fits { length bytes.now + length more.now ≤ 20 }
    ensures { joint.new ≡ twenty (bytes.now ++ more.now) }
{
    let at = bytes.len();
    let end = at + more.len();
    joint[..at].copy_from_slice(bytes);
    joint[at..end].copy_from_slice(more);
}
