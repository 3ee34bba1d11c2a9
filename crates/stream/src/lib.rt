// The reader of the response stream: it is told each request sent, and reads the bytes that come.

#![tactic(auto)]

mod hold;
mod reply;
mod scan;
mod scanning;
mod seek;
mod tell;
mod window;

ghost use Rattle.stream.specs.Promises.{Made, Reads, Tells};

use paper::refusal::Refusal;
use wire::descriptor::Descriptor;
use wire::request::Request;

// What the reader waits for.
#[derive(Clone, Copy, Debug, PartialEq, Eq)]
pub enum Phase {
    Idle,
    SeekInfo,
    SeekHealth,
    SeekScan,
    InfoReply,
    HealthReply,
    Scanning,
}

// Why a call stopped.
#[derive(Clone, Copy, Debug, PartialEq, Eq)]
pub enum Stop {
    AllTaken,
    NoRoom,
    Descriptor,
    Reply,
    BadHealth,
}

// A reader: its phase, the first n bytes of `held`, and how many bytes it skipped. An array and a count, since C hands it over by value and
// nothing is kept on a heap.
#[derive(Clone, Copy, Debug, PartialEq, Eq)]
pub struct Reader {
    pub phase: Phase,
    pub n: u8,
    pub held: [u8; 20],
    pub skipped: u32,
}

// What a call answers: the reader after it, bytes taken, words written, why it stopped, and the reply at stop 3.
#[derive(Clone, Copy, Debug, PartialEq, Eq)]
pub struct Reading {
    pub reader: Reader,
    pub taken: usize,
    pub words: usize,
    pub stop: Stop,
    pub reply: [u8; 20],
}

impl Reader {
    // A fresh reader is idle.
    #[tactic(auto, unfolding(crate::specs::State::idle, crate::specs::State::written, crate::specs::State::capped, crate::specs::inner::Hold::holding))]
    pub fn new() -> Reader
        ensures { Made result }
    {
        Reader::empty(Phase::Idle, 0)
    }

    // It is told each request sent; a code not of the six is refused.
    pub fn tell(self, request: Request) -> Result<Reader, Refusal>
        ensures { Tells self request result }
    {
        let phase = tell::opening(request.kind())?;
        Ok(self.turned(phase))
    }

    // One call: any input, any row of words.
    pub fn read(self, input: &[u8], words: &mut [u16]) -> Reading
        ensures { Reads self input.now words.old result words.new }
    {
        match self.phase {
            Phase::Idle => reply::idle(&self, input),
            Phase::SeekInfo => seek::seeking(&self, Phase::InfoReply, &Descriptor::INFO, input),
            Phase::SeekHealth => seek::seeking(
                &self,
                Phase::HealthReply,
                &Descriptor::HEALTH,
                input,
            ),
            Phase::SeekScan => seek::seeking(&self, Phase::Scanning, &Descriptor::SCAN, input),
            Phase::InfoReply | Phase::HealthReply => reply::gather(&self, input),
            Phase::Scanning => scanning::scanning(&self, input, words),
        }
    }
}
