// Being told a request.
ghost use Rattle.std.specs.Prelude.{◌≡◌};
ghost use Rattle.paper.specs.Refusals.{outcome};
ghost use Rattle.stream.specs.Telling.{opening, begun};

use crate::{Phase, Reader, hold};
use paper::refusal::Refusal;
use wire::request::Kind;

// The phase that a request of a kind begins.
#[tactic(auto, unfolding(crate::specs::Telling::opening, paper::specs::Refusals::outcome))]
pub(crate) fn opening(kind: Kind) -> Result<Phase, Refusal>
    ensures { outcome result ≡ opening kind }
{
    match kind {
        Kind::Stop | Kind::Reset => Ok(Phase::Idle),
        Kind::Scan | Kind::ForceScan => Ok(Phase::SeekScan),
        Kind::GetInfo => Ok(Phase::SeekInfo),
        Kind::GetHealth => Ok(Phase::SeekHealth),
        Kind::Other => Err(Refusal::CodeNotPermitted),
    }
}

impl Reader {
    // The bytes held are forgotten, and count as skipped.
    pub(crate) fn turned(&self, phase: Phase) -> Reader
        ensures { result ≡ begun self.now phase }
    {
        let held = self.bytes_held(self.phase.wide());
        Reader::empty(phase, hold::more_skipped(self.skipped, held.len()))
    }
}
