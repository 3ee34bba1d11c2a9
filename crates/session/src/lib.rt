// A session: what the host may send, and when.
#![tactic(auto)]

mod rule;

ghost use Rattle.session.specs.Promises.{Begun, RequestSent, ReplyEnded};
ghost use Rattle.session.specs.inner.Checks.{Checked, Accepted};

use paper::refusal::Refusal;
use wire::request::{Kind, Request};

// Whether a single reply is awaited.
#[derive(Clone, Copy, Debug, PartialEq, Eq)]
pub enum Awaited {
    Nothing,
    Reply,
}

// Every value has a meaning; a fresh session has 0, 0 and Nothing.
#[derive(Clone, Copy, Debug, PartialEq, Eq)]
pub struct Session {
    // The time of the last request accepted, in milliseconds.
    pub last: u64,
    // How many milliseconds after it the next one is sent, or more.
    pub wait: u64,
    pub awaited: Awaited,
}

// The session after a sending, and the count of bytes.
#[derive(Clone, Copy, Debug, PartialEq, Eq)]
pub struct Sent {
    pub session: Session,
    pub bytes: usize,
}

impl Session {
    #[tactic(auto, unfolding(crate::specs::Session::fresh))]
    pub fn new() -> Session
        ensures { Begun result }
    {
        Session {
            last: 0,
            wait: 0,
            awaited: Awaited::Nothing,
        }
    }

    // One of the six requests, with no payload, at a time in milliseconds.
    #[tactic(auto, unfolding(crate::specs::Session::sending, crate::specs::Session::in_order, paper::specs::Outcome::refuse_if, paper::specs::Outcome::if_given, paper::specs::Outcome::mapped, paper::specs::Refusals::outcome, paper::specs::Writing::fitting))]
    pub fn send(
        self,
        time: u64,
        request: Request,
        payload: &[u8],
        out: &mut [u8],
    ) -> Result<Sent, Refusal>
        ensures { RequestSent self time request payload.now out.old result out.new }
    {
        let kind = request.kind();
        self.check(time, kind, payload.len())?;
        let bytes = request.write(payload, out)?;
        Ok(Sent {
            session: accepted(time, kind),
            bytes,
        })
    }

    // The reply has ended; where none is awaited, this changes nothing.
    #[tactic(auto, unfolding(crate::specs::Session::ended))]
    pub fn reply_ended(self) -> Session
        ensures { ReplyEnded self result }
    {
        Session {
            awaited: Awaited::Nothing,
            ..self
        }
    }

    // The checks of a request with a payload of n bytes, before the output is looked at.
    #[tactic(auto, unfolding(crate::specs::Session::in_order, crate::specs::Session::permitted, paper::specs::Outcome::refuse_if, paper::specs::Refusals::outcome))]
    fn check(self, time: u64, kind: Kind, n: usize) -> Result<(), Refusal>
        ensures { Checked self time kind n result }
    {
        if time < self.last {
            return Err(Refusal::TimeEarlier);
        }
        if !rule::of_the_six(kind) || 0 < n {
            return Err(Refusal::CodeNotPermitted);
        }
        if time - self.last < self.wait {
            return Err(Refusal::WaitNotOver);
        }
        if rule::held_back(self.awaited, kind) {
            return Err(Refusal::ReplyAwaited);
        }
        Ok(())
    }
}

// The session once a request is accepted.
#[tactic(auto, unfolding(crate::specs::Session::accepted))]
fn accepted(time: u64, kind: Kind) -> Session
    ensures { Accepted time kind result }
{
    Session {
        last: time,
        wait: rule::wait_after(kind),
        awaited: rule::awaited_after(kind),
    }
}
