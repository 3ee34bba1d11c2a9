// The session: what the host may send, and when.
ghost use Rattle.std.specs.Prelude.{◌≡◌};
ghost use Rattle.bernkessel.specs.Session.{awaited_in, awaited_out, session_in, session_out, sent_out};
ghost use Rattle.bernkessel.specs.Promises.{SessionBegun, SessionSends, SessionEnded};

use crate::answer::BkWritten;
use paper::refusal::Refusal;
use session::{Awaited, Sent, Session};
use wire::request::Request;

// A single reply is awaited where the byte `awaited` is not 0.
#[repr(C)]
#[derive(Clone, Copy)]
pub struct BkSession {
    pub last: u64,
    pub wait: u64,
    pub awaited: u8,
}

#[repr(C)]
#[derive(Clone, Copy)]
pub struct BkSent {
    pub session: BkSession,
    pub written: BkWritten,
}

#[unsafe(no_mangle)]
pub extern "C" fn bk_session_new() -> BkSession
    ensures { SessionBegun result }
{
    Session::new().into()
}

#[unsafe(no_mangle)]
pub extern "C" fn bk_session_send(
    session: BkSession,
    time: u64,
    code: u8,
    payload: &[u8],
    out: &mut [u8],
) -> BkSent
    ensures { SessionSends session time code payload.now out.old result out.new }
{
    sent_out(
        session,
        Session::from(session).send(time, Request(code), payload, out),
    )
}

#[unsafe(no_mangle)]
pub extern "C" fn bk_session_reply_ended(session: BkSession) -> BkSession
    ensures { SessionEnded session result }
{
    Session::from(session).reply_ended().into()
}

#[tactic(auto, unfolding(crate::specs::Session::awaited_in))]
fn awaited_in(b: u8) -> Awaited
    ensures { result ≡ awaited_in b }
{
    match b {
        0 => Awaited::Nothing,
        _ => Awaited::Reply,
    }
}

#[tactic(auto, unfolding(crate::specs::Session::awaited_out))]
fn awaited_out(awaited: Awaited) -> u8
    ensures { result ≡ awaited_out awaited }
{
    match awaited {
        Awaited::Nothing => 0,
        Awaited::Reply => 1,
    }
}

impl From<BkSession> for Session {
    ghost from_gives = { λ c r. r ≡ session_in c };

    #[tactic(auto, unfolding(crate::specs::Session::session_in))]
    fn from(c: BkSession) -> Session {
        Session {
            last: c.last,
            wait: c.wait,
            awaited: awaited_in(c.awaited),
        }
    }
}

impl From<Session> for BkSession {
    ghost from_gives = { λ s r. r ≡ session_out s };

    #[tactic(auto, unfolding(crate::specs::Session::session_out))]
    fn from(session: Session) -> BkSession {
        BkSession {
            last: session.last,
            wait: session.wait,
            awaited: awaited_out(session.awaited),
        }
    }
}

#[tactic(auto, unfolding(crate::specs::Session::sent_out, crate::specs::Answers::written_out))]
fn sent_out(was: BkSession, sent: Result<Sent, Refusal>) -> BkSent
    ensures { result ≡ sent_out was sent }
{
    BkSent {
        session: sent.map_or(was, |s| s.session.into()),
        written: sent.map(|s| s.bytes).into(),
    }
}
