// What the stop of a call does to the session and to the serial.
ghost use Rattle.std.specs.Prelude.{◌≡◌};
ghost use Rattle.host.specs.inner.Noted.{waited_at, is_info, kept_at};

use session::Session;
use stream::{Phase, Stop};
use wire::reply::Info;

// The session behind a stop.
#[tactic(auto, unfolding(crate::specs::inner::Noted::waited_at))]
pub(crate) fn waited(session: Session, stop: Stop) -> Session
    ensures { result ≡ waited_at stop session }
{
    match stop {
        Stop::Reply | Stop::BadHealth => session.reply_ended(),
        _ => session,
    }
}

// The serial behind a stop with its twenty bytes, of a call that began in a phase.
pub(crate) fn kept(phase: Phase, stop: Stop, reply: &[u8; 20], serial: [u8; 16]) -> [u8; 16]
    ensures { result ≡ kept_at (is_info phase stop) reply.now serial }
{
    if !is_info(phase, stop) {
        return serial;
    }
    match Info::read(reply) {
        Ok(info) => info.serial,
        Err(_) => serial,
    }
}

// A reply that ended a call is an info reply where an info reply was awaited.
#[tactic(auto, unfolding(crate::specs::inner::Noted::is_info, crate::specs::inner::Noted::reads_info))]
fn is_info(phase: Phase, stop: Stop) -> bool
    ensures { result ≡ is_info phase stop }
{
    phase == Phase::InfoReply && stop == Stop::Reply
}
