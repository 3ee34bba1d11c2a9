// What the paper says of each kind of request.
ghost use Rattle.std.specs.Prelude.{◌≡◌};
ghost use Rattle.session.specs.Session.{of_the_six, wait_after, awaited_after, held_back};

use crate::Awaited;
use wire::request::{Kind, Request};

#[tactic(auto, unfolding(crate::specs::Session::of_the_six))]
pub(crate) fn of_the_six(kind: Kind) -> bool
    ensures { result ≡ of_the_six kind }
{
    kind != Kind::Other
}

#[tactic(auto, unfolding(crate::specs::Session::wait_after))]
pub(crate) fn wait_after(kind: Kind) -> u64
    ensures { result ≡ wait_after kind }
{
    match kind {
        Kind::Stop => Request::STOP_WAIT_MS,
        Kind::Reset => Request::RESET_WAIT_MS,
        _ => 0,
    }
}

#[tactic(auto, unfolding(crate::specs::Session::awaited_after))]
pub(crate) fn awaited_after(kind: Kind) -> Awaited
    ensures { result ≡ awaited_after kind }
{
    match kind {
        Kind::GetInfo | Kind::GetHealth => Awaited::Reply,
        _ => Awaited::Nothing,
    }
}

// A single reply is awaited and the request is not STOP or RESET.
#[tactic(auto, unfolding(crate::specs::Session::held_back, crate::specs::Session::halts))]
pub(crate) fn held_back(awaited: Awaited, kind: Kind) -> bool
    ensures { result ≡ held_back awaited kind }
{
    awaited == Awaited::Reply && !matches!(kind, Kind::Stop | Kind::Reset)
}
