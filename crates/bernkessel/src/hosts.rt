// The recorder's core: session, reader and gatherer in one value, and the serial for the records.
ghost use Rattle.std.specs.Prelude.{◌≡◌};
ghost use Rattle.bernkessel.specs.Host.{host_in, host_out, asked_out, heard_out, turned_out};
ghost use Rattle.bernkessel.specs.Promises.{HostMade, HostSends, HostReads, HostGathers, HostNumber};

use crate::answer::BkWritten;
use crate::reader::{BkReader, stop_out};
use crate::records::BkNumber;
use crate::sessions::BkSession;
use crate::turns::BkGatherer;
use host::{Asked, Heard, Host, Turned};
use paper::refusal::Refusal;
use wire::request::Request;

#[repr(C)]
#[derive(Clone, Copy)]
pub struct BkHost {
    pub session: BkSession,
    pub reader: BkReader,
    pub gatherer: BkGatherer,
    pub serial: [u8; 16],
}

#[repr(C)]
#[derive(Clone, Copy)]
pub struct BkHostSent {
    pub host: BkHost,
    pub written: BkWritten,
}

#[repr(C)]
#[derive(Clone, Copy)]
pub struct BkHeard {
    pub host: BkHost,
    pub taken: usize,
    pub words: usize,
    pub stop: u8,
    pub reply: [u8; 20],
}

// `turn` is the count of samples of the turn that closed, and 0 where none closed.
#[repr(C)]
#[derive(Clone, Copy)]
pub struct BkTurned {
    pub host: BkHost,
    pub words: usize,
    pub turn: u16,
    pub refusal: u8,
}

#[unsafe(no_mangle)]
pub extern "C" fn bk_host_new() -> BkHost
    ensures { HostMade result }
{
    Host::new().into()
}

#[unsafe(no_mangle)]
pub extern "C" fn bk_host_send(
    host: BkHost,
    time: u64,
    code: u8,
    payload: &[u8],
    out: &mut [u8],
) -> BkHostSent
    ensures { HostSends host time code payload.now out.old result out.new }
{
    asked_out(
        host,
        Host::from(host).send(time, Request(code), payload, out),
    )
}

#[unsafe(no_mangle)]
pub extern "C" fn bk_host_read(host: BkHost, input: &[u8], words: &mut [u16]) -> BkHeard
    ensures { HostReads host input.now words.old result words.new }
{
    Host::from(host).read(input, words).into()
}

#[unsafe(no_mangle)]
pub extern "C" fn bk_host_gather(
    host: BkHost,
    row: &[u16],
    number: u32,
    filling: &mut [u16; 360],
    closed: &mut [u16; 360],
    rec: &mut [u8; 754],
) -> BkTurned
    ensures { HostGathers host row.now number filling.old closed.old rec.old result filling.new closed.new rec.new }
{
    turned_out(
        host,
        Host::from(host).gather(row, number, filling, closed, rec),
    )
}

#[unsafe(no_mangle)]
pub extern "C" fn bk_host_next_number(mem: &[u8]) -> BkNumber
    ensures { HostNumber mem.now result }
{
    host::number::next_number(mem).into()
}

impl From<BkHost> for Host {
    ghost from_gives = { λ c r. r ≡ host_in c };

    #[tactic(auto, unfolding(crate::specs::Host::host_in))]
    fn from(c: BkHost) -> Host {
        let BkHost {
            session,
            reader,
            gatherer,
            serial,
        } = c;
        Host {
            session: session.into(),
            reader: reader.into(),
            gatherer: gatherer.into(),
            serial,
        }
    }
}

impl From<Host> for BkHost {
    ghost from_gives = { λ h r. r ≡ host_out h };

    #[tactic(auto, unfolding(crate::specs::Host::host_out))]
    fn from(host: Host) -> BkHost {
        let Host {
            session,
            reader,
            gatherer,
            serial,
        } = host;
        BkHost {
            session: session.into(),
            reader: reader.into(),
            gatherer: gatherer.into(),
            serial,
        }
    }
}

#[tactic(auto, unfolding(crate::specs::Host::asked_out, crate::specs::Answers::written_out))]
fn asked_out(was: BkHost, asked: Result<Asked, Refusal>) -> BkHostSent
    ensures { result ≡ asked_out was asked }
{
    BkHostSent {
        host: asked.map_or(was, |a| a.host.into()),
        written: asked.map(|a| a.bytes).into(),
    }
}

impl From<Heard> for BkHeard {
    ghost from_gives = { λ a r. r ≡ heard_out a };

    #[tactic(auto, unfolding(crate::specs::Host::heard_out))]
    fn from(heard: Heard) -> BkHeard {
        let Heard {
            host,
            taken,
            words,
            stop,
            reply,
        } = heard;
        BkHeard {
            host: host.into(),
            taken,
            words,
            stop: stop_out(stop),
            reply,
        }
    }
}

// By cases: `split` over all that stands beside a refusal would be no plainer.
#[tactic(auto, unfolding(crate::specs::Host::turned_out))]
fn turned_out(was: BkHost, turned: Result<Turned, Refusal>) -> BkTurned
    ensures { result ≡ turned_out was turned }
{
    match turned {
        Ok(turned) => BkTurned {
            host: turned.host.into(),
            words: turned.words,
            turn: turned.turn.unwrap_or(0),
            refusal: 0,
        },
        Err(q) => BkTurned {
            host: was,
            words: 0,
            turn: 0,
            refusal: q.number(),
        },
    }
}
