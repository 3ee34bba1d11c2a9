// Requests: their codes and times, named here and nowhere else, and their writer.
ghost use Rattle.std.specs.Prelude.{◌≡◌, ◌∷◌, ◌≤◌, length};
ghost use Rattle.paper.specs.Outcome.{gives};
ghost use Rattle.paper.specs.Writing.{Writes};
ghost use Rattle.wire.specs.Request.{stop_code, reset_code, scan_code, force_scan_code, get_info_code, get_health_code, start_byte, request_of, with_sum};
ghost use Rattle.wire.specs.Promises.{Constructed, KindGiven};

use paper::refusal::Refusal;
use paper::{sum, write};

// A request by its code: any of the 256, of which six have a name.
#[derive(Clone, Copy, Debug, PartialEq, Eq)]
pub struct Request(pub u8);

// Which of the six a request is.
#[derive(Clone, Copy, Debug, PartialEq, Eq)]
pub enum Kind {
    Stop,
    Reset,
    Scan,
    ForceScan,
    GetInfo,
    GetHealth,
    Other,
}

impl Request {
    pub const STOP: u8 = 0x25;

    pub const RESET: u8 = 0x40;

    pub const SCAN: u8 = 0x20;

    pub const FORCE_SCAN: u8 = 0x21;

    pub const GET_INFO: u8 = 0x50;

    pub const GET_HEALTH: u8 = 0x52;

    // The byte that begins a request, and a descriptor.
    pub const START: u8 = 0xA5;

    // Codes from here on carry a size, a payload and a checksum.
    pub const WITH_PAYLOAD: u8 = 0x80;

    // The most bytes of a payload.
    pub const MOST_PAYLOAD: usize = 255;

    // After STOP, and after RESET, the next request is sent so many milliseconds later or more.
    pub const STOP_WAIT_MS: u64 = 1;

    pub const RESET_WAIT_MS: u64 = 2;

    // A byte that comes more than so many milliseconds after a packet's first byte is not of the packet.
    pub const PACKET_MS: u64 = 5000;

    pub fn stop() -> Request
        ensures { Constructed stop_code result }
    {
        Request(Self::STOP)
    }

    pub fn reset() -> Request
        ensures { Constructed reset_code result }
    {
        Request(Self::RESET)
    }

    pub fn scan() -> Request
        ensures { Constructed scan_code result }
    {
        Request(Self::SCAN)
    }

    pub fn force_scan() -> Request
        ensures { Constructed force_scan_code result }
    {
        Request(Self::FORCE_SCAN)
    }

    pub fn get_info() -> Request
        ensures { Constructed get_info_code result }
    {
        Request(Self::GET_INFO)
    }

    pub fn get_health() -> Request
        ensures { Constructed get_health_code result }
    {
        Request(Self::GET_HEALTH)
    }

    #[tactic(auto, unfolding(crate::specs::Request::kind_of))]
    pub fn kind(self) -> Kind
        ensures { KindGiven self result }
    {
        match self.0 {
            Request::STOP => Kind::Stop,
            Request::RESET => Kind::Reset,
            Request::SCAN => Kind::Scan,
            Request::FORCE_SCAN => Kind::ForceScan,
            Request::GET_INFO => Kind::GetInfo,
            Request::GET_HEALTH => Kind::GetHealth,
            _ => Kind::Other,
        }
    }

    // The request's bytes, with its payload.
    #[tactic(auto, unfolding(crate::specs::Request::request_of, paper::specs::Outcome::refuse_if, paper::specs::Outcome::if_given, paper::specs::Outcome::mapped, paper::specs::Refusals::outcome, paper::specs::Writing::fitting))]
    pub fn write(self, payload: &[u8], out: &mut [u8]) -> Result<usize, Refusal>
        ensures { Writes (request_of self.0 payload.now) out.old result out.new }
    {
        let code = self.0;
        if code < Request::WITH_PAYLOAD {
            if 0 < payload.len() {
                return Err(Refusal::CodeNotPermitted);
            }
            let bytes = [Request::START, code];
            return write::write(&bytes, out);
        }
        if Request::MOST_PAYLOAD < payload.len() {
            return Err(Refusal::CodeNotPermitted);
        }
        long(code, payload, out)
    }
}

// A request with a size, a payload and a checksum.
fn long(code: u8, payload: &[u8], out: &mut [u8]) -> Result<usize, Refusal>
    requires { length payload.now ≤ 255 }
    ensures { Writes (gives (with_sum (start_byte ∷ code ∷ length payload.now ∷ payload.now))) out.old result out.new }
{
    let n = payload.len();
    if out.len() < n + 4 {
        return Err(Refusal::OutputShort);
    }
    let head = [Request::START, code, n as u8];
    let end = write::write_both(&head, payload, out)?;
    out[end] = sum::sum(&out[..end]);
    Ok(end + 1)
}
