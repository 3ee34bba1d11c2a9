// The codecs of single replies: the scanner's info and its health.
ghost use Rattle.std.specs.Prelude.{◌≡◌};
ghost use Rattle.bernkessel.specs.Reply.{info_in, info_out, info_read_out, health_in, health_read_out};
ghost use Rattle.bernkessel.specs.Promises.{InfoWritten, InfoReads, HealthWritten, HealthReads};

use crate::answer::{BkWritten, split};
use paper::refusal::Refusal;
use wire::reply::{Health, Info};

#[repr(C)]
#[derive(Clone, Copy, Default)]
pub struct BkInfo {
    pub model: u8,
    pub minor: u8,
    pub major: u8,
    pub hardware: u8,
    pub serial: [u8; 16],
}

#[repr(C)]
#[derive(Clone, Copy)]
pub struct BkInfoAnswer {
    pub info: BkInfo,
    pub refusal: u8,
}

#[repr(C)]
#[derive(Clone, Copy, Default)]
pub struct BkHealth {
    pub error: u16,
    pub status: u8,
}

#[repr(C)]
#[derive(Clone, Copy)]
pub struct BkHealthAnswer {
    pub health: BkHealth,
    pub refusal: u8,
}

#[unsafe(no_mangle)]
pub extern "C" fn bk_info_write(info: BkInfo, out: &mut [u8]) -> BkWritten
    ensures { InfoWritten info out.old result out.new }
{
    Info::from(info).write(out).into()
}

#[unsafe(no_mangle)]
pub extern "C" fn bk_info_read(bytes: &[u8]) -> BkInfoAnswer
    ensures { InfoReads bytes.now result }
{
    Info::read(bytes).into()
}

#[unsafe(no_mangle)]
pub extern "C" fn bk_health_write(health: BkHealth, out: &mut [u8]) -> BkWritten
    ensures { HealthWritten health out.old result out.new }
{
    Health::from(health).write(out).into()
}

#[unsafe(no_mangle)]
pub extern "C" fn bk_health_read(bytes: &[u8]) -> BkHealthAnswer
    ensures { HealthReads bytes.now result }
{
    Health::read(bytes).into()
}

impl From<BkInfo> for Info {
    ghost from_gives = { λ c r. r ≡ info_in c };

    #[tactic(auto, unfolding(crate::specs::Reply::info_in))]
    fn from(c: BkInfo) -> Info {
        let BkInfo {
            model,
            minor,
            major,
            hardware,
            serial,
        } = c;
        Info {
            model,
            minor,
            major,
            hardware,
            serial,
        }
    }
}

impl From<Info> for BkInfo {
    ghost from_gives = { λ i r. r ≡ info_out i };

    #[tactic(auto, unfolding(crate::specs::Reply::info_out))]
    fn from(info: Info) -> BkInfo {
        let Info {
            model,
            minor,
            major,
            hardware,
            serial,
        } = info;
        BkInfo {
            model,
            minor,
            major,
            hardware,
            serial,
        }
    }
}

impl From<Result<Info, Refusal>> for BkInfoAnswer {
    ghost from_gives = { λ a r. r ≡ info_read_out a };

    #[tactic(auto, unfolding(crate::specs::Reply::info_read_out, crate::specs::Reply::info_out, wire::specs::Reply::blank, crate::specs::Answers::split))]
    fn from(read: Result<Info, Refusal>) -> BkInfoAnswer {
        let (info, refusal) = split(read.map(BkInfo::from), BkInfo::default());
        BkInfoAnswer { info, refusal }
    }
}

impl From<BkHealth> for Health {
    ghost from_gives = { λ c r. r ≡ health_in c };

    #[tactic(auto, unfolding(crate::specs::Reply::health_in))]
    fn from(c: BkHealth) -> Health {
        Health {
            status: c.status,
            error: c.error,
        }
    }
}

impl From<Health> for BkHealth {
    ghost from_gives = { λ h r. r ≡ record { error = h.error; status = h.status } };

    fn from(health: Health) -> BkHealth {
        BkHealth {
            error: health.error,
            status: health.status,
        }
    }
}

impl From<Result<Health, Refusal>> for BkHealthAnswer {
    ghost from_gives = { λ a r. r ≡ health_read_out a };

    #[tactic(auto, unfolding(crate::specs::Reply::health_read_out, crate::specs::Answers::split))]
    fn from(read: Result<Health, Refusal>) -> BkHealthAnswer {
        let (health, refusal) = split(read.map(BkHealth::from), BkHealth::default());
        BkHealthAnswer { health, refusal }
    }
}
