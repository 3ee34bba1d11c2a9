// The collector of requests.
ghost use Rattle.std.specs.Prelude.{◌≡◌};
ghost use Rattle.bernkessel.specs.Collector.{stage_in, stage_out, collector_in, collector_out, packet_out, collected_out};
ghost use Rattle.bernkessel.specs.Promises.{CollectorFresh, CollectorTakes};

use device::collector::{Collected, Collector, Packet, Stage};
use paper::refusal::Refusal;

// The bytes of the stages; any other byte is STAGE_EMPTY.
pub const STAGE_EMPTY: u8 = 0;

pub const STAGE_STARTED: u8 = 1;

pub const STAGE_CODED: u8 = 2;

pub const STAGE_SIZED: u8 = 3;

#[repr(C)]
#[derive(Clone, Copy, Default)]
pub struct BkStage {
    pub kind: u8,
    pub code: u8,
    pub size: u8,
    pub count: u8,
    pub sum: u8,
}

#[repr(C)]
#[derive(Clone, Copy, Default)]
pub struct BkCollector {
    pub stage: BkStage,
    pub begun: u64,
    pub last: u64,
}

// `complete` is 1 where the byte completed a packet, and otherwise 0.
#[repr(C)]
#[derive(Clone, Copy, Default)]
pub struct BkCollected {
    pub collector: BkCollector,
    pub complete: u8,
    pub code: u8,
    pub size: u8,
    pub refusal: u8,
}

#[unsafe(no_mangle)]
pub extern "C" fn bk_collector_new() -> BkCollector
    ensures { CollectorFresh result }
{
    Collector::new().into()
}

#[unsafe(no_mangle)]
pub extern "C" fn bk_collector_byte(
    collector: BkCollector,
    time: u64,
    b: u8,
    payload: &mut [u8; 255],
) -> BkCollected
    ensures { CollectorTakes collector time b payload.old result payload.new }
{
    collected_out(collector, Collector::from(collector).byte(time, b, payload))
}

impl From<BkStage> for Stage {
    ghost from_gives = { λ c r. r ≡ stage_in c };

    #[tactic(auto, unfolding(crate::specs::Collector::stage_in))]
    fn from(c: BkStage) -> Stage {
        match c.kind {
            STAGE_STARTED => Stage::Started,
            STAGE_CODED => Stage::Coded(c.code),
            STAGE_SIZED => Stage::Sized {
                code: c.code,
                size: c.size,
                count: c.count,
                sum: c.sum,
            },
            _ => Stage::Empty,
        }
    }
}

impl From<Stage> for BkStage {
    ghost from_gives = { λ s r. r ≡ stage_out s };

    #[tactic(auto, unfolding(crate::specs::Collector::stage_out))]
    fn from(stage: Stage) -> BkStage {
        let none = BkStage::default();
        match stage {
            Stage::Empty => BkStage {
                kind: STAGE_EMPTY,
                ..none
            },
            Stage::Started => BkStage {
                kind: STAGE_STARTED,
                ..none
            },
            Stage::Coded(code) => BkStage {
                kind: STAGE_CODED,
                code,
                ..none
            },
            Stage::Sized {
                code,
                size,
                count,
                sum,
            } => BkStage {
                kind: STAGE_SIZED,
                code,
                size,
                count,
                sum,
            },
        }
    }
}

impl From<BkCollector> for Collector {
    ghost from_gives = { λ c r. r ≡ collector_in c };

    #[tactic(auto, unfolding(crate::specs::Collector::collector_in))]
    fn from(c: BkCollector) -> Collector {
        Collector {
            stage: c.stage.into(),
            begun: c.begun,
            last: c.last,
        }
    }
}

impl From<Collector> for BkCollector {
    ghost from_gives = { λ s r. r ≡ collector_out s };

    #[tactic(auto, unfolding(crate::specs::Collector::collector_out))]
    fn from(collector: Collector) -> BkCollector {
        BkCollector {
            stage: collector.stage.into(),
            begun: collector.begun,
            last: collector.last,
        }
    }
}

#[tactic(auto, unfolding(crate::specs::Collector::packet_out))]
fn packet_out(packet: Option<Packet>, collector: BkCollector) -> BkCollected
    ensures { result ≡ packet_out packet collector }
{
    match packet {
        Some(packet) => BkCollected {
            collector,
            complete: 1,
            code: packet.request.0,
            size: packet.size,
            refusal: 0,
        },
        None => BkCollected {
            collector,
            ..BkCollected::default()
        },
    }
}

// By cases: `split` over all that stands beside a refusal would be no plainer.
#[tactic(auto, unfolding(crate::specs::Collector::collected_out))]
fn collected_out(was: BkCollector, collected: Result<Collected, Refusal>) -> BkCollected
    ensures { result ≡ collected_out was collected }
{
    match collected {
        Ok(collected) => packet_out(collected.packet, collected.collector.into()),
        Err(q) => BkCollected {
            collector: was,
            refusal: q.number(),
            ..BkCollected::default()
        },
    }
}
