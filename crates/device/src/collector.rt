// The collector of requests: takes one byte with its time, and says which packet it completes.
ghost use Rattle.std.specs.Prelude.{◌≡◌, ◌-◌, cond, ltb, Some};
ghost use Rattle.wire.specs.Request.{packet_time};
ghost use Rattle.device.specs.Collector.{answered};
ghost use Rattle.device.specs.inner.Collecting.{Stepped};
ghost use Rattle.device.specs.Promises.{FreshCollector, ByteCollected};
ghost use Rattle.device.specs.declared.collector.Stage.TheVariants.{Empty};

use paper::refusal::Refusal;
use wire::request::Request;

// How much of a packet is there.
#[derive(Clone, Copy, Debug, PartialEq, Eq)]
pub enum Stage {
    // Nothing: no packet is begun.
    Empty,
    // Its A5.
    Started,
    // Its A5 and its code.
    Coded(u8),
    // Its A5, code, size and the first bytes of its payload, with the exclusive or of all these. A count over the size stands for the size.
    Sized {
        code: u8,
        size: u8,
        count: u8,
        sum: u8,
    },
}

#[derive(Clone, Copy, Debug, PartialEq, Eq)]
pub struct Collector {
    pub stage: Stage,
    // When the packet's A5 came.
    pub begun: u64,

    // When the last byte accepted came.
    pub last: u64,
}

// A packet that is complete: its payload is the first bytes of the lent memory.
#[derive(Clone, Copy, Debug, PartialEq, Eq)]
pub struct Packet {
    pub request: Request,
    pub size: u8,
}

// The collector behind a byte, and the packet that the byte completes.
#[derive(Clone, Copy, Debug, PartialEq, Eq)]
pub struct Collected {
    pub collector: Collector,
    pub packet: Option<Packet>,
}

impl Collector {
    pub fn new() -> Collector
        ensures { FreshCollector result }
    {
        Collector {
            stage: Stage::Empty,
            begun: 0,
            last: 0,
        }
    }

    #[tactic(auto, using(crate::proofs::Collecting::earlier, crate::proofs::Collecting::met), unfolding(crate::specs::Collector::memory_after, crate::specs::inner::Collecting::begun_by, paper::specs::Outcome::if_given, paper::specs::Outcome::mapped, paper::specs::Refusals::outcome))]
    pub fn byte(self, time: u64, b: u8, payload: &mut [u8; 255]) -> Result<Collected, Refusal>
        ensures { ByteCollected self time b payload.old result payload.new }
    {
        if time < self.last {
            return Err(Refusal::TimeEarlier);
        }
        let (stage, packet) = self.stage_at(time).next(b, payload);
        let begun = match stage {
            Stage::Empty => 0,
            Stage::Started => time,
            Stage::Coded(_) | Stage::Sized { .. } => self.begun,
        };
        Ok(Collected {
            collector: Collector {
                stage,
                begun,
                last: time,
            },
            packet,
        })
    }

    // The stage that a byte at a time meets: a late one discards the packet begun.
    fn stage_at(self, time: u64) -> Stage
        ensures { result ≡ cond (ltb packet_time (time - self.begun)) Empty self.stage }
    {
        if Request::PACKET_MS < time.saturating_sub(self.begun) {
            Stage::Empty
        } else {
            self.stage
        }
    }
}

impl Stage {
    // The stage behind a byte that comes in time, and the packet that it completes.
    #[tactic(auto, unfolding(crate::specs::inner::Collecting::stepping, crate::specs::inner::Collecting::begun_by, crate::specs::Collector::collected, crate::specs::Collector::begin, crate::specs::Collector::started, crate::specs::Collector::empty, crate::specs::Collector::joining, crate::specs::Collector::whole, crate::specs::Collector::wrong, crate::specs::Collector::part_of, crate::specs::Collector::stage_of, crate::specs::Collector::behind, crate::specs::Collector::payload_in, crate::specs::Collector::told, crate::specs::Collector::answered, paper::specs::Writing::over))]
    fn next(self, b: u8, payload: &mut [u8; 255]) -> (Stage, Option<Packet>)
        ensures { Stepped self b payload.old result payload.new }
    {
        match self {
            Stage::Empty if b == Request::START => (Stage::Started, None),
            Stage::Empty => (Stage::Empty, None),
            Stage::Started if b < Request::WITH_PAYLOAD => whole(b, 0),
            Stage::Started => (Stage::Coded(b), None),
            Stage::Coded(code) => {
                let sum = Request::START ^ code ^ b;
                let sized = Stage::Sized {
                    code,
                    size: b,
                    count: 0,
                    sum,
                };
                (sized, None)
            }
            Stage::Sized {
                code,
                size,
                count,
                sum,
            } if count < size => {
                payload[usize::from(count)] = b;
                let more = Stage::Sized {
                    code,
                    size,
                    count: count + 1,
                    sum: sum ^ b,
                };
                (more, None)
            }
            Stage::Sized {
                code,
                size,
                sum,
                ..
            } if b == sum => whole(code, size),
            Stage::Sized { .. } => (Stage::Empty, None),
        }
    }
}

// A packet is complete, and no other is begun.
#[tactic(auto, unfolding(crate::specs::Collector::answered))]
fn whole(code: u8, size: u8) -> (Stage, Option<Packet>)
    ensures { result ≡ (Empty, Some (answered code size)) }
{
    let request = Request(code);
    (Stage::Empty, Some(Packet { request, size }))
}
