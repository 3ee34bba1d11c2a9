// A memory that is a ring, and the turns that stand in it.
ghost use Rattle.std.specs.Prelude.{◌≡◌, ◌<◌, MatchResult};
ghost use Rattle.paper.specs.Outcome.{refuses};
ghost use Rattle.paper.specs.Refusals.{number_of};
ghost use Rattle.ring.specs.Ring.{slots, IsRing, head_of, held, slot_of, slot_start, turn_at};
ghost use Rattle.ring.specs.inner.Checks.{ringing};

use crate::place::{HEADS, MEMORY, held_by, slot_of, slot_start};
use paper::refusal::Refusal;

// The memory of a ring.
#[derive(Clone, Copy)]
pub(crate) struct Turns<'a> {
    mem: &'a [u8],
    ghost ring: { IsRing slots mem.now },
}

// A turn: where it begins in the memory, and its bytes.
#[derive(Clone, Copy)]
pub(crate) struct Turn<'a> {
    pub(crate) start: usize,
    pub(crate) bytes: &'a [u8],
}

impl<'a> Turns<'a> {
    // Is the memory a ring? (10, 11)
    #[tactic(auto, using(crate::proofs::Answered::ring_size, crate::proofs::Answered::ring_head))]
    pub(crate) fn of(mem: &'a [u8]) -> Result<Turns<'a>, Refusal>
        ensures { MatchResult result (λ t. t.mem.now ≡ mem.now) (λ r. ringing slots mem.now ≡ refuses (number_of r)) }
    {
        if mem.len() != MEMORY {
            return Err(Refusal::NotARing);
        }
        if mem[0] >= HEADS {
            return Err(Refusal::HeadOver);
        }
        Ok(Turns { mem })
    }

    // How many turns are held.
    pub(crate) fn count(self) -> usize
        ensures { result ≡ held slots (head_of self.entry.mem.now) }
    {
        held_by(self.mem[0])
    }

    // Turn i, counted from the oldest.
    #[tactic(auto, using(crate::proofs::Slots::slot_below, crate::proofs::Promised::part_is))]
    pub(crate) fn turn(self, i: usize) -> Turn<'a>
        requires { i < held slots (head_of self.mem.now) }
        ensures start { result.start ≡ slot_start (slot_of slots (head_of self.entry.mem.now) i) }
        ensures bytes { result.bytes.now ≡ turn_at slots self.entry.mem.now i }
    {
        let start = slot_start(slot_of(self.mem[0], i));
        Turn {
            start,
            bytes: &self.mem[start..start + 754],
        }
    }
}
