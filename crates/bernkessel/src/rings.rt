// The ring of turn records in a memory that the caller lends, and its text.
ghost use Rattle.std.specs.Prelude.{◌≡◌};
ghost use Rattle.bernkessel.specs.Ring.{held_out};
ghost use Rattle.bernkessel.specs.Promises.{RingHeld, RingStored, RingAdded, RingTurn, RingReads, RingErased, RingListed};

use crate::answer::{BkWritten, answer_out, split};
use paper::refusal::Refusal;

#[repr(C)]
#[derive(Clone, Copy)]
pub struct BkHeld {
    pub turns: usize,
    pub refusal: u8,
}

#[repr(C)]
#[derive(Clone, Copy)]
pub struct BkPart {
    pub offset: usize,
    pub length: usize,
    pub refusal: u8,
}

#[unsafe(no_mangle)]
pub extern "C" fn bk_ring_held(mem: &[u8]) -> BkHeld
    ensures { RingHeld mem.now result }
{
    ring::held(mem).into()
}

#[unsafe(no_mangle)]
pub extern "C" fn bk_ring_store(mem: &mut [u8], rec: &[u8], k: usize) -> u8
    ensures { RingStored mem.old rec.now k result mem.new }
{
    answer_out(ring::store(mem, rec, k))
}

#[unsafe(no_mangle)]
pub extern "C" fn bk_ring_add(mem: &mut [u8], rec: &[u8]) -> u8
    ensures { RingAdded mem.old rec.now result mem.new }
{
    answer_out(ring::add(mem, rec))
}

// Turn i as a part of the memory, counted from the oldest.
#[unsafe(no_mangle)]
pub extern "C" fn bk_ring_turn(mem: &[u8], i: usize) -> BkPart
    ensures { RingTurn mem.now i result }
{
    BkPart {
        offset: ring::turn_start(mem, i).unwrap_or(0),
        length: ring::turn(mem, i).len(),
        refusal: answer_out(ring::turn_refusal(mem, i)),
    }
}

#[unsafe(no_mangle)]
pub extern "C" fn bk_ring_all_read(mem: &[u8]) -> u8
    ensures { RingReads mem.now result }
{
    answer_out(ring::all_read(mem))
}

#[unsafe(no_mangle)]
pub extern "C" fn bk_ring_erase(mem: &mut [u8]) -> u8
    ensures { RingErased mem.old result mem.new }
{
    answer_out(ring::erase(mem))
}

#[unsafe(no_mangle)]
pub extern "C" fn bk_ring_list(mem: &[u8], out: &mut [u8]) -> BkWritten
    ensures { RingListed mem.now out.old result out.new }
{
    listing::list(mem, out).into()
}

impl From<Result<usize, Refusal>> for BkHeld {
    ghost from_gives = { λ a r. r ≡ held_out a };

    #[tactic(auto, unfolding(crate::specs::Ring::held_out, crate::specs::Answers::split))]
    fn from(answer: Result<usize, Refusal>) -> BkHeld {
        let (turns, refusal) = split(answer, 0);
        BkHeld { turns, refusal }
    }
}
