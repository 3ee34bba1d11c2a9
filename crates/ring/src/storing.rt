// Writing the ring: one store of a record, all of them, and erasing.
ghost use Rattle.std.specs.Prelude.{◌≡◌, ◌<◌, length, set};
ghost use Rattle.paper.specs.Refusals.{outcome};
ghost use Rattle.ring.specs.Ring.{slots, IsRing, store};
ghost use Rattle.ring.specs.Answers.{storing};
ghost use Rattle.ring.specs.Promises.{StoreGiven, AddGiven, EraseGiven};

use crate::memory::Turns;
use crate::place::{MEMORY, next_head, next_slot, slot_start};
use paper::refusal::Refusal;
use record::read::check;

// May store k of a record be made? (10, 11, 9, 12)
#[tactic(auto, using(crate::proofs::Promised::may_refused, crate::proofs::Promised::may_record, crate::proofs::Promised::may_number, crate::proofs::Promised::may_do))]
fn may_store(mem: &[u8], rec: &[u8], k: usize) -> Result<(), Refusal>
    ensures { outcome result ≡ storing slots mem.now rec.now k }
{
    Turns::of(mem)?;
    check(rec)?;
    if k >= 755 {
        return Err(Refusal::NoSuchNumber);
    }
    Ok(())
}

// Stores one byte into the slot that is lent.
fn put(slot: &mut [u8], k: usize, b: u8)
    requires { k < length slot.old }
    ensures { slot.new ≡ set slot.old k b }
{
    slot[k] = b;
}

// Store k of a record, where it may be made.
#[tactic(auto, using(crate::proofs::Stores::lent_store, crate::proofs::Stores::store_end))]
fn make(mem: &mut [u8], rec: &[u8], k: usize)
    requires ring { IsRing slots mem.old }
    requires rec_len { length rec.now ≡ 754 }
    requires k_bound { k < 755 }
    ensures { mem.new ≡ store slots mem.old rec.now k }
{
    let h = mem[0];
    if k < 754 {
        let start = slot_start(next_slot(h));
        put(&mut mem[start..start + 768], k, rec[k]);
    } else {
        mem[0] = next_head(h);
    }
}

// Store k of a record: 0 to 753 are its bytes, 754 is the head. (10, 11, 9, 12)
#[tactic(auto, using(crate::proofs::Promised::store_refused, crate::proofs::Promised::store_made, crate::proofs::Promised::made_ring, crate::proofs::Promised::made_long, crate::proofs::Promised::made_bound))]
pub fn store(mem: &mut [u8], rec: &[u8], k: usize) -> Result<(), Refusal>
    ensures { StoreGiven slots mem.old rec.now k result mem.new }
{
    may_store(mem, rec, k)?;
    make(mem, rec, k);
    Ok(())
}

// All 755 stores, in order. (10, 11, 9)
#[tactic(auto, using(crate::proofs::Promised::add_refused, crate::proofs::Promised::add_made, crate::proofs::Promised::made_long, crate::proofs::Promised::still_ring, crate::proofs::Stores::stores_none, crate::proofs::Stores::stores_more))]
pub fn add(mem: &mut [u8], rec: &[u8]) -> Result<(), Refusal>
    ensures { AddGiven slots mem.old rec.now result mem.new }
{
    may_store(mem, rec, 0)?;
    for k in 0..755 {
        make(mem, rec, k);
    }
    Ok(())
}

// An empty ring, whatever the head was. (10)
#[tactic(auto, using(crate::proofs::Promised::erase_refused, crate::proofs::Promised::erase_made))]
pub fn erase(mem: &mut [u8]) -> Result<(), Refusal>
    ensures { EraseGiven slots mem.old result mem.new }
{
    if mem.len() != MEMORY {
        return Err(Refusal::NotARing);
    }
    mem[0] = 0;
    Ok(())
}
