// Reading the ring: how many turns it holds, one of them as a part of the caller's memory, and whether all read.
ghost use Rattle.std.specs.Prelude.{◌≡◌, MatchResult};
ghost use Rattle.paper.specs.Outcome.{gives, refuses};
ghost use Rattle.paper.specs.Refusals.{number_of};
ghost use Rattle.ring.specs.Ring.{slots, head_of, slot_start, slot_of};
ghost use Rattle.ring.specs.Answers.{reading};
ghost use Rattle.ring.specs.Promises.{HeldGiven, TurnGiven, TurnStartGiven, TurnRefusalGiven, AllReadGiven};

use crate::memory::{Turn, Turns};
use paper::refusal::Refusal;
use record::read::check;

// How many turns are held. (10, 11)
#[tactic(auto, using(crate::proofs::Promised::held_refused, crate::proofs::Promised::held_counted))]
pub fn held(mem: &[u8]) -> Result<usize, Refusal>
    ensures { HeldGiven slots mem.now result }
{
    Ok(Turns::of(mem)?.count())
}

// Turn i, counted from the oldest. (10, 11, 12, 9)
#[tactic(auto, using(crate::proofs::Promised::find_refused, crate::proofs::Promised::find_number, crate::proofs::Promised::find_record, crate::proofs::Promised::find_read))]
fn find(mem: &[u8], i: usize) -> Result<Turn<'_>, Refusal>
    ensures { MatchResult result (λ t. (reading slots mem.now i ≡ gives t.bytes.now) × (t.start ≡ slot_start (slot_of slots (head_of mem.now) i))) (λ r. reading slots mem.now i ≡ refuses (number_of r)) }
{
    let turns = Turns::of(mem)?;
    if i >= turns.count() {
        return Err(Refusal::NoSuchNumber);
    }
    let turn = turns.turn(i);
    check(turn.bytes)?;
    Ok(turn)
}

// Turn i as a part of the memory; its refusal is the empty part, which is the scope paper's form. (10, 11, 12, 9)
#[tactic(auto, using(crate::proofs::Promised::turn_given, crate::proofs::Promised::turn_refused))]
pub fn turn(mem: &[u8], i: usize) -> &[u8]
    ensures { TurnGiven slots mem.now i result.now }
{
    match find(mem, i) {
        Ok(turn) => turn.bytes,
        Err(_) => &mem[..0],
    }
}

// Where turn i begins in the memory. (10, 11, 12, 9)
#[tactic(auto, using(crate::proofs::Promised::start_given, crate::proofs::Promised::start_refused))]
pub fn turn_start(mem: &[u8], i: usize) -> Result<usize, Refusal>
    ensures { TurnStartGiven slots mem.now i result }
{
    Ok(find(mem, i)?.start)
}

// Why turn i is refused, or that it is there and reads. (10, 11, 12, 9)
#[tactic(auto, using(crate::proofs::Promised::refusal_done, crate::proofs::Promised::refusal_given))]
pub fn turn_refusal(mem: &[u8], i: usize) -> Result<(), Refusal>
    ensures { TurnRefusalGiven slots mem.now i result }
{
    find(mem, i)?;
    Ok(())
}

// Do all the turns that are held read? (10, 11, 9)
#[tactic(auto, using(crate::proofs::Promised::all_refused, crate::proofs::Promised::all_not, crate::proofs::Promised::all_do, crate::proofs::Promised::none_read, crate::proofs::Promised::first_read))]
pub fn all_read(mem: &[u8]) -> Result<(), Refusal>
    ensures { AllReadGiven slots mem.now result }
{
    let turns = Turns::of(mem)?;
    for i in 0..turns.count() {
        check(turns.turn(i).bytes)?;
    }
    Ok(())
}
