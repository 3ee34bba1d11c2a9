// One store of a record as the byte that it puts and the place where it puts it: what goes to the file.
ghost use Rattle.std.specs.Prelude.{◌≡◌, ◌<◌};
ghost use Rattle.ring.specs.Ring.{slots, head_of, touched};
ghost use Rattle.recorder.specs.Store.{StoreMade};

use paper::refusal::Refusal;

#[derive(Clone, Copy, Debug, PartialEq, Eq)]
pub struct Stored {
    pub place: u16,
    pub byte: u8,
}

// The head of a ring.
pub fn head(mem: &[u8]) -> u8
    ensures { result ≡ head_of mem.now }
{
    mem.first().copied().unwrap_or(0)
}

// The place that store k touches.
#[tactic(auto, using(crate::proofs::Made::place_head, crate::proofs::Made::place_byte))]
fn place(mem: &[u8], k: usize) -> usize
    ensures { (result ≡ touched slots mem.now k) × (result < 65536) }
{
    if k >= 754 {
        return 0;
    }
    1 + 768 * (head(mem) as usize % ring::SLOTS) + k
}

// Makes store k in the memory.
#[tactic(auto, using(crate::proofs::Made::stored_within, crate::proofs::Made::made_done))]
pub fn make(mem: &mut [u8], rec: &[u8], k: usize) -> Result<Stored, Refusal>
    ensures { StoreMade slots mem.old rec.now k result mem.new }
{
    let at = place(mem, k);
    ring::store(mem, rec, k)?;
    Ok(Stored {
        place: at as u16,
        byte: mem[at],
    })
}
