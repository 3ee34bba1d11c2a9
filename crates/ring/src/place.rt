// Where things stand in a ring: the slot of a turn, the slot that is written next, and the head after it.
ghost use Rattle.std.specs.Prelude.{◌≡◌, ◌*◌, ◌<◌};
ghost use Rattle.ring.specs.Ring.{slots, held, slot_of, slot_start, next_slot, next_head};

// How many slots: `slots` of specs/Ring.antt is the same number, and every other number here follows from it.
pub const SLOTS: usize = 64;

// The length of a ring's memory.
pub const MEMORY: usize = 1 + 768 * SLOTS;

// The most turns that a ring holds: one slot is always free.
const MOST: usize = SLOTS - 1;

// The first head of a ring that has gone round, and the first number that is no head. A constant's value has no call of `try_from`.
const ROUND: u8 = SLOTS as u8;

pub const HEADS: u8 = (2 * SLOTS) as u8;

// How many turns a ring with head h holds.
#[tactic(auto, unfolding(crate::specs::Ring::held))]
pub(crate) fn held_by(h: u8) -> usize
    ensures { result ≡ held slots h }
{
    usize::from(h).min(MOST)
}

// The slot of turn i.
#[tactic(auto, using(crate::proofs::Slots::held_min), unfolding(crate::specs::Ring::slot_of))]
pub(crate) fn slot_of(h: u8, i: usize) -> usize
    requires h_bound { h < 2 * slots }
    requires i_bound { i < held slots h }
    ensures { result ≡ slot_of slots h i }
{
    if h < ROUND {
        i
    } else {
        (usize::from(h) - MOST + i) % SLOTS
    }
}

// The slot that is written next.
pub(crate) fn next_slot(h: u8) -> usize
    ensures { result ≡ next_slot slots h }
{
    usize::from(h) % SLOTS
}

// The head once that slot is full.
#[tactic(auto, unfolding(crate::specs::Ring::next_head))]
pub(crate) fn next_head(h: u8) -> u8
    requires { h < 2 * slots }
    ensures { result ≡ next_head slots h }
{
    if h < ROUND {
        h + 1
    } else {
        ROUND + (h + 1) % ROUND
    }
}

// Where slot n begins.
pub(crate) fn slot_start(n: usize) -> usize
    requires { n < slots }
    ensures { result ≡ slot_start n }
{
    1 + 768 * n
}
