// The number of the next turn goes on from the newest turn that a ring holds.
ghost use Rattle.ring.specs.Ring.{slots};
ghost use Rattle.host.specs.Promises.{NumberNext};

use paper::refusal::Refusal;

// The number of the first turn in an empty ring.
const FIRST: u32 = 1;

// 1 in an empty ring, 0 after the largest. (10, 11, 9)
pub fn next_number(mem: &[u8]) -> Result<u32, Refusal>
    ensures { NumberNext slots mem.now result }
{
    let n = ring::held(mem)?;
    if n == 0 {
        return Ok(FIRST);
    }
    let newest = record::read::number(ring::turn(mem, n - 1))?;
    Ok(newest.wrapping_add(1))
}
