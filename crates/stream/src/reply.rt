// Replies, and an idle reader.
ghost use Rattle.std.specs.Prelude.{List, ◌≡◌, ℕ, ◌≤◌, length, take};
ghost use Rattle.stream.specs.declared.Phase.TheVariants.{Idle};
ghost use Rattle.stream.specs.Promises.{Reads};
ghost use Rattle.stream.specs.Table.{width};
ghost use Rattle.stream.specs.inner.Reply.{bad, Awaits};

use crate::hold::{join, more_skipped};
use crate::{Phase, Reader, Reading, Stop};
use wire::reply::Health;

// A reply of three bytes is a health reply, and may not read.
fn is_bad(need: usize, joint: &[u8]) -> bool
    requires { 3 ≤ length joint.now }
    ensures { result ≡ bad need (take need joint.now) }
{
    need == Health::BYTES && Health::read(&joint[..Health::BYTES]).is_err()
}

// In a phase that awaits a reply: the bytes held and those of the input that it still needs, or as many as there are.
pub(crate) fn gather(reader: &Reader, input: &[u8]) -> Reading
    requires { Awaits reader.now.phase (width reader.now.phase) }
    ensures { (ws : List ℕ) → Reads reader.now input.now ws result ws }
{
    let skipped = reader.skipped;
    let need = reader.phase.wide();
    let held = reader.bytes_held(need);
    let rest = need - held.len();
    if input.len() < rest {
        let mut joint = [0u8; 20];
        join(&mut joint, held, input);
        let more = Reader {
            n: (held.len() + input.len()) as u8,
            held: joint,
            ..*reader
        };
        return Reading::stopping(more, input.len(), Stop::AllTaken);
    }
    let mut reply = [0u8; 20];
    join(&mut reply, held, &input[..rest]);
    if is_bad(need, &reply) {
        let idle = Reader::empty(Phase::Idle, more_skipped(skipped, need));
        return Reading::stopping(idle, rest, Stop::BadHealth);
    }
    let idle = Reader::empty(Phase::Idle, skipped);
    Reading {
        reply,
        ..Reading::stopping(idle, rest, Stop::Reply)
    }
}

pub(crate) fn idle(reader: &Reader, input: &[u8]) -> Reading
    requires { reader.now.phase ≡ Idle }
    ensures { (ws : List ℕ) → Reads reader.now input.now ws result ws }
{
    let skipped = more_skipped(reader.skipped, input.len());
    Reading::stopping(
        Reader::empty(Phase::Idle, skipped),
        input.len(),
        Stop::AllTaken,
    )
}
