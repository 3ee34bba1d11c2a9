// Seeking a descriptor. Places are counted from the start of a part and not from one another, so functions take the part and a place in it.
ghost use Rattle.std.specs.Prelude.{List, ◌≡◌, ℕ, ◌+◌, ◌≤◌, length};
ghost use Rattle.std.specs.Result.{is_ok};
ghost use Rattle.stream.specs.Promises.{Reads};
ghost use Rattle.stream.specs.State.{capped};
ghost use Rattle.stream.specs.inner.Joint.{Placed};
ghost use Rattle.stream.specs.inner.Seek.{Seeks, near_by, Sought, Searched, SoughtTo, place_of, seek_answer};

use crate::hold::{Joint, more_skipped};
use crate::{Phase, Reader, Reading, Stop};

// A descriptor's bytes, and all of them but the last.
pub(crate) const BYTES: usize = 7;

const ALL_BUT_ONE: usize = BYTES - 1;

// So many places are passed over at once.
const BLOCK: usize = 32;

// Do the first two of the seven stand at one of the places of a block? No place and no byte waits for another (`|=` and `&`), so that all are
// looked at together.
fn is_near(head: &[u8; 7], part: &[u8], at: usize) -> bool
    requires { at + 33 ≤ length part.now }
    ensures { result ≡ near_by head.now part.now at 32 }
{
    let mut near = false;
    for k in 0..BLOCK {
        near |= (part[at + k] == head[0]) & (part[at + k + 1] == head[1]);
    }
    near
}

// Past blocks of places at none of which the first two of the seven stand. A `while`: a `for` by blocks would not tell where the last one ends.
fn pass_over(head: &[u8; 7], part: &[u8], from: usize) -> usize
    requires { from + 6 ≤ length part.now }
    ensures { Sought head.now part.now from result × (result + 6 ≤ length part.now) }
{
    let mut at = from;
    while BLOCK + ALL_BUT_ONE <= part.len() - at {
        if is_near(head, part, at) {
            return at;
        }
        at += BLOCK;
    }
    at
}

// The first place before `last` at which the seven stand. The scope paper names the form: a loop over places, in it one over seven bytes, left by
// a label at the first match.
fn search(head: &[u8; 7], part: &[u8], from: usize, last: usize) -> Option<usize>
    requires { (from ≤ last) × (last + 6 ≤ length part.now) }
    ensures { Searched head.now part.now from last result }
{
    let mut found = None;
    'places: for at in from..last {
        for k in 0..BYTES {
            if part[at + k] != head[k] {
                break;
            }
            if k == ALL_BUT_ONE {
                found = Some(at);
                break 'places;
            }
        }
    }
    found
}

// The first place at which the seven stand, or else the first at which there are too few bytes. Blocks are passed over where that can be, and
// the places of the next one searched. A `while`: how far a turn goes is known only then.
fn seek(head: &[u8; 7], part: &[u8], from: usize) -> Result<usize, usize>
    requires { from ≤ length part.now }
    ensures { SoughtTo head.now part.now from result }
{
    let mut at = from;
    while BYTES <= part.len() - at {
        let near = pass_over(head, part, at);
        let last = (near + BLOCK).min(part.len() - ALL_BUT_ONE);
        if let Some(place) = search(head, part, near, last) {
            return Ok(place);
        }
        at = last;
    }
    Err(at)
}

// The answer where seeking stands in a part whose first h bytes were held, and that so many held ones come before.
fn answer(
    reader: &Reader,
    next: Phase,
    part: &[u8],
    place: Result<usize, usize>,
    h: usize,
    before: usize,
) -> Reading
    requires placed { Placed 6 part.now (place_of place) (is_ok place) h }
    requires few { before ≤ 6 }
    ensures { result ≡ seek_answer reader.now.phase next part.now place h (capped (reader.now.skipped + (before + place_of place))) }
{
    match place {
        Ok(at) => {
            let found = Reader::empty(next, more_skipped(reader.skipped, before + at));
            Reading::stopping(found, at + BYTES - h, Stop::Descriptor)
        }
        Err(at) => {
            let skipped = more_skipped(reader.skipped, before + at);
            let rest = Reader::holding(reader.phase, &part[at..], skipped);
            Reading::stopping(rest, part.len() - h, Stop::AllTaken)
        }
    }
}

// The bytes held and the first six of the input are a part of their own.
pub(crate) fn seeking(reader: &Reader, next: Phase, head: &[u8; 7], input: &[u8]) -> Reading
    requires { Seeks reader.now.phase head.now next }
    ensures { (ws : List ℕ) → Reads reader.now input.now ws result ws }
{
    let joint = Joint::new(reader, BYTES, input);
    let part = &joint.bytes[..joint.end];
    let first = seek(head, part, 0);
    match first {
        Err(at) if ALL_BUT_ONE < input.len() => {
            let second = seek(head, input, at - joint.held);
            answer(reader, next, input, second, 0, joint.held)
        }
        _ => answer(reader, next, part, first, joint.held, 0),
    }
}
