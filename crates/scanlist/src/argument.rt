// What the program is started with.
ghost use Rattle.std.specs.Prelude.{◌≤◌, IfSome};

use program::Program;
use std::rt::Env;
use text::digit_value;

// What is taken where a word is left out.
const CUT: usize = 4096;

const ROOM: usize = 3072;

// The most that is taken, and so the buffers.
pub const MOST_CUT: usize = 65536;

pub const MOST_ROOM: usize = 24576;

// What is asked: the code of a request, how many bytes a piece has, and how many words there is room for.
#[derive(Clone, Copy)]
pub struct Asked {
    pub code: u8,
    pub cut: usize,
    pub room: usize,
    ghost cut_bound: { (1 ≤ cut) × (cut ≤ 65536) },
    ghost room_bound: { (3 ≤ room) × (room ≤ 24576) },
}

impl Asked {
    // None where the words are not understood.
    pub fn by(program: Program<'_>) -> Option<Asked> {
        if program.arg_count() > 4 {
            return None;
        }
        Some(Asked {
            code: code(program, 1)?,
            cut: number(program, 2, 1, MOST_CUT, CUT)?,
            room: number(program, 3, 3, MOST_ROOM, ROOM)?,
        })
    }
}

// The bytes of word i, in a text: none where it is left out or there is no room for it.
fn word<'a>(program: Program<'_>, i: usize, text: &'a mut [u8]) -> &'a [u8] {
    let n = program.rt.arg(i, text).unwrap_or(0);
    &text[..n]
}

// Word i as two hexadecimal digits.
fn code(program: Program<'_>, i: usize) -> Option<u8> {
    let mut text = [0u8; 4];
    let &[high, low] = word(program, i, &mut text) else {
        return None;
    };
    Some(digit_value(high)? * 16 + digit_value(low)?)
}

// Word i as a decimal number from `least` to `most`, and `otherwise` where it is left out.
fn number(
    program: Program<'_>,
    i: usize,
    least: usize,
    most: usize,
    otherwise: usize,
) -> Option<usize>
    requires { (least ≤ otherwise) × (otherwise ≤ most) }
    ensures { IfSome result (λ n. (least ≤ n) × (n ≤ most)) }
{
    if program.arg_count() <= i {
        return Some(otherwise);
    }
    let mut text = [0u8; 8];
    decimal(word(program, i, &mut text)).filter(|n| least <= *n && *n <= most)
}

// A number of decimal digits alone.
fn decimal(text: &[u8]) -> Option<usize> {
    if !text.iter().all(|b| b.is_ascii_digit()) {
        return None;
    }
    std::str::from_utf8(text).ok()?.parse().ok()
}
