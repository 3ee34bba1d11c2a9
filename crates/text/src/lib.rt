// A text put into a lent buffer piece by piece: bytes, a number in decimal, a byte in hex, a refusal's line. A piece that has no room is not begun.
#![tactic(auto)]

mod part;

ghost use Rattle.std.specs.Prelude.{◌+◌, ◌<◌, ◌≤◌, ◌≡◌, MatchBool, [], ◌∷◌, length};
ghost use Rattle.text.specs.Decimal.{decimal};
ghost use Rattle.text.specs.Hex.{hex_digit, hex};
ghost use Rattle.text.specs.Refused.{refused_line};
ghost use Rattle.text.specs.Appends.{PieceAdded};
ghost use Rattle.text.specs.Promises.{PiecePut, TextShown};

use paper::write::write;
pub use part::{digit_value, front, stands};

// A buffer, and where its next piece goes.
#[derive(Drop)]
pub struct Text<'a> {
    pub bytes: &'a mut [u8],
    pub end: usize,
}

impl<'a> Text<'a> {
    // Whether so many bytes more have room.
    fn has_room(&self, size: usize) -> bool
        ensures { MatchBool result (self.now.end + size ≤ length self.now.bytes.now) (length self.now.bytes.now < self.now.end + size) }
    {
        self.bytes
            .len()
            .checked_sub(self.end)
            .is_some_and(|left| size <= left)
    }

    pub fn bytes(&mut self, xs: &[u8])
        ensures { PiecePut self.old xs.now self.new }
    {
        if !self.has_room(xs.len()) {
            return;
        }
        let end = self.end + xs.len();
        let _ = write(xs, &mut self.bytes[self.end..end]);
        self.end = end;
    }

    pub fn byte(&mut self, b: u8)
        ensures { PiecePut self.old (b ∷ []) self.new }
    {
        self.bytes(&[b]);
    }

    // A number in decimal.
    pub fn number(&mut self, n: u64)
        ensures { PiecePut self.old (decimal n) self.new }
    {
        if self.has_room(digits(n)) {
            self.add_number(n);
        }
    }

    // The digits before its last, and then that. (`itoa` would make them in a buffer of its own first, and count them there.)
    #[tactic(auto, using(std::proofs::lemmas::Grind::common_steps, crate::proofs::Decimal::decimal_one, crate::proofs::Decimal::decimal_some), unfolding(crate::specs::Promises::fits, paper::specs::Promises::put_at))]
    fn add_number(&mut self, n: u64)
        ensures { PieceAdded self.old (decimal n) self.new }
    {
        let last = b'0' + (n % 10) as u8;
        if n < 10 {
            return self.byte(last);
        }
        self.add_number(n / 10);
        self.byte(last)
    }

    // A byte as two hexadecimal digits.
    #[tactic(auto, unfolding(crate::specs::Hex::hex))]
    pub fn hex(&mut self, b: u8)
        ensures { PiecePut self.old (hex b) self.new }
    {
        self.bytes(&[digit(b / 16), digit(b % 16)]);
    }

    // The line of a refusal, by its number.
    pub fn refused(&mut self, number: u8)
        ensures { PiecePut self.old (refused_line number) self.new }
    {
        let mut line = [0u8; 12];
        let mut text = Text {
            bytes: &mut line,
            end: 0,
        };
        text.bytes(b"refused ");
        text.number(u64::from(number));
        text.byte(b'\n');
        self.bytes(text.as_bytes());
    }

    // What stands in the buffer before the end.
    pub fn as_bytes(&self) -> &[u8]
        ensures { TextShown self.now result.now }
    {
        &self.bytes[..self.end.min(self.bytes.len())]
    }
}

// How many digits a number has.
#[tactic(auto, using(crate::proofs::Decimal::decimal_counted))]
fn digits(n: u64) -> usize
    ensures { result ≡ length (decimal n) }
{
    n.max(1).ilog10() as usize + 1
}

// A hexadecimal digit. (`char::from_digit` answers an Option of a char.)
#[tactic(auto, using(std::proofs::lemmas::Bool::Decides::nat_tests), unfolding(crate::specs::Hex::hex_digit))]
fn digit(d: u8) -> u8
    requires { d < 16 }
    ensures { result ≡ hex_digit d }
{
    if d < 10 { b'0' + d } else { b'a' - 10 + d }
}
