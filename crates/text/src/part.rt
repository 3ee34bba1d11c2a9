// Texts taken apart: digits, pieces at a place, the front of a buffer.
ghost use Rattle.std.specs.Prelude.{◌≡◌, ◌≤◌, ◌<◌, length, take, IfSome};
ghost use Rattle.text.specs.Promises.{DigitRead, StandsTold, FrontTold};

// The value of a hexadecimal digit.
#[tactic(auto, using(std::proofs::lemmas::Bool::Decides::nat_tests), unfolding(crate::specs::Parts::digit_in))]
pub fn digit_value(b: u8) -> Option<u8>
    ensures small { IfSome result (λ d. d < 16) }
    ensures value { DigitRead b result }
{
    match b {
        b'0'..=b'9' => Some(b - b'0'),
        b'A'..=b'F' => Some(b - b'A' + 10),
        b'a'..=b'f' => Some(b - b'a' + 10),
        _ => None,
    }
}

// Whether a piece stands in a text at a place.
pub fn stands(text: &[u8], place: usize, piece: &[u8]) -> bool
    ensures { StandsTold text.now place piece.now result }
{
    text.get(place..)
        .is_some_and(|rest| rest.starts_with(piece))
}

// So many bytes of a text, or all of it.
pub fn front(n: usize, text: &[u8]) -> usize
    ensures counts { (result ≤ length text.now) × (result ≡ length (take result text.now)) }
    ensures least { FrontTold n text.now result }
{
    n.min(text.len())
}
