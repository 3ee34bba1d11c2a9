// The C form of the answers that the crates share: 0 for none, or the number of the refusal.
ghost use Rattle.std.specs.Prelude.{◌≡◌};
ghost use Rattle.bernkessel.specs.Answers.{split, answer_out, written_out};

use paper::refusal::Refusal;

#[repr(C)]
#[derive(Clone, Copy)]
pub struct BkWritten {
    pub bytes: usize,
    pub refusal: u8,
}

// The value and 0, or what stands beside a refusal and the refusal's number.
#[tactic(auto, unfolding(crate::specs::Answers::split))]
pub(crate) fn split<T: Drop>(answer: Result<T, Refusal>, blank: T) -> (T, u8)
    ensures { result ≡ split answer blank }
{
    match answer {
        Ok(value) => (value, 0),
        Err(q) => (blank, q.number()),
    }
}

#[tactic(auto, unfolding(crate::specs::Answers::answer_out, crate::specs::Answers::split))]
pub(crate) fn answer_out(answer: Result<(), Refusal>) -> u8
    ensures { result ≡ answer_out answer }
{
    split(answer, ()).1
}

impl From<Result<usize, Refusal>> for BkWritten {
    ghost from_gives = { λ a r. r ≡ written_out a };

    #[tactic(auto, unfolding(crate::specs::Answers::written_out, crate::specs::Answers::split))]
    fn from(answer: Result<usize, Refusal>) -> BkWritten {
        let (bytes, refusal) = split(answer, 0);
        BkWritten { bytes, refusal }
    }
}
