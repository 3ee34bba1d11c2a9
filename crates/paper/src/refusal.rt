// Refusals: one case for each number of the scope paper's table. What is done or refused answers `Result<(), Refusal>`, a writer `Result<usize, Refusal>`.
ghost use Rattle.paper.specs.Promises.{NumberGiven};

#[derive(Clone, Copy, Debug, PartialEq, Eq)]
pub enum Refusal {
    CodeNotPermitted,
    OutputShort,
    TimeEarlier,
    WaitNotOver,
    ReplyAwaited,
    NotADescriptor,
    NotAReply,
    NotASample,
    NotARecord,
    NotARing,
    HeadOver,
    NoSuchNumber,
    NoSampleSent,
}

impl Refusal {
    // The number in the paper's table.
    pub fn number(self) -> u8
        ensures { NumberGiven self result }
    {
        match self {
            Refusal::CodeNotPermitted => 1,
            Refusal::OutputShort => 2,
            Refusal::TimeEarlier => 3,
            Refusal::WaitNotOver => 4,
            Refusal::ReplyAwaited => 5,
            Refusal::NotADescriptor => 6,
            Refusal::NotAReply => 7,
            Refusal::NotASample => 8,
            Refusal::NotARecord => 9,
            Refusal::NotARing => 10,
            Refusal::HeadOver => 11,
            Refusal::NoSuchNumber => 12,
            Refusal::NoSampleSent => 13,
        }
    }
}
