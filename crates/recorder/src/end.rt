// Why a recording ends before its input does.
use paper::refusal::Refusal;
use std::io::Error;

#[derive(Clone, Copy, Debug)]
pub enum End {
    // Nobody reads any more what is printed.
    Left,
    // The host or the ring refused a turn.
    Refused(Refusal),
    // The file did not take a turn, or took it and may not have it on the disk.
    Failed(Error),
}

impl From<Refusal> for End {
    fn from(r: Refusal) -> End {
        End::Refused(r)
    }
}

impl From<Error> for End {
    fn from(why: Error) -> End {
        End::Failed(why)
    }
}
