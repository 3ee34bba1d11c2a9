// The exclusive or of bytes, as a checksum.
ghost use Rattle.paper.specs.Promises.{SumGiven};

pub fn sum(bytes: &[u8]) -> u8
    ensures { SumGiven bytes.now result }
{
    let mut acc: u8 = 0;
    for b in bytes {
        acc ^= *b;
    }
    acc
}
