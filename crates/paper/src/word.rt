// Little-endian words of 16 and 32 bits: read from their bytes, and put at a place of a lent output.
ghost use Rattle.std.specs.Prelude.{[], ◌∷◌};
ghost use Rattle.paper.specs.Promises.{WordRead, WordBytes, BytesPut};

use crate::refusal::Refusal;
use crate::write::copy;

pub fn word16(low: u8, high: u8) -> u16
    ensures { WordRead (low ∷ high ∷ []) result }
{
    u16::from_le_bytes([low, high])
}

pub fn word32(b0: u8, b1: u8, b2: u8, b3: u8) -> u32
    ensures { WordRead (b0 ∷ b1 ∷ b2 ∷ b3 ∷ []) result }
{
    u32::from_le_bytes([b0, b1, b2, b3])
}

pub fn bytes16(v: u16) -> [u8; 2]
    ensures { WordBytes 2 v result }
{
    v.to_le_bytes()
}

pub fn bytes32(v: u32) -> [u8; 4]
    ensures { WordBytes 4 v result }
{
    v.to_le_bytes()
}

// Bytes at a place of the output; OutputShort where they do not fit there.
pub fn put(out: &mut [u8], place: usize, bytes: &[u8]) -> Result<(), Refusal>
    ensures { BytesPut bytes.now place out.old result out.new }
{
    if out.len() < place {
        return Err(Refusal::OutputShort);
    }
    if out.len() - place < bytes.len() {
        return Err(Refusal::OutputShort);
    }
    let end = place + bytes.len();
    copy(&mut out[place..end], bytes);
    Ok(())
}
