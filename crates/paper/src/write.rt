// Writing bytes at the front of a lent output: all of them, or none where the output is shorter.
ghost use Rattle.std.specs.Prelude.{◌≡◌, ◌++◌, length};
ghost use Rattle.paper.specs.Outcome.{gives};
ghost use Rattle.paper.specs.Writing.{Writes};

use crate::refusal::Refusal;

// Bytes into a part of the same length. (`copy_from_slice` is made of the C library's `memmove`, and whoever links the C archive would have to bring it.)
pub(crate) fn copy(to: &mut [u8], from: &[u8])
    requires { length to.old ≡ length from.now }
    ensures { to.new ≡ from.now }
{
    for (i, b) in from.iter().enumerate() {
        to[i] = *b;
    }
}

pub fn write(bytes: &[u8], out: &mut [u8]) -> Result<usize, Refusal>
    ensures { Writes (gives bytes.now) out.old result out.new }
{
    let n = bytes.len();
    if out.len() < n {
        return Err(Refusal::OutputShort);
    }
    copy(&mut out[..n], bytes);
    Ok(n)
}

// The same of two lists of bytes, one behind the other.
pub fn write_both(head: &[u8], tail: &[u8], out: &mut [u8]) -> Result<usize, Refusal>
    ensures { Writes (gives (head.now ++ tail.now)) out.old result out.new }
{
    let at = head.len();
    if out.len() < at {
        return Err(Refusal::OutputShort);
    }
    if out.len() - at < tail.len() {
        return Err(Refusal::OutputShort);
    }
    let end = at + tail.len();
    copy(&mut out[..at], head);
    copy(&mut out[at..end], tail);
    Ok(end)
}
