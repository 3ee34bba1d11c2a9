// The texts that the program prints, each at the front of a buffer that has room for it. Each is made by a function of its own, whose promise names it.
ghost use Rattle.std.specs.Prelude.{◌≡◌, ◌≤◌, length};
ghost use Rattle.paper.specs.Refusals.{number_of};
ghost use Rattle.text.specs.Refused.{refused_line};
ghost use Rattle.scantext.specs.Lines.{call_text, end_line, room_for};

use paper::refusal::Refusal;
use stream::{Phase, Reader, Reading};

// The lines of a call that began in a phase and gave these words.
pub fn call<'a>(phase: Phase, words: &[u16], reading: &Reading, text: &'a mut [u8]) -> &'a [u8]
    requires { room_for (length words.now) ≤ length text.old }
    ensures { result.now ≡ call_text phase words.now reading.now.stop reading.now.reply }
{
    let n = scantext::given(phase, words, reading.stop, &reading.reply, text).unwrap();
    &text[..n]
}

// The last line.
pub fn end<'a>(taken: u64, reader: &Reader, text: &'a mut [u8; 59]) -> &'a [u8]
    ensures { result.now ≡ end_line taken reader.now.skipped reader.now.n }
{
    let n = scantext::end(taken, reader.skipped, reader.n, text).unwrap();
    &text[..n]
}

// The line of a code that the reader refuses.
pub fn refused<'a>(refusal: Refusal, text: &'a mut [u8; 12]) -> &'a [u8]
    ensures { result.now ≡ refused_line (number_of refusal) }
{
    let n = scantext::refused(refusal.number(), text).unwrap();
    &text[..n]
}
