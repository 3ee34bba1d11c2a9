// Writing the lines of a row of words.
ghost use Rattle.text.specs.Appends.{PieceAdded};
ghost use Rattle.scantext.specs.Lines.{row_lines};

use crate::line::put_sample;
use text::Text;

// Each three words are a sample's.
pub(crate) fn put_row(text: &mut Text, words: &[u16])
    ensures { PieceAdded text.old (row_lines words.now) text.new }
{
    for sample in words.chunks_exact(3) {
        put_sample(text, sample[0], sample[1], sample[2]);
    }
}
