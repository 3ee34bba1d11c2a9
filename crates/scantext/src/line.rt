// Writing single lines.
ghost use Rattle.std.specs.Prelude.{◌≡◌, ◌/◌, ◌%◌, ◌≤◌};
ghost use mathlib.Core.List.{flat_map};
ghost use Rattle.text.specs.Appends.{PieceAdded};
ghost use Rattle.text.specs.Hex.{hex};
ghost use Rattle.scantext.specs.Lines.{field, reply_line, sample_line, end_line, reply_bytes, stop_line};

use stream::{Phase, Stop};
use text::Text;

// A word and a number behind it.
fn put_field(text: &mut Text, label: &[u8], n: u64)
    ensures { PieceAdded text.old (field label.now n) text.new }
{
    text.bytes(label);
    text.number(n);
}

// The line of a sample, of its three words.
pub(crate) fn put_sample(text: &mut Text, angle: u16, distance: u16, mark: u16)
    ensures { PieceAdded text.old (sample_line (mark % 2) (mark / 2) angle distance) text.new }
{
    put_field(text, b"sample ", u64::from(mark % 2));
    put_field(text, b" ", u64::from(mark / 2));
    put_field(text, b" ", u64::from(angle));
    put_field(text, b" ", u64::from(distance));
    text.byte(b'\n');
}

// Bytes in hex.
fn put_hexes(text: &mut Text, bytes: &[u8])
    ensures { PieceAdded text.old (flat_map hex bytes.now) text.new }
{
    for b in bytes {
        text.hex(*b);
    }
}

// The line of a reply.
fn put_reply(text: &mut Text, bytes: &[u8])
    ensures { PieceAdded text.old (reply_line bytes.now) text.new }
{
    text.bytes(b"reply ");
    put_hexes(text, bytes);
    text.byte(b'\n');
}

// How many of the twenty bytes are the reply: those of health are three.
#[tactic(auto, unfolding(crate::specs::Lines::reply_bytes))]
fn reply_bytes(phase: Phase) -> usize
    ensures { (result ≡ reply_bytes phase) × (result ≤ 20) }
{
    match phase {
        Phase::HealthReply => 3,
        _ => 20,
    }
}

// The line of what ended a call that began in a phase, if it has one.
pub(crate) fn put_stop(text: &mut Text, phase: Phase, stop: Stop, reply: &[u8; 20])
    ensures { PieceAdded text.old (stop_line phase stop reply.now) text.new }
{
    match stop {
        Stop::AllTaken | Stop::NoRoom => {}
        Stop::Descriptor => text.bytes(b"descriptor\n"),
        Stop::Reply => put_reply(text, &reply[..reply_bytes(phase)]),
        Stop::BadHealth => text.bytes(b"bad health\n"),
    }
}

// The last line.
pub(crate) fn put_end(text: &mut Text, taken: u64, skipped: u32, held: u8)
    ensures { PieceAdded text.old (end_line taken skipped held) text.new }
{
    put_field(text, b"end taken ", taken);
    put_field(text, b" skipped ", u64::from(skipped));
    put_field(text, b" held ", u64::from(held));
    text.byte(b'\n');
}
