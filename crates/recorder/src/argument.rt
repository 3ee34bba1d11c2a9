// What the program is started with.
use program::Program;
use std::rt::Env;
use text::digit_value;

// The byte that two digits tell.
fn byte(high: u8, low: u8) -> Option<u8> {
    Some(digit_value(high)? * 16 + digit_value(low)?)
}

// 32 digits as sixteen bytes.
fn serial_in(text: &[u8; 36]) -> Option<[u8; 16]> {
    let mut bytes = [0u8; 16];
    for (b, pair) in bytes.iter_mut().zip(text.chunks_exact(2)) {
        *b = byte(pair[0], pair[1])?;
    }
    Some(bytes)
}

// Argument i as a serial: zeros where it is left out, None where it does not read.
pub fn serial_of(program: Program<'_>, i: usize) -> Option<[u8; 16]> {
    if program.arg_count() <= i {
        return Some([0u8; 16]);
    }
    let mut text = [0u8; 36];
    match program.rt.arg(i, &mut text) {
        Ok(32) => serial_in(&text),
        _ => None,
    }
}
