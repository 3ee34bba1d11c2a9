// What the system tells of a descriptor: a line each for its position, its flags in octal, its mount and, since Linux 5.14, its file's number.
ghost use Rattle.std.specs.Prelude.{◌≤◌, length};

// Where the line that begins at a place ends.
fn line_end(text: &[u8], from: usize) -> usize
    ensures { result ≤ length text.now }
{
    (from..text.len())
        .find(|i| text[*i] == b'\n')
        .unwrap_or(text.len())
}

// Where the line behind that one ends.
fn next_end(text: &[u8], end: usize) -> usize
    ensures { result ≤ length text.now }
{
    line_end(text, end.saturating_add(1))
}

// Where the flags end.
fn flags_end(text: &[u8]) -> usize
    ensures { result ≤ length text.now }
{
    next_end(text, line_end(text, 0))
}

// Whether the descriptor is open for writing: the two lowest bits of its flags are 0 for reading alone.
pub(crate) fn can_write(text: &[u8]) -> bool {
    text[..flags_end(text)].last().is_some_and(|b| *b % 4 != 0)
}

// What tells which file it is: the lines of its mount and of its number, where that is told.
fn file(text: &[u8]) -> Option<&[u8]> {
    let flags = flags_end(text);
    let mount = next_end(text, flags);
    if !text[mount..].starts_with(b"\nino:") {
        return None;
    }
    text.get(flags..next_end(text, mount))
}

// Whether both are told to be of one file: the same mount and the same number.
pub(crate) fn is_same_file(a: &[u8], b: &[u8]) -> bool {
    match (file(a), file(b)) {
        (Some(a), Some(b)) => a == b,
        _ => false,
    }
}
