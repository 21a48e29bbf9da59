// The line of a case: its name, then numbers and bytes in hex, with single spaces between them.
ghost use Rattle.std.specs.Prelude.{◌<◌};

// Room for the longest slice that a case lends.
pub(crate) const ROOM: usize = 131200;

// Word k of a line; the name is word 0. A word that is missing is empty.
fn word<'a>(line: &'a [u8], k: usize) -> &'a [u8] {
    line.split(|b| *b == b' ').nth(k).unwrap_or(&[])
}

// The hex digits that a word begins with, and what follows them: all that stand below `0`, as a `+`, are none.
fn digits<'a>(word: &'a [u8]) -> (&'a [u8], &'a [u8]) {
    let n = word.iter().position(|b| *b < b'0').unwrap_or(word.len());
    word.split_at(n)
}

// The value of a hex digit. Letters stand 9 above their last four bits.
fn digit(b: u8) -> u8
    ensures { result < 16 }
{
    (b % 16 + b % 128 / 64 * 9) % 16
}

// The number that digits say.
fn value(digits: &[u8]) -> u32 {
    digits
        .iter()
        .fold(0u32, |n, b| n << 4 | u32::from(digit(*b)))
}

// Word k as a number.
pub(crate) fn number(line: &[u8], k: usize) -> u32 {
    let (digits, _) = digits(word(line, k));
    value(digits)
}

// A `+` and a number after a word's bytes are so many zero bytes more.
fn zeros(rest: &[u8]) -> u32 {
    match rest.strip_prefix(b"+") {
        Some(more) => value(digits(more).0),
        None => 0,
    }
}

// Word k as bytes, two digits each, in a room of zeros; none where they are more than there is room for.
pub(crate) fn bytes<'a>(line: &[u8], k: usize, room: &'a mut [u8; ROOM]) -> &'a [u8] {
    let (digits, rest) = digits(word(line, k));
    for (byte, pair) in room.iter_mut().zip(digits.chunks(2)) {
        *byte = pair.iter().fold(0u8, |n, b| n << 4 | digit(*b));
    }
    let n = digits.len() / 2 + zeros(rest) as usize;
    room.get(..n).unwrap_or(&[])
}
