// The order of instruction bytes.
ghost use Rattle.std.specs.Prelude.{◌≡◌, ◌<◌, ◌%◌, length};
ghost use Rattle.instruction.specs.Bytes.{instruction_byte};

// Byte 3 of a word comes first.
pub(super) fn byte(words: &[u8], at: u32) -> u8
    requires { (at < length words.now) × (length words.now % 4 ≡ 0) }
    ensures { result ≡ instruction_byte words.now at }
{
    let i = at as usize;
    words[i / 4 * 4 + (3 - i % 4)]
}
