// B2: a data pop whose size is a ULEB.
ghost use Rattle.std.specs.Prelude.{◌≡◌};
ghost use Rattle.instruction.specs.Decode.{pop_long, long_of};

use crate::Instruction;
use crate::place::Place;
use section::{Refusal, wide};

// The pop of a value that ends before a place.
#[tactic(auto, unfolding(crate::specs::Decode::long_of))]
fn long(at: Place, value: u64) -> Result<(Instruction, u32), Refusal>
    ensures { result ≡ long_of at.entry.words.now at.entry.next value }
{
    if value <= 0x3FFF_FF7E {
        Ok((Instruction::DataPop(4 * value as u32 + 0x204), at.next))
    } else {
        crate::ranges::error_at(at)
    }
}

// At most five bytes, seven bits of each, the low ones first; as in pointer's LEB, but over bytes in the order of instructions.
pub(super) fn pop_long(at: Place) -> Result<(Instruction, u32), Refusal>
    ensures { result ≡ pop_long at.entry.words.now at.entry.next }
{
    let mut value: u64 = 0;
    let mut scale: u64 = 1;
    for k in 0..5 {
        if at.words.len() <= (at.next + k) as usize {
            break;
        }
        let byte = wide(crate::order::byte(at.words, at.next + k));
        value += byte % 128 * scale;
        if byte < 128 {
            let end = Place {
                words: at.words,
                next: at.next + k + 1,
            };
            return long(end, value);
        }
        scale *= 128;
    }
    crate::ranges::error_at(at)
}
