// The bytes of unwind instructions, and the instructions that they say.
#![tactic(auto)]

ghost use Rattle.std.specs.Prelude.{◌≡◌, ◌↔◌};
ghost use Rattle.section.specs.Check.{fine};
ghost use Rattle.instruction.specs.Bytes.{byte_of};
ghost use Rattle.instruction.specs.Decode.{decode_of};
ghost use Rattle.instruction.specs.Program.{audit_instructions_of, CleanInstructions};

use crate::place::Place;
use section::Refusal;

mod faults;
mod order;
mod place;
mod ranges;
mod uleb;

#[derive(Clone, Copy)]
pub enum Instruction {
    DataPop(u32),
    DataPush(u32),
    RegPop(u32),
    RegToSp(u32),
    VfpPop { start: u32, count: u32 },
    Finish,
    Refused,
    Reserved,
    Unimplemented,
    Error,
}

// The byte at a position, if one stands there: words in rising order, inside a word byte 3 down to byte 0.
#[tactic(auto, using(section::proofs::Rules::words_exact), unfolding(crate::specs::Bytes::byte_of))]
pub fn byte_at(words: &[u8], at: u32) -> Result<Option<u8>, Refusal>
    ensures { result ≡ byte_of words.now at }
{
    section::words_rule(words.len())?;
    if (at as usize) < words.len() {
        Ok(Some(order::byte(words, at)))
    } else {
        Ok(None)
    }
}

// The instruction at a position and the position after it, if a byte stands there.
#[tactic(auto, using(crate::proofs::Bytes::byte_inside), unfolding(crate::specs::Decode::decode_of))]
pub fn decode(words: &[u8], at: u32) -> Result<Option<(Instruction, u32)>, Refusal>
    ensures { result ≡ decode_of words.now at }
{
    match byte_at(words, at)? {
        None => Ok(None),
        Some(b) => {
            let next = at + 1;
            Ok(Some(ranges::opcode(Place { words, next }, b)?))
        }
    }
}

// Whether the instructions through the first Finish or Refused, or to the end, can all be executed; or what the first that cannot gives.
#[tactic(auto, using(crate::proofs::Laws::decode_inside, crate::proofs::Program::audit_over, crate::proofs::Program::audit_from_lem, crate::proofs::Program::audit_end, crate::proofs::Program::audit_last, crate::proofs::Program::instructions_exact))]
pub fn audit_instructions(words: &[u8], skip: u32) -> Result<(), Refusal>
    ensures answer { result ≡ audit_instructions_of words.now skip }
    ensures exact { (result ≡ fine) ↔ CleanInstructions words.now skip }
{
    if 2 < skip {
        return Err(Refusal::Section);
    }
    let mut at = skip;
    while let Some((i, next)) = decode(words, at)? {
        faults::fault(i)?;
        if faults::ends(i) {
            return Ok(());
        }
        at = next;
    }
    Ok(())
}
