// The words of the lent stack.
ghost use Rattle.std.specs.Prelude.{◌≡◌};
ghost use Rattle.step.specs.Stack.{stack_word, double_at, stack_double};

use section::{Addr, Off, Section};

// The word at sp.
#[tactic(auto, unfolding(crate::specs::Stack::stack_word))]
pub(crate) fn word(stack: Section, sp: u32) -> Option<u32>
    ensures { result ≡ stack_word stack.entry.bytes.now stack.entry.at sp }
{
    let o = section::offset_of(stack.at, stack.bytes.len(), Addr(sp))?;
    section::word_at(stack.bytes, o)
}

// Two words, the low one first. The high one is read from what follows the low one, so that no sum of offsets has to fit.
#[tactic(auto, using(section::proofs::Words::word_here, crate::proofs::Words::double_split, crate::proofs::Words::double_low, crate::proofs::Words::double_end))]
fn double_at(stack: &[u8], at: Off) -> Option<u64>
    ensures { result ≡ double_at stack.now at.0 }
{
    let low = section::word_at(stack, at)?;
    let rest = &stack[at.0 as usize + 4..];
    let high = section::word_at(rest, Off(0))?;
    Some(low as u64 + 0x1_0000_0000 * high as u64)
}

// The double word at sp.
#[tactic(auto, unfolding(crate::specs::Stack::stack_double))]
pub(crate) fn double_word(stack: Section, sp: u32) -> Option<u64>
    ensures { result ≡ stack_double stack.entry.bytes.now stack.entry.at sp }
{
    let o = section::offset_of(stack.at, stack.bytes.len(), Addr(sp))?;
    double_at(stack.bytes, o)
}
