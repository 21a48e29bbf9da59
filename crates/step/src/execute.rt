// What one instruction does to the registers, in place. After a refusal they are not used again.
ghost use Rattle.std.specs.Prelude.{◌≡◌, ℕ, List};
ghost use Rattle.instruction.specs.Decode.{Named};
ghost use Rattle.step.specs.Execute.{registers, pop_regs, pop_vfp, execute_of, effect_of};

use instruction::Instruction;
use section::{Refusal, Section};

// What comes after an instruction: the next one, and whether this one loaded 15, or the end of the frame.
#[derive(Clone, Copy)]
pub(crate) enum Outcome {
    Next { loaded: bool },
    Finished,
}

// Loads the registers of a mask from sp upward. 13 is written back at the end, unless it was loaded.
#[tactic(auto, using(crate::proofs::Pops::turn_out, crate::proofs::Pops::regs_out))]
fn pop_regs(stack: Section, core: &mut [u32; 16], mask: u32) -> Result<Outcome, Refusal>
    ensures { (vfp : List ℕ) → pop_regs stack.entry.bytes.now stack.entry.at (registers core.old vfp) mask ≡ effect_of result core.new vfp }
{
    let mut sp = core[13];
    for j in 0..16 {
        if (mask >> j) % 2 == 1 {
            core[j] = crate::stack::word(stack, sp).ok_or(Refusal::Stack)?;
            sp = sp.wrapping_add(4);
        }
    }
    if (mask >> 13) % 2 == 0 {
        core[13] = sp;
    }
    let loaded = (mask >> 15) % 2 == 1;
    Ok(Outcome::Next { loaded })
}

// VFP registers, 8 bytes each. Too high a register is refused before the stack is read.
#[tactic(auto, using(crate::proofs::Pops::vfp_turn_load, crate::proofs::Pops::vfp_turn_out, crate::proofs::Pops::vfp_over, crate::proofs::Pops::vfp_turn_outside))]
fn pop_vfp(
    stack: Section,
    core: &mut [u32; 16],
    vfp: &mut [u64; 32],
    start: u32,
    count: u32,
) -> Result<Outcome, Refusal>
    ensures { pop_vfp stack.entry.bytes.now stack.entry.at (registers core.old vfp.old) start count ≡ effect_of result core.new vfp.new }
{
    let first = start as usize;
    let end = first + count as usize;
    if 32 < end {
        return Err(Refusal::Regs);
    }
    let mut sp = core[13];
    for j in first..end {
        vfp[j] = crate::stack::double_word(stack, sp).ok_or(Refusal::Stack)?;
        sp = sp.wrapping_add(8);
    }
    core[13] = sp;
    Ok(Outcome::Next { loaded: false })
}

// An instruction, in place.
#[tactic(auto, using(crate::proofs::Pops::sub_wraps), unfolding(crate::specs::Execute::execute_of))]
pub(crate) fn execute(
    stack: Section,
    core: &mut [u32; 16],
    vfp: &mut [u64; 32],
    i: Instruction,
) -> Result<Outcome, Refusal>
    requires { Named i }
    ensures { execute_of stack.entry.bytes.now stack.entry.at (registers core.old vfp.old) i ≡ effect_of result core.new vfp.new }
{
    match i {
        Instruction::DataPop(n) => core[13] = core[13].wrapping_add(n),
        Instruction::DataPush(n) => core[13] = core[13].wrapping_sub(n),
        Instruction::RegPop(mask) => return pop_regs(stack, core, mask),
        Instruction::RegToSp(n) => core[13] = core[n as usize],
        Instruction::VfpPop { start, count } => return pop_vfp(stack, core, vfp, start, count),
        Instruction::Finish => return Ok(Outcome::Finished),
        Instruction::Refused => return Err(Refusal::Refused),
        Instruction::Reserved => return Err(Refusal::Reserved),
        Instruction::Unimplemented => return Err(Refusal::Unsupported),
        Instruction::Error => return Err(Refusal::Malformed),
    }
    Ok(Outcome::Next { loaded: false })
}
