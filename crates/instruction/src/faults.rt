// What an audit asks of one instruction.
ghost use Rattle.std.specs.Prelude.{◌≡◌};
ghost use Rattle.instruction.specs.Program.{ends_of, fault_of};

use crate::Instruction;
use section::Refusal;

// Finish and Refused end the walk.
pub(super) fn ends(i: Instruction) -> bool
    ensures { result ≡ ends_of i }
{
    matches!(i, Instruction::Finish | Instruction::Refused)
}

// What an audit has against an instruction.
#[tactic(auto, unfolding(crate::specs::Program::fault_of))]
pub(super) fn fault(i: Instruction) -> Result<(), Refusal>
    ensures { result ≡ fault_of i }
{
    match i {
        Instruction::VfpPop { start, count } => {
            if start as u64 + count as u64 <= 32 {
                Ok(())
            } else {
                Err(Refusal::Regs)
            }
        }
        Instruction::Reserved => Err(Refusal::Reserved),
        Instruction::Unimplemented => Err(Refusal::Unsupported),
        Instruction::Error => Err(Refusal::Malformed),
        _ => Ok(()),
    }
}
