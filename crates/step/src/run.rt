// The instructions of one frame, executed in turn and counted.
ghost use Rattle.std.specs.Prelude.{◌≡◌};
ghost use Rattle.step.specs.Execute.{registers};
ghost use Rattle.step.specs.Run.{linked, run_of, ends_as};

use crate::execute::{Outcome, execute};
use section::{Refusal, Section};

// At the end of a frame 15 takes 14, unless it was loaded.
fn link(core: &mut [u32; 16], loaded: bool)
    ensures { core.new ≡ linked core.old loaded }
{
    if !loaded {
        core[15] = core[14];
    }
}

// Executes instructions until Finish, the end of the bytes or a refusal, and counts them.
#[inline(always)]
#[tactic(auto, using(instruction::proofs::Laws::decode_inside, crate::proofs::Runs::run_stop, crate::proofs::Runs::run_next, crate::proofs::Runs::run_refuse, crate::proofs::Runs::run_from_lem, crate::proofs::Runs::run_over))]
pub(crate) fn run(
    words: &[u8],
    skip: u32,
    stack: Section,
    core: &mut [u32; 16],
    vfp: &mut [u64; 32],
) -> Result<u32, Refusal>
    ensures { run_of words.now skip stack.entry.bytes.now stack.entry.at (registers core.old vfp.old) ≡ ends_as (registers core.old vfp.old) result core.new vfp.new }
{
    if 2 < skip {
        return Err(Refusal::Section);
    }
    let mut at = skip;
    let mut loaded = false;
    let mut count: u32 = 0;
    while let Some((i, next)) = instruction::decode(words, at)? {
        count += 1;
        match execute(stack, core, vfp, i)? {
            Outcome::Next { loaded: now } => loaded |= now,
            Outcome::Finished => break,
        }
        at = next;
    }
    link(core, loaded);
    Ok(count)
}
