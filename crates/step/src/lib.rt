// A step from the registers of one frame to those of its caller.
#![tactic(auto)]

ghost use Rattle.std.specs.Prelude.{◌≡◌};
ghost use Rattle.image.specs.Image.{seen};
ghost use Rattle.step.specs.Execute.{registers};
ghost use Rattle.step.specs.Step.{stands, ran_by, stepped_by, step_of};

use entry::Span;
use image::{Found, Image};
use section::{Addr, Refusal, Section};

mod execute;
mod run;
mod stack;

// 13 is sp, 14 the link, 15 the counter.
#[derive(Clone, Copy)]
pub struct Registers {
    pub core: [u32; 16],
    pub vfp: [u64; 32],
}

// Where a step leads: to the next frame, after so many instructions, or nowhere.
#[derive(Clone, Copy, Debug, PartialEq, Eq)]
pub enum Arrival {
    Frame(u32),
    CannotUnwind,
}

// The registers after it. A refusal and cannot-unwind hand back the registers given.
#[derive(Clone, Copy)]
pub struct Stepped {
    pub arrival: Result<Arrival, Refusal>,
    pub registers: Registers,
}

// The instructions of a span, done to the registers. They are kept for a refusal, which puts them back: the one copy of a step.
// Inlined, so that the span stays in registers: passed on, it would be copied through memory.
#[inline(always)]
#[tactic(auto, using(entry::proofs::Laws::words_are))]
fn run_span(
    image: Image,
    stack: Section,
    core: &mut [u32; 16],
    vfp: &mut [u64; 32],
    span: Span,
) -> Result<Arrival, Refusal>
    ensures { stands result core.new vfp.new ≡ ran_by (seen image.entry) stack.entry.bytes.now stack.entry.at (registers core.old vfp.old) span }
{
    let core_given = *core;
    let vfp_given = *vfp;
    let words = entry::instruction_words(image.index.bytes, image.table.bytes, span);
    match run::run(words, span.skip, stack, core, vfp) {
        Ok(count) => Ok(Arrival::Frame(count)),
        Err(r) => {
            *core = core_given;
            *vfp = vfp_given;
            Err(r)
        }
    }
}

// What an entry leads to, done to the registers.
#[inline(always)]
#[tactic(auto, unfolding(crate::specs::Step::stepped_by))]
fn step_by(
    image: Image,
    stack: Section,
    core: &mut [u32; 16],
    vfp: &mut [u64; 32],
    found: Found,
) -> Result<Arrival, Refusal>
    ensures { stands result core.new vfp.new ≡ stepped_by (seen image.entry) stack.entry.bytes.now stack.entry.at (registers core.old vfp.old) found }
{
    match found {
        Found::CannotUnwind(_) => Ok(Arrival::CannotUnwind),
        Found::Compact(_, _, span) | Found::Generic(_, _, span, _) => run_span(
            image, stack, core, vfp, span,
        ),
    }
}

// Sections (index, table, stack), search by register 15 as it stands, entry, instructions: done to the registers where they stand. They are
// two arrays and no `Registers`, because the C interface lends them so.
#[tactic(auto, unfolding(crate::specs::Step::step_of, crate::specs::Step::found_of))]
pub fn step_in_place(
    image: Image,
    stack: Section,
    core: &mut [u32; 16],
    vfp: &mut [u64; 32],
) -> Result<Arrival, Refusal>
    ensures { stands result core.new vfp.new ≡ step_of (seen image.entry) stack.entry.bytes.now stack.entry.at (registers core.old vfp.old) }
{
    image.sections()?;
    section::stack_rule(stack.bytes.len(), stack.at)?;
    let hit = search::search(image.index, Addr(core[15]))?;
    let found = image.led_by(hit.entry, hit.function)?;
    step_by(image, stack, core, vfp, found)
}

// A step from registers given to those after it.
pub fn step(image: Image, stack: Section, given: Registers) -> Stepped
    ensures { result ≡ step_of (seen image.entry) stack.entry.bytes.now stack.entry.at given }
{
    let mut core = given.core;
    let mut vfp = given.vfp;
    let arrival = step_in_place(image, stack, &mut core, &mut vfp);
    Stepped {
        arrival,
        registers: Registers { core, vfp },
    }
}
