// The walker over instruction bytes: the part of a section that holds them, and a position.
#![tactic(auto)]

ghost use Rattle.std.specs.Prelude.{◌≡◌};
ghost use Rattle.walker.specs.Walker.{start_rule, Starts, StepsByte, StepsInstruction, got_or_refused, walked_byte, walked_instruction};

use instruction::Instruction;
use section::Refusal;

// Instruction words, and a position in the order of their bytes.
#[derive(Clone, Copy)]
pub struct UnwindByteIter<'a> {
    pub bytes: &'a [u8],
    pub pos: u32,
}

// Whether a walk may start, and the walker that starts it: a refused one is promised to be over nothing, so the check stands beside it.
#[derive(Clone, Copy)]
pub struct Started<'a> {
    pub check: Result<(), Refusal>,
    pub bytes: &'a [u8],
    pub pos: u32,
}

// What stands at the walker, a byte or an instruction with the position after it, and the walker after it.
#[derive(Clone, Copy)]
pub struct Next<'a, T> {
    pub got: Result<Option<T>, Refusal>,
    pub bytes: &'a [u8],
    pub pos: u32,
}

// What a walk got and the position after it: plain values.
#[derive(Clone, Copy)]
pub struct Walked<T> {
    pub got: Result<Option<T>, Refusal>,
    pub pos: u32,
}

// Whether these are instruction words, and the skip is one that an entry can have.
#[tactic(auto, unfolding(crate::specs::Walker::start_rule))]
fn start_rule(bytes: &[u8], skip: u32) -> Result<(), Refusal>
    ensures { result ≡ start_rule bytes.now skip }
{
    section::words_rule(bytes.len())?;
    if skip <= 2 {
        Ok(())
    } else {
        Err(Refusal::Section)
    }
}

// A walker at the skip; where the bytes are no instruction words or the skip is over 2, why, and a walker over nothing.
#[tactic(auto, using(section::proofs::Views::view_made), unfolding(crate::specs::Walker::start_spot, crate::specs::Walker::start_pos))]
pub fn from_bytes<'a>(bytes: &'a [u8], skip: u32) -> Started<'a>
    ensures { Starts bytes.entry skip result }
{
    let check = start_rule(bytes, skip);
    let (bytes, pos) = match check {
        Ok(()) => (bytes, skip),
        Err(_) => (&bytes[0..0], 0),
    };
    Started { check, bytes, pos }
}

// The byte at the walker, and the walker one further; at the end it stays. What is read and where that leads differ from the next function's.
#[tactic(auto, using(instruction::proofs::Bytes::byte_inside), unfolding(crate::specs::Walker::pos_after_byte))]
pub fn next_byte<'a>(it: UnwindByteIter<'a>) -> Next<'a, u8>
    ensures { StepsByte it.entry result }
{
    let got = instruction::byte_at(it.bytes, it.pos);
    let pos = match got {
        Ok(Some(_)) => it.pos + 1,
        _ => it.pos,
    };
    Next {
        got,
        bytes: it.bytes,
        pos,
    }
}

// The instruction at the walker, and the walker after it; at the end it stays.
#[tactic(auto, unfolding(crate::specs::Walker::pos_after_instruction))]
pub fn next_instruction<'a>(it: UnwindByteIter<'a>) -> Next<'a, (Instruction, u32)>
    ensures { StepsInstruction it.entry result }
{
    let got = instruction::decode(it.bytes, it.pos);
    let pos = match got {
        Ok(Some((_, next))) => next,
        _ => it.pos,
    };
    Next {
        got,
        bytes: it.bytes,
        pos,
    }
}

// What the walker got, or why no walk may start.
fn got_or_refused<T: Copy>(
    check: Result<(), Refusal>,
    got: Result<Option<T>, Refusal>,
    pos: u32,
) -> Walked<T>
    ensures { result ≡ got_or_refused check got pos }
{
    match check {
        Ok(()) => Walked { got, pos },
        Err(r) => Walked {
            got: Err(r),
            pos: 0,
        },
    }
}

// One byte of a walk that has come to a position, for a caller that keeps no walker. The next function differs in one call: a closure for it would be longer.
#[tactic(auto, using(crate::proofs::Laws::byte_walked))]
pub fn walk_byte(bytes: &[u8], skip: u32, pos: u32) -> Walked<u8>
    ensures { result ≡ walked_byte bytes.now skip pos }
{
    let start = from_bytes(bytes, skip);
    let byte = next_byte(UnwindByteIter {
        bytes: start.bytes,
        pos,
    });
    got_or_refused(start.check, byte.got, byte.pos)
}

// One instruction of such a walk.
pub fn walk_instruction(bytes: &[u8], skip: u32, pos: u32) -> Walked<(Instruction, u32)>
    ensures { result ≡ walked_instruction bytes.now skip pos }
{
    let start = from_bytes(bytes, skip);
    let step = next_instruction(UnwindByteIter {
        bytes: start.bytes,
        pos,
    });
    got_or_refused(start.check, step.got, step.pos)
}
