// The instructions, by ranges of the first byte.
ghost use Rattle.std.specs.Prelude.{◌≡◌, ◌≤◌};
ghost use Rattle.instruction.specs.Decode.{error_at, pop_mask, to_sp, pop_run, low_mask, vfp_pop, single_of, opcode_of};

use crate::Instruction;
use crate::place::Place;
use section::Refusal;

// After an Error the walk is at its end.
pub(crate) fn error_at(at: Place) -> Result<(Instruction, u32), Refusal>
    ensures { result ≡ error_at at.entry.words.now }
{
    Ok((Instruction::Error, at.words.len() as u32))
}

// 80-8F
#[tactic(auto, unfolding(crate::specs::Decode::pop_mask))]
fn pop_mask(at: Place, b: u8) -> Result<(Instruction, u32), Refusal>
    ensures { result ≡ pop_mask at.entry.words.now at.entry.next b }
{
    let Some(c) = crate::byte_at(at.words, at.next)? else {
        return error_at(at);
    };
    let m = (b % 16) as u32 * 256 + c as u32;
    if m == 0 {
        return Ok((Instruction::Refused, at.next + 1));
    }
    Ok((Instruction::RegPop(m * 16), at.next + 1))
}

// 90-9F
#[tactic(auto, unfolding(crate::specs::Decode::to_sp))]
fn to_sp(next: u32, b: u8) -> Result<(Instruction, u32), Refusal>
    ensures { result ≡ to_sp next b }
{
    match b {
        0x9D | 0x9F => Ok((Instruction::Reserved, next)),
        _ => Ok((Instruction::RegToSp((b % 16) as u32), next)),
    }
}

const RUNS: [u32; 16] = [
    0x10, 0x30, 0x70, 0xF0, 0x1F0, 0x3F0, 0x7F0, 0xFF0, 0x4010, 0x4030, 0x4070, 0x40F0, 0x41F0,
    0x43F0, 0x47F0, 0x4FF0,
];

// A0-AF
fn pop_run(next: u32, b: u8) -> Result<(Instruction, u32), Refusal>
    ensures { result ≡ pop_run next b }
{
    let i = (b % 16) as usize;
    Ok((Instruction::RegPop(RUNS[i]), next))
}

// B1
#[tactic(auto, unfolding(crate::specs::Decode::low_mask))]
fn low_mask(at: Place) -> Result<(Instruction, u32), Refusal>
    ensures { result ≡ low_mask at.entry.words.now at.entry.next }
{
    let Some(c) = crate::byte_at(at.words, at.next)? else {
        return error_at(at);
    };
    if c == 0 || 0x10 <= c {
        return Ok((Instruction::Reserved, at.next + 1));
    }
    Ok((Instruction::RegPop(c as u32), at.next + 1))
}

// C8 with 16 more, C9
#[tactic(auto, unfolding(crate::specs::Decode::vfp_pop))]
fn vfp_pop(at: Place, more: u8) -> Result<(Instruction, u32), Refusal>
    requires { more ≤ 16 }
    ensures { result ≡ vfp_pop at.entry.words.now at.entry.next more }
{
    let Some(c) = crate::byte_at(at.words, at.next)? else {
        return error_at(at);
    };
    let start = (c / 16 + more) as u32;
    let count = (c % 16 + 1) as u32;
    Ok((Instruction::VfpPop { start, count }, at.next + 1))
}

// B0-FF
#[tactic(auto, unfolding(crate::specs::Decode::single_of))]
fn single(at: Place, b: u8) -> Result<(Instruction, u32), Refusal>
    ensures { result ≡ single_of at.entry.words.now at.entry.next b }
{
    match b {
        0xB0 => Ok((Instruction::Finish, at.next)),
        0xB1 => low_mask(at),
        0xB2 => crate::uleb::pop_long(at),
        0xC8 => vfp_pop(at, 16),
        0xC9 => vfp_pop(at, 0),
        _ => Ok((Instruction::Unimplemented, at.next)),
    }
}

// The instruction of a first byte.
#[tactic(auto, unfolding(crate::specs::Decode::opcode_of))]
pub(super) fn opcode(at: Place, b: u8) -> Result<(Instruction, u32), Refusal>
    ensures { result ≡ opcode_of at.entry.words.now at.entry.next b }
{
    match b / 16 {
        0..=3 => Ok((Instruction::DataPop((b % 64) as u32 * 4 + 4), at.next)),
        4..=7 => Ok((Instruction::DataPush((b % 64) as u32 * 4 + 4), at.next)),
        8 => pop_mask(at, b),
        9 => to_sp(at.next, b),
        0xA => pop_run(at.next, b),
        _ => single(at, b),
    }
}
