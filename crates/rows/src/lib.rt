// What the calls for C share: the number and the row that an answer becomes, and the rows of what has kinds.
#![tactic(auto)]

ghost use Rattle.std.specs.Prelude.{◌≡◌, [], ◌∷◌, Ok};
ghost use Rattle.std.specs.Option.{option_map_or};
ghost use Rattle.section.specs.Check.{and_then, on_answer};
ghost use Rattle.section.specs.Number.{number};
ghost use Rattle.section.specs.Place.{addr};
ghost use Rattle.image.specs.Image.{image, seen};
ghost use Rattle.entry.specs.Answers.{personality_value, content_row};
ghost use Rattle.entry.specs.Parts.{chosen};
ghost use Rattle.instruction.specs.Answers.{instruction_row};

use entry::{Content, Held, Personality};
use image::Image;
use instruction::Instruction;
use section::{Addr, Refusal, Section};

// An answer's row and its number; at a refusal the row is all zero, as the caller writes it: `[0; N]` has no form for a const parameter.
pub fn told<T: Copy, const N: usize>(
    answer: Result<[T; N], Refusal>,
    zeros: [T; N],
    row: &mut [T; N],
) -> u32
    ensures number { result ≡ on_answer answer (λ _. 0) number }
    ensures row { row.new ≡ on_answer answer (λ x. x) (λ _. zeros) }
{
    match answer {
        Ok(x) => {
            *row = x;
            0
        }
        Err(r) => {
            *row = zeros;
            r.number()
        }
    }
}

// A section as C lends it: its bytes, and where they stand.
pub fn section<'a>(bytes: &'a [u8], at: u32) -> Section<'a>
    ensures { result ≡ record { bytes = bytes.entry; at = addr at } }
{
    Section {
        bytes,
        at: Addr(at),
    }
}

// An image as C lends it.
pub fn image<'a>(
    index: &'a [u8],
    index_address: u32,
    table: &'a [u8],
    table_address: u32,
) -> Image<'a>
    ensures answer { result ≡ record { index = record { bytes = index.entry; at = addr index_address }; table = record { bytes = table.entry; at = addr table_address } } }
    ensures seen { seen result ≡ image index.now (addr index_address) table.now (addr table_address) }
{
    Image {
        index: section(index, index_address),
        table: section(table, table_address),
    }
}

// The row of an address alone. Rows are functions with names: with a closure in `map` the check left the caller's goal open.
pub fn address_row(a: Addr) -> [u32; 1]
    ensures { result ≡ a.0 ∷ [] }
{
    [a.0]
}

// A selector, or the address of a personality.
pub fn personality_value(p: Personality) -> u32
    ensures { result ≡ personality_value p }
{
    match p {
        Personality::Compact(selector) => selector as u32,
        Personality::Generic(a) => a.0,
    }
}

// Kind, selector or table address, offset of the words, words, skip.
pub fn content_row(content: Content) -> [u32; 5]
    ensures { result ≡ content_row content }
{
    match content {
        Content::CannotUnwind => [0; 5],
        Content::Compact(p, s) => [1, personality_value(p), s.at.0, s.words, s.skip],
        Content::Table(a) => [4, a.0, 0, 0, 0],
    }
}

// 1 in the index, 2 in the table.
pub fn compact_kind(held: Held) -> u32
    ensures { result ≡ chosen held 1 2 }
{
    match held {
        Held::Index => 1,
        Held::Table => 2,
    }
}

// Kind, a, b, next position: kinds are numbers, as C has them.
fn instruction_row(i: Instruction, next: u32) -> [u32; 4]
    ensures { result ≡ instruction_row i next }
{
    match i {
        Instruction::DataPop(size) => [1, size, 0, next],
        Instruction::DataPush(size) => [2, size, 0, next],
        Instruction::RegPop(mask) => [3, mask, 0, next],
        Instruction::RegToSp(register) => [4, register, 0, next],
        Instruction::VfpPop { start, count } => [5, start, count, next],
        Instruction::Finish => [6, 0, 0, next],
        Instruction::Refused => [7, 0, 0, next],
        Instruction::Reserved => [8, 0, 0, next],
        Instruction::Unimplemented => [9, 0, 0, next],
        Instruction::Error => [10, 0, 0, next],
    }
}

// The row of what was decoded at a position; at the end of the bytes the next position is that position.
pub fn decoded_row(
    decoded: Result<Option<(Instruction, u32)>, Refusal>,
    at: u32,
) -> Result<[u32; 4], Refusal>
    ensures { result ≡ and_then decoded (λ o. Ok (option_map_or (λ s. instruction_row s.0 s.1) o (0 ∷ 0 ∷ 0 ∷ at ∷ []))) }
{
    Ok(match decoded? {
        Some((i, next)) => instruction_row(i, next),
        None => [0, 0, 0, at],
    })
}
