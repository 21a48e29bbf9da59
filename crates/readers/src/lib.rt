// The readers that the C library's calls are made of, one call each, for tests and tools; readers_c exports them to C.
// Each call returns the refusal's number, 0 for none, and fills its row, all zero at a refusal.
#![tactic(auto)]

ghost use Rattle.std.specs.Prelude.{◌≡◌, [], ◌∷◌, Ok};
ghost use Rattle.std.specs.Option.{option_map_or};
ghost use Rattle.section.specs.Answer.{Told};
ghost use Rattle.section.specs.Answers.{check_answer, offset_answer, sum_answer, word_answer};
ghost use Rattle.section.specs.Check.{and_then};
ghost use Rattle.section.specs.Place.{addr, off, offset_of};
ghost use Rattle.section.specs.Sum.{plus_of};
ghost use Rattle.section.specs.Word.{word_at};
ghost use Rattle.instruction.specs.Answers.{byte_answer};
ghost use Rattle.instruction.specs.Bytes.{byte_of};
ghost use Rattle.entry.specs.Answers.{function_answer, content_answer, language_answer};
ghost use Rattle.entry.specs.Index.{function_at, content_at};
ghost use Rattle.entry.specs.Table.{table_entry_of};
ghost use Rattle.lsda.specs.Answers.{header_answer, site_read_answer, site_read_row};
ghost use Rattle.lsda.specs.Header.{header_of};
ghost use Rattle.lsda.specs.Site.{site_at};
ghost use Rattle.image.specs.Answers.{found_answer, found_row};
ghost use Rattle.image.specs.Image.{image, sections_of, entry_at};
ghost use Rattle.walker.specs.Answers.{walked_byte_answer, walked_instruction_answer};
ghost use Rattle.walker.specs.Walker.{walked_byte, walked_instruction};

use image::Found;
use lsda::{Header, Site};
use section::{Addr, Off, Refusal};
use walker::Walked;

// No row, so nothing for `told` to fill.
pub fn anrukfal_sections(index: &[u8], index_address: u32, table: &[u8], table_address: u32) -> u32
    ensures { result ≡ (check_answer (sections_of (image index.now (addr index_address) table.now (addr table_address)))).number }
{
    match rows::image(index, index_address, table, table_address).sections() {
        Ok(()) => 0,
        Err(r) => r.number(),
    }
}

fn offset_row(at: Off) -> [u32; 1]
    ensures { result ≡ at.0 ∷ [] }
{
    [at.0]
}

// Offset.
pub fn anrukfal_offset(section: u32, len: usize, address: u32, row: &mut [u32; 1]) -> u32
    ensures { Told (offset_answer (offset_of (addr section) len (addr address))) result row.new }
{
    let at = section::offset_of(Addr(section), len, Addr(address)).ok_or(Refusal::Place);
    rows::told(at.map(offset_row), [0], row)
}

// Sum.
pub fn anrukfal_plus(a: u32, by: u32, row: &mut [u32; 1]) -> u32
    ensures { Told (sum_answer (plus_of (addr a) by)) result row.new }
{
    let sum = section::plus(Addr(a), by).ok_or(Refusal::Sum);
    rows::told(sum.map(rows::address_row), [0], row)
}

fn word_row(w: u32) -> [u32; 1]
    ensures { result ≡ w ∷ [] }
{
    [w]
}

// Word.
pub fn anrukfal_word(bytes: &[u8], at: u32, row: &mut [u32; 1]) -> u32
    ensures { Told (word_answer (word_at bytes.now at)) result row.new }
{
    let word = section::word_at(bytes, Off(at)).ok_or(Refusal::Truncated);
    rows::told(word.map(word_row), [0], row)
}

// How many bytes the language data of the table entry at an offset has, and the one at a position. A refusal has the empty part, so both are 0.
#[tactic(auto, using(crate::proofs::Laws::language_told))]
pub fn anrukfal_language(
    table: &[u8],
    table_address: u32,
    offset: u32,
    at: usize,
    row: &mut [u64; 2],
) -> u32
    ensures { Told (language_answer table.now at (table_entry_of table.now (addr table_address) (off offset))) result row.new }
{
    let table = rows::section(table, table_address);
    let data = entry::language_data(table, Off(offset));
    *row = [data.len() as u64, data.get(at).copied().unwrap_or(0) as u64];
    match entry::table_entry(table, Off(offset)) {
        Ok(_) => 0,
        Err(r) => r.number(),
    }
}

fn byte_row(byte: Option<u8>) -> [u32; 2]
    ensures { result ≡ option_map_or (λ b. 1 ∷ b ∷ []) byte (0 ∷ 0 ∷ []) }
{
    match byte {
        Some(b) => [1, b as u32],
        None => [0; 2],
    }
}

// Whether a byte is there, the byte.
pub fn anrukfal_byte(words: &[u8], at: u32, row: &mut [u32; 2]) -> u32
    ensures { Told (byte_answer (byte_of words.now at)) result row.new }
{
    let byte = instruction::byte_at(words, at);
    rows::told(byte.map(byte_row), [0; 2], row)
}

// Function.
pub fn anrukfal_function(index: &[u8], index_address: u32, number: u32, row: &mut [u32; 1]) -> u32
    ensures { Told (function_answer (function_at index.now (addr index_address) number)) result row.new }
{
    let function = entry::function_at(rows::section(index, index_address), number);
    rows::told(function.map(rows::address_row), [0], row)
}

// Kind, selector or table address, offset of the words, words, skip.
pub fn anrukfal_content(index: &[u8], index_address: u32, number: u32, row: &mut [u32; 5]) -> u32
    ensures { Told (content_answer (content_at index.now (addr index_address) number)) result row.new }
{
    let content = entry::content_at(rows::section(index, index_address), number);
    rows::told(content.map(rows::content_row), [0; 5], row)
}

// Base, encoding, the table's start and end.
fn header_row(h: Header) -> [u64; 4]
    ensures { result ≡ h.base.0 ∷ h.encoding ∷ h.start.0 ∷ h.end ∷ [] }
{
    [h.base.0 as u64, h.encoding as u64, h.start.0 as u64, h.end]
}

// Base, encoding, the table's start and end.
pub fn anrukfal_header(data: &[u8], function: u32, row: &mut [u64; 4]) -> u32
    ensures { Told (header_answer (header_of «data».now (addr function))) result row.new }
{
    let header = lsda::read_header(data, Addr(function));
    rows::told(header.map(header_row), [0; 4], row)
}

// A site's start, end, pad and action as they are written, next position, after a 1; at the table's end all zero.
fn site_row(site: Option<(Site, Off)>) -> [u32; 6]
    ensures { result ≡ site_read_row site }
{
    match site {
        Some((x, next)) => [1, x.start.0, x.end.0, x.pad, x.action, next.0],
        None => [0; 6],
    }
}

// Whether a site is there, start, end, pad and action as they are written, next position.
pub fn anrukfal_site(
    data: &[u8],
    base: u32,
    encoding: u8,
    start: u32,
    end: u64,
    at: u32,
    row: &mut [u32; 6],
) -> u32
    ensures { Told (site_read_answer (site_at «data».now (record { base = addr base; encoding = encoding; start = off start; end = end }) at)) result row.new }
{
    let header = Header {
        base: Addr(base),
        encoding,
        start: Off(start),
        end,
    };
    let site = lsda::site_at(data, header, Off(at));
    rows::told(site.map(site_row), [0; 6], row)
}

// The row of what an entry leads to.
fn found_row(found: Found) -> [u32; 7]
    ensures { result ≡ found_row found }
{
    match found {
        Found::CannotUnwind(f) => [f.0, 0, 0, 0, 0, 0, 0],
        Found::Compact(f, selector, s) => {
            let kind = rows::compact_kind(s.held);
            [f.0, kind, selector as u32, s.at.0, s.words, s.skip, 0]
        }
        Found::Generic(f, a, s, o) => [f.0, 3, a.0, s.at.0, s.words, s.skip, o.0],
    }
}

// Function, kind, selector or personality address, offset of the words, words, skip, offset of the language data.
pub fn anrukfal_entry(
    index: &[u8],
    index_address: u32,
    table: &[u8],
    table_address: u32,
    number: u32,
    row: &mut [u32; 7],
) -> u32
    ensures { Told (found_answer (entry_at (image index.now (addr index_address) table.now (addr table_address)) number)) result row.new }
{
    let entry = rows::image(index, index_address, table, table_address).entry_at(number);
    rows::told(entry.map(found_row), [0; 7], row)
}

// The row of a walked byte: next position last, at the end the walker's.
fn walked_row(walked: Walked<u8>) -> Result<[u32; 3], Refusal>
    ensures { result ≡ and_then walked.got (λ o. Ok (option_map_or (λ b. 1 ∷ b ∷ walked.pos ∷ []) o (0 ∷ 0 ∷ walked.pos ∷ []))) }
{
    Ok(match walked.got? {
        Some(b) => [1, b as u32, walked.pos],
        None => [0, 0, walked.pos],
    })
}

// Whether a byte is there, the byte, next position.
pub fn anrukfal_walk_byte(bytes: &[u8], skip: u32, pos: u32, row: &mut [u32; 3]) -> u32
    ensures { Told (walked_byte_answer (walked_byte bytes.now skip pos)) result row.new }
{
    let walked = walker::walk_byte(bytes, skip, pos);
    rows::told(walked_row(walked), [0; 3], row)
}

// Kind, a, b, next position.
pub fn anrukfal_walk_instruction(bytes: &[u8], skip: u32, pos: u32, row: &mut [u32; 4]) -> u32
    ensures { Told (walked_instruction_answer (walked_instruction bytes.now skip pos)) result row.new }
{
    let walked = walker::walk_instruction(bytes, skip, pos);
    rows::told(rows::decoded_row(walked.got, walked.pos), [0; 4], row)
}
