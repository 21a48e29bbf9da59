// The calls of `readers` under their C names, for tests and tools. include/anrukfal_readers.h declares them.
#![tactic(auto)]

ghost use Rattle.std.specs.Prelude.{◌≡◌};
ghost use Rattle.section.specs.Answer.{Told};
ghost use Rattle.section.specs.Answers.{check_answer, offset_answer, sum_answer, word_answer};
ghost use Rattle.section.specs.Place.{addr, off, offset_of};
ghost use Rattle.section.specs.Sum.{plus_of};
ghost use Rattle.section.specs.Word.{word_at};
ghost use Rattle.instruction.specs.Answers.{byte_answer};
ghost use Rattle.instruction.specs.Bytes.{byte_of};
ghost use Rattle.entry.specs.Answers.{function_answer, content_answer, language_answer};
ghost use Rattle.entry.specs.Index.{function_at, content_at};
ghost use Rattle.entry.specs.Table.{table_entry_of};
ghost use Rattle.lsda.specs.Answers.{header_answer, site_read_answer};
ghost use Rattle.lsda.specs.Header.{header_of};
ghost use Rattle.lsda.specs.Site.{site_at};
ghost use Rattle.image.specs.Answers.{found_answer};
ghost use Rattle.image.specs.Image.{image, sections_of, entry_at};
ghost use Rattle.walker.specs.Answers.{walked_byte_answer, walked_instruction_answer};
ghost use Rattle.walker.specs.Walker.{walked_byte, walked_instruction};

// No row.
#[unsafe(no_mangle)]
pub extern "C" fn anrukfal_sections(
    index: &[u8],
    index_address: u32,
    table: &[u8],
    table_address: u32,
) -> u32
    ensures { result ≡ (check_answer (sections_of (image index.now (addr index_address) table.now (addr table_address)))).number }
{
    readers::anrukfal_sections(index, index_address, table, table_address)
}

// Offset.
#[unsafe(no_mangle)]
pub extern "C" fn anrukfal_offset(section: u32, len: usize, address: u32, row: &mut [u32; 1]) -> u32
    ensures { Told (offset_answer (offset_of (addr section) len (addr address))) result row.new }
{
    readers::anrukfal_offset(section, len, address, row)
}

// Sum.
#[unsafe(no_mangle)]
pub extern "C" fn anrukfal_plus(a: u32, by: u32, row: &mut [u32; 1]) -> u32
    ensures { Told (sum_answer (plus_of (addr a) by)) result row.new }
{
    readers::anrukfal_plus(a, by, row)
}

// Word.
#[unsafe(no_mangle)]
pub extern "C" fn anrukfal_word(bytes: &[u8], at: u32, row: &mut [u32; 1]) -> u32
    ensures { Told (word_answer (word_at bytes.now at)) result row.new }
{
    readers::anrukfal_word(bytes, at, row)
}

// How many bytes the language data of the table entry at an offset has, and the one at a position.
#[unsafe(no_mangle)]
pub extern "C" fn anrukfal_language(
    table: &[u8],
    table_address: u32,
    offset: u32,
    at: usize,
    row: &mut [u64; 2],
) -> u32
    ensures { Told (language_answer table.now at (table_entry_of table.now (addr table_address) (off offset))) result row.new }
{
    readers::anrukfal_language(table, table_address, offset, at, row)
}

// Whether a byte is there, the byte.
#[unsafe(no_mangle)]
pub extern "C" fn anrukfal_byte(words: &[u8], at: u32, row: &mut [u32; 2]) -> u32
    ensures { Told (byte_answer (byte_of words.now at)) result row.new }
{
    readers::anrukfal_byte(words, at, row)
}

// Function.
#[unsafe(no_mangle)]
pub extern "C" fn anrukfal_function(
    index: &[u8],
    index_address: u32,
    number: u32,
    row: &mut [u32; 1],
) -> u32
    ensures { Told (function_answer (function_at index.now (addr index_address) number)) result row.new }
{
    readers::anrukfal_function(index, index_address, number, row)
}

// Kind, selector or table address, offset of the words, words, skip.
#[unsafe(no_mangle)]
pub extern "C" fn anrukfal_content(
    index: &[u8],
    index_address: u32,
    number: u32,
    row: &mut [u32; 5],
) -> u32
    ensures { Told (content_answer (content_at index.now (addr index_address) number)) result row.new }
{
    readers::anrukfal_content(index, index_address, number, row)
}

// Base, encoding, the table's start and end.
#[unsafe(no_mangle)]
pub extern "C" fn anrukfal_header(data: &[u8], function: u32, row: &mut [u64; 4]) -> u32
    ensures { Told (header_answer (header_of «data».now (addr function))) result row.new }
{
    readers::anrukfal_header(data, function, row)
}

// Whether a site is there, start, end, pad and action as they are written, next position.
#[unsafe(no_mangle)]
pub extern "C" fn anrukfal_site(
    data: &[u8],
    base: u32,
    encoding: u8,
    start: u32,
    end: u64,
    at: u32,
    row: &mut [u32; 6],
) -> u32
    ensures { Told (site_read_answer (site_at «data».now (record { base = addr base; encoding = encoding; start = off start; end = end }) at)) result row.new }
{
    readers::anrukfal_site(data, base, encoding, start, end, at, row)
}

// Function, kind, selector or personality address, offset of the words, words, skip, offset of the language data.
#[unsafe(no_mangle)]
pub extern "C" fn anrukfal_entry(
    index: &[u8],
    index_address: u32,
    table: &[u8],
    table_address: u32,
    number: u32,
    row: &mut [u32; 7],
) -> u32
    ensures { Told (found_answer (entry_at (image index.now (addr index_address) table.now (addr table_address)) number)) result row.new }
{
    readers::anrukfal_entry(index, index_address, table, table_address, number, row)
}

// Whether a byte is there, the byte, next position.
#[unsafe(no_mangle)]
pub extern "C" fn anrukfal_walk_byte(bytes: &[u8], skip: u32, pos: u32, row: &mut [u32; 3]) -> u32
    ensures { Told (walked_byte_answer (walked_byte bytes.now skip pos)) result row.new }
{
    readers::anrukfal_walk_byte(bytes, skip, pos, row)
}

// Kind, a, b, next position.
#[unsafe(no_mangle)]
pub extern "C" fn anrukfal_walk_instruction(
    bytes: &[u8],
    skip: u32,
    pos: u32,
    row: &mut [u32; 4],
) -> u32
    ensures { Told (walked_instruction_answer (walked_instruction bytes.now skip pos)) result row.new }
{
    readers::anrukfal_walk_instruction(bytes, skip, pos, row)
}
