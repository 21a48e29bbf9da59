// Entries of the index and of the table, and the parts of the two sections that they name.
#![tactic(auto)]

ghost use Rattle.std.specs.Prelude.{◌≡◌, length};
ghost use Rattle.section.specs.View.{Part};
ghost use Rattle.entry.specs.Index.{function_at, content_at, index_entry_of};
ghost use Rattle.entry.specs.Table.{table_entry_of};
ghost use Rattle.entry.specs.Parts.{language_spot, language_read, Words};

mod index;
mod table;

use section::{Addr, Off, Refusal, Section};

// Who unwinds.
#[derive(Clone, Copy, Debug, PartialEq, Eq)]
pub enum Personality {
    Compact(u8),
    Generic(Addr),
}

// The section that holds some instruction words.
#[derive(Clone, Copy, Debug, PartialEq, Eq)]
pub enum Held {
    Index,
    Table,
}

// Instruction words: the section, the offset of the first, how many, and how many bytes of the first are skipped.
#[derive(Clone, Copy, Debug, PartialEq, Eq)]
pub struct Span {
    pub held: Held,
    pub at: Off,
    pub words: u32,
    pub skip: u32,
}

// What an index entry says of its function.
#[derive(Clone, Copy, Debug, PartialEq, Eq)]
pub enum Content {
    CannotUnwind,
    Compact(Personality, Span),
    Table(Addr),
}

#[derive(Clone, Copy, Debug, PartialEq, Eq)]
pub struct IndexEntry {
    pub function: Addr,
    pub content: Content,
}

#[derive(Clone, Copy, Debug, PartialEq, Eq)]
pub struct TableEntry {
    pub personality: Personality,
    pub span: Span,
    pub language: Off,
}

// The function of an entry of the index; its content is not read.
#[tactic(auto, using(crate::proofs::Laws::numbered_there), unfolding(crate::specs::Index::function_at))]
pub fn function_at(index: Section, number: u32) -> Result<Addr, Refusal>
    ensures { result ≡ function_at index.entry.bytes.now index.entry.at number }
{
    index::numbered(index, number)?;
    index::function_of(index, number)
}

// The content of an entry of the index; its function is not read. Inlined, so that no content goes through memory.
#[inline(always)]
#[tactic(auto, using(crate::proofs::Laws::numbered_there), unfolding(crate::specs::Index::content_at))]
pub fn content_at(index: Section, number: u32) -> Result<Content, Refusal>
    ensures { result ≡ content_at index.entry.bytes.now index.entry.at number }
{
    index::numbered(index, number)?;
    Ok(index::content_of(index, number))
}

// An entry of the index: the function word first, then the content.
#[tactic(auto, using(crate::proofs::Laws::numbered_there), unfolding(crate::specs::Index::index_entry_of, crate::specs::Index::function_at, crate::specs::Index::content_at))]
pub fn index_entry(index: Section, number: u32) -> Result<IndexEntry, Refusal>
    ensures { result ≡ index_entry_of index.entry.bytes.now index.entry.at number }
{
    index::numbered(index, number)?;
    let function = index::function_of(index, number)?;
    let content = index::content_of(index, number);
    Ok(IndexEntry { function, content })
}

// The entry of the table at an offset.
#[inline]
#[tactic(auto, using(section::proofs::Words::word_here, crate::proofs::Laws::table_short), unfolding(crate::specs::Table::table_entry_of))]
pub fn table_entry(table: Section, offset: Off) -> Result<TableEntry, Refusal>
    ensures { result ≡ table_entry_of table.entry.bytes.now table.entry.at offset }
{
    section::table_rule(table.bytes.len(), table.at)?;
    if offset.0 % 4 != 0 {
        return Err(Refusal::Place);
    }
    let w = section::word_at(table.bytes, offset).ok_or(Refusal::Truncated)?;
    table::entry(table, offset, w)
}

// The language data of an entry that was read, as a part of its table: from where the reader says that it begins to the table's end.
pub fn language_from<'a>(table: &'a [u8], language: Off) -> &'a [u8]
    ensures { Part table.entry result (language_spot (length table.now) language) }
{
    section::suffix(table, language.0 as usize)
}

// The language data of the entry at an offset. A refusal has the empty part, and its place is promised, so this is no Result.
pub fn language_data<'a>(table: Section<'a>, offset: Off) -> &'a [u8]
    ensures { Part table.entry.bytes result (language_read (length table.entry.bytes.now) (table_entry_of table.entry.bytes.now table.entry.at offset)) }
{
    match table_entry(table, offset) {
        Ok(e) => language_from(table.bytes, e.language),
        Err(_) => &table.bytes[0..0],
    }
}

// The words of a span, as a part of whichever section holds them.
pub fn instruction_words<'a>(index: &'a [u8], table: &'a [u8], span: Span) -> &'a [u8]
    ensures { Words index.entry table.entry result span }
{
    let from = span.at.0 as usize;
    let bytes = 4 * (span.words as usize);
    match span.held {
        Held::Index => section::part(index, from, bytes),
        Held::Table => section::part(table, from, bytes),
    }
}
