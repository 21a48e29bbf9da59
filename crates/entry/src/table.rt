// What a table entry's first word leads to. Each function asks for what its own sums need: the bounds differ, so no type has them.
ghost use Rattle.std.specs.Prelude.{◌≡◌, ◌+◌, ◌*◌, ◌≤◌, ◌<◌, length};
ghost use Rattle.section.specs.Rule.{table_most};
ghost use Rattle.entry.specs.Table.{fitting, compact_of, generic_of, entry_by};

use crate::{Held, Personality, Span, TableEntry};
use section::{Off, Refusal, Section};

// An entry with `words` words of instructions from `at`, where they end within a table of `len` bytes.
#[tactic(auto, unfolding(crate::specs::Table::fitting))]
fn fit(
    len: usize,
    personality: Personality,
    at: Off,
    words: u32,
    skip: u32,
) -> Result<TableEntry, Refusal>
    requires { (at.0 ≤ table_most) × (words ≤ 256) }
    ensures { result ≡ fitting len personality at.0 words skip }
{
    let end = at.0 + 4 * words;
    if end as usize <= len {
        let language = Off(end);
        let span = Span {
            held: Held::Table,
            at,
            words,
            skip,
        };
        Ok(TableEntry {
            personality,
            span,
            language,
        })
    } else {
        Err(Refusal::Truncated)
    }
}

// A first word with bit 31 set, in a table of `len` bytes.
#[tactic(auto, unfolding(crate::specs::Table::compact_of))]
fn compact(len: usize, at: Off, w: u32) -> Result<TableEntry, Refusal>
    requires { at.0 ≤ table_most }
    ensures { result ≡ compact_of len at.0 w }
{
    let selector = w / 0x100_0000 % 16;
    let personality = Personality::Compact(selector as u8);
    if selector == 0 {
        return fit(len, personality, at, 1, 1);
    }
    if selector < 3 {
        fit(len, personality, at, 1 + w / 0x1_0000 % 0x100, 2)
    } else {
        Err(Refusal::Selector)
    }
}

// A first word with bit 31 clear: it leads to the personality.
#[tactic(auto, unfolding(crate::specs::Table::generic_of))]
fn generic(table: Section, at: Off, w: u32) -> Result<TableEntry, Refusal>
    requires { at.0 + 4 ≤ table_most }
    ensures { result ≡ generic_of table.entry.bytes.now table.entry.at at.0 w }
{
    let next = Off(at.0 + 4);
    let v = section::word_at(table.bytes, next).ok_or(Refusal::Truncated)?;
    let place = section::address_of(table.at, at);
    let personality = Personality::Generic(section::prel31(w, place));
    fit(table.bytes.len(), personality, next, 1 + v / 0x100_0000, 1)
}

// The entry at an offset, by its first word.
#[tactic(auto, unfolding(crate::specs::Table::entry_by))]
pub(crate) fn entry(table: Section, at: Off, w: u32) -> Result<TableEntry, Refusal>
    requires { (at.0 + 4 ≤ length table.bytes.now) × (length table.bytes.now ≤ table_most) }
    ensures { result ≡ entry_by table.entry.bytes.now table.entry.at at.0 w }
{
    if w < 0x8000_0000 {
        generic(table, at, w)
    } else {
        compact(table.bytes.len(), at, w)
    }
}
