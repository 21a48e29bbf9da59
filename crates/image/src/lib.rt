// An image, that is an index and a table where they stand: its section rules, and what an entry leads to.
#![tactic(auto)]

ghost use Rattle.std.specs.Prelude.{◌≡◌};
ghost use Rattle.entry.specs.Table.{table_entry_of};
ghost use Rattle.image.specs.Image.{seen, sections_of, selector_in, from_table, from_content, led_in, led_by, entry_at};

use entry::{Content, Personality, Span};
use section::{Addr, Off, Refusal, Section};

// What an entry leads to: its function; a selector and words; or a personality's address, words, and where the language data begins.
#[derive(Clone, Copy, Debug, PartialEq, Eq)]
pub enum Found {
    CannotUnwind(Addr),
    Compact(Addr, u8, Span),
    Generic(Addr, Addr, Span, Off),
}

// An image: its index and its table.
#[derive(Clone, Copy)]
pub struct Image<'a> {
    pub index: Section<'a>,
    pub table: Section<'a>,
}

// A compact personality's selector; the content of an index holds no other.
fn selector(personality: Personality) -> u8
    ensures { result ≡ selector_in personality }
{
    match personality {
        Personality::Compact(n) => n,
        Personality::Generic(_) => 0,
    }
}

// What the table's entry at an offset says of a function.
fn from_table(function: Addr, table: Section, offset: Off) -> Result<Found, Refusal>
    ensures { result ≡ from_table function (table_entry_of table.entry.bytes.now table.entry.at offset) }
{
    let e = entry::table_entry(table, offset)?;
    Ok(match e.personality {
        Personality::Compact(n) => Found::Compact(function, n, e.span),
        Personality::Generic(a) => Found::Generic(function, a, e.span, e.language),
    })
}

// What the content of an index entry says of a function.
#[inline(always)]
fn from_content(function: Addr, table: Section, content: Content) -> Result<Found, Refusal>
    ensures { result ≡ from_content function table.entry.bytes.now table.entry.at content }
{
    match content {
        Content::CannotUnwind => Ok(Found::CannotUnwind(function)),
        Content::Compact(p, span) => Ok(Found::Compact(function, selector(p), span)),
        Content::Table(a) => {
            let offset = section::offset_of(table.at, table.bytes.len(), a).ok_or(Refusal::Place)?;
            from_table(function, table, offset)
        }
    }
}

impl<'a> Image<'a> {
    // The section rules, the index's first.
    #[tactic(auto, unfolding(crate::specs::Image::sections_of))]
    pub fn sections(self) -> Result<(), Refusal>
        ensures { result ≡ sections_of (seen self.entry) }
    {
        section::index_rule(self.index.bytes.len(), self.index.at)?;
        section::table_rule(self.table.bytes.len(), self.table.at)
    }

    // What an entry leads to, its function being known and the sections tested.
    #[inline(always)]
    #[tactic(auto, unfolding(crate::specs::Image::led_in))]
    fn led(self, number: u32, function: Addr) -> Result<Found, Refusal>
        ensures { result ≡ led_in (seen self.entry) number function }
    {
        let content = entry::content_at(self.index, number)?;
        from_content(function, self.table, content)
    }

    // What an entry leads to whose function is known: the function word is not read again.
    // Inlined with all below it but the table's entry: its callers have tested the sections, and need not copy the image for it.
    #[inline(always)]
    #[tactic(auto, unfolding(crate::specs::Image::led_by))]
    pub fn led_by(self, number: u32, function: Addr) -> Result<Found, Refusal>
        ensures { result ≡ led_by (seen self.entry) number function }
    {
        self.sections()?;
        self.led(number, function)
    }

    // An entry with what it leads to.
    #[tactic(auto, using(crate::proofs::Laws::entry_led), unfolding(crate::specs::Image::entry_at, entry::specs::Index::index_entry_of))]
    pub fn entry_at(self, number: u32) -> Result<Found, Refusal>
        ensures { result ≡ entry_at (seen self.entry) number }
    {
        self.sections()?;
        let function = entry::function_at(self.index, number)?;
        self.led(number, function)
    }
}
