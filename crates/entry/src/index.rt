// The two words of an index entry.
ghost use Rattle.std.specs.Prelude.{◌≡◌, ◌+◌, ◌*◌, ◌/◌, ◌≤◌, ◌<◌, length};
ghost use Rattle.section.specs.Place.{off};
ghost use Rattle.section.specs.Rule.{index_most};
ghost use Rattle.section.specs.Word.{word};
ghost use Rattle.entry.specs.Index.{entries, numbered, function_in, content_of};

use crate::{Content, Held, Personality, Span};
use section::{Addr, Off, Refusal, Section};

// Whether an index may stand there and has an entry of this number.
#[tactic(auto, unfolding(crate::specs::Index::numbered))]
pub(crate) fn numbered(index: Section, number: u32) -> Result<(), Refusal>
    ensures { result ≡ numbered (length index.entry.bytes.now) index.entry.at number }
{
    section::index_rule(index.bytes.len(), index.at)?;
    if (number as usize) < index.bytes.len() / 8 {
        Ok(())
    } else {
        Err(Refusal::Truncated)
    }
}

// The function of an entry that is there.
#[tactic(auto, using(section::proofs::Words::word_there), unfolding(crate::specs::Index::function_in, crate::specs::Index::function_of))]
pub(crate) fn function_of(index: Section, number: u32) -> Result<Addr, Refusal>
    requires { (length index.bytes.now ≤ index_most) × (number < entries index.bytes.now) }
    ensures { result ≡ function_in index.entry.bytes.now index.entry.at number }
{
    let at = Off(8 * number);
    let w = section::word_or_zero(index.bytes, at);
    if w < 0x8000_0000 {
        Ok(section::prel31(w, section::address_of(index.at, at)))
    } else {
        Err(Refusal::Corrupt)
    }
}

// The content of an entry that is there.
#[inline(always)]
#[tactic(auto, using(section::proofs::Words::word_there), unfolding(crate::specs::Index::content_of))]
pub(crate) fn content_of(index: Section, number: u32) -> Content
    requires { (length index.bytes.now ≤ index_most) × (number < entries index.bytes.now) }
    ensures { result ≡ content_of (word index.entry.bytes.now (8 * number + 4)) index.entry.at (off (8 * number + 4)) }
{
    let at = Off(8 * number + 4);
    let w = section::word_or_zero(index.bytes, at);
    if w == 1 {
        return Content::CannotUnwind;
    }
    if w < 0x8000_0000 {
        return Content::Table(section::prel31(w, section::address_of(index.at, at)));
    }
    let personality = Personality::Compact((w / 0x100_0000 % 16) as u8);
    let span = Span {
        held: Held::Index,
        at,
        words: 1,
        skip: 1,
    };
    Content::Compact(personality, span)
}
