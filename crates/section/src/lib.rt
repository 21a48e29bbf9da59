// What all crates share: refusals, addresses and offsets, the section rule, little-endian words, prel31, sums that must fit, and views.
#![tactic(auto)]

ghost use Rattle.std.specs.Prelude.{◌≡◌, length};
ghost use Rattle.section.specs.Number.{number};
ghost use Rattle.section.specs.Rule.{rule_of, index_rule, table_rule, stack_rule, words_rule};
ghost use Rattle.section.specs.Place.{address_of, offset_of};
ghost use Rattle.section.specs.Prel31.{prel31_of};
ghost use Rattle.section.specs.Sum.{plus_of};
ghost use Rattle.section.specs.Word.{le32, word_at, word_or_zero};
ghost use Rattle.section.specs.View.{Part, part_from, suffix_from};

// The most bytes of an index, of a table or language data, of a stack, and of instruction words.
pub const INDEX_MOST: usize = 65536;

pub const TABLE_MOST: usize = 65536;

pub const STACK_MOST: usize = 65536;

pub const WORDS_MOST: usize = 65536;

// An address of the target.
#[derive(Clone, Copy, Debug, PartialEq, Eq)]
pub struct Addr(pub u32);

// An offset in a section.
#[derive(Clone, Copy, Debug, PartialEq, Eq)]
pub struct Off(pub u32);

// The bytes of a section, and where they stand.
#[derive(Clone, Copy)]
pub struct Section<'a> {
    pub bytes: &'a [u8],
    pub at: Addr,
}

// Why there is no answer, with its number: the paper's table.
#[derive(Clone, Copy, Debug, PartialEq, Eq)]
pub enum Refusal {
    Section = 1,
    NoEntry = 2,
    Corrupt = 3,
    Unsorted = 4,
    Place = 5,
    Truncated = 6,
    Selector = 7,
    Encoding = 8,
    Value = 9,
    Sum = 10,
    NoSite = 11,
    Refused = 12,
    Reserved = 13,
    Unsupported = 14,
    Malformed = 15,
    Regs = 16,
    Stack = 17,
    Bundle = 18,
}

impl Refusal {
    // The paper's number of a refusal.
    pub fn number(self) -> u32
        ensures { result ≡ number self }
    {
        self as u32
    }
}

// A section of at most `most` bytes, all of it below 2^32.
#[tactic(auto, unfolding(crate::specs::Rule::rule_of))]
fn rule(len: usize, most: usize, at: Addr) -> Result<(), Refusal>
    ensures { result ≡ rule_of len most at }
{
    if most < len {
        return Err(Refusal::Section);
    }
    if 0x1_0000_0000 - (at.0 as u64) < len as u64 {
        return Err(Refusal::Section);
    }
    Ok(())
}

// Whether an index of `len` bytes may stand at `at`: it is made of entries of 8 bytes.
#[tactic(auto, unfolding(crate::specs::Rule::index_rule))]
pub fn index_rule(len: usize, at: Addr) -> Result<(), Refusal>
    ensures { result ≡ index_rule len at }
{
    rule(len, INDEX_MOST, at)?;
    if len % 8 == 0 {
        Ok(())
    } else {
        Err(Refusal::Section)
    }
}

// Whether a table of `len` bytes may stand at `at`.
pub fn table_rule(len: usize, at: Addr) -> Result<(), Refusal>
    ensures { result ≡ table_rule len at }
{
    rule(len, TABLE_MOST, at)
}

// Whether a stack of `len` bytes may stand at `at`.
pub fn stack_rule(len: usize, at: Addr) -> Result<(), Refusal>
    ensures { result ≡ stack_rule len at }
{
    rule(len, STACK_MOST, at)
}

// Whether `len` bytes are instruction words.
#[tactic(auto, unfolding(crate::specs::Rule::words_rule))]
pub fn words_rule(len: usize) -> Result<(), Refusal>
    ensures { result ≡ words_rule len }
{
    if WORDS_MOST < len {
        return Err(Refusal::Section);
    }
    if len % 4 == 0 {
        Ok(())
    } else {
        Err(Refusal::Section)
    }
}

// The address of an offset in a section: the one way from an offset to an address.
pub fn address_of(section: Addr, at: Off) -> Addr
    ensures { result ≡ address_of section at }
{
    Addr(section.0.wrapping_add(at.0))
}

// The offset of an address in a section of `len` bytes, where it has one: the one way from an address to an offset.
#[tactic(auto, unfolding(crate::specs::Place::offset_of))]
pub fn offset_of(section: Addr, len: usize, a: Addr) -> Option<Off>
    ensures { result ≡ offset_of section len a }
{
    let o = a.0.checked_sub(section.0)?;
    if (o as usize) < len {
        Some(Off(o))
    } else {
        None
    }
}

// The target of a word that stands at `place`: the low 31 bits are two's complement.
#[tactic(auto, using(crate::proofs::Places::prel31_raised))]
pub fn prel31(word: u32, place: Addr) -> Addr
    ensures { result ≡ prel31_of word place }
{
    // Raised by 2^30 and lowered again, what was at 2^30 or above is negative.
    let raised = (word % 0x8000_0000 + 0x4000_0000) % 0x8000_0000;
    let distance = raised.wrapping_sub(0x4000_0000);
    Addr(place.0.wrapping_add(distance))
}

// The address `by` bytes up, where that is at most 0xFFFFFFFF.
#[tactic(auto, using(crate::proofs::Places::plus_in, crate::proofs::Places::plus_over))]
pub fn plus(a: Addr, by: u32) -> Option<Addr>
    ensures { result ≡ plus_of a by }
{
    let sum = a.0.checked_add(by)?;
    Some(Addr(sum))
}

// A byte as a wide number, so that a sum of its multiples has room.
pub fn wide(x: u8) -> u64
    ensures { result ≡ x }
{
    x as u64
}

// Four bytes as a number, the first the lowest.
fn from_le(a: u8, b: u8, c: u8, d: u8) -> u32
    ensures { result ≡ le32 a b c d }
{
    u32::from_le_bytes([a, b, c, d])
}

// The word at an offset, where it does not run past the end.
pub fn word_at(s: &[u8], at: Off) -> Option<u32>
    ensures { result ≡ word_at s.now at.0 }
{
    let o = at.0 as usize;
    if o + 4 <= s.len() {
        Some(from_le(s[o], s[o + 1], s[o + 2], s[o + 3]))
    } else {
        None
    }
}

// The word at an offset, for a caller that knows it to be there: 0 where it runs past the end, as it is promised; `word_at` has the Option.
#[tactic(auto, using(crate::proofs::Words::word_or))]
pub fn word_or_zero(s: &[u8], at: Off) -> u32
    ensures { result ≡ word_or_zero s.now at.0 }
{
    word_at(s, at).unwrap_or(0)
}

// The n bytes of `s` from a on; where they are not all there, the empty part at its start. No Option: a refusal's part is promised to stand there.
#[tactic(auto, using(crate::proofs::Views::spot_in, crate::proofs::Views::spot_out, crate::proofs::Views::view_made))]
pub fn part<'a>(s: &'a [u8], a: usize, n: usize) -> &'a [u8]
    ensures { Part s.entry result (part_from (length s.now) a n) }
{
    if a <= s.len() && n <= s.len() - a {
        &s[a..a + n]
    } else {
        &s[..0]
    }
}

// All of `s` from a on; where a is past its end, the empty part at its start, as of `part`.
#[tactic(auto, using(crate::proofs::Views::suffix_in, crate::proofs::Views::suffix_out, crate::proofs::Views::view_made))]
pub fn suffix<'a>(s: &'a [u8], a: usize) -> &'a [u8]
    ensures { Part s.entry result (suffix_from (length s.now) a) }
{
    if a <= s.len() { &s[a..] } else { &s[..0] }
}
