// The layout of a bundle, read from its start. Its two addresses go on side by side: a struct of them would be made once and taken apart once.
ghost use Rattle.std.specs.Prelude.{◌≡◌, ◌≤◌};
ghost use Rattle.bundle.specs.Bundle.{count_at, most_entries, most_words, from_entries, from_words, laid_of};

use crate::Bundle;
use section::{Addr, INDEX_MOST, Off, Refusal, TABLE_MOST};

// The count, or the address, at an offset.
pub(crate) fn count_at(bytes: &[u8], at: Off) -> Result<u32, Refusal>
    ensures { result ≡ count_at bytes.now at.0 }
{
    section::word_at(bytes, at).ok_or(Refusal::Bundle)
}

// The bundle of n entries and m words, where each address leaves room for its section below 2^32.
#[tactic(auto, unfolding(crate::specs::Bundle::laid_of))]
fn laid(index_address: Addr, table_address: Addr, n: u32, m: u32) -> Result<Bundle, Refusal>
    requires { (n ≤ most_entries) × (m ≤ most_words) }
    ensures { result ≡ laid_of index_address table_address n m }
{
    section::index_rule(8 * n as usize, index_address)?;
    section::table_rule(4 * m as usize, table_address)?;
    Ok(Bundle {
        index_address,
        table_address,
        index: Off(16),
        index_bytes: 8 * n,
        table: Off(20 + 8 * n),
        table_bytes: 4 * m,
    })
}

// The word count after n entries, its words, and nothing after them.
#[tactic(auto, using(crate::proofs::Laws::words_short, crate::proofs::Laws::words_many, crate::proofs::Laws::words_length, crate::proofs::Laws::words_laid))]
fn from_words(
    bytes: &[u8],
    index_address: Addr,
    table_address: Addr,
    n: u32,
) -> Result<Bundle, Refusal>
    requires { n ≤ most_entries }
    ensures { result ≡ from_words bytes.now index_address table_address n }
{
    let m = count_at(bytes, Off(16 + 8 * n))?;
    if TABLE_MOST / 4 < m as usize {
        return Err(Refusal::Section);
    }
    if bytes.len() != 20 + 8 * (n as usize) + 4 * (m as usize) {
        return Err(Refusal::Bundle);
    }
    laid(index_address, table_address, n, m)
}

// The entry count, and what follows its entries.
#[tactic(auto, using(crate::proofs::Laws::entries_short, crate::proofs::Laws::entries_many, crate::proofs::Laws::entries_on))]
pub(crate) fn from_entries(
    bytes: &[u8],
    index_address: Addr,
    table_address: Addr,
) -> Result<Bundle, Refusal>
    ensures { result ≡ from_entries bytes.now index_address table_address }
{
    let n = count_at(bytes, Off(12))?;
    if INDEX_MOST / 8 < n as usize {
        return Err(Refusal::Section);
    }
    from_words(bytes, index_address, table_address, n)
}
