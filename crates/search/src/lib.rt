// The search of the index: the entry whose function is at or below a counter, by halving.
#![tactic(auto)]

ghost use Rattle.std.specs.Prelude.{◌≡◌, ◌/◌, length};
ghost use Rattle.section.specs.Rule.{IndexSection};
ghost use Rattle.search.specs.Search.{halve, search_of};

use section::{Addr, Off, Refusal, Section};

// The entry's number, its function, which was read on the way, and how many function words were read.
#[derive(Clone, Copy, Debug, PartialEq, Eq)]
pub struct Hit {
    pub entry: u32,
    pub function: Addr,
    pub probes: u32,
}

// Halves 0 .. entries, the first function having been read. By hand: the library's search counts no words that it reads, and stops at no corrupt one.
// Not inlined: where the function is not asked for, its choice would become a branch, which is guessed wrong half of the time.
#[inline(never)]
#[tactic(auto, using(section::proofs::Words::word_first, entry::proofs::Laws::function_from, crate::proofs::Ways::halve_done, crate::proofs::Ways::halve_corrupt, crate::proofs::Ways::halve_up, crate::proofs::Ways::halve_down))]
fn halved(index: Section, counter: Addr, first: Addr, entries: u32) -> Result<Hit, Refusal>
    requires { IndexSection (length index.bytes.now) index.at × (entries ≡ length index.bytes.now / 8) }
    ensures { result ≡ halve index.entry.bytes.now index.entry.at counter 0 first entries 1 }
{
    let mut low: u32 = 0;
    let mut function = first;
    let mut high = entries;
    let mut probes: u32 = 1;
    while 1 < high - low {
        let middle = (low + high) / 2;
        let o = 8 * middle as usize;
        // Of the entry's own 8 bytes the compiler sees that the word is there.
        let w = section::word_or_zero(&index.bytes[o..o + 8], Off(0));
        if 0x8000_0000 <= w {
            return Err(Refusal::Corrupt);
        }
        let f = section::prel31(w, section::address_of(index.at, Off(8 * middle)));
        probes += 1;
        if f.0 <= counter.0 {
            low = middle;
            function = f;
        } else {
            high = middle;
        }
    }
    Ok(Hit {
        entry: low,
        function,
        probes,
    })
}

// The entry for a counter.
#[tactic(auto, using(crate::proofs::Ways::passed), unfolding(crate::specs::Search::search_of))]
pub fn search(index: Section, counter: Addr) -> Result<Hit, Refusal>
    ensures { result ≡ search_of index.entry.bytes.now index.entry.at counter }
{
    section::index_rule(index.bytes.len(), index.at)?;
    let entries = (index.bytes.len() / 8) as u32;
    if entries == 0 {
        return Err(Refusal::NoEntry);
    }
    let first = entry::function_at(index, 0)?;
    if counter.0 < first.0 {
        return Err(Refusal::NoEntry);
    }
    halved(index, counter, first, entries)
}
