// Lookup: from a counter to its entry, and to the call site of a generic one. No instruction is read.
#![tactic(auto)]

ghost use Rattle.std.specs.Prelude.{◌≡◌};
ghost use Rattle.image.specs.Image.{seen};
ghost use Rattle.lookup.specs.Lookup.{looked_at, lookup_of};

use entry::Held;
use image::{Found, Image};
use lsda::CallSite;
use section::{Addr, Refusal};

// The entry's number and its function's address, with what it leads to.
#[derive(Clone, Copy)]
pub enum Looked {
    CannotUnwind(u32, Addr),
    Compact(u32, Addr, Held, u8),
    Generic(u32, Addr, Addr, CallSite),
}

// What an entry leads to, with the call site for the counter where it is generic.
#[tactic(auto, using(crate::proofs::Laws::looked_generic), unfolding(crate::specs::Lookup::looked_at))]
fn answer_of(table: &[u8], counter: Addr, entry: u32, found: Found) -> Result<Looked, Refusal>
    ensures { result ≡ looked_at table.now counter entry found }
{
    match found {
        Found::CannotUnwind(f) => Ok(Looked::CannotUnwind(entry, f)),
        Found::Compact(f, selector, span) => Ok(Looked::Compact(entry, f, span.held, selector)),
        Found::Generic(f, personality, _, language) => {
            let data = entry::language_from(table, language);
            let site = lsda::call_site(data, f, counter)?;
            Ok(Looked::Generic(entry, f, personality, site))
        }
    }
}

// Sections, search, entry, language data. The function word that the search read is not read again.
#[tactic(auto, using(crate::proofs::Laws::lookup_led))]
pub fn lookup(image: Image, counter: Addr) -> Result<Looked, Refusal>
    ensures { result ≡ lookup_of (seen image.entry) counter }
{
    image.sections()?;
    let hit = search::search(image.index, counter)?;
    let found = image.led_by(hit.entry, hit.function)?;
    answer_of(image.table.bytes, counter, hit.entry, found)
}
