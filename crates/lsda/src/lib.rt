// The language data of a generic entry: its header, its call sites, the one that covers a counter, and the audit of all.
#![tactic(auto)]

ghost use Rattle.std.specs.Prelude.{◌≡◌, ◌↔◌};
ghost use Rattle.section.specs.Check.{fine};
ghost use Rattle.lsda.specs.Header.{header_of};
ghost use Rattle.lsda.specs.Site.{site_at};
ghost use Rattle.lsda.specs.Sites.{call_site_of, audit_sites_of, CleanSites};

use crate::fields::Data;
use section::{Addr, Off, Refusal};

mod fields;
mod sites;

// Where call sites count from, how they are written, and where they stand: from `start` to below `end`.
#[derive(Clone, Copy)]
pub struct Header {
    pub base: Addr,
    pub encoding: u8,
    pub start: Off,
    pub end: u64,
}

// A call site as it is read: what it covers, and its pad and action as they are written.
#[derive(Clone, Copy)]
pub struct Site {
    pub start: Addr,
    pub end: Addr,
    pub pad: u32,
    pub action: u32,
}

// A call site as an answer: what it covers, where control lands, and the record that says what is done there.
#[derive(Clone, Copy)]
pub struct CallSite {
    pub start: Addr,
    pub end: Addr,
    pub pad: Option<Addr>,
    pub action: Option<u32>,
}

// The header of a function's language data.
#[tactic(auto, using(pointer::proofs::Laws::too_long, pointer::proofs::Laws::sized_is), unfolding(crate::specs::Header::header_of))]
pub fn read_header(data: &[u8], function: Addr) -> Result<Header, Refusal>
    ensures { result ≡ header_of «data».now function }
{
    if section::TABLE_MOST < data.len() {
        return Err(Refusal::Section);
    }
    let data = Data { bytes: data };
    let (base, types) = fields::base_at(data, function, Off(0))?;
    let (_, sites) = fields::types_at(data, types)?;
    fields::table_at(data, base, sites)
}

// The call site at a place and the place after it, or that the table ends there: all four fields are read before any sum.
#[tactic(auto, using(crate::proofs::Turns::site_long, crate::proofs::Turns::site_past, crate::proofs::Turns::site_before), unfolding(crate::specs::Site::fields_at))]
pub fn site_at(data: &[u8], header: Header, at: Off) -> Result<Option<(Site, Off)>, Refusal>
    ensures { result ≡ site_at «data».now header at.0 }
{
    if section::TABLE_MOST < data.len() {
        return Err(Refusal::Section);
    }
    if header.end <= at.0 as u64 {
        return Ok(None);
    }
    let (start, length, p) = fields::range_at(data, header.encoding, at)?;
    let (pad, action, next) = fields::landing_at(data, header.encoding, p)?;
    let site = sites::summed(header.base, start, length, pad, action)?;
    Ok(Some((site, next)))
}

// The first call site that covers a counter.
#[tactic(auto, unfolding(crate::specs::Sites::call_site_of))]
pub fn call_site(data: &[u8], function: Addr, counter: Addr) -> Result<CallSite, Refusal>
    ensures { result ≡ call_site_of «data».now function counter }
{
    let header = read_header(data, function)?;
    sites::first_covering(data, header, counter)
}

// Whether the header and every call site can be read, and pads and actions fit; or the first fault.
#[tactic(auto, using(crate::proofs::Laws::audit_told), unfolding(crate::specs::Sites::audit_sites_of))]
pub fn audit_sites(data: &[u8], function: Addr) -> Result<(), Refusal>
    ensures answer { result ≡ audit_sites_of «data».now function }
    ensures exact { (result ≡ fine) ↔ CleanSites «data».now function }
{
    let header = read_header(data, function)?;
    sites::all_fit(data, header)
}
