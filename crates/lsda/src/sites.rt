// A call site's sums, the first site that covers a counter, and the test of all.
ghost use Rattle.std.specs.Prelude.{◌≡◌};
ghost use Rattle.lsda.specs.Site.{summed_of, settled_pad, settled_action, settled_of};
ghost use Rattle.lsda.specs.Sites.{covers_of, find_from, audit_from};

use crate::{CallSite, Header, Site};
use section::{Addr, Off, Refusal};

// The site of its fields: base plus start, and that plus the length.
#[tactic(auto, unfolding(crate::specs::Site::summed_of))]
pub(crate) fn summed(
    base: Addr,
    start: u32,
    length: u32,
    pad: u32,
    action: u32,
) -> Result<Site, Refusal>
    ensures { result ≡ summed_of base start length pad action }
{
    let start = section::plus(base, start).ok_or(Refusal::Sum)?;
    let end = section::plus(start, length).ok_or(Refusal::Sum)?;
    Ok(Site {
        start,
        end,
        pad,
        action,
    })
}

// Where control lands: at base plus the field, or nowhere where that is 0.
#[tactic(auto, using(crate::proofs::Sums::pad_none, crate::proofs::Sums::pad_at, crate::proofs::Sums::pad_over))]
fn settled_pad(base: Addr, pad: u32) -> Result<Option<Addr>, Refusal>
    ensures { result ≡ settled_pad base pad }
{
    if pad == 0 {
        return Ok(None);
    }
    let at = section::plus(base, pad).ok_or(Refusal::Sum)?;
    Ok(Some(at))
}

// The record that says what is done there: the field plus 1, or none where that is 0.
#[tactic(auto, using(crate::proofs::Sums::action_none, crate::proofs::Sums::action_record, crate::proofs::Sums::action_over))]
fn settled_action(action: u32) -> Result<Option<u32>, Refusal>
    ensures { result ≡ settled_action action }
{
    if action == 0 {
        return Ok(None);
    }
    let record = action.checked_add(1).ok_or(Refusal::Sum)?;
    Ok(Some(record))
}

// The answer that a site is: the pad's sum, then the action's.
#[tactic(auto, using(crate::proofs::Sums::settled_is))]
fn settled(base: Addr, site: Site) -> Result<CallSite, Refusal>
    ensures { result ≡ settled_of base site }
{
    let pad = settled_pad(base, site.pad)?;
    let action = settled_action(site.action)?;
    Ok(CallSite {
        start: site.start,
        end: site.end,
        pad,
        action,
    })
}

// Whether a site covers a counter: from its start to below its end.
#[tactic(auto, unfolding(crate::specs::Sites::covers_of))]
fn covers(site: Site, counter: Addr) -> bool
    ensures { result ≡ covers_of counter site }
{
    site.start.0 <= counter.0 && counter.0 < site.end.0
}

// The first site that covers a counter: what stands after it is not read.
#[tactic(auto, using(crate::proofs::Turns::sites_done, crate::proofs::Turns::sites_refused, crate::proofs::Turns::sites_more, crate::proofs::Turns::site_inside, crate::proofs::Turns::find_end, crate::proofs::Turns::find_stop, crate::proofs::Turns::find_here, crate::proofs::Turns::find_past))]
pub(crate) fn first_covering(
    data: &[u8],
    header: Header,
    counter: Addr,
) -> Result<CallSite, Refusal>
    ensures { result ≡ find_from «data».now header counter header.start.0 }
{
    let mut at = header.start;
    while let Some((site, next)) = crate::site_at(data, header, at)? {
        if covers(site, counter) {
            return settled(header.base, site);
        }
        at = next;
    }
    Err(Refusal::NoSite)
}

// The first fault of the sites. Each way on is an arm, so that a wrong one is refused at its own goal.
#[tactic(auto, using(crate::proofs::Turns::sites_done, crate::proofs::Turns::sites_refused, crate::proofs::Turns::sites_more, crate::proofs::Turns::site_inside, section::proofs::Walks::checked_end, section::proofs::Walks::checked_stop, section::proofs::Walks::checked_more, crate::proofs::Sums::settled_fits, crate::proofs::Sums::settled_fault))]
pub(crate) fn all_fit(data: &[u8], header: Header) -> Result<(), Refusal>
    ensures { result ≡ audit_from «data».now header header.start.0 }
{
    let mut at = header.start;
    while let Some((site, next)) = crate::site_at(data, header, at)? {
        match settled(header.base, site) {
            Ok(_) => at = next,
            Err(r) => return Err(r),
        }
    }
    Ok(())
}
