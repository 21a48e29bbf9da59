// A bundle: two addresses, the index and the table, each section after its count.
#![tactic(auto)]

ghost use Rattle.std.specs.Prelude.{◌≡◌, ◌↔◌, ℕ};
ghost use Rattle.audit.specs.declared.Fault.{Fault};
ghost use Rattle.bundle.specs.declared.BundleFault.{BundleFault};
ghost use Rattle.bundle.specs.Audit.{fill_rule, audit_bundle_of};
ghost use Rattle.bundle.specs.Bundle.{bundle_of};
ghost use Rattle.bundle.specs.Promise.{SoundBundle, BundlePromise, FaultyEntry};

use audit::Fault;
use image::Image;
use section::{Addr, Off, Refusal, Section};

mod read;

// Where a bundle's sections are meant to stand, and where they lie in it.
#[derive(Clone, Copy)]
pub struct Bundle {
    pub index_address: Addr,
    pub table_address: Addr,
    pub index: Off,
    pub index_bytes: u32,
    pub table: Off,
    pub table_bytes: u32,
}

// Reads a bundle: every test of the paper, in its order.
#[tactic(auto, using(crate::proofs::Laws::bundle_short, crate::proofs::Laws::bundle_first, crate::proofs::Laws::bundle_early, crate::proofs::Laws::bundle_on, section::proofs::Words::word_gone))]
pub fn read_bundle(bytes: &[u8]) -> Result<Bundle, Refusal>
    ensures { result ≡ bundle_of bytes.now }
{
    let first = read::count_at(bytes, Off(0))?;
    if first != 2 {
        return Err(Refusal::Bundle);
    }
    let index = read::count_at(bytes, Off(4))?;
    let table = read::count_at(bytes, Off(8))?;
    read::from_entries(bytes, Addr(index), Addr(table))
}

// Why a bundle does not pass: a fault of an entry, or of the bundle or a section.
#[derive(Clone, Copy, Debug, PartialEq, Eq)]
pub enum BundleFault {
    Entry(Fault),
    Bundle(Refusal),
}

impl From<Refusal> for BundleFault {
    ghost from_gives = { λ r f. f ≡ BundleFault.Bundle r };

    fn from(r: Refusal) -> BundleFault {
        BundleFault::Bundle(r)
    }
}

// Whether the last `fill` bytes of a table can only fill its last word.
#[tactic(auto, unfolding(crate::specs::Audit::fill_rule))]
fn fill_rule(fill: u32, table_bytes: u32) -> Result<(), Refusal>
    ensures { result ≡ fill_rule fill table_bytes }
{
    if 3 < fill {
        return Err(Refusal::Bundle);
    }
    if table_bytes < fill {
        return Err(Refusal::Bundle);
    }
    Ok(())
}

// Reads a bundle and audits its image, whose table ends before the bundle's last `fill` bytes. Answers how many entries pass.
pub fn audit_bundle(bytes: &[u8], fill: u32) -> Result<u32, BundleFault>
    ensures demand_three { (n : ℕ) → result ≡ Ok n → BundlePromise bytes.now fill }
    ensures passes_exactly { (n : ℕ) → (result ≡ Ok n) ↔ SoundBundle bytes.now fill n }
    ensures entry_fault { (f : Fault) → result ≡ Err (BundleFault.Entry f) → FaultyEntry bytes.now fill f.refusal f.entry }
    ensures answer { result ≡ audit_bundle_of bytes.now fill }
{
    let b = read_bundle(bytes)?;
    fill_rule(fill, b.table_bytes)?;
    let image = Image {
        index: Section {
            bytes: section::part(bytes, b.index.0 as usize, b.index_bytes as usize),
            at: b.index_address,
        },
        table: Section {
            bytes: section::part(bytes, b.table.0 as usize, (b.table_bytes - fill) as usize),
            at: b.table_address,
        },
    };
    // The sections of a bundle that was read pass, so a fault of the audit is an entry's.
    match audit::audit(image) {
        Ok(()) => Ok(b.index_bytes / 8),
        Err(fault) => Err(BundleFault::Entry(fault)),
    }
}
