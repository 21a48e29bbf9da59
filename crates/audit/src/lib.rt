// The audit of a whole image.
#![tactic(auto)]

ghost use Rattle.std.specs.Prelude.{◌≡◌, ◌↔◌, ◌≤◌, length};
ghost use Rattle.section.specs.Rule.{index_most};
ghost use Rattle.image.specs.Image.{seen, count_of};
ghost use Rattle.audit.specs.Audit.{passed, found_check, floored, entry_check, first_fault, verdict_of, audit_of};
ghost use Rattle.audit.specs.Promise.{Promise};
ghost use Rattle.audit.specs.Sound.{Sound};

use image::{Found, Image};
use section::{Addr, Refusal};

// Why an image does not pass: its first fault, and the entry at fault, 0 for a section's.
#[derive(Clone, Copy, Debug, PartialEq, Eq)]
pub struct Fault {
    pub refusal: Refusal,
    pub entry: u32,
}

// What an entry leads to: its instructions, then a generic one's language data.
#[tactic(auto, using(crate::proofs::Turns::found_compact, crate::proofs::Turns::found_faulty, crate::proofs::Turns::found_sites, entry::proofs::Laws::words_are), unfolding(crate::specs::Audit::found_check))]
fn check_found(image: Image, found: Found) -> Result<(), Refusal>
    ensures { result ≡ found_check image.entry.index.bytes.now image.entry.table.bytes.now found }
{
    match found {
        Found::CannotUnwind(_) => Ok(()),
        Found::Compact(_, _, span) => {
            let words = entry::instruction_words(image.index.bytes, image.table.bytes, span);
            instruction::audit_instructions(words, span.skip)
        }
        Found::Generic(f, _, span, language) => {
            let words = entry::instruction_words(image.index.bytes, image.table.bytes, span);
            instruction::audit_instructions(words, span.skip)?;
            let data = entry::language_from(image.table.bytes, language);
            lsda::audit_sites(data, f)
        }
    }
}

// The function of an entry that is at no fault: not below `floor`, which is one above the function before; then what it leads to.
#[tactic(auto, unfolding(crate::specs::Audit::floored))]
fn check_entry(image: Image, number: u32, floor: u64) -> Result<Addr, Refusal>
    ensures { result ≡ floored (seen image.entry) number floor }
{
    let function = entry::function_at(image.index, number)?;
    if (function.0 as u64) < floor {
        return Err(Refusal::Unsorted);
    }
    let found = image.led_by(number, function)?;
    check_found(image, found)?;
    Ok(function)
}

// The first fault of the entries in order, if there is one.
#[tactic(auto, using(crate::proofs::Turns::turn_fault, crate::proofs::Turns::turn_next, crate::proofs::Turns::turn_last, crate::proofs::Turns::floor_first))]
fn entries(image: Image) -> Option<Fault>
    requires { length image.index.bytes.now ≤ index_most }
    ensures { verdict_of result ≡ first_fault (entry_check (seen image.entry)) (count_of (seen image.entry)) 0 }
{
    let count = (image.index.bytes.len() / 8) as u32;
    let mut floor: u64 = 0;
    for number in 0..count {
        match check_entry(image, number, floor) {
            Ok(function) => floor = function.0 as u64 + 1,
            Err(refusal) => {
                return Some(Fault {
                    refusal,
                    entry: number,
                });
            }
        }
    }
    None
}

// Sections, then every entry in order: the first fault. It passes exactly the sound images, and these keep the promise. Each way on is an arm, so that
// a wrong one is refused at its own clause.
pub fn audit(image: Image) -> Result<(), Fault>
    ensures demand_three { result ≡ passed → Promise (seen image.entry) }
    ensures passes_exactly { (result ≡ passed) ↔ Sound (seen image.entry) }
    ensures answer { result ≡ audit_of (seen image.entry) }
{
    match image.sections() {
        Ok(()) => match entries(image) {
            None => Ok(()),
            Some(fault) => Err(fault),
        },
        Err(refusal) => Err(Fault { refusal, entry: 0 }),
    }
}
