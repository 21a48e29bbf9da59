// The LEB reader and the pointer reader: every input gets an answer.
#![tactic(auto)]

ghost use Rattle.std.specs.Prelude.{◌≡◌};
ghost use Rattle.pointer.specs.Pointer.{uleb_of, sleb_of, pointer_of};

use section::{Off, Refusal};

mod fixed;
mod leb;
mod number;

// The unsigned LEB at a place, and the place after it.
#[tactic(auto, using(crate::proofs::Laws::too_long, crate::proofs::Laws::sized_is), unfolding(crate::specs::Pointer::uleb_of, crate::specs::Pointer::formed))]
pub fn uleb(data: &[u8], at: Off) -> Result<(u32, Off), Refusal>
    ensures { result ≡ uleb_of «data».now at.0 }
{
    if section::TABLE_MOST < data.len() {
        return Err(Refusal::Section);
    }
    leb::read(data, at)?.unsigned()
}

// The signed LEB at a place, and the place after it.
#[tactic(auto, using(crate::proofs::Laws::too_long, crate::proofs::Laws::sized_is, crate::proofs::Numbers::leb_bounded), unfolding(crate::specs::Pointer::sleb_of, crate::specs::Pointer::formed))]
pub fn sleb(data: &[u8], at: Off) -> Result<(u32, Off), Refusal>
    ensures { result ≡ sleb_of «data».now at.0 }
{
    if section::TABLE_MOST < data.len() {
        return Err(Refusal::Section);
    }
    leb::read(data, at)?.signed()
}

// The pointer at a place, and the place after it, by its encoding: which is tested before any byte.
#[tactic(auto, using(crate::proofs::Laws::too_long, crate::proofs::Laws::sized_is, crate::proofs::Numbers::leb_bounded, crate::proofs::Numbers::fixed_bounded), unfolding(crate::specs::Pointer::pointer_of, crate::specs::Pointer::formed))]
pub fn pointer(data: &[u8], at: Off, encoding: u8) -> Result<(u32, Off), Refusal>
    ensures { result ≡ pointer_of «data».now at.0 encoding }
{
    if section::TABLE_MOST < data.len() {
        return Err(Refusal::Section);
    }
    match encoding {
        0x00 | 0x04 => fixed::read(data, at, 8)?.unsigned(),
        0x01 => leb::read(data, at)?.unsigned(),
        0x02 => fixed::read(data, at, 2)?.unsigned(),
        0x03 => fixed::read(data, at, 4)?.unsigned(),
        0x09 => leb::read(data, at)?.signed(),
        0x0A => fixed::read(data, at, 2)?.signed(),
        0x0B => fixed::read(data, at, 4)?.signed(),
        0x0C => fixed::read(data, at, 8)?.signed(),
        _ => Err(Refusal::Encoding),
    }
}
