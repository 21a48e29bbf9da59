// A number of a fixed width, little-endian: one loop for every width.
ghost use Rattle.std.specs.Prelude.{◌≡◌, ◌≤◌, ◌<◌, length};
ghost use Rattle.section.specs.Rule.{table_most};
ghost use Rattle.pointer.specs.Number.{fixed_of};

use crate::number::Number;
use section::{Off, Refusal, wide};

#[tactic(auto, using(crate::proofs::Numbers::fixed_in, crate::proofs::Numbers::fixed_out))]
pub(crate) fn read(data: &[u8], at: Off, width: usize) -> Result<Number, Refusal>
    requires { (length «data».now ≤ table_most) × (0 < width) × (width ≤ 8) }
    ensures { result ≡ fixed_of «data».now at.0 width }
{
    let from = at.0 as usize;
    if data.len() < from + width {
        return Err(Refusal::Truncated);
    }
    // The scale stays one digit behind, as 256^8 is over 64 bits.
    let mut value = wide(data[from]);
    let mut scale: u64 = 1;
    for k in 1..width {
        scale = scale * 0x100;
        value = value + wide(data[from + k]) * scale;
    }
    Ok(Number {
        value,
        half: scale * 0x80,
        next: Off((from + width) as u32),
    })
}
