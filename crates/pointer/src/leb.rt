// A LEB's digits: at most five bytes, and the first below 0x80 ends it. instruction's ULEB has a loop of its own, over bytes in another order: a byte
// reader that is passed in would need a contract of its own, and be no plainer. Both proofs cite the same laws.
ghost use Rattle.std.specs.Prelude.{◌≡◌, ◌≤◌, length};
ghost use Rattle.section.specs.Rule.{table_most};
ghost use Rattle.pointer.specs.Number.{leb_of};

use crate::number::Number;
use section::{Off, Refusal, wide};

#[tactic(auto, using(section::proofs::Ends::at_first, section::proofs::Ends::at_early, section::proofs::Ends::at_long, section::proofs::Ends::at_last, section::proofs::Ends::at_more), unfolding(crate::specs::Number::leb_of, crate::specs::Number::ended))]
pub(crate) fn read(data: &[u8], at: Off) -> Result<Number, Refusal>
    requires { length «data».now ≤ table_most }
    ensures { result ≡ leb_of «data».now at.0 }
{
    let from = at.0 as usize;
    let mut value: u64 = 0;
    let mut scale: u64 = 1;
    for k in 0..5 {
        if data.len() <= from + k {
            return Err(Refusal::Truncated);
        }
        let byte = wide(data[from + k]);
        value = value + byte % 0x80 * scale;
        let ends = byte < 0x80;
        if ends {
            return Ok(Number {
                value,
                half: scale * 0x40,
                next: Off((from + k + 1) as u32),
            });
        }
        scale = scale * 0x80;
    }
    Err(Refusal::Value)
}
