// The fields of a header and of a call site, each with the place after it.
ghost use Rattle.std.specs.Prelude.{◌≡◌, ◌≤◌, length};
ghost use Rattle.section.specs.Rule.{table_most};
ghost use Rattle.lsda.specs.Header.{byte_at, base_at, types_at, table_at};
ghost use Rattle.lsda.specs.Site.{pair_at};

use crate::Header;
use section::{Addr, Off, Refusal};

// Language data that is not too long.
#[derive(Clone, Copy)]
pub(crate) struct Data<'a> {
    pub bytes: &'a [u8],
    ghost short: { length bytes.now ≤ table_most },
}

// A byte.
#[tactic(auto, unfolding(crate::specs::Header::byte_at))]
pub(crate) fn byte_at(data: Data, at: Off) -> Result<(u8, Off), Refusal>
    ensures { result ≡ byte_at «data».entry.bytes.now at.0 }
{
    let i = at.0 as usize;
    if i < data.bytes.len() {
        Ok((data.bytes[i], Off(at.0 + 1)))
    } else {
        Err(Refusal::Truncated)
    }
}

// The base encoding, and unless it is FF the base. The function's address stands for one that is left out.
#[tactic(auto, unfolding(crate::specs::Header::base_at))]
pub(crate) fn base_at(data: Data, function: Addr, at: Off) -> Result<(Addr, Off), Refusal>
    ensures { result ≡ base_at «data».entry.bytes.now function at.0 }
{
    let (encoding, p) = byte_at(data, at)?;
    if encoding == 0xFF {
        return Ok((function, p));
    }
    let (base, next) = pointer::pointer(data.bytes, p, encoding)?;
    Ok((Addr(base), next))
}

// The type encoding, which is not tested, and unless it is FF a ULEB. 0 stands for one that is left out.
#[tactic(auto, unfolding(crate::specs::Header::types_at))]
pub(crate) fn types_at(data: Data, at: Off) -> Result<(u32, Off), Refusal>
    ensures { result ≡ types_at «data».entry.bytes.now at.0 }
{
    let (encoding, p) = byte_at(data, at)?;
    if encoding == 0xFF {
        Ok((0, p))
    } else {
        pointer::uleb(data.bytes, p)
    }
}

// The call-site encoding and the table's length. Start plus length fits no offset, so it is wide.
#[tactic(auto, unfolding(crate::specs::Header::table_at))]
pub(crate) fn table_at(data: Data, base: Addr, at: Off) -> Result<Header, Refusal>
    ensures { result ≡ table_at «data».entry.bytes.now base at.0 }
{
    let (encoding, p) = byte_at(data, at)?;
    let (length, start) = pointer::uleb(data.bytes, p)?;
    let end = start.0 as u64 + length as u64;
    Ok(Header {
        base,
        encoding,
        start,
        end,
    })
}

// Two values in a row.
#[tactic(auto, unfolding(crate::specs::Site::pair_at))]
fn pair_at(data: &[u8], first: u8, second: u8, at: Off) -> Result<(u32, u32, Off), Refusal>
    ensures { result ≡ pair_at «data».now first second at.0 }
{
    let (v, p) = pointer::pointer(data, at, first)?;
    let (w, next) = pointer::pointer(data, p, second)?;
    Ok((v, w, next))
}

// A site's start and length. ULEBs are what compilers write: with a constant encoding their reader is inlined here.
pub(crate) fn range_at(data: &[u8], encoding: u8, at: Off) -> Result<(u32, u32, Off), Refusal>
    ensures { result ≡ pair_at «data».now encoding encoding at.0 }
{
    match encoding {
        0x01 => pair_at(data, 0x01, 0x01, at),
        _ => pair_at(data, encoding, encoding, at),
    }
}

// Its pad, and its action, which always is a ULEB.
pub(crate) fn landing_at(data: &[u8], encoding: u8, at: Off) -> Result<(u32, u32, Off), Refusal>
    ensures { result ≡ pair_at «data».now encoding 0x01 at.0 }
{
    match encoding {
        0x01 => pair_at(data, 0x01, 0x01, at),
        _ => pair_at(data, encoding, 0x01, at),
    }
}
