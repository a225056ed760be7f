ghost use Rattle.std.specs.Prelude.{◌≡◌, ◌++◌, OnOk, OnErr};
ghost use Rattle.pva_wire.specs.Spelling.{IsSize, IsText, canonical_size, canonical_text};

use crate::order::Order;
use pvd_type::{Name, NoMemory};

/// Appends the one spelling of a size that is written (pvAccess Protocol Specification, "Sizes").
/// A size above 2^31-2 has none: it is NoMemory. After a refusal `out` is as before.
pub fn write_size(out: &mut Vec<u8>, order: Order, size: u32) -> Result<(), NoMemory>
    ensures ok { OnOk result (out.new.items ≡ out.old.items ++ canonical_size order size) }
    ensures spelled { OnOk result (IsSize size) }
    ensures err { OnErr result (out.new.items ≡ out.old.items) }
{
    if size > 0x7FFF_FFFE {
        return Err(NoMemory);
    }
    if size < 254 {
        out.push(size as u8)?;
        return Ok(());
    }
    let word = match order {
        Order::Little => size.to_le_bytes(),
        Order::Big => size.to_be_bytes(),
    };
    out.extend_from_slice(&[254, word[0], word[1], word[2], word[3]])?;
    Ok(())
}

/// Appends the one spelling of a text that is written (pvAccess Protocol Specification, "Strings").
/// A text of more than 2^31-2 bytes has none: it is NoMemory. After a refusal `out` is as before.
pub fn write_text(out: &mut Vec<u8>, order: Order, text: &Name) -> Result<(), NoMemory>
    ensures ok { OnOk result (out.new.items ≡ out.old.items ++ canonical_text order text.now) }
    ensures spelled { OnOk result (IsText text.now) }
    ensures err { OnErr result (out.new.items ≡ out.old.items) }
{
    let bytes = text.as_str().as_bytes();
    let Ok(size) = u32::try_from(bytes.len()) else {
        return Err(NoMemory);
    };
    let start = out.len();
    write_size(out, order, size)?;
    if let Err(_) = out.extend_from_slice(bytes) {
        out.truncate(start);
        return Err(NoMemory);
    }
    Ok(())
}
