ghost use Rattle.std.specs.Prelude.{◌≡◌, ◌<◌, length, get_or, IfSome, option_map};
ghost use Rattle.pva_wire.specs.Reading.{count_at, counted_at, text_at};
ghost use Rattle.pvd_desc.specs.Reading.{Gives, lifted, id_at, definition, code_at, null, cached};

use crate::code::{Code, code_of};
use crate::fault::{DescCause, DescStop};
use pva_wire::{Cause, Order, count_at, counted_at, u16_at};

/// A 16-bit id.
pub fn id_at(order: Order, bytes: &[u8]) -> Result<(u16, &[u8]), DescStop>
    ensures { Gives (λ x. (x.0, x.1.now)) result (id_at order bytes.now) }
{
    let (id, rest) = u16_at(order, bytes)?;
    Ok((id, rest))
}

/// The bound of a list or a text.
pub fn bound_at(order: Order, bytes: &[u8]) -> Result<(u32, &[u8]), DescStop>
    ensures { Gives (λ x. (x.0, x.1.now)) result (lifted (count_at order bytes.now)) }
{
    let (bound, rest) = count_at(order, bytes)?;
    Ok((bound, rest))
}

/// How many members follow, each of at least two bytes.
pub fn member_count_at(order: Order, bytes: &[u8]) -> Result<(u32, &[u8]), DescStop>
    ensures { Gives (λ x. (x.0, x.1.now)) result (lifted (counted_at order 2 bytes.now)) }
{
    let (count, rest) = counted_at(order, 2, bytes)?;
    Ok((count, rest))
}

/// A node's id or a member's name, where it stands.
pub fn str_at(order: Order, bytes: &[u8]) -> Result<(&str, &[u8]), DescStop>
    ensures { Gives (λ x. (x.0.now, x.1.now)) result (lifted (text_at order bytes.now)) }
{
    let (text, rest) = pva_wire::str_at(order, bytes)?;
    Ok((text, rest))
}

/// What follows the code of a definition, where one stands.
#[tactic(auto, unfolding(crate::specs::Reading::definition))]
pub fn definition(bytes: &[u8]) -> Option<&[u8]>
    ensures value { option_map (λ r. r.now) result ≡ definition bytes.now }
    ensures shorter { IfSome result (λ r. length r.now < length bytes.now) }
{
    match bytes {
        [0xFD, rest @ ..] => Some(rest),
        _ => None,
    }
}

/// The code byte of a type. UnknownCode, at the byte, where it stands for none.
#[tactic(auto, unfolding(crate::specs::Reading::code_at))]
pub fn code_at(bytes: &[u8]) -> Result<(Code, &[u8]), DescStop>
    ensures { Gives (λ x. (x.0, x.1.now)) result (code_at bytes.now) }
{
    let [byte, rest @ ..] = bytes else {
        return Err(DescStop::Fault(DescCause::Wire(Cause::Short), 0));
    };
    match code_of(*byte) {
        Code::Unknown => Err(DescStop::Fault(DescCause::UnknownCode(*byte), bytes.len())),
        code => Ok((code, rest)),
    }
}

/// The first byte, or 0 where there is none.
pub fn first_byte(bytes: &[u8]) -> u8
    ensures { result ≡ get_or bytes.now 0 0 }
{
    match bytes {
        [byte, ..] => *byte,
        [] => 0,
    }
}

/// What follows the code of the null description, where it stands.
#[tactic(auto, unfolding(crate::specs::Reading::null))]
pub fn null(bytes: &[u8]) -> Option<&[u8]>
    ensures { option_map (λ r. r.now) result ≡ null bytes.now }
{
    match bytes {
        [0xFF, rest @ ..] => Some(rest),
        _ => None,
    }
}

/// What follows the code of a cached type, where it stands.
#[tactic(auto, unfolding(crate::specs::Reading::cached))]
pub fn cached(bytes: &[u8]) -> Option<&[u8]>
    ensures { option_map (λ r. r.now) result ≡ cached bytes.now }
{
    match bytes {
        [0xFE, rest @ ..] => Some(rest),
        _ => None,
    }
}
