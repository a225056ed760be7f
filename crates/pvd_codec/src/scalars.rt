ghost use Rattle.std.specs.Prelude.{◌≡◌, ◌*◌, ◌≤◌, length};
ghost use Rattle.pva_wire.specs.Reading.{text_at};
ghost use Rattle.pvd_value.specs.View.{view};
ghost use Rattle.pvd_codec.specs.Reading.{Gives, lifted, bool_at, scalar_at, bound_text_at};

use crate::fault::{ValueCause, ValueStop};
use pva_wire::{Cause, Order, size_at, text_at, u8_at, u16_at, u32_at, u64_at};
use pvd_type::{Budget, Name, Scalar};
use pvd_value::PvValue;
use std::alloc::Global;

/// A boolean, or the flag of an element that may be null.
#[tactic(auto, unfolding(crate::specs::Reading::bool_at))]
pub fn bool_at(bytes: &[u8]) -> Result<(bool, &[u8]), ValueStop>
    ensures { Gives (λ x. (x.0, x.1.now)) result (bool_at bytes.now) }
{
    match bytes {
        [] => Err(ValueStop::Fault(ValueCause::Wire(Cause::Short), 0)),
        [0, rest @ ..] => Ok((false, rest)),
        [1, rest @ ..] => Ok((true, rest)),
        [byte, ..] => Err(ValueStop::Fault(ValueCause::BadBool(*byte), bytes.len())),
    }
}

/// How many bytes of memory a text counts for beside its place, its letters left out, with the time to make it and to let it go.
const TEXT: u64 = 48;

/// A text.
pub fn name_at<'a>(
    alloc: Global,
    order: Order,
    budget: &mut Budget,
    bytes: &'a [u8],
) -> Result<(Name, &'a [u8]), ValueStop>
    ensures { Gives (λ x. (x.0, x.1.now)) result (lifted (text_at order bytes.now)) }
{
    budget.spend(TEXT)?;
    let (text, rest) = text_at(alloc, order, bytes)?;
    Ok((text, rest))
}

/// One scalar. A number that the bytes end in is Short at its first byte.
#[tactic(auto, unfolding(crate::specs::Reading::scalar_at, crate::specs::Reading::valued))]
pub fn scalar_at<'a>(
    alloc: Global,
    order: Order,
    budget: &mut Budget,
    scalar: Scalar,
    bytes: &'a [u8],
) -> Result<(PvValue, &'a [u8]), ValueStop>
    ensures { Gives (λ x. (view x.0, x.1.now)) result (scalar_at order scalar bytes.now) }
{
    match scalar {
        Scalar::Bool => {
            let (truth, rest) = bool_at(bytes)?;
            Ok((PvValue::Bool(truth), rest))
        }
        Scalar::I8 => {
            let (number, rest) = u8_at(order, bytes)?;
            Ok((PvValue::I8(number.cast_signed()), rest))
        }
        Scalar::I16 => {
            let (number, rest) = u16_at(order, bytes)?;
            Ok((PvValue::I16(number.cast_signed()), rest))
        }
        Scalar::I32 => {
            let (number, rest) = u32_at(order, bytes)?;
            Ok((PvValue::I32(number.cast_signed()), rest))
        }
        Scalar::I64 => {
            let (number, rest) = u64_at(order, bytes)?;
            Ok((PvValue::I64(number.cast_signed()), rest))
        }
        Scalar::U8 => {
            let (number, rest) = u8_at(order, bytes)?;
            Ok((PvValue::U8(number), rest))
        }
        Scalar::U16 => {
            let (number, rest) = u16_at(order, bytes)?;
            Ok((PvValue::U16(number), rest))
        }
        Scalar::U32 => {
            let (number, rest) = u32_at(order, bytes)?;
            Ok((PvValue::U32(number), rest))
        }
        Scalar::U64 => {
            let (number, rest) = u64_at(order, bytes)?;
            Ok((PvValue::U64(number), rest))
        }
        Scalar::F32 => {
            let (pattern, rest) = u32_at(order, bytes)?;
            Ok((PvValue::F32(pattern), rest))
        }
        Scalar::F64 => {
            let (pattern, rest) = u64_at(order, bytes)?;
            Ok((PvValue::F64(pattern), rest))
        }
        Scalar::Text => {
            let (text, rest) = name_at(alloc, order, budget, bytes)?;
            Ok((PvValue::Text(text), rest))
        }
    }
}

/// A text of at most `bound` bytes. Its size is judged before the text is read; null is the empty
/// text.
#[tactic(auto, unfolding(crate::specs::Reading::bound_text_at))]
pub fn bound_text_at<'a>(
    alloc: Global,
    order: Order,
    budget: &mut Budget,
    bound: u32,
    bytes: &'a [u8],
) -> Result<(PvValue, &'a [u8]), ValueStop>
    ensures { Gives (λ x. (view x.0, x.1.now)) result (bound_text_at order bound bytes.now) }
{
    budget.spend(TEXT)?;
    let (size, _) = size_at(order, bytes)?;
    if let Some(size) = size {
        if size > bound {
            return Err(ValueStop::Fault(ValueCause::OverBound(size), bytes.len()));
        }
        let (text, rest) = text_at(alloc, order, bytes)?;
        return Ok((PvValue::Text(text), rest));
    }
    let (text, rest) = text_at(alloc, order, bytes)?;
    Ok((PvValue::Text(text), rest))
}
