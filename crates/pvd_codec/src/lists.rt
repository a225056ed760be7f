ghost use Rattle.std.specs.Prelude.{◌≡◌, ◌+◌, ◌*◌, ◌≤◌, length, map, min, IfOk};
ghost use Rattle.std.specs.Int.{w8, cast_signed};
ghost use Rattle.pva_wire.specs.Reading.{text_at};
ghost use Rattle.pvd_value.specs.View.{items_view, view};
ghost use Rattle.pvd_value.specs.Data.{many};
ghost use Rattle.pvd_codec.specs.Reading.{Gives, lifted, bool_at, valued, width_of, extent_at, items_at, elements_at, list_at};

use crate::fault::{ValueCause, ValueStop};
use crate::list_numbers::numbers_at;
use crate::scalars::{bool_at, name_at};
use pva_wire::{Cause, Order, count_at, counted_at};
use pvd_type::{Budget, Extent, Name, Scalar};
use pvd_value::{Items, PvValue};
use std::alloc::{AllocError, Global};

/// How many bytes an element of a list takes at least.
fn width_of(scalar: Scalar) -> u32
    ensures width { result ≡ width_of scalar }
    ensures few { result ≤ 8 }
{
    match scalar {
        Scalar::Bool | Scalar::I8 | Scalar::U8 | Scalar::Text => 1,
        Scalar::I16 | Scalar::U16 => 2,
        Scalar::I32 | Scalar::U32 | Scalar::F32 => 4,
        Scalar::I64 | Scalar::U64 | Scalar::F64 => 8,
    }
}

/// How many elements a list has, each of at least `width` bytes. A bound is judged first, then whether
/// the bytes left can hold so many; both faults stand at the count, or at the first element of a list
/// that has none.
#[tactic(auto, unfolding(crate::specs::Reading::extent_at))]
fn extent_at(
    order: Order,
    extent: Extent,
    width: u32,
    bytes: &[u8],
) -> Result<(u32, &[u8]), ValueStop>
    requires { width ≤ 8 }
    ensures value { Gives (λ x. (x.0, x.1.now)) result (extent_at order extent width bytes.now) }
    ensures room { IfOk result (λ x. x.0 * width ≤ length x.1.now) }
{
    match extent {
        Extent::Variable => {
            let (count, rest) = counted_at(order, width, bytes)?;
            Ok((count, rest))
        }
        Extent::Bounded(bound) => {
            let (count, _) = count_at(order, bytes)?;
            if count > bound {
                return Err(ValueStop::Fault(ValueCause::OverBound(count), bytes.len()));
            }
            let (count, rest) = counted_at(order, width, bytes)?;
            Ok((count, rest))
        }
        Extent::Fixed(size) => {
            if (bytes.len() as u64) < size as u64 * width as u64 {
                return Err(ValueStop::Fault(ValueCause::Wire(Cause::Short), bytes.len()));
            }
            Ok((size, bytes))
        }
    }
}

/// How many bytes of memory the place of a text in a list takes.
const PLACE: u64 = 24;

/// How many bytes a list of so many elements counts for, whose places take so many bytes each: these, and 48 for its block of memory,
/// which an empty list hasn't.
pub fn list_room(count: u32, place: u32) -> u64
    ensures { result ≡ 48 * min count 1 + count * place }
{
    48 * u64::from(count.min(1)) + u64::from(count) * u64::from(place)
}

/// So many booleans.
fn bools_at(alloc: Global, count: u32, bytes: &[u8]) -> Result<(Vec<bool>, &[u8]), ValueStop>
    ensures { Gives (λ x. (x.0.items, x.1.now)) result (items_at bool_at count bytes.now) }
{
    let mut items = Vec::with_capacity(alloc, count as usize)?;
    let mut rest = bytes;
    for _ in 0..count {
        let (item, after) = bool_at(rest)?;
        items.push(item)?;
        rest = after;
    }
    Ok((items, rest))
}

/// So many texts.
fn texts_at<'a>(
    alloc: Global,
    order: Order,
    budget: &mut Budget,
    count: u32,
    bytes: &'a [u8],
) -> Result<(Vec<Name>, &'a [u8]), ValueStop>
    ensures { Gives (λ x. (x.0.items, x.1.now)) result (items_at (λ b. lifted (text_at order b)) count bytes.now) }
{
    budget.spend(PLACE * count as u64)?;
    let mut items = Vec::with_capacity(alloc, count as usize)?;
    let mut rest = bytes;
    for _ in 0..count {
        let (item, after) = name_at(alloc, order, budget, rest)?;
        items.push(item)?;
        rest = after;
    }
    Ok((items, rest))
}

/// So many unsigned numbers of one byte.
fn u8s_at(
    alloc: Global,
    order: Order,
    count: u32,
    bytes: &[u8],
) -> Result<(Vec<u8>, &[u8]), ValueStop>
    requires { count ≤ length bytes.now }
    ensures { Gives (λ x. (x.0.items, x.1.now)) result (items_at (valued (λ n. n) order 1) count bytes.now) }
{
    let (front, rest) = bytes.split_at(count as usize);
    Ok((Vec::from_slice(alloc, front)?, rest))
}

/// Bytes as signed numbers.
fn signed_bytes(alloc: Global, bytes: &[u8]) -> Result<Vec<i8>, AllocError>
    ensures { IfOk result (λ v. v.items ≡ map (cast_signed w8) bytes.now) }
{
    bytes.iter().map(|byte| byte.cast_signed()).collect(alloc)
}

/// So many signed numbers of one byte.
fn i8s_at(
    alloc: Global,
    order: Order,
    count: u32,
    bytes: &[u8],
) -> Result<(Vec<i8>, &[u8]), ValueStop>
    requires { count ≤ length bytes.now }
    ensures { Gives (λ x. (x.0.items, x.1.now)) result (items_at (valued (cast_signed w8) order 1) count bytes.now) }
{
    let (front, rest) = bytes.split_at(count as usize);
    Ok((signed_bytes(alloc, front)?, rest))
}

/// So many scalars, for which there are bytes enough.
#[tactic(auto, unfolding(crate::specs::Reading::elements_at))]
fn elements_at<'a>(
    alloc: Global,
    order: Order,
    budget: &mut Budget,
    scalar: Scalar,
    count: u32,
    bytes: &'a [u8],
) -> Result<(PvValue, &'a [u8]), ValueStop>
    requires { count * width_of scalar ≤ length bytes.now }
    ensures { Gives (λ x. (view x.0, x.1.now)) result (elements_at order scalar count bytes.now) }
{
    match scalar {
        Scalar::Bool => {
            let (items, rest) = bools_at(alloc, count, bytes)?;
            Ok((PvValue::List(Items::Bool(items)), rest))
        }
        Scalar::I8 => {
            let (items, rest) = i8s_at(alloc, order, count, bytes)?;
            Ok((PvValue::List(Items::I8(items)), rest))
        }
        Scalar::I16 => {
            let (items, rest) = numbers_at::<i16>(alloc, order, count, bytes)?;
            Ok((PvValue::List(Items::I16(items)), rest))
        }
        Scalar::I32 => {
            let (items, rest) = numbers_at::<i32>(alloc, order, count, bytes)?;
            Ok((PvValue::List(Items::I32(items)), rest))
        }
        Scalar::I64 => {
            let (items, rest) = numbers_at::<i64>(alloc, order, count, bytes)?;
            Ok((PvValue::List(Items::I64(items)), rest))
        }
        Scalar::U8 => {
            let (items, rest) = u8s_at(alloc, order, count, bytes)?;
            Ok((PvValue::List(Items::U8(items)), rest))
        }
        Scalar::U16 => {
            let (items, rest) = numbers_at::<u16>(alloc, order, count, bytes)?;
            Ok((PvValue::List(Items::U16(items)), rest))
        }
        Scalar::U32 => {
            let (items, rest) = numbers_at::<u32>(alloc, order, count, bytes)?;
            Ok((PvValue::List(Items::U32(items)), rest))
        }
        Scalar::U64 => {
            let (items, rest) = numbers_at::<u64>(alloc, order, count, bytes)?;
            Ok((PvValue::List(Items::U64(items)), rest))
        }
        Scalar::F32 => {
            let (items, rest) = numbers_at::<u32>(alloc, order, count, bytes)?;
            Ok((PvValue::List(Items::F32(items)), rest))
        }
        Scalar::F64 => {
            let (items, rest) = numbers_at::<u64>(alloc, order, count, bytes)?;
            Ok((PvValue::List(Items::F64(items)), rest))
        }
        Scalar::Text => {
            let (items, rest) = texts_at(alloc, order, budget, count, bytes)?;
            Ok((PvValue::List(Items::Text(items)), rest))
        }
    }
}

/// A list of scalars: a count, unless its length is fixed, and the elements. They are read in one pass.
#[tactic(auto, unfolding(crate::specs::Reading::list_at))]
pub fn list_at<'a>(
    alloc: Global,
    order: Order,
    budget: &mut Budget,
    scalar: Scalar,
    extent: Extent,
    bytes: &'a [u8],
) -> Result<(PvValue, &'a [u8]), ValueStop>
    ensures { Gives (λ x. (view x.0, x.1.now)) result (list_at order scalar extent bytes.now) }
{
    let (count, rest) = extent_at(order, extent, width_of(scalar), bytes)?;
    budget.spend(list_room(count, 0))?;
    elements_at(alloc, order, budget, scalar, count, rest)
}
