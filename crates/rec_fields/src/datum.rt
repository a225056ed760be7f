// The data that values bring.
ghost use Rattle.std.specs.Prelude.{◌≡◌, true, IfOk, IfSome, Some};
ghost use Rattle.std.specs.Option.{option_and_then};
ghost use Rattle.pvd_value.specs.Data.{members};
ghost use Rattle.pvd_value.specs.Fits.{element_of};
ghost use Rattle.pvd_value.specs.View.{view, items_view, row_view};
ghost use Rattle.rec_kinds.specs.Sorts.{is_of, index};
ghost use Rattle.rec_fields.specs.Given.{sort_in, many_sort};
ghost use Rattle.rec_fields.specs.Puts.{datum_in, many_datum, first_int, int_in, index_of, value_in};

use crate::numbers::widened;
use crate::shown::copy_of;
use pvd_type::NoMemory;
use pvd_value::{Items, PvValue};
use rec_kinds::{Datum, SharedItems, SharedText};
use std::alloc::Global;

/// What stands first in a structure, and else the value itself.
pub(crate) fn first_of(value: &PvValue) -> &PvValue
    ensures { view result.now ≡ value_in (view value.now) }
{
    match value.members().first() {
        Some(first) => first,
        None => value,
    }
}

/// The datum that a value brings; none of a value that no record shows, and of an index outside 16 bits.
pub(crate) fn datum_of(alloc: Global, value: &PvValue) -> Result<Option<Datum>, NoMemory>
    ensures same { IfOk result (λ datum. datum ≡ datum_in (view value.now)) }
    ensures sort { IfOk result (λ datum. IfSome datum (λ d. is_of (sort_in (view value.now)) d ≡ true)) }
{
    match value {
        PvValue::I32(number) => Ok(Some(Datum::Num(i64::from(*number)))),
        PvValue::I64(number) => Ok(Some(Datum::Num(*number))),
        PvValue::Text(text) => Ok(Some(Datum::Text(SharedText::of(alloc, text.as_str())?))),
        PvValue::List(items) => list_datum(alloc, items),
        PvValue::Struct(values) => Ok(index_datum(values)),
        PvValue::Bool(_) | PvValue::I8(_) | PvValue::I16(_) => Ok(None),
        PvValue::U8(_) | PvValue::U16(_) | PvValue::U32(_) | PvValue::U64(_) => Ok(None),
        PvValue::F32(_) | PvValue::F64(_) => Ok(None),
        PvValue::Union(_) | PvValue::Variant(_) => Ok(None),
        PvValue::StructList(_) | PvValue::UnionList(_) | PvValue::VariantList(_) => Ok(None),
    }
}

/// The datum that a list brings.
fn list_datum(alloc: Global, items: &Items) -> Result<Option<Datum>, NoMemory>
    ensures same { IfOk result (λ datum. datum ≡ many_datum (items_view items.now)) }
    ensures sort { IfOk result (λ datum. IfSome datum (λ d. is_of (many_sort (element_of (items_view items.now))) d ≡ true)) }
{
    match items {
        Items::I8(numbers) => nums(alloc, widened(alloc, numbers)?),
        Items::U8(numbers) => nums(alloc, widened(alloc, numbers)?),
        Items::I16(numbers) => nums(alloc, widened(alloc, numbers)?),
        Items::U16(numbers) => nums(alloc, widened(alloc, numbers)?),
        Items::I32(numbers) => nums(alloc, widened(alloc, numbers)?),
        Items::U32(numbers) => nums(alloc, widened(alloc, numbers)?),
        Items::I64(numbers) => nums(alloc, widened(alloc, numbers)?),
        Items::U64(numbers) => nums(alloc, widened(alloc, numbers)?),
        Items::Text(texts) => {
            let texts = copy_of(alloc, texts)?;
            Ok(Some(Datum::Texts(SharedItems::of(alloc, texts)?)))
        }
        Items::Bool(_) | Items::F32(_) | Items::F64(_) => Ok(None),
    }
}

fn nums(alloc: Global, numbers: Vec<i128>) -> Result<Option<Datum>, NoMemory>
    ensures { IfOk result (λ datum. datum ≡ Some (Datum.Nums numbers.items)) }
{
    Ok(Some(Datum::Nums(SharedItems::of(alloc, numbers)?)))
}

/// The index that stands first in a structure.
fn index_datum(values: &[PvValue]) -> Option<Datum>
    ensures same { result ≡ datum_in (members (row_view values.now)) }
    ensures sort { IfSome result (λ d. is_of (sort_in (members (row_view values.now))) d ≡ true) }
{
    index_of_number(first_number(values)?)
}

/// The index that a number is.
pub(crate) fn index_of_leaf(leaf: &PvValue) -> Option<Datum>
    ensures same { result ≡ option_and_then index_of (int_in (view leaf.now)) }
    ensures sort { IfSome result (λ d. is_of index d ≡ true) }
{
    index_of_number(int_of(leaf)?)
}

/// The number that stands first.
fn first_number(values: &[PvValue]) -> Option<i32>
    ensures { result ≡ first_int (row_view values.now) }
{
    match values.first() {
        Some(value) => int_of(value),
        None => None,
    }
}

/// An int.
fn int_of(value: &PvValue) -> Option<i32>
    ensures { result ≡ int_in (view value.now) }
{
    match value {
        PvValue::I32(number) => Some(*number),
        PvValue::Bool(_) | PvValue::I8(_) | PvValue::I16(_) | PvValue::I64(_) => None,
        PvValue::U8(_) | PvValue::U16(_) | PvValue::U32(_) | PvValue::U64(_) => None,
        PvValue::F32(_) | PvValue::F64(_) | PvValue::Text(_) => None,
        PvValue::List(_) | PvValue::Struct(_) | PvValue::Union(_) | PvValue::Variant(_) => None,
        PvValue::StructList(_) | PvValue::UnionList(_) | PvValue::VariantList(_) => None,
    }
}

/// An index, where a number is one of 16 bits.
fn index_of_number(number: i32) -> Option<Datum>
    ensures same { result ≡ index_of number }
    ensures sort { IfSome result (λ d. is_of index d ≡ true) }
{
    if (0..65_536).contains(&number) {
        Some(Datum::Index(number as u16))
    } else {
        None
    }
}
