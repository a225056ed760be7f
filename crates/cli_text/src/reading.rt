ghost use Rattle.std.specs.Prelude.{◌≡◌, ◌<◌, ◌≤◌, ◌^◌, pos, true, IfOk};
ghost use Rattle.std.specs.List.{list_all};
ghost use Rattle.std.specs.Char.{is_ascii_digit};
ghost use Rattle.std.specs.Str.Parse.{without_leading_sign};
ghost use Rattle.pvd_value.specs.Data.{single};
ghost use Rattle.pvd_value.specs.View.{view, items_view};
ghost use Rattle.cli_text.specs.Faults.{Gives, Makes};
ghost use Rattle.cli_text.specs.Words.{leads_with_zero, is_plain, made, read_signed, read_unsigned, read_truth, read_bounded, read_scalar, with_word, place_from, read_choice, within, in_signed, in_unsigned};

use crate::fault::Cause;
use pvd_type::{Name, Scalar};
use pvd_value::{Items, PvValue};
use std::alloc::Global;

/// The bytes behind a sign, where there is one.
fn without_sign(bytes: &[u8]) -> &[u8]
    ensures { result.now ≡ without_leading_sign bytes.now }
{
    if !bytes.is_empty() && (bytes[0] == b'-' || bytes[0] == b'+') {
        return &bytes[1..];
    }
    bytes
}

/// Whether a zero stands in front of other digits.
fn leads_with_zero(digits: &[u8]) -> bool
    ensures { result ≡ leads_with_zero digits.now }
{
    digits.len() > 1 && digits[0] == b'0'
}

/// Whether these are digits and nothing else.
fn are_digits(bytes: &[u8]) -> bool
    ensures { result ≡ list_all is_ascii_digit bytes.now }
{
    bytes.iter().all(|byte| byte.is_ascii_digit())
}

/// Whether these are decimal digits, of which there is no zero in front of others.
fn is_plain_number(digits: &[u8]) -> bool
    ensures { result ≡ is_plain digits.now }
{
    if digits.is_empty() || leads_with_zero(digits) {
        return false;
    }
    are_digits(digits)
}

/// The number that a word spells. One past 128 bits is past every range.
fn read_number(text: &str) -> Result<i128, Cause>
    ensures { Gives (λ x. x) result (read_signed (2 ^ 127) text.now) }
{
    if !is_plain_number(without_sign(text.as_bytes())) {
        return Err(Cause::BadNumber);
    }
    match text.parse::<i128>() {
        Ok(number) => Ok(number),
        Err(_) => Err(Cause::OutOfRange),
    }
}

/// Whether a number is one of a signed type, whose numbers reach from `-half` to `half - 1`.
fn is_signed(half: u128, number: i128) -> bool
    ensures { result ≡ in_signed half number }
{
    if number < 0 {
        return number.unsigned_abs() <= half;
    }
    number.unsigned_abs() < half
}

/// Whether a number is one of an unsigned type, whose numbers are below this bound.
fn is_unsigned(bound: u128, number: i128) -> bool
    ensures { result ≡ in_unsigned bound number }
{
    if number < 0 {
        return false;
    }
    number.unsigned_abs() < bound
}

/// The number of such a signed type that a word spells.
fn read_signed(half: u128, text: &str) -> Result<i128, Cause>
    requires { half ≤ 2 ^ 127 }
    ensures number { Gives (λ x. x) result (read_signed half text.now) }
    ensures within { IfOk result (λ z. in_signed half z ≡ true) }
{
    let number = read_number(text)?;
    if !is_signed(half, number) {
        return Err(Cause::OutOfRange);
    }
    Ok(number)
}

/// The number of such an unsigned type that a word spells.
fn read_unsigned(bound: u128, text: &str) -> Result<u128, Cause>
    requires { bound ≤ 2 ^ 127 }
    ensures number { Gives (λ x. x) result (read_unsigned bound text.now) }
    ensures within { IfOk result (λ n. n < bound) }
{
    let number = read_number(text)?;
    if !is_unsigned(bound, number) {
        return Err(Cause::OutOfRange);
    }
    Ok(number.unsigned_abs())
}

/// A word as a `byte`.
fn read_i8(text: &str) -> Result<i8, Cause>
    ensures { Gives (λ x. x) result (read_signed (2 ^ 7) text.now) }
{
    Ok(read_signed(0x80, text)? as i8)
}

/// A word as a `short`.
fn read_i16(text: &str) -> Result<i16, Cause>
    ensures { Gives (λ x. x) result (read_signed (2 ^ 15) text.now) }
{
    Ok(read_signed(0x8000, text)? as i16)
}

/// A word as an `int`.
fn read_i32(text: &str) -> Result<i32, Cause>
    ensures { Gives (λ x. x) result (read_signed (2 ^ 31) text.now) }
{
    Ok(read_signed(0x8000_0000, text)? as i32)
}

/// A word as a `long`.
fn read_i64(text: &str) -> Result<i64, Cause>
    ensures { Gives (λ x. x) result (read_signed (2 ^ 63) text.now) }
{
    Ok(read_signed(0x8000_0000_0000_0000, text)? as i64)
}

/// A word as a `ubyte`.
fn read_u8(text: &str) -> Result<u8, Cause>
    ensures { Gives (λ x. x) result (read_unsigned (2 ^ 8) text.now) }
{
    Ok(read_unsigned(0x100, text)? as u8)
}

/// A word as a `ushort`.
fn read_u16(text: &str) -> Result<u16, Cause>
    ensures { Gives (λ x. x) result (read_unsigned (2 ^ 16) text.now) }
{
    Ok(read_unsigned(0x1_0000, text)? as u16)
}

/// A word as a `uint`.
fn read_u32(text: &str) -> Result<u32, Cause>
    ensures { Gives (λ x. x) result (read_unsigned (2 ^ 32) text.now) }
{
    Ok(read_unsigned(0x1_0000_0000, text)? as u32)
}

/// A word as a `ulong`.
fn read_u64(text: &str) -> Result<u64, Cause>
    ensures { Gives (λ x. x) result (read_unsigned (2 ^ 64) text.now) }
{
    Ok(read_unsigned(0x1_0000_0000_0000_0000, text)? as u64)
}

/// A word as a boolean.
fn read_bool(text: &str) -> Result<bool, Cause>
    ensures { Gives (λ x. x) result (read_truth text.now) }
{
    if text == "true" {
        return Ok(true);
    }
    if text == "false" {
        return Ok(false);
    }
    Err(Cause::BadChoice)
}

/// A word as a string of at most so many bytes.
pub fn read_bounded_text(alloc: Global, bound: u32, text: &str) -> Result<PvValue, Cause>
    ensures { Gives view result (made single (read_bounded bound text.now)) }
{
    if text.len() > bound as usize {
        return Err(Cause::OutOfRange);
    }
    Ok(PvValue::Text(Name::of(alloc, text)?))
}

/// A word as a scalar of a type. No word gives a float.
pub fn read_as(alloc: Global, scalar: Scalar, text: &str) -> Result<PvValue, Cause>
    ensures { Gives view result (made single (read_scalar scalar text.now)) }
{
    match scalar {
        Scalar::Bool => Ok(PvValue::Bool(read_bool(text)?)),
        Scalar::I8 => Ok(PvValue::I8(read_i8(text)?)),
        Scalar::I16 => Ok(PvValue::I16(read_i16(text)?)),
        Scalar::I32 => Ok(PvValue::I32(read_i32(text)?)),
        Scalar::I64 => Ok(PvValue::I64(read_i64(text)?)),
        Scalar::U8 => Ok(PvValue::U8(read_u8(text)?)),
        Scalar::U16 => Ok(PvValue::U16(read_u16(text)?)),
        Scalar::U32 => Ok(PvValue::U32(read_u32(text)?)),
        Scalar::U64 => Ok(PvValue::U64(read_u64(text)?)),
        Scalar::F32 | Scalar::F64 => Err(Cause::NoField),
        Scalar::Text => Ok(PvValue::Text(Name::of(alloc, text)?)),
    }
}

/// Adds a word to a list as one element more. No word gives a float.
pub fn push_word(alloc: Global, items: &mut Items, text: &str) -> Result<(), Cause>
    ensures { Makes result (items_view items.new) (with_word (items_view items.old) text.now) }
{
    match items {
        Items::Bool(values) => values.push(read_bool(text)?)?,
        Items::I8(values) => values.push(read_i8(text)?)?,
        Items::I16(values) => values.push(read_i16(text)?)?,
        Items::I32(values) => values.push(read_i32(text)?)?,
        Items::I64(values) => values.push(read_i64(text)?)?,
        Items::U8(values) => values.push(read_u8(text)?)?,
        Items::U16(values) => values.push(read_u16(text)?)?,
        Items::U32(values) => values.push(read_u32(text)?)?,
        Items::U64(values) => values.push(read_u64(text)?)?,
        Items::F32(_) | Items::F64(_) => return Err(Cause::NoField),
        Items::Text(values) => values.push(Name::of(alloc, text)?)?,
    }
    Ok(())
}

/// The place of the first choice that is this text.
fn place_of(choices: &[Name], text: &str) -> Option<usize>
    ensures { result ≡ place_from 0 text.now choices.now }
{
    for i in 0..choices.len() {
        if choices[i].as_str() == text {
            return Some(i);
        }
    }
    None
}

/// A place as an index.
fn index_of(place: usize) -> Result<i32, Cause>
    ensures { Gives (λ x. x) result (within (in_signed (2 ^ 31)) (Some (pos place))) }
{
    match i32::try_from(place) {
        Ok(index) => Ok(index),
        Err(_) => Err(Cause::OutOfRange),
    }
}

/// A word as the index of a choice: the place of the choice that it is, or else the number that it spells.
pub fn read_choice_word(choices: &[Name], text: &str) -> Result<i32, Cause>
    ensures { Gives (λ x. x) result (read_choice choices.now text.now) }
{
    if let Some(place) = place_of(choices, text) {
        return index_of(place);
    }
    match read_i32(text) {
        Err(Cause::BadNumber) => Err(Cause::BadChoice),
        index => index,
    }
}
