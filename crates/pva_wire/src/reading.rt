ghost use Rattle.std.specs.Prelude.{◌≡◌, ◌≤◌};
ghost use Rattle.pva_wire.specs.Reading.{Gives, TakesNone, TakesLast, long_size_at, size_at, count_at, counted_at, letters_at, text_at};

use crate::fault::{Cause, Stop};
use crate::number::u32_of;
use crate::order::Order;
use pvd_type::Name;
use std::alloc::Global;

/// The number of a size in the long form, whose first byte had `left` bytes from it on.
#[tactic(auto, unfolding(crate::specs::Reading::long_size_at))]
fn long_size_at(order: Order, left: usize, bytes: &[u8]) -> Result<(Option<u32>, &[u8]), Stop>
    ensures value { Gives (λ x. (x.0, x.1.now)) result (long_size_at order left bytes.now) }
    ensures memory { TakesNone result }
{
    if bytes.len() < 4 {
        return Err(Stop::Fault(Cause::Short, left));
    }
    let size = u32_of(order, bytes);
    if size > 0x7FFF_FFFE {
        return Err(Stop::Fault(Cause::Range, left));
    }
    Ok((Some(size), &bytes[4..]))
}

/// A size, or null, and what follows it (pvAccess Protocol Specification, "Sizes"). Short where the
/// bytes end inside it, Range where its number is above 2^31-2.
#[tactic(auto, unfolding(crate::specs::Reading::size_at))]
pub fn size_at(order: Order, bytes: &[u8]) -> Result<(Option<u32>, &[u8]), Stop>
    ensures value { Gives (λ x. (x.0, x.1.now)) result (size_at order bytes.now) }
    ensures memory { TakesNone result }
{
    match bytes {
        [] => Err(Stop::Fault(Cause::Short, 0)),
        [255, rest @ ..] => Ok((None, rest)),
        [254, rest @ ..] => long_size_at(order, bytes.len(), rest),
        [size, rest @ ..] => Ok((Some(*size as u32), rest)),
    }
}

/// A size that isn't null, and what follows it.
#[tactic(auto, unfolding(crate::specs::Reading::count_at))]
pub fn count_at(order: Order, bytes: &[u8]) -> Result<(u32, &[u8]), Stop>
    ensures value { Gives (λ x. (x.0, x.1.now)) result (count_at order bytes.now) }
    ensures memory { TakesNone result }
{
    let (size, rest) = size_at(order, bytes)?;
    match size {
        None => Err(Stop::Fault(Cause::NullSize, bytes.len())),
        Some(count) => Ok((count, rest)),
    }
}

/// A count of items that take at least `width` bytes each, and what follows it. Where the bytes left
/// can't hold so many, it is Short at the count, before any item is read.
#[tactic(auto, unfolding(crate::specs::Reading::counted_at))]
pub fn counted_at(order: Order, width: u32, bytes: &[u8]) -> Result<(u32, &[u8]), Stop>
    ensures value { Gives (λ x. (x.0, x.1.now)) result (counted_at order width bytes.now) }
    ensures memory { TakesNone result }
{
    let (count, rest) = count_at(order, bytes)?;
    if (rest.len() as u64) < count as u64 * width as u64 {
        return Err(Stop::Fault(Cause::Short, bytes.len()));
    }
    Ok((count, rest))
}

/// The `size` bytes of a text, and what follows them.
#[tactic(auto, unfolding(crate::specs::Reading::letters_at))]
fn letters_at(size: usize, bytes: &[u8]) -> Result<(&str, &[u8]), Stop>
    ensures value { Gives (λ x. (x.0.now, x.1.now)) result (letters_at size bytes.now) }
    ensures memory { TakesNone result }
{
    if bytes.len() < size {
        return Err(Stop::Fault(Cause::Short, bytes.len()));
    }
    let (front, rest) = bytes.split_at(size);
    match str::from_utf8(front) {
        Ok(text) => Ok((text, rest)),
        Err(_) => Err(Stop::Fault(Cause::NotUtf8, bytes.len())),
    }
}

/// A text where it stands, and what follows it; null is the empty text (pvAccess Protocol Specification, "Strings").
/// The faults of its size stand at the size. Short where the bytes end inside its letters, NotUtf8
/// where those aren't UTF-8; both stand at the first letter.
#[tactic(auto, unfolding(crate::specs::Reading::text_at))]
pub fn str_at(order: Order, bytes: &[u8]) -> Result<(&str, &[u8]), Stop>
    ensures value { Gives (λ x. (x.0.now, x.1.now)) result (text_at order bytes.now) }
    ensures memory { TakesNone result }
{
    let (size, rest) = size_at(order, bytes)?;
    match size {
        None => Ok(("", rest)),
        Some(size) => letters_at(size as usize, rest),
    }
}

/// A copy of the text that [`str_at`] reads, and what follows it.
pub fn text_at(alloc: Global, order: Order, bytes: &[u8]) -> Result<(Name, &[u8]), Stop>
    ensures value { Gives (λ x. (x.0, x.1.now)) result (text_at order bytes.now) }
    ensures memory { TakesLast result (text_at order bytes.now) }
{
    let (text, rest) = str_at(order, bytes)?;
    Ok((Name::of(alloc, text)?, rest))
}
