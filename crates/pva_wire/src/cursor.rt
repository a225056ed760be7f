ghost use Rattle.std.specs.Prelude.{◌≡◌, ◌-◌, length};
ghost use Rattle.pva_wire.specs.Reading.{number_at, size_at, count_at, text_at};
ghost use Rattle.pva_wire.specs.Bits.{bits_at};
ghost use Rattle.pva_wire.specs.Status.{status_at};
ghost use Rattle.pva_wire.specs.Faults.{GivesAt, NeedsNone, NeedsLast};

use crate::fault::WireFault;
use crate::order::Order;
use crate::status::Status;
use crate::{bits, number, reading, status};
use pvd_type::{BitSet, Name};
use std::alloc::Global;
use std::marker::Model;

/// Bytes that are read from the front, in one order. A call that answers a fault leaves it as it was.
#[derive(Drop)]
pub struct Cursor<'a> {
    order: Order,
    end: usize,
    rest: &'a [u8],
}

impl<'a> Model for Cursor<'a> {
    ghost use Rattle.pva_wire.specs.Input.{Input};

    ghost Value = { Input };

    ghost view = { λ a. record { order = a.order; end = a.end; rest = a.rest.now } };
}

impl<'a> Cursor<'a> {
    /// A cursor at the start of these bytes, whose numbers stand in this order.
    pub fn new(bytes: &'a [u8], order: Order) -> Cursor<'a>
        ensures { result ≡ record { order = order; end = length bytes.now; rest = bytes.now } }
    {
        Cursor {
            order,
            end: bytes.len(),
            rest: bytes,
        }
    }

    /// The order of the numbers.
    pub fn order(&self) -> Order
        ensures { result ≡ self.now.order }
    {
        self.order
    }

    /// How many bytes there were at its start.
    pub fn length(&self) -> usize
        ensures { result ≡ self.now.end }
    {
        self.end
    }

    /// The bytes that are left.
    pub fn rest(&self) -> &'a [u8]
        ensures { result.now ≡ self.now.rest }
    {
        self.rest
    }

    /// The place of the next byte: how many bytes stand before it.
    pub fn place(&self) -> usize
        ensures { result ≡ self.now.end - length self.now.rest }
    {
        self.place_of(self.rest.len())
    }

    /// The place of the byte from which so many bytes were left.
    pub fn place_of(&self, left: usize) -> usize
        ensures { result ≡ self.now.end - left }
    {
        self.end.saturating_sub(left)
    }

    /// Goes on at these bytes, which a reader over slices left of the rest.
    pub fn go_to(&mut self, rest: &'a [u8])
        ensures { self.new ≡ record self.old { rest = rest.now } }
    {
        self.rest = rest;
    }

    /// Reads a byte. Short where none is left.
    pub fn read_u8(&mut self) -> Result<u8, WireFault>
        ensures exact { GivesAt self.old self.new (λ x. x) result (number_at self.old.order 1 self.old.rest) }
        ensures memory { NeedsNone result }
    {
        match number::u8_at(self.order, self.rest) {
            Ok((number, rest)) => {
                self.rest = rest;
                Ok(number)
            }
            Err(stop) => Err(stop.placed(self.end)),
        }
    }

    /// Reads a number of two bytes. Short where fewer are left.
    pub fn read_u16(&mut self) -> Result<u16, WireFault>
        ensures exact { GivesAt self.old self.new (λ x. x) result (number_at self.old.order 2 self.old.rest) }
        ensures memory { NeedsNone result }
    {
        match number::u16_at(self.order, self.rest) {
            Ok((number, rest)) => {
                self.rest = rest;
                Ok(number)
            }
            Err(stop) => Err(stop.placed(self.end)),
        }
    }

    /// Reads a number of four bytes. Short where fewer are left.
    pub fn read_u32(&mut self) -> Result<u32, WireFault>
        ensures exact { GivesAt self.old self.new (λ x. x) result (number_at self.old.order 4 self.old.rest) }
        ensures memory { NeedsNone result }
    {
        match number::u32_at(self.order, self.rest) {
            Ok((number, rest)) => {
                self.rest = rest;
                Ok(number)
            }
            Err(stop) => Err(stop.placed(self.end)),
        }
    }

    /// Reads a number of eight bytes. Short where fewer are left.
    pub fn read_u64(&mut self) -> Result<u64, WireFault>
        ensures exact { GivesAt self.old self.new (λ x. x) result (number_at self.old.order 8 self.old.rest) }
        ensures memory { NeedsNone result }
    {
        match number::u64_at(self.order, self.rest) {
            Ok((number, rest)) => {
                self.rest = rest;
                Ok(number)
            }
            Err(stop) => Err(stop.placed(self.end)),
        }
    }
}

/// Reads a size; None is the null size (pvAccess Protocol Specification, "Sizes"). Short where the
/// bytes end inside it, Range where its number is above 2^31-2.
pub fn read_size(from: &mut Cursor) -> Result<Option<u32>, WireFault>
    ensures exact { GivesAt from.old from.new (λ x. x) result (size_at from.old.order from.old.rest) }
    ensures memory { NeedsNone result }
{
    match reading::size_at(from.order, from.rest) {
        Ok((size, rest)) => {
            from.rest = rest;
            Ok(size)
        }
        Err(stop) => Err(stop.placed(from.end)),
    }
}

/// Reads a size that counts something: as `read_size`, and NullSize where it is null.
pub fn read_count(from: &mut Cursor) -> Result<u32, WireFault>
    ensures exact { GivesAt from.old from.new (λ x. x) result (count_at from.old.order from.old.rest) }
    ensures memory { NeedsNone result }
{
    match reading::count_at(from.order, from.rest) {
        Ok((count, rest)) => {
            from.rest = rest;
            Ok(count)
        }
        Err(stop) => Err(stop.placed(from.end)),
    }
}

/// Reads a text; null is the empty text (pvAccess Protocol Specification, "Strings"). The faults of
/// its size stand at the size. Short, found before memory is taken, where the bytes end inside its
/// letters, and NotUtf8 where those aren't UTF-8, stand at the first letter.
pub fn read_text(alloc: Global, from: &mut Cursor) -> Result<Name, WireFault>
    ensures exact { GivesAt from.old from.new (λ x. x) result (text_at from.old.order from.old.rest) }
    ensures memory { NeedsLast result (text_at from.old.order from.old.rest) }
{
    match reading::text_at(alloc, from.order, from.rest) {
        Ok((text, rest)) => {
            from.rest = rest;
            Ok(text)
        }
        Err(stop) => Err(stop.placed(from.end)),
    }
}

/// Reads a set of bits (pvAccess Protocol Specification, "BitSets"). All its faults stand at its size:
/// NullSize, Short where the bytes end before as many as it counts, and Range where a bit above 65,535
/// is set.
pub fn read_bits(alloc: Global, from: &mut Cursor) -> Result<BitSet, WireFault>
    ensures exact { GivesAt from.old from.new (λ x. x) result (bits_at from.old.order from.old.rest) }
    ensures memory { NeedsLast result (bits_at from.old.order from.old.rest) }
{
    match bits::bits_at(alloc, from.order, from.rest) {
        Ok((bits, rest)) => {
            from.rest = rest;
            Ok(bits)
        }
        Err(stop) => Err(stop.placed(from.end)),
    }
}

/// Reads a status (pvAccess Protocol Specification, "Status"). Range, at its first byte, where that is
/// none of 0, 1, 2, 3 and 255; else the first fault of its two texts.
pub fn read_status(alloc: Global, from: &mut Cursor) -> Result<Status, WireFault>
    ensures exact { GivesAt from.old from.new (λ x. x) result (status_at from.old.order from.old.rest) }
{
    match status::status_at(alloc, from.order, from.rest) {
        Ok((status, rest)) => {
            from.rest = rest;
            Ok(status)
        }
        Err(stop) => Err(stop.placed(from.end)),
    }
}
