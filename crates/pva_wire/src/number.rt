ghost use Rattle.std.specs.Prelude.{◌≡◌, ◌≤◌, ◌++◌, length, OnOk, OnErr};
ghost use Rattle.pva_wire.specs.Spelling.{number_bytes};
ghost use Rattle.pva_wire.specs.Reading.{Gives, TakesNone, number_of, number_at};

use crate::fault::{Cause, Stop};
use crate::order::Order;
use byteorder::{BigEndian, ByteOrder, LittleEndian};
use pvd_type::NoMemory;

/// The number in the first two bytes.
fn u16_of(order: Order, bytes: &[u8]) -> u16
    requires { 2 ≤ length bytes.now }
    ensures { result ≡ number_of order 2 bytes.now }
{
    match order {
        Order::Little => LittleEndian::read_u16(bytes),
        Order::Big => BigEndian::read_u16(bytes),
    }
}

/// The number in the first four bytes.
pub(crate) fn u32_of(order: Order, bytes: &[u8]) -> u32
    requires { 4 ≤ length bytes.now }
    ensures { result ≡ number_of order 4 bytes.now }
{
    match order {
        Order::Little => LittleEndian::read_u32(bytes),
        Order::Big => BigEndian::read_u32(bytes),
    }
}

/// The number in the first eight bytes.
fn u64_of(order: Order, bytes: &[u8]) -> u64
    requires { 8 ≤ length bytes.now }
    ensures { result ≡ number_of order 8 bytes.now }
{
    match order {
        Order::Little => LittleEndian::read_u64(bytes),
        Order::Big => BigEndian::read_u64(bytes),
    }
}

/// A byte and what follows it.
#[tactic(auto, unfolding(crate::specs::Reading::number_at))]
pub fn u8_at(order: Order, bytes: &[u8]) -> Result<(u8, &[u8]), Stop>
    ensures value { Gives (λ x. (x.0, x.1.now)) result (number_at order 1 bytes.now) }
    ensures memory { TakesNone result }
{
    if bytes.is_empty() {
        return Err(Stop::Fault(Cause::Short, bytes.len()));
    }
    Ok((bytes[0], &bytes[1..]))
}

/// A number of two bytes and what follows it.
#[tactic(auto, unfolding(crate::specs::Reading::number_at))]
pub fn u16_at(order: Order, bytes: &[u8]) -> Result<(u16, &[u8]), Stop>
    ensures value { Gives (λ x. (x.0, x.1.now)) result (number_at order 2 bytes.now) }
    ensures memory { TakesNone result }
{
    if bytes.len() < 2 {
        return Err(Stop::Fault(Cause::Short, bytes.len()));
    }
    Ok((u16_of(order, bytes), &bytes[2..]))
}

/// A number of four bytes and what follows it.
#[tactic(auto, unfolding(crate::specs::Reading::number_at))]
pub fn u32_at(order: Order, bytes: &[u8]) -> Result<(u32, &[u8]), Stop>
    ensures value { Gives (λ x. (x.0, x.1.now)) result (number_at order 4 bytes.now) }
    ensures memory { TakesNone result }
{
    if bytes.len() < 4 {
        return Err(Stop::Fault(Cause::Short, bytes.len()));
    }
    Ok((u32_of(order, bytes), &bytes[4..]))
}

/// A number of eight bytes and what follows it.
#[tactic(auto, unfolding(crate::specs::Reading::number_at))]
pub fn u64_at(order: Order, bytes: &[u8]) -> Result<(u64, &[u8]), Stop>
    ensures value { Gives (λ x. (x.0, x.1.now)) result (number_at order 8 bytes.now) }
    ensures memory { TakesNone result }
{
    if bytes.len() < 8 {
        return Err(Stop::Fault(Cause::Short, bytes.len()));
    }
    Ok((u64_of(order, bytes), &bytes[8..]))
}

/// Appends the two bytes of a number. Without memory `out` is as before.
pub fn write_u16(out: &mut Vec<u8>, order: Order, number: u16) -> Result<(), NoMemory>
    ensures ok { OnOk result (out.new.items ≡ out.old.items ++ number_bytes order 2 number) }
    ensures err { OnErr result (out.new.items ≡ out.old.items) }
{
    let bytes = match order {
        Order::Little => number.to_le_bytes(),
        Order::Big => number.to_be_bytes(),
    };
    out.extend_from_slice(&bytes)?;
    Ok(())
}

/// Appends the four bytes of a number. Without memory `out` is as before.
pub fn write_u32(out: &mut Vec<u8>, order: Order, number: u32) -> Result<(), NoMemory>
    ensures ok { OnOk result (out.new.items ≡ out.old.items ++ number_bytes order 4 number) }
    ensures err { OnErr result (out.new.items ≡ out.old.items) }
{
    let bytes = match order {
        Order::Little => number.to_le_bytes(),
        Order::Big => number.to_be_bytes(),
    };
    out.extend_from_slice(&bytes)?;
    Ok(())
}

/// Appends the eight bytes of a number. Without memory `out` is as before.
pub fn write_u64(out: &mut Vec<u8>, order: Order, number: u64) -> Result<(), NoMemory>
    ensures ok { OnOk result (out.new.items ≡ out.old.items ++ number_bytes order 8 number) }
    ensures err { OnErr result (out.new.items ≡ out.old.items) }
{
    let bytes = match order {
        Order::Little => number.to_le_bytes(),
        Order::Big => number.to_be_bytes(),
    };
    out.extend_from_slice(&bytes)?;
    Ok(())
}
