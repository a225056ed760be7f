ghost use Rattle.std.specs.Prelude.{◌≡◌, ◌||◌, ◌+◌, ◌*◌, ◌≤◌, ◌<◌, ◌++◌, ℕ, List, false, not, ◌==◌, length, map, IfOk, OnOk, OnErr};
ghost use Rattle.std.specs.List.{range_with_len, list_any};
ghost use Rattle.pva_wire.specs.Reading.{Gives, TakesLast};
ghost use Rattle.pva_wire.specs.Bits.{place, byte_of, width, canonical_bits, AllLow, is_high, bits_of, bits_at};

use crate::fault::{Cause, Stop};
use crate::order::Order;
use crate::reading::size_at;
use crate::writing::write_size;
use pvd_type::{BitSet, NoMemory};
use std::alloc::Global;

/// Which of `count` bytes holds the bits from eight times `place` on.
fn byte_place(order: Order, count: usize, at: usize) -> usize
    requires { at < count }
    ensures place { result ≡ place order count at }
    ensures within { result < count }
{
    match order {
        Order::Big if at < count / 8 * 8 => at / 8 * 8 + (7 - at % 8),
        _ => at,
    }
}

/// Whether a byte isn't zero.
fn any_full(bytes: &[u8]) -> bool
    ensures { result ≡ list_any (λ b. not (b == 0)) bytes.now }
{
    for byte in bytes {
        if *byte != 0 {
            return true;
        }
    }
    false
}

/// Whether the bytes hold a number above 65,535.
fn is_high(body: &[u8]) -> bool
    ensures { result ≡ is_high body.now }
{
    body.len() > 8192 && any_full(&body[8192..])
}

/// The numbers that the bytes hold.
fn set_of(alloc: Global, order: Order, body: &[u8]) -> Result<BitSet, NoMemory>
    requires { is_high body.now ≡ false }
    ensures { IfOk result (λ s. s ≡ bits_of order body.now) }
{
    let mut bits = BitSet::new(alloc);
    let count = if body.len() < 8192 { body.len() } else { 8192 };
    for p in 0..count {
        let byte = body[byte_place(order, body.len(), p)];
        bits.insert_byte(p as u32, byte)?;
    }
    Ok(bits)
}

/// A set of bits.
#[tactic(auto, unfolding(crate::specs::Bits::bits_at))]
pub fn bits_at(alloc: Global, order: Order, bytes: &[u8]) -> Result<(BitSet, &[u8]), Stop>
    ensures value { Gives (λ x. (x.0, x.1.now)) result (bits_at order bytes.now) }
    ensures memory { TakesLast result (bits_at order bytes.now) }
{
    let (size, rest) = size_at(order, bytes)?;
    let Some(size) = size else {
        return Err(Stop::Fault(Cause::NullSize, bytes.len()));
    };
    if rest.len() < size as usize {
        return Err(Stop::Fault(Cause::Short, bytes.len()));
    }
    let (body, rest) = rest.split_at(size as usize);
    if is_high(body) {
        return Err(Stop::Fault(Cause::Range, bytes.len()));
    }
    Ok((set_of(alloc, order, body)?, rest))
}

/// The byte that holds the bits from eight times `place` on.
fn byte(bits: &BitSet, place: u32) -> u8
    ensures { result ≡ byte_of bits.now place }
{
    bits.byte(place)
}

/// How many bytes cover the greatest bit.
fn width(bits: &BitSet) -> u32
    ensures width { result ≡ width bits.now }
    ensures few { result ≤ 8192 }
    ensures low { AllLow bits.now }
{
    let mut count = bits.bound();
    while count > 0 && byte(bits, count - 1) == 0 {
        count -= 1;
    }
    count
}

/// Appends so many bytes of a set, or a part of them.
fn put_body(out: &mut Vec<u8>, order: Order, count: u32, bits: &BitSet) -> Result<(), NoMemory>
    ensures ok { OnOk result (out.new.items ≡ out.old.items ++ map (λ j. byte_of bits.now (place order count j)) (range_with_len 0 count)) }
    ensures err { OnErr result ((part : List ℕ) × (out.new.items ≡ out.old.items ++ part)) }
{
    for j in 0..count {
        let place = byte_place(order, count as usize, j as usize);
        out.push(byte(bits, place as u32))?;
    }
    Ok(())
}

/// Appends the one spelling of a set of bits that is written (pvAccess Protocol Specification,
/// "BitSets"). Without memory `out` is as before.
pub fn write_bits(out: &mut Vec<u8>, order: Order, bits: &BitSet) -> Result<(), NoMemory>
    ensures ok { OnOk result (out.new.items ≡ out.old.items ++ canonical_bits order bits.now) }
    ensures spelled { AllLow bits.now }
    ensures err { OnErr result (out.new.items ≡ out.old.items) }
{
    let count = width(bits);
    let start = out.len();
    write_size(out, order, count)?;
    if let Err(_) = put_body(out, order, count, bits) {
        out.truncate(start);
        return Err(NoMemory);
    }
    Ok(())
}
