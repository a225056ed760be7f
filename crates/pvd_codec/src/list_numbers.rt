ghost use Rattle.std.specs.Prelude.{◌≡◌, ◌+◌, ◌*◌, ◌++◌, ◌≤◌, ℕ, List, Ok, length, IfOk};
ghost use Rattle.std.specs.Int.{w16, w32, w64, cast_signed};
ghost use Rattle.pva_wire.specs.declared.order.Order.TheVariants.{Little, Big};
ghost use Rattle.pvd_codec.specs.Reading.{Gives, valued, items_at};

use crate::fault::ValueStop;
use byteorder::{BigEndian, ByteOrder, LittleEndian};
use pva_wire::Order;
use std::alloc::{AllocError, Global};

// The numbers of a list are read a few at a time, each few by way of a small array, into room that was made for all of them.

/// How many numbers with their lowest byte first are read at a time: the compiler makes one plain copy for them.
const COPIED: usize = 128;

/// How many numbers with their highest byte first are read at a time: few enough that they stay in the processor's registers.
const TURNED: usize = 32;

/// A number of a list, of which `size` bytes tell how it reads.
trait FromBytes {
    ghost meaning: { ℕ → Self };

    ghost size: { ℕ };

    /// Appends the next few numbers, lowest byte first, where there is room for them, and else answers want of memory. Returns the
    /// bytes behind them. The test for room tells the compiler that nothing moves while they are copied.
    fn append<'a>(
        items: &mut Vec<Self>,
        count: usize,
        bytes: &'a [u8],
    ) -> Result<&'a [u8], AllocError>
        requires few { count ≤ 128 }
        requires enough { count * size ≤ length bytes.now }
        ensures numbers { IfOk result (λ rest. (xs : List Self) × (items.new.items ≡ items.old.items ++ xs) × (length xs ≡ count) × (items_at (valued meaning Little size) count bytes.now ≡ Ok (xs, rest.now))) }
        ensures left { IfOk result (λ rest. count * size + length rest.now ≡ length bytes.now) };

    /// The same, highest byte first. Where there are `TURNED` numbers, the array and the room have lengths that the compiler knows.
    fn append_turned<'a>(
        items: &mut Vec<Self>,
        count: usize,
        bytes: &'a [u8],
    ) -> Result<&'a [u8], AllocError>
        requires few { count ≤ 32 }
        requires enough { count * size ≤ length bytes.now }
        ensures numbers { IfOk result (λ rest. (xs : List Self) × (items.new.items ≡ items.old.items ++ xs) × (length xs ≡ count) × (items_at (valued meaning Big size) count bytes.now ≡ Ok (xs, rest.now))) }
        ensures left { IfOk result (λ rest. count * size + length rest.now ≡ length bytes.now) };
}

impl FromBytes for i16 {
    ghost meaning = { cast_signed w16 };

    ghost size = { 2 };

    fn append<'a>(
        items: &mut Vec<i16>,
        count: usize,
        bytes: &'a [u8],
    ) -> Result<&'a [u8], AllocError> {
        let (part, rest) = bytes.split_at(count * 2);
        if items.capacity() - items.len() < count {
            return Err(AllocError);
        }
        let mut room = [0i16; COPIED];
        let numbers = &mut room[..count];
        LittleEndian::read_i16_into(part, numbers);
        items.extend_from_slice(numbers)?;
        Ok(rest)
    }

    #[inline(always)]
    fn append_turned<'a>(
        items: &mut Vec<i16>,
        count: usize,
        bytes: &'a [u8],
    ) -> Result<&'a [u8], AllocError> {
        let (part, rest) = bytes.split_at(count * 2);
        if count == TURNED {
            if items.capacity() - items.len() < TURNED {
                return Err(AllocError);
            }
            let mut room = [0i16; TURNED];
            BigEndian::read_i16_into(part, &mut room);
            items.extend_from_slice(&room)?;
            return Ok(rest);
        }
        if items.capacity() - items.len() < count {
            return Err(AllocError);
        }
        let mut room = [0i16; TURNED];
        let numbers = &mut room[..count];
        BigEndian::read_i16_into(part, numbers);
        items.extend_from_slice(numbers)?;
        Ok(rest)
    }
}

impl FromBytes for i32 {
    ghost meaning = { cast_signed w32 };

    ghost size = { 4 };

    fn append<'a>(
        items: &mut Vec<i32>,
        count: usize,
        bytes: &'a [u8],
    ) -> Result<&'a [u8], AllocError> {
        let (part, rest) = bytes.split_at(count * 4);
        if items.capacity() - items.len() < count {
            return Err(AllocError);
        }
        let mut room = [0i32; COPIED];
        let numbers = &mut room[..count];
        LittleEndian::read_i32_into(part, numbers);
        items.extend_from_slice(numbers)?;
        Ok(rest)
    }

    #[inline(always)]
    fn append_turned<'a>(
        items: &mut Vec<i32>,
        count: usize,
        bytes: &'a [u8],
    ) -> Result<&'a [u8], AllocError> {
        let (part, rest) = bytes.split_at(count * 4);
        if count == TURNED {
            if items.capacity() - items.len() < TURNED {
                return Err(AllocError);
            }
            let mut room = [0i32; TURNED];
            BigEndian::read_i32_into(part, &mut room);
            items.extend_from_slice(&room)?;
            return Ok(rest);
        }
        if items.capacity() - items.len() < count {
            return Err(AllocError);
        }
        let mut room = [0i32; TURNED];
        let numbers = &mut room[..count];
        BigEndian::read_i32_into(part, numbers);
        items.extend_from_slice(numbers)?;
        Ok(rest)
    }
}

impl FromBytes for i64 {
    ghost meaning = { cast_signed w64 };

    ghost size = { 8 };

    fn append<'a>(
        items: &mut Vec<i64>,
        count: usize,
        bytes: &'a [u8],
    ) -> Result<&'a [u8], AllocError> {
        let (part, rest) = bytes.split_at(count * 8);
        if items.capacity() - items.len() < count {
            return Err(AllocError);
        }
        let mut room = [0i64; COPIED];
        let numbers = &mut room[..count];
        LittleEndian::read_i64_into(part, numbers);
        items.extend_from_slice(numbers)?;
        Ok(rest)
    }

    #[inline(always)]
    fn append_turned<'a>(
        items: &mut Vec<i64>,
        count: usize,
        bytes: &'a [u8],
    ) -> Result<&'a [u8], AllocError> {
        let (part, rest) = bytes.split_at(count * 8);
        if count == TURNED {
            if items.capacity() - items.len() < TURNED {
                return Err(AllocError);
            }
            let mut room = [0i64; TURNED];
            BigEndian::read_i64_into(part, &mut room);
            items.extend_from_slice(&room)?;
            return Ok(rest);
        }
        if items.capacity() - items.len() < count {
            return Err(AllocError);
        }
        let mut room = [0i64; TURNED];
        let numbers = &mut room[..count];
        BigEndian::read_i64_into(part, numbers);
        items.extend_from_slice(numbers)?;
        Ok(rest)
    }
}

impl FromBytes for u16 {
    ghost meaning = { λ n. n };

    ghost size = { 2 };

    fn append<'a>(
        items: &mut Vec<u16>,
        count: usize,
        bytes: &'a [u8],
    ) -> Result<&'a [u8], AllocError> {
        let (part, rest) = bytes.split_at(count * 2);
        if items.capacity() - items.len() < count {
            return Err(AllocError);
        }
        let mut room = [0u16; COPIED];
        let numbers = &mut room[..count];
        LittleEndian::read_u16_into(part, numbers);
        items.extend_from_slice(numbers)?;
        Ok(rest)
    }

    #[inline(always)]
    fn append_turned<'a>(
        items: &mut Vec<u16>,
        count: usize,
        bytes: &'a [u8],
    ) -> Result<&'a [u8], AllocError> {
        let (part, rest) = bytes.split_at(count * 2);
        if count == TURNED {
            if items.capacity() - items.len() < TURNED {
                return Err(AllocError);
            }
            let mut room = [0u16; TURNED];
            BigEndian::read_u16_into(part, &mut room);
            items.extend_from_slice(&room)?;
            return Ok(rest);
        }
        if items.capacity() - items.len() < count {
            return Err(AllocError);
        }
        let mut room = [0u16; TURNED];
        let numbers = &mut room[..count];
        BigEndian::read_u16_into(part, numbers);
        items.extend_from_slice(numbers)?;
        Ok(rest)
    }
}

impl FromBytes for u32 {
    ghost meaning = { λ n. n };

    ghost size = { 4 };

    fn append<'a>(
        items: &mut Vec<u32>,
        count: usize,
        bytes: &'a [u8],
    ) -> Result<&'a [u8], AllocError> {
        let (part, rest) = bytes.split_at(count * 4);
        if items.capacity() - items.len() < count {
            return Err(AllocError);
        }
        let mut room = [0u32; COPIED];
        let numbers = &mut room[..count];
        LittleEndian::read_u32_into(part, numbers);
        items.extend_from_slice(numbers)?;
        Ok(rest)
    }

    #[inline(always)]
    fn append_turned<'a>(
        items: &mut Vec<u32>,
        count: usize,
        bytes: &'a [u8],
    ) -> Result<&'a [u8], AllocError> {
        let (part, rest) = bytes.split_at(count * 4);
        if count == TURNED {
            if items.capacity() - items.len() < TURNED {
                return Err(AllocError);
            }
            let mut room = [0u32; TURNED];
            BigEndian::read_u32_into(part, &mut room);
            items.extend_from_slice(&room)?;
            return Ok(rest);
        }
        if items.capacity() - items.len() < count {
            return Err(AllocError);
        }
        let mut room = [0u32; TURNED];
        let numbers = &mut room[..count];
        BigEndian::read_u32_into(part, numbers);
        items.extend_from_slice(numbers)?;
        Ok(rest)
    }
}

impl FromBytes for u64 {
    ghost meaning = { λ n. n };

    ghost size = { 8 };

    fn append<'a>(
        items: &mut Vec<u64>,
        count: usize,
        bytes: &'a [u8],
    ) -> Result<&'a [u8], AllocError> {
        let (part, rest) = bytes.split_at(count * 8);
        if items.capacity() - items.len() < count {
            return Err(AllocError);
        }
        let mut room = [0u64; COPIED];
        let numbers = &mut room[..count];
        LittleEndian::read_u64_into(part, numbers);
        items.extend_from_slice(numbers)?;
        Ok(rest)
    }

    #[inline(always)]
    fn append_turned<'a>(
        items: &mut Vec<u64>,
        count: usize,
        bytes: &'a [u8],
    ) -> Result<&'a [u8], AllocError> {
        let (part, rest) = bytes.split_at(count * 8);
        if count == TURNED {
            if items.capacity() - items.len() < TURNED {
                return Err(AllocError);
            }
            let mut room = [0u64; TURNED];
            BigEndian::read_u64_into(part, &mut room);
            items.extend_from_slice(&room)?;
            return Ok(rest);
        }
        if items.capacity() - items.len() < count {
            return Err(AllocError);
        }
        let mut room = [0u64; TURNED];
        let numbers = &mut room[..count];
        BigEndian::read_u64_into(part, numbers);
        items.extend_from_slice(numbers)?;
        Ok(rest)
    }
}

/// So many numbers, lowest byte first. It stays apart from its caller, as the next one does, since its room would else stand on the
/// stack at each level of a value.
#[inline(never)]
fn copied_at<T: FromBytes + Drop>(
    alloc: Global,
    count: usize,
    bytes: &[u8],
) -> Result<(Vec<T>, &[u8]), ValueStop>
    requires { count * T.size ≤ length bytes.now }
    ensures { Gives (λ x. (x.0.items, x.1.now)) result (items_at (valued T.meaning Little T.size) count bytes.now) }
{
    let mut items = Vec::with_capacity(alloc, count)?;
    let mut rest = bytes;
    while items.len() < count {
        let next = (count - items.len()).min(COPIED);
        rest = T::append(&mut items, next, rest)?;
    }
    Ok((items, rest))
}

/// So many numbers, highest byte first.
#[inline(never)]
fn turned_at<T: FromBytes + Drop>(
    alloc: Global,
    count: usize,
    bytes: &[u8],
) -> Result<(Vec<T>, &[u8]), ValueStop>
    requires { count * T.size ≤ length bytes.now }
    ensures { Gives (λ x. (x.0.items, x.1.now)) result (items_at (valued T.meaning Big T.size) count bytes.now) }
{
    let mut items = Vec::with_capacity(alloc, count)?;
    let mut rest = bytes;
    while items.len() < count {
        let next = (count - items.len()).min(TURNED);
        rest = T::append_turned(&mut items, next, rest)?;
    }
    Ok((items, rest))
}

/// So many numbers, for which there are bytes enough.
pub fn numbers_at<T: FromBytes + Drop>(
    alloc: Global,
    order: Order,
    count: u32,
    bytes: &[u8],
) -> Result<(Vec<T>, &[u8]), ValueStop>
    requires { count * T.size ≤ length bytes.now }
    ensures { Gives (λ x. (x.0.items, x.1.now)) result (items_at (valued T.meaning order T.size) count bytes.now) }
{
    match order {
        Order::Little => copied_at(alloc, count as usize, bytes),
        Order::Big => turned_at(alloc, count as usize, bytes),
    }
}
