// Lists of numbers of each width.
ghost use Rattle.std.specs.Prelude.{◌≡◌, ℤ, pos, true, map, IfOk};
ghost use Rattle.std.specs.List.{list_all};
ghost use Rattle.rec_kinds.specs.Ranges.{int8, uint8, int16, uint16, int32, uint32, int64, uint64};
ghost use Rattle.rec_kinds.specs.Sorts.{within};

use pvd_type::NoMemory;
use std::alloc::Global;

/// A type of numbers that a list's elements may have.
pub(crate) trait Number: Copy + Drop {
    ghost value: { Self → ℤ };

    ghost low: { ℤ };

    ghost high: { ℤ };

    /// The number of this value, which is one of the type.
    fn narrow(number: i128) -> Self
        requires { within low high number ≡ true }
        ensures { value result ≡ number };

    /// Its value.
    fn wide(self) -> i128
        ensures same { result ≡ value self }
        ensures within { within low high (value self) ≡ true };
}

/// The numbers of these values.
pub(crate) fn narrowed<T: Number>(alloc: Global, numbers: &[i128]) -> Result<Vec<T>, NoMemory>
    requires { list_all (within T.low T.high) numbers.now ≡ true }
    ensures { IfOk result (λ narrow. map T.value narrow.items ≡ numbers.now) }
{
    let mut narrow = Vec::with_capacity(alloc, numbers.len())?;
    for number in numbers {
        narrow.push(T::narrow(*number))?;
    }
    Ok(narrow)
}

/// The values of these numbers.
pub(crate) fn widened<T: Number>(alloc: Global, numbers: &[T]) -> Result<Vec<i128>, NoMemory>
    ensures same { IfOk result (λ wide. wide.items ≡ map T.value numbers.now) }
    ensures within { IfOk result (λ wide. list_all (within T.low T.high) wide.items ≡ true) }
{
    let mut wide = Vec::with_capacity(alloc, numbers.len())?;
    for number in numbers {
        wide.push(number.wide())?;
    }
    Ok(wide)
}

impl Number for i8 {
    ghost value = { λ n. n };

    ghost low = { int8.0 };

    ghost high = { int8.1 };

    fn narrow(number: i128) -> i8 {
        number as i8
    }

    fn wide(self) -> i128 {
        i128::from(self)
    }
}

impl Number for u8 {
    ghost value = { λ n. pos n };

    ghost low = { uint8.0 };

    ghost high = { uint8.1 };

    fn narrow(number: i128) -> u8 {
        number as u8
    }

    fn wide(self) -> i128 {
        i128::from(self)
    }
}

impl Number for i16 {
    ghost value = { λ n. n };

    ghost low = { int16.0 };

    ghost high = { int16.1 };

    fn narrow(number: i128) -> i16 {
        number as i16
    }

    fn wide(self) -> i128 {
        i128::from(self)
    }
}

impl Number for u16 {
    ghost value = { λ n. pos n };

    ghost low = { uint16.0 };

    ghost high = { uint16.1 };

    fn narrow(number: i128) -> u16 {
        number as u16
    }

    fn wide(self) -> i128 {
        i128::from(self)
    }
}

impl Number for i32 {
    ghost value = { λ n. n };

    ghost low = { int32.0 };

    ghost high = { int32.1 };

    fn narrow(number: i128) -> i32 {
        number as i32
    }

    fn wide(self) -> i128 {
        i128::from(self)
    }
}

impl Number for u32 {
    ghost value = { λ n. pos n };

    ghost low = { uint32.0 };

    ghost high = { uint32.1 };

    fn narrow(number: i128) -> u32 {
        number as u32
    }

    fn wide(self) -> i128 {
        i128::from(self)
    }
}

impl Number for i64 {
    ghost value = { λ n. n };

    ghost low = { int64.0 };

    ghost high = { int64.1 };

    fn narrow(number: i128) -> i64 {
        number as i64
    }

    fn wide(self) -> i128 {
        i128::from(self)
    }
}

impl Number for u64 {
    ghost value = { λ n. pos n };

    ghost low = { uint64.0 };

    ghost high = { uint64.1 };

    fn narrow(number: i128) -> u64 {
        number as u64
    }

    fn wide(self) -> i128 {
        i128::from(self)
    }
}
