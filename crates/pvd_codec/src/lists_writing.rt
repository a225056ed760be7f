ghost use Rattle.std.specs.Prelude.{◌≡◌, ◌++◌, ◌*◌, ◌≤◌, length, OnOk, OnErr};
ghost use Rattle.std.specs.List.{flat_map};
ghost use Rattle.pva_wire.specs.declared.order.Order.TheVariants.{Little, Big};
ghost use Rattle.pvd_value.specs.Data.{Single, byte, short, int, long, ubyte, ushort, uint, ulong};
ghost use Rattle.pvd_codec.specs.Written.{Begins, canonical_single, CanSingle, CanEach};

use byteorder::{BigEndian, ByteOrder, LittleEndian};
use pva_wire::Order;
use pvd_type::NoMemory;

// The numbers of a list are written a few at a time, each few by way of a small array, into room that was made for all of them.

/// How many numbers are written at a time with their highest byte first: few enough that they stay in the processor's registers.
const TURNED: usize = 32;

/// A signed number, whose range a contract knows once it is read.
trait Signed {
    ghost single: { Self → Single };

    /// Reads the number, which tells its range.
    fn read(&self)
        ensures { CanSingle (single self.now) };
}

impl Signed for i8 {
    ghost single = { byte };

    fn read(&self) {
        let _number = *self;
    }
}

impl Signed for i16 {
    ghost single = { short };

    fn read(&self) {
        let _number = *self;
    }
}

impl Signed for i32 {
    ghost single = { int };

    fn read(&self) {
        let _number = *self;
    }
}

impl Signed for i64 {
    ghost single = { long };

    fn read(&self) {
        let _number = *self;
    }
}

/// The numbers are in their range. This does nothing when it runs.
fn read_all<T: Signed>(numbers: &[T])
    ensures { CanEach (λ x. CanSingle (T.single x)) numbers.now }
{
    for number in numbers {
        number.read();
    }
}

/// A number of a list.
trait Number {
    ghost single: { Self → Single };

    /// How many bytes the number has.
    fn width() -> usize;

    /// Appends a few numbers, lowest byte first, as the machine has them in memory, where there is room for them, and else answers
    /// want of memory. The test for room tells the compiler that nothing moves between the two copies, so that it makes one of them.
    fn append(out: &mut Vec<u8>, numbers: &[Self]) -> Result<(), NoMemory>
        requires { length numbers.now ≤ 128 }
        ensures written { OnOk result (out.new.items ≡ out.old.items ++ flat_map (λ x. canonical_single Little (single x)) numbers.now) }
        ensures begins { OnErr result (Begins out.old.items out.new.items) };

    /// Appends a few numbers, highest byte first, where there is room for them, and else answers want of memory. Where there are
    /// `TURNED` numbers, the array and the room have lengths that the compiler knows.
    fn append_turned(out: &mut Vec<u8>, numbers: &[Self]) -> Result<(), NoMemory>
        requires { length numbers.now ≤ 32 }
        ensures written { OnOk result (out.new.items ≡ out.old.items ++ flat_map (λ x. canonical_single Big (single x)) numbers.now) }
        ensures begins { OnErr result (Begins out.old.items out.new.items) };
}

impl Number for i16 {
    ghost single = { short };

    fn width() -> usize {
        2
    }

    fn append(out: &mut Vec<u8>, numbers: &[i16]) -> Result<(), NoMemory> {
        let mut room = [0u8; 256];
        let bytes = &mut room[..numbers.len() * 2];
        if out.capacity() - out.len() < bytes.len() {
            return Err(NoMemory);
        }
        put_i16s(bytes, Order::Little, numbers);
        out.extend_from_slice(bytes)?;
        Ok(())
    }

    #[inline(always)]
    fn append_turned(out: &mut Vec<u8>, numbers: &[i16]) -> Result<(), NoMemory> {
        if numbers.len() == TURNED {
            let mut room = [0u8; 64];
            if out.capacity() - out.len() < 64 {
                return Err(NoMemory);
            }
            put_i16s(&mut room, Order::Big, numbers);
            out.extend_from_slice(&room)?;
            return Ok(());
        }
        let mut room = [0u8; 64];
        let bytes = &mut room[..numbers.len() * 2];
        if out.capacity() - out.len() < bytes.len() {
            return Err(NoMemory);
        }
        put_i16s(bytes, Order::Big, numbers);
        out.extend_from_slice(bytes)?;
        Ok(())
    }
}

impl Number for i32 {
    ghost single = { int };

    fn width() -> usize {
        4
    }

    fn append(out: &mut Vec<u8>, numbers: &[i32]) -> Result<(), NoMemory> {
        let mut room = [0u8; 512];
        let bytes = &mut room[..numbers.len() * 4];
        if out.capacity() - out.len() < bytes.len() {
            return Err(NoMemory);
        }
        put_i32s(bytes, Order::Little, numbers);
        out.extend_from_slice(bytes)?;
        Ok(())
    }

    #[inline(always)]
    fn append_turned(out: &mut Vec<u8>, numbers: &[i32]) -> Result<(), NoMemory> {
        if numbers.len() == TURNED {
            let mut room = [0u8; 128];
            if out.capacity() - out.len() < 128 {
                return Err(NoMemory);
            }
            put_i32s(&mut room, Order::Big, numbers);
            out.extend_from_slice(&room)?;
            return Ok(());
        }
        let mut room = [0u8; 128];
        let bytes = &mut room[..numbers.len() * 4];
        if out.capacity() - out.len() < bytes.len() {
            return Err(NoMemory);
        }
        put_i32s(bytes, Order::Big, numbers);
        out.extend_from_slice(bytes)?;
        Ok(())
    }
}

impl Number for i64 {
    ghost single = { long };

    fn width() -> usize {
        8
    }

    fn append(out: &mut Vec<u8>, numbers: &[i64]) -> Result<(), NoMemory> {
        let mut room = [0u8; 1024];
        let bytes = &mut room[..numbers.len() * 8];
        if out.capacity() - out.len() < bytes.len() {
            return Err(NoMemory);
        }
        put_i64s(bytes, Order::Little, numbers);
        out.extend_from_slice(bytes)?;
        Ok(())
    }

    #[inline(always)]
    fn append_turned(out: &mut Vec<u8>, numbers: &[i64]) -> Result<(), NoMemory> {
        if numbers.len() == TURNED {
            let mut room = [0u8; 256];
            if out.capacity() - out.len() < 256 {
                return Err(NoMemory);
            }
            put_i64s(&mut room, Order::Big, numbers);
            out.extend_from_slice(&room)?;
            return Ok(());
        }
        let mut room = [0u8; 256];
        let bytes = &mut room[..numbers.len() * 8];
        if out.capacity() - out.len() < bytes.len() {
            return Err(NoMemory);
        }
        put_i64s(bytes, Order::Big, numbers);
        out.extend_from_slice(bytes)?;
        Ok(())
    }
}

impl Number for u16 {
    ghost single = { ushort };

    fn width() -> usize {
        2
    }

    fn append(out: &mut Vec<u8>, numbers: &[u16]) -> Result<(), NoMemory> {
        let mut room = [0u8; 256];
        let bytes = &mut room[..numbers.len() * 2];
        if out.capacity() - out.len() < bytes.len() {
            return Err(NoMemory);
        }
        put_u16s(bytes, Order::Little, numbers);
        out.extend_from_slice(bytes)?;
        Ok(())
    }

    #[inline(always)]
    fn append_turned(out: &mut Vec<u8>, numbers: &[u16]) -> Result<(), NoMemory> {
        if numbers.len() == TURNED {
            let mut room = [0u8; 64];
            if out.capacity() - out.len() < 64 {
                return Err(NoMemory);
            }
            put_u16s(&mut room, Order::Big, numbers);
            out.extend_from_slice(&room)?;
            return Ok(());
        }
        let mut room = [0u8; 64];
        let bytes = &mut room[..numbers.len() * 2];
        if out.capacity() - out.len() < bytes.len() {
            return Err(NoMemory);
        }
        put_u16s(bytes, Order::Big, numbers);
        out.extend_from_slice(bytes)?;
        Ok(())
    }
}

impl Number for u32 {
    ghost single = { uint };

    fn width() -> usize {
        4
    }

    fn append(out: &mut Vec<u8>, numbers: &[u32]) -> Result<(), NoMemory> {
        let mut room = [0u8; 512];
        let bytes = &mut room[..numbers.len() * 4];
        if out.capacity() - out.len() < bytes.len() {
            return Err(NoMemory);
        }
        put_u32s(bytes, Order::Little, numbers);
        out.extend_from_slice(bytes)?;
        Ok(())
    }

    #[inline(always)]
    fn append_turned(out: &mut Vec<u8>, numbers: &[u32]) -> Result<(), NoMemory> {
        if numbers.len() == TURNED {
            let mut room = [0u8; 128];
            if out.capacity() - out.len() < 128 {
                return Err(NoMemory);
            }
            put_u32s(&mut room, Order::Big, numbers);
            out.extend_from_slice(&room)?;
            return Ok(());
        }
        let mut room = [0u8; 128];
        let bytes = &mut room[..numbers.len() * 4];
        if out.capacity() - out.len() < bytes.len() {
            return Err(NoMemory);
        }
        put_u32s(bytes, Order::Big, numbers);
        out.extend_from_slice(bytes)?;
        Ok(())
    }
}

impl Number for u64 {
    ghost single = { ulong };

    fn width() -> usize {
        8
    }

    fn append(out: &mut Vec<u8>, numbers: &[u64]) -> Result<(), NoMemory> {
        let mut room = [0u8; 1024];
        let bytes = &mut room[..numbers.len() * 8];
        if out.capacity() - out.len() < bytes.len() {
            return Err(NoMemory);
        }
        put_u64s(bytes, Order::Little, numbers);
        out.extend_from_slice(bytes)?;
        Ok(())
    }

    #[inline(always)]
    fn append_turned(out: &mut Vec<u8>, numbers: &[u64]) -> Result<(), NoMemory> {
        if numbers.len() == TURNED {
            let mut room = [0u8; 256];
            if out.capacity() - out.len() < 256 {
                return Err(NoMemory);
            }
            put_u64s(&mut room, Order::Big, numbers);
            out.extend_from_slice(&room)?;
            return Ok(());
        }
        let mut room = [0u8; 256];
        let bytes = &mut room[..numbers.len() * 8];
        if out.capacity() - out.len() < bytes.len() {
            return Err(NoMemory);
        }
        put_u64s(bytes, Order::Big, numbers);
        out.extend_from_slice(bytes)?;
        Ok(())
    }
}

/// Appends numbers, lowest byte first, into room that was made for all of them before. They go by way of a small array, for
/// which the compiler makes plain copies on a machine of that order.
fn write_little<T: Number>(out: &mut Vec<u8>, values: &[T]) -> Result<(), NoMemory>
    ensures written { OnOk result (out.new.items ≡ out.old.items ++ flat_map (λ x. canonical_single Little (T.single x)) values.now) }
    ensures begins { OnErr result (Begins out.old.items out.new.items) }
{
    out.reserve(values.len().saturating_mul(T::width()))?;
    let mut rest = values;
    while !rest.is_empty() {
        let (numbers, after) = rest.split_at(rest.len().min(128));
        T::append(out, numbers)?;
        rest = after;
    }
    Ok(())
}

/// Appends numbers, highest byte first, where there is room for all of them, and else answers want of memory.
#[inline(always)]
fn append_all<T: Number>(out: &mut Vec<u8>, values: &[T]) -> Result<(), NoMemory>
    ensures written { OnOk result (out.new.items ≡ out.old.items ++ flat_map (λ x. canonical_single Big (T.single x)) values.now) }
    ensures begins { OnErr result (Begins out.old.items out.new.items) }
{
    let mut rest = values;
    while !rest.is_empty() {
        let (numbers, after) = rest.split_at(rest.len().min(TURNED));
        T::append_turned(out, numbers)?;
        rest = after;
    }
    Ok(())
}

/// Appends numbers, highest byte first. Meanwhile the bytes are in a variable of this function, so that the compiler keeps their count
/// in a register: behind a reference it would store three words with each few numbers.
#[inline(never)]
fn write_big<T: Number>(out: &mut Vec<u8>, values: &[T]) -> Result<(), NoMemory>
    ensures written { OnOk result (out.new.items ≡ out.old.items ++ flat_map (λ x. canonical_single Big (T.single x)) values.now) }
    ensures begins { OnErr result (Begins out.old.items out.new.items) }
{
    out.reserve(values.len().saturating_mul(T::width()))?;
    let empty = Vec::new(*out.allocator());
    let mut held = std::mem::replace(out, empty);
    let done = append_all(&mut held, values);
    *out = held;
    done
}

/// Appends bytes as they stand.
pub fn write_u8s(out: &mut Vec<u8>, order: Order, values: &[u8]) -> Result<(), NoMemory>
    ensures written { OnOk result (out.new.items ≡ out.old.items ++ flat_map (λ x. canonical_single order (ubyte x)) values.now) }
    ensures can { OnOk result (CanEach (λ x. CanSingle (ubyte x)) values.now) }
    ensures begins { OnErr result (Begins out.old.items out.new.items) }
{
    out.extend_from_slice(values)?;
    Ok(())
}

/// Appends signed numbers of one byte, one after another.
pub fn write_i8s(out: &mut Vec<u8>, order: Order, values: &[i8]) -> Result<(), NoMemory>
    ensures written { OnOk result (out.new.items ≡ out.old.items ++ flat_map (λ x. canonical_single order (byte x)) values.now) }
    ensures can { OnOk result (CanEach (λ x. CanSingle (byte x)) values.now) }
    ensures begins { OnErr result (Begins out.old.items out.new.items) }
{
    read_all(values);
    let start = out.len();
    out.resize(start + values.len(), 0)?;
    BigEndian::write_i8_into(values, &mut out[start..]);
    Ok(())
}

/// Puts signed numbers of two bytes into the room for them.
fn put_i16s(room: &mut [u8], order: Order, values: &[i16])
    requires { length room.old ≡ 2 * length values.now }
    ensures { room.new ≡ flat_map (λ x. canonical_single order (short x)) values.now }
{
    match order {
        Order::Little => LittleEndian::write_i16_into(values, room),
        Order::Big => BigEndian::write_i16_into(values, room),
    }
}

/// Appends signed numbers of two bytes, one after another.
pub fn write_i16s(out: &mut Vec<u8>, order: Order, values: &[i16]) -> Result<(), NoMemory>
    ensures written { OnOk result (out.new.items ≡ out.old.items ++ flat_map (λ x. canonical_single order (short x)) values.now) }
    ensures can { OnOk result (CanEach (λ x. CanSingle (short x)) values.now) }
    ensures begins { OnErr result (Begins out.old.items out.new.items) }
{
    read_all(values);
    match order {
        Order::Little => write_little(out, values),
        Order::Big => write_big(out, values),
    }
}

/// Puts signed numbers of four bytes into the room for them.
fn put_i32s(room: &mut [u8], order: Order, values: &[i32])
    requires { length room.old ≡ 4 * length values.now }
    ensures { room.new ≡ flat_map (λ x. canonical_single order (int x)) values.now }
{
    match order {
        Order::Little => LittleEndian::write_i32_into(values, room),
        Order::Big => BigEndian::write_i32_into(values, room),
    }
}

/// Appends signed numbers of four bytes, one after another.
pub fn write_i32s(out: &mut Vec<u8>, order: Order, values: &[i32]) -> Result<(), NoMemory>
    ensures written { OnOk result (out.new.items ≡ out.old.items ++ flat_map (λ x. canonical_single order (int x)) values.now) }
    ensures can { OnOk result (CanEach (λ x. CanSingle (int x)) values.now) }
    ensures begins { OnErr result (Begins out.old.items out.new.items) }
{
    read_all(values);
    match order {
        Order::Little => write_little(out, values),
        Order::Big => write_big(out, values),
    }
}

/// Puts signed numbers of eight bytes into the room for them.
fn put_i64s(room: &mut [u8], order: Order, values: &[i64])
    requires { length room.old ≡ 8 * length values.now }
    ensures { room.new ≡ flat_map (λ x. canonical_single order (long x)) values.now }
{
    match order {
        Order::Little => LittleEndian::write_i64_into(values, room),
        Order::Big => BigEndian::write_i64_into(values, room),
    }
}

/// Appends signed numbers of eight bytes, one after another.
pub fn write_i64s(out: &mut Vec<u8>, order: Order, values: &[i64]) -> Result<(), NoMemory>
    ensures written { OnOk result (out.new.items ≡ out.old.items ++ flat_map (λ x. canonical_single order (long x)) values.now) }
    ensures can { OnOk result (CanEach (λ x. CanSingle (long x)) values.now) }
    ensures begins { OnErr result (Begins out.old.items out.new.items) }
{
    read_all(values);
    match order {
        Order::Little => write_little(out, values),
        Order::Big => write_big(out, values),
    }
}

/// Puts unsigned numbers of two bytes into the room for them.
fn put_u16s(room: &mut [u8], order: Order, values: &[u16])
    requires { length room.old ≡ 2 * length values.now }
    ensures { room.new ≡ flat_map (λ x. canonical_single order (ushort x)) values.now }
{
    match order {
        Order::Little => LittleEndian::write_u16_into(values, room),
        Order::Big => BigEndian::write_u16_into(values, room),
    }
}

/// Appends unsigned numbers of two bytes, one after another.
pub fn write_u16s(out: &mut Vec<u8>, order: Order, values: &[u16]) -> Result<(), NoMemory>
    ensures written { OnOk result (out.new.items ≡ out.old.items ++ flat_map (λ x. canonical_single order (ushort x)) values.now) }
    ensures can { OnOk result (CanEach (λ x. CanSingle (ushort x)) values.now) }
    ensures begins { OnErr result (Begins out.old.items out.new.items) }
{
    match order {
        Order::Little => write_little(out, values),
        Order::Big => write_big(out, values),
    }
}

/// Puts unsigned numbers of four bytes into the room for them.
fn put_u32s(room: &mut [u8], order: Order, values: &[u32])
    requires { length room.old ≡ 4 * length values.now }
    ensures { room.new ≡ flat_map (λ x. canonical_single order (uint x)) values.now }
{
    match order {
        Order::Little => LittleEndian::write_u32_into(values, room),
        Order::Big => BigEndian::write_u32_into(values, room),
    }
}

/// Appends unsigned numbers of four bytes, one after another.
pub fn write_u32s(out: &mut Vec<u8>, order: Order, values: &[u32]) -> Result<(), NoMemory>
    ensures written { OnOk result (out.new.items ≡ out.old.items ++ flat_map (λ x. canonical_single order (uint x)) values.now) }
    ensures can { OnOk result (CanEach (λ x. CanSingle (uint x)) values.now) }
    ensures begins { OnErr result (Begins out.old.items out.new.items) }
{
    match order {
        Order::Little => write_little(out, values),
        Order::Big => write_big(out, values),
    }
}

/// Puts unsigned numbers of eight bytes into the room for them.
fn put_u64s(room: &mut [u8], order: Order, values: &[u64])
    requires { length room.old ≡ 8 * length values.now }
    ensures { room.new ≡ flat_map (λ x. canonical_single order (ulong x)) values.now }
{
    match order {
        Order::Little => LittleEndian::write_u64_into(values, room),
        Order::Big => BigEndian::write_u64_into(values, room),
    }
}

/// Appends unsigned numbers of eight bytes, one after another.
pub fn write_u64s(out: &mut Vec<u8>, order: Order, values: &[u64]) -> Result<(), NoMemory>
    ensures written { OnOk result (out.new.items ≡ out.old.items ++ flat_map (λ x. canonical_single order (ulong x)) values.now) }
    ensures can { OnOk result (CanEach (λ x. CanSingle (ulong x)) values.now) }
    ensures begins { OnErr result (Begins out.old.items out.new.items) }
{
    match order {
        Order::Little => write_little(out, values),
        Order::Big => write_big(out, values),
    }
}
