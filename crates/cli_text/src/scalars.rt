ghost use Rattle.std.specs.Prelude.{◌≡◌, ◌++◌, ◌<◌, [], ℕ, List, false, map, OnOk};
ghost use Rattle.std.specs.List.{flat_map};
ghost use Rattle.std.specs.Fmt.{digit_glyph};
ghost use Rattle.pvd_value.specs.Data.{Single, boolean, byte, short, int, long, ubyte, ushort, uint, ulong, float, double, text};
ghost use Rattle.pvd_value.specs.View.{items_view};
ghost use Rattle.cli_text.specs.Texts.{hex_pair, escaped, quoted, pattern, truth, single_text, led, bracketed, element_texts};

use itoa::{Buffer, Integer};
use pvd_type::{Name, NoMemory};
use pvd_value::Items;

/// What stands between two texts of a list.
pub const SEPARATOR: &[u8] = b", ";

/// A scalar, as a printer sees it.
pub trait PrintScalar {
    ghost single: { Self → Single };

    /// Appends the text of the scalar.
    fn print(&self, out: &mut Vec<u8>) -> Result<(), NoMemory>
        ensures { OnOk result (out.new.items ≡ out.old.items ++ single_text (single self.now)) };
}

impl PrintScalar for bool {
    ghost single = { boolean };

    fn print(&self, out: &mut Vec<u8>) -> Result<(), NoMemory> {
        print_truth(out, *self)
    }
}

impl PrintScalar for i8 {
    ghost single = { byte };

    fn print(&self, out: &mut Vec<u8>) -> Result<(), NoMemory> {
        print_number(out, *self)
    }
}

impl PrintScalar for i16 {
    ghost single = { short };

    fn print(&self, out: &mut Vec<u8>) -> Result<(), NoMemory> {
        print_number(out, *self)
    }
}

impl PrintScalar for i32 {
    ghost single = { int };

    fn print(&self, out: &mut Vec<u8>) -> Result<(), NoMemory> {
        print_number(out, *self)
    }
}

impl PrintScalar for i64 {
    ghost single = { long };

    fn print(&self, out: &mut Vec<u8>) -> Result<(), NoMemory> {
        print_number(out, *self)
    }
}

impl PrintScalar for u8 {
    ghost single = { ubyte };

    fn print(&self, out: &mut Vec<u8>) -> Result<(), NoMemory> {
        print_number(out, *self)
    }
}

impl PrintScalar for u16 {
    ghost single = { ushort };

    fn print(&self, out: &mut Vec<u8>) -> Result<(), NoMemory> {
        print_number(out, *self)
    }
}

impl PrintScalar for u32 {
    ghost single = { uint };

    fn print(&self, out: &mut Vec<u8>) -> Result<(), NoMemory> {
        print_number(out, *self)
    }
}

impl PrintScalar for u64 {
    ghost single = { ulong };

    fn print(&self, out: &mut Vec<u8>) -> Result<(), NoMemory> {
        print_number(out, *self)
    }
}

impl PrintScalar for Name {
    ghost single = { text };

    fn print(&self, out: &mut Vec<u8>) -> Result<(), NoMemory> {
        print_quoted(out, self.as_str())
    }
}

/// Appends `true` or `false`.
fn print_truth(out: &mut Vec<u8>, value: bool) -> Result<(), NoMemory>
    ensures { OnOk result (out.new.items ≡ out.old.items ++ truth value) }
{
    if value {
        out.extend_from_slice(b"true")?;
        return Ok(());
    }
    out.extend_from_slice(b"false")?;
    Ok(())
}

/// Appends a number in decimal.
pub fn print_number<I: Integer>(out: &mut Vec<u8>, number: I) -> Result<(), NoMemory>
    ensures { OnOk result (out.new.items ≡ out.old.items ++ I.text number) }
{
    let mut buffer = Buffer::new();
    out.extend_from_slice(buffer.format(number).as_bytes())?;
    Ok(())
}

/// The lower-case hexadecimal digit of this value.
fn hex_digit(value: u8) -> u8
    requires { value < 16 }
    ensures { result ≡ digit_glyph false value }
{
    if value < 10 {
        b'0' + value
    } else {
        b'a' + (value - 10)
    }
}

/// Appends a byte as two lower-case hexadecimal digits.
fn print_hex(out: &mut Vec<u8>, byte: u8) -> Result<(), NoMemory>
    ensures { OnOk result (out.new.items ≡ out.old.items ++ hex_pair byte) }
{
    let digits = [hex_digit(byte / 16), hex_digit(byte % 16)];
    out.extend_from_slice(&digits)?;
    Ok(())
}

/// Appends a byte of a text between quotes.
fn print_escaped(out: &mut Vec<u8>, byte: u8) -> Result<(), NoMemory>
    ensures { OnOk result (out.new.items ≡ out.old.items ++ escaped byte) }
{
    if byte == b'"' {
        out.extend_from_slice(b"\\\"")?;
        return Ok(());
    }
    if byte == b'\\' {
        out.extend_from_slice(b"\\\\")?;
        return Ok(());
    }
    if byte == b'\n' {
        out.extend_from_slice(b"\\n")?;
        return Ok(());
    }
    if byte == b'\t' {
        out.extend_from_slice(b"\\t")?;
        return Ok(());
    }
    if byte < 0x20 || byte == 0x7f {
        out.extend_from_slice(b"\\x")?;
        return print_hex(out, byte);
    }
    out.push(byte)?;
    Ok(())
}

/// Appends the bytes of a text between quotes, without the quotes.
fn print_each_escaped(out: &mut Vec<u8>, bytes: &[u8]) -> Result<(), NoMemory>
    ensures { OnOk result (out.new.items ≡ out.old.items ++ flat_map escaped bytes.now) }
{
    for byte in bytes {
        print_escaped(out, *byte)?;
    }
    Ok(())
}

/// Appends a text between quotes.
fn print_quoted(out: &mut Vec<u8>, text: &str) -> Result<(), NoMemory>
    ensures { OnOk result (out.new.items ≡ out.old.items ++ quoted text.now) }
{
    out.push(b'"')?;
    print_each_escaped(out, text.as_bytes())?;
    out.push(b'"')?;
    Ok(())
}

/// Appends each of these bytes as two lower-case hexadecimal digits.
fn print_each_hex(out: &mut Vec<u8>, bytes: &[u8]) -> Result<(), NoMemory>
    ensures { OnOk result (out.new.items ≡ out.old.items ++ flat_map hex_pair bytes.now) }
{
    for byte in bytes {
        print_hex(out, *byte)?;
    }
    Ok(())
}

/// Appends a bit pattern of these bytes.
fn print_pattern(out: &mut Vec<u8>, bytes: &[u8]) -> Result<(), NoMemory>
    ensures { OnOk result (out.new.items ≡ out.old.items ++ pattern bytes.now) }
{
    out.extend_from_slice(b"bits:0x")?;
    print_each_hex(out, bytes)
}

/// Appends a float, which is a bit pattern.
pub fn print_float(out: &mut Vec<u8>, bits: u32) -> Result<(), NoMemory>
    ensures { OnOk result (out.new.items ≡ out.old.items ++ single_text (float bits)) }
{
    print_pattern(out, &bits.to_be_bytes())
}

/// Appends a double, which is a bit pattern.
pub fn print_double(out: &mut Vec<u8>, bits: u64) -> Result<(), NoMemory>
    ensures { OnOk result (out.new.items ≡ out.old.items ++ single_text (double bits)) }
{
    print_pattern(out, &bits.to_be_bytes())
}

/// Appends scalars with a comma and a space between any two.
fn print_each<T: PrintScalar>(out: &mut Vec<u8>, values: &[T]) -> Result<(), NoMemory>
    ensures { OnOk result (out.new.items ≡ out.old.items ++ led [] (map (λ x. single_text (T.single x)) values.now)) }
{
    let mut front: &[u8] = &[];
    for value in values {
        out.extend_from_slice(front)?;
        value.print(out)?;
        front = SEPARATOR;
    }
    Ok(())
}

/// Appends floats with a comma and a space between any two.
fn print_floats(out: &mut Vec<u8>, values: &[u32]) -> Result<(), NoMemory>
    ensures { OnOk result (out.new.items ≡ out.old.items ++ led [] (map (λ x. single_text (float x)) values.now)) }
{
    let mut front: &[u8] = &[];
    for value in values {
        out.extend_from_slice(front)?;
        print_float(out, *value)?;
        front = SEPARATOR;
    }
    Ok(())
}

/// Appends doubles with a comma and a space between any two.
fn print_doubles(out: &mut Vec<u8>, values: &[u64]) -> Result<(), NoMemory>
    ensures { OnOk result (out.new.items ≡ out.old.items ++ led [] (map (λ x. single_text (double x)) values.now)) }
{
    let mut front: &[u8] = &[];
    for value in values {
        out.extend_from_slice(front)?;
        print_double(out, *value)?;
        front = SEPARATOR;
    }
    Ok(())
}

/// Appends the elements of a list with a comma and a space between any two.
fn print_elements(out: &mut Vec<u8>, items: &Items) -> Result<(), NoMemory>
    ensures { OnOk result (out.new.items ≡ out.old.items ++ led [] (element_texts (items_view items.now))) }
{
    match items {
        Items::Bool(values) => print_each(out, values),
        Items::I8(values) => print_each(out, values),
        Items::I16(values) => print_each(out, values),
        Items::I32(values) => print_each(out, values),
        Items::I64(values) => print_each(out, values),
        Items::U8(values) => print_each(out, values),
        Items::U16(values) => print_each(out, values),
        Items::U32(values) => print_each(out, values),
        Items::U64(values) => print_each(out, values),
        Items::F32(values) => print_floats(out, values),
        Items::F64(values) => print_doubles(out, values),
        Items::Text(values) => print_each(out, values),
    }
}

/// Appends a list of scalars.
pub fn print_items(out: &mut Vec<u8>, items: &Items) -> Result<(), NoMemory>
    ensures { OnOk result (out.new.items ≡ out.old.items ++ bracketed (element_texts (items_view items.now))) }
{
    out.push(b'[')?;
    print_elements(out, items)?;
    out.push(b']')?;
    Ok(())
}
