// The numbers that texts spell.
ghost use Rattle.std.specs.Prelude.{◌≡◌, ◌+◌, ◌*◌, ◌≤◌, ◌≤ℤ◌, pos, neg_ℤ, IsTrue, IfSome, option_map};
ghost use Rattle.std.specs.Int.{is_in_range};
ghost use Rattle.std.specs.Option.{is_some};
ghost use Rattle.rec_kinds.specs.Numbers.{hex_digit, digit, spelled, number_of, number_in};
ghost use Rattle.rec_kinds.specs.Clipping.{clip, clip_int};

/// The number that a text spells, where it stands in this range.
pub(crate) fn number_within(text: &str, low: i64, high: i64) -> Option<i64>
    ensures same { result ≡ number_in low high text.now }
    ensures bound { IfSome result (λ n. (low ≤ℤ n) × (n ≤ℤ high)) }
{
    let number = clipped_number(text)?;
    if number < i128::from(low) {
        return None;
    }
    if i128::from(high) < number {
        return None;
    }
    Some(number as i64)
}

/// Whether a text spells a number.
pub(crate) fn is_number(text: &str) -> bool
    ensures { result ≡ is_some (number_of text.now) }
{
    clipped_number(text).is_some()
}

/// The number that a text spells, or the end of a range that holds all numbers of 64 bits where it is beyond that.
fn clipped_number(text: &str) -> Option<i128>
    ensures { result ≡ option_map clip_int (number_of text.now) }
{
    let bytes = text.as_bytes();
    if bytes.starts_with(b"0x") {
        return positive(clipped_digits(&bytes[2..], 16));
    }
    if bytes.starts_with(b"-") {
        return negative(clipped_digits(&bytes[1..], 10));
    }
    if bytes.starts_with(b"+") {
        return positive(clipped_digits(&bytes[1..], 10));
    }
    positive(clipped_digits(bytes, 10))
}

fn positive(number: Option<u64>) -> Option<i128>
    ensures { result ≡ option_map (λ n. pos n) number }
{
    match number {
        Some(number) => Some(i128::from(number)),
        None => None,
    }
}

fn negative(number: Option<u64>) -> Option<i128>
    ensures { result ≡ option_map (λ n. neg_ℤ (pos n)) number }
{
    match number {
        Some(number) => Some(-i128::from(number)),
        None => None,
    }
}

/// The number that one or more digits spell, or 2^64 - 1 where it is beyond that.
fn clipped_digits(digits: &[u8], base: u64) -> Option<u64>
    requires { 1 ≤ base }
    ensures { result ≡ option_map clip (spelled base digits.now) }
{
    if digits.is_empty() {
        return None;
    }
    let mut number = 0;
    for byte in digits {
        let Some(digit) = digit_of(base, *byte) else {
            return None;
        };
        number = next(number, base, digit);
    }
    Some(number)
}

/// A number with one more digit.
fn next(number: u64, base: u64, digit: u64) -> u64
    ensures { result ≡ clip (clip (number * base) + digit) }
{
    number.saturating_mul(base).saturating_add(digit)
}

/// The value of a digit of this base.
fn digit_of(base: u64, byte: u8) -> Option<u64>
    ensures { result ≡ digit base byte }
{
    let value = u64::from(hex_digit_of(byte)?);
    if value < base { Some(value) } else { None }
}

/// The value of a hexadecimal digit.
fn hex_digit_of(byte: u8) -> Option<u8>
    ensures { result ≡ hex_digit byte }
{
    if is_from(b'0', b'9', byte) {
        return Some(byte - 48);
    }
    if is_from(b'a', b'f', byte) {
        return Some(byte - 87);
    }
    if is_from(b'A', b'F', byte) {
        return Some(byte - 55);
    }
    None
}

/// Whether a byte stands from one to another.
fn is_from(first: u8, last: u8, byte: u8) -> bool
    ensures same { result ≡ is_in_range first last byte }
    ensures from { IsTrue result → first ≤ byte }
{
    first <= byte && byte <= last
}
