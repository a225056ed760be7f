// Texts between quotes, with their escapes: \" \\ \n \t and \xHH.
ghost use Rattle.std.specs.Prelude.{◌≤◌, ◌<◌, IfOk, IfSome, length};

use crate::CaseFault;

/// The value of a hexadecimal digit, of either case.
fn digit(byte: u8) -> Option<u8>
    ensures { IfSome result (λ n. n < 16) }
{
    match byte {
        b'0'..=b'9' => Some(byte - b'0'),
        b'A'..=b'F' => Some(byte - b'A' + 10),
        b'a'..=b'f' => Some(byte - b'a' + 10),
        _ => None,
    }
}

/// The byte that two hexadecimal digits name.
pub(crate) fn hexadecimal(high: u8, low: u8) -> Option<u8> {
    let high = digit(high)?;
    let low = digit(low)?;
    Some(high * 16 + low)
}

/// The byte that stands for an escape of one letter.
fn escaped(letter: u8) -> Option<u8> {
    match letter {
        b'n' => Some(b'\n'),
        b't' => Some(b'\t'),
        b'"' | b'\\' => Some(letter),
        _ => None,
    }
}

/// The byte that an escape names whose backslash stands before it, and what stands behind it.
fn escape_at(text: &[u8]) -> Option<(u8, &[u8])>
    ensures { IfSome result (λ p. length p.1.now < length text.now) }
{
    match text {
        [b'x', high, low, after @ ..] => Some((hexadecimal(*high, *low)?, after)),
        [letter, after @ ..] => Some((escaped(*letter)?, after)),
        [] => None,
    }
}

/// The first byte of what stands between quotes, and what stands behind it. None at the closing quote, and where there is none of either.
fn byte_at(text: &[u8]) -> Option<(u8, &[u8])>
    ensures { IfSome result (λ p. length p.1.now < length text.now) }
{
    let [first, after @ ..] = text else {
        return None;
    };
    match *first {
        b'\\' => escape_at(after),
        b'"' => None,
        byte => Some((byte, after)),
    }
}

/// Appends the bytes of a text whose opening quote stands before it, and gives what stands behind its closing quote.
pub(crate) fn push_unquoted<'a>(
    text: &'a [u8],
    line: u32,
    bytes: &mut Vec<u8>,
) -> Result<&'a [u8], CaseFault>
    ensures { IfOk result (λ r. length r.now ≤ length text.now) }
{
    let mut rest = text;
    while let Some((byte, after)) = byte_at(rest) {
        bytes.push(byte)?;
        rest = after;
    }
    match rest {
        [b'"', after @ ..] => Ok(after),
        _ => Err(CaseFault::At(line, "a quote isn't closed, or an escape isn't known")),
    }
}
