// Where what was found differs from what is expected.
use crate::Expected;
use std::alloc::{AllocError, Global};

/// How many bytes of each are shown.
const SHOWN: usize = 16;

/// Whether this byte will do.
fn agrees(expected: Expected, found: u8) -> bool {
    match expected {
        Some(byte) => byte == found,
        None => true,
    }
}

/// The place of the first byte that won't do. Where one ends earlier, its end is such a place.
fn place_of_difference(expected: &[Expected], found: &[u8]) -> Option<usize> {
    let place = expected
        .iter()
        .zip(found)
        .position(|(expected, found)| !agrees(*expected, *found));
    if place.is_some() {
        return place;
    }
    if expected.len() == found.len() {
        return None;
    }
    Some(expected.len().min(found.len()))
}

/// Appends the first bytes behind this place.
fn push_found(line: &mut String, found: &[u8], place: usize) -> Result<(), AllocError> {
    if place >= found.len() {
        line.push_str(" the end")?;
    }
    for byte in found.iter().skip(place).take(SHOWN) {
        write!(line, " {byte:02X}")?;
    }
    Ok(())
}

/// Appends the first bytes that are expected behind this place.
fn push_expected(line: &mut String, expected: &[Expected], place: usize) -> Result<(), AllocError> {
    if place >= expected.len() {
        line.push_str(" the end")?;
    }
    for byte in expected.iter().skip(place).take(SHOWN) {
        match byte {
            Some(byte) => write!(line, " {byte:02X}")?,
            None => line.push_str(" ..")?,
        }
    }
    Ok(())
}

/// The first place at which these bytes, called so, differ from those that are expected. None where they agree.
pub fn difference(
    alloc: Global,
    what: &str,
    expected: &[Expected],
    found: &[u8],
) -> Result<Option<String>, AllocError> {
    let Some(place) = place_of_difference(expected, found) else {
        return Ok(None);
    };
    let mut line = format!(in alloc; "byte {place} of {what}:")?;
    push_found(&mut line, found, place)?;
    line.push_str(" in place of")?;
    push_expected(&mut line, expected, place)?;
    Ok(Some(line))
}

/// How this text, called so, differs from the one that is expected. None where they agree.
pub fn text_difference(
    alloc: Global,
    what: &str,
    expected: &str,
    found: &str,
) -> Result<Option<String>, AllocError> {
    if expected == found {
        return Ok(None);
    }
    Ok(Some(format!(in alloc; "{what} {found} in place of {expected}")?))
}
