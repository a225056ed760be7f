// Bytes and texts that have names.
use crate::content::{Around, Expected, push_lines};
use crate::numbers::number_in;
use crate::{CaseFault, Line};
use std::alloc::Global;

/// Bytes, or a text, that other bytes of its file use by its name.
#[derive(Drop)]
pub struct Named<'a> {
    name: &'a str,
    content: Vec<Expected>,
}

/// What has this name.
pub(crate) fn content_named<'b>(names: &'b [Named<'_>], name: &str) -> Option<&'b [Expected]> {
    let named = names.iter().find(|named| named.name == name)?;
    Some(&named.content)
}

/// The two numbers of `FIRST..END`.
fn range(text: &str, line: u32) -> Result<(u32, u32), CaseFault> {
    let Some((first, end)) = text.split_once("..") else {
        return Err(CaseFault::At(line, "behind the name stands no range FIRST..END"));
    };
    let first = number_in(first, line)?;
    let end = number_in(end, line)?;
    match (u32::try_from(first), u32::try_from(end)) {
        (Ok(first), Ok(end)) => Ok((first, end)),
        _ => Err(CaseFault::At(line, "a number of the range is too large")),
    }
}

/// What these lines stand for, for each number from the first up to that before the end.
fn repeated<'a>(
    alloc: Global,
    names: &'a [Named<'a>],
    (first, end): (u32, u32),
    lines: &[Line<'_>],
) -> Result<Vec<Expected>, CaseFault> {
    let mut content = Vec::new(alloc);
    for number in first..end {
        let number = Some(number);
        push_lines(alloc, Around { names, number }, lines, &mut content)?;
    }
    Ok(content)
}

/// What these lines stand for.
pub(crate) fn content_of<'a>(
    alloc: Global,
    names: &'a [Named<'a>],
    lines: &[Line<'_>],
) -> Result<Vec<Expected>, CaseFault> {
    let mut content = Vec::new(alloc);
    let number = None;
    push_lines(alloc, Around { names, number }, lines, &mut content)?;
    Ok(content)
}

/// The bytes or the text of a paragraph, whose first line has this behind its first word: a name, and a range where its lines count
/// for each number of it.
pub(crate) fn name_of<'a>(
    alloc: Global,
    names: &[Named<'_>],
    head: &'a str,
    line: u32,
    lines: &[Line<'_>],
) -> Result<Named<'a>, CaseFault> {
    let (name, content) = match head.split_once(' ') {
        None => (head, content_of(alloc, names, lines)?),
        Some((name, numbers)) => {
            let numbers = range(numbers, line)?;
            (name, repeated(alloc, names, numbers, lines)?)
        }
    };
    Ok(Named { name, content })
}
