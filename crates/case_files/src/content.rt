// Bytes and texts.
ghost use Rattle.std.specs.Prelude.{◌≤◌, ◌<◌, IfOk, length};

use crate::names::{Named, content_named};
use crate::numbers::number_in;
use crate::quoted::{hexadecimal, push_unquoted};
use crate::words::{is_blank, word_at};
use crate::{CaseFault, Line};
use std::alloc::Global;
use std::str;

/// A byte that is expected; None where any will do.
pub type Expected = Option<u8>;

/// What the lines of one content share: the names that they may use, and the number that `%4` and `%%` stand for, where there is one.
#[derive(Clone, Copy)]
pub(crate) struct Around<'a> {
    pub names: &'a [Named<'a>],
    pub number: Option<u32>,
}

/// Appends these bytes.
fn push_all(bytes: &[u8], content: &mut Vec<Expected>) -> Result<(), CaseFault> {
    for byte in bytes {
        content.push(Some(*byte))?;
    }
    Ok(())
}

/// The byte that two hexadecimal digits name.
fn byte_of(pair: &[u8]) -> Option<u8> {
    match pair {
        [high, low] => hexadecimal(*high, *low),
        _ => None,
    }
}

/// Appends the bytes of an even number of hexadecimal digits.
fn push_hexadecimal(word: &str, line: u32, content: &mut Vec<Expected>) -> Result<(), CaseFault> {
    for pair in word.as_bytes().chunks(2) {
        let Some(byte) = byte_of(pair) else {
            return Err(CaseFault::At(line, "these aren't hexadecimal bytes"));
        };
        content.push(Some(byte))?;
    }
    Ok(())
}

/// Appends the bytes of this name.
fn push_named(
    names: &[Named<'_>],
    name: &str,
    line: u32,
    content: &mut Vec<Expected>,
) -> Result<(), CaseFault> {
    match content_named(names, name) {
        Some(bytes) => Ok(content.extend_from_slice(bytes)?),
        None => Err(CaseFault::At(line, "this name isn't known")),
    }
}

/// Appends what a word stands for: any byte, a name's bytes, the number or hexadecimal bytes.
fn push_meaning(
    around: Around<'_>,
    word: &str,
    line: u32,
    content: &mut Vec<Expected>,
) -> Result<(), CaseFault> {
    if let Some(name) = word.strip_prefix('@') {
        return push_named(around.names, name, line, content);
    }
    let number = around.number.unwrap_or(0);
    match word {
        ".." => Ok(content.push(None)?),
        "%4" => push_all(&number.to_le_bytes(), content),
        "%b4" => push_all(&number.to_be_bytes(), content),
        _ => push_hexadecimal(word, line, content),
    }
}

/// Appends what a word stands for, as often as the number behind a `*` says.
fn push_repeated(
    around: Around<'_>,
    word: &str,
    line: u32,
    content: &mut Vec<Expected>,
) -> Result<(), CaseFault> {
    let Some((word, count)) = word.split_once('*') else {
        return push_meaning(around, word, line, content);
    };
    for _ in 0..number_in(count, line)? {
        push_meaning(around, word, line, content)?;
    }
    Ok(())
}

/// Appends what a word stands for, which is UTF-8.
fn push_word(
    around: Around<'_>,
    word: &[u8],
    line: u32,
    content: &mut Vec<Expected>,
) -> Result<(), CaseFault> {
    match str::from_utf8(word) {
        Ok(word) => push_repeated(around, word, line, content),
        Err(_) => Err(CaseFault::At(line, "this isn't UTF-8")),
    }
}

/// Appends a quoted text, and gives what stands behind it.
fn push_quoted<'b>(
    alloc: Global,
    text: &'b [u8],
    line: u32,
    content: &mut Vec<Expected>,
) -> Result<&'b [u8], CaseFault>
    ensures { IfOk result (λ r. length r.now ≤ length text.now) }
{
    let mut bytes = Vec::new(alloc);
    let after = push_unquoted(text, line, &mut bytes)?;
    push_all(&bytes, content)?;
    Ok(after)
}

/// Appends what stands at the front of a text, which is no blank: a quoted text, or a word. It gives what stands behind that.
fn push_front<'b>(
    alloc: Global,
    around: Around<'_>,
    text: &'b [u8],
    line: u32,
    content: &mut Vec<Expected>,
) -> Result<&'b [u8], CaseFault>
    requires { 0 < length text.now }
    ensures { IfOk result (λ r. length r.now < length text.now) }
{
    if let [b'"', after @ ..] = text {
        return push_quoted(alloc, after, line, content);
    }
    let (word, after) = word_at(text);
    push_word(around, word, line, content)?;
    Ok(after)
}

/// Appends the bytes that a text stands for.
pub(crate) fn push_bytes(
    alloc: Global,
    around: Around<'_>,
    text: &str,
    line: u32,
    content: &mut Vec<Expected>,
) -> Result<(), CaseFault> {
    let mut rest = text.as_bytes();
    while let [first, after @ ..] = rest {
        if *first == b'#' {
            return Ok(());
        }
        if is_blank(*first) {
            rest = after;
            continue;
        }
        rest = push_front(alloc, around, rest, line, content)?;
    }
    Ok(())
}

/// Appends a text in which `%%` stands for a number.
fn push_numbered(
    alloc: Global,
    text: &str,
    number: u32,
    content: &mut Vec<Expected>,
) -> Result<(), CaseFault> {
    let digits = number.to_string(alloc)?;
    let text = text.replace(alloc, "%%", &digits)?;
    push_all(text.as_bytes(), content)
}

/// Appends a line of a text, with its line feed. One of a backslash alone takes the line feed before it away.
fn push_text(
    alloc: Global,
    around: Around<'_>,
    text: &str,
    content: &mut Vec<Expected>,
) -> Result<(), CaseFault> {
    let text = text.strip_prefix(' ').unwrap_or(text);
    if text == "\\" {
        let _line_feed = content.pop();
        return Ok(());
    }
    match around.number {
        Some(number) => push_numbered(alloc, text, number, content)?,
        None => push_all(text.as_bytes(), content)?,
    }
    content.push(Some(b'\n'))?;
    Ok(())
}

/// Appends what these lines stand for: those that begin with `|` are a text's, the others have bytes.
pub(crate) fn push_lines(
    alloc: Global,
    around: Around<'_>,
    lines: &[Line<'_>],
    content: &mut Vec<Expected>,
) -> Result<(), CaseFault> {
    for line in lines {
        match line.text.strip_prefix('|') {
            Some(text) => push_text(alloc, around, text, content)?,
            None => push_bytes(alloc, around, line.text, line.number, content)?,
        }
    }
    Ok(())
}

/// Appends the bytes of a content in which none may be left open.
fn push_exact(content: &[Expected], line: u32, bytes: &mut Vec<u8>) -> Result<(), CaseFault> {
    for byte in content {
        match byte {
            Some(byte) => bytes.push(*byte)?,
            None => return Err(CaseFault::At(line, "a byte is left open here")),
        }
    }
    Ok(())
}

/// The bytes of a content in which none may be left open.
pub(crate) fn exact(alloc: Global, content: &[Expected], line: u32) -> Result<Vec<u8>, CaseFault> {
    let mut bytes = Vec::with_capacity(alloc, content.len())?;
    push_exact(content, line, &mut bytes)?;
    Ok(bytes)
}
