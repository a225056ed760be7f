// Words between blanks, of which those with blanks in them stand between quotes.
ghost use Rattle.std.specs.Prelude.{◌≤◌, ◌<◌, IfOk, length};

use crate::CaseFault;
use crate::quoted::push_unquoted;
use std::alloc::Global;

/// Whether a byte stands between words.
pub(crate) fn is_blank(byte: u8) -> bool {
    matches!(byte, b' ' | b'\t')
}

/// The bytes up to the first blank, and what stands behind them. The first byte is none.
pub(crate) fn word_at(text: &[u8]) -> (&[u8], &[u8])
    requires { 0 < length text.now }
    ensures { length result.1.now < length text.now }
{
    let after = &text[1..];
    let end = after
        .iter()
        .position(|byte| is_blank(*byte))
        .unwrap_or(after.len());
    text.split_at(end + 1)
}

/// Appends the bytes of the word at the front, which isn't a blank, and gives what stands behind it.
fn push_front<'a>(text: &'a [u8], line: u32, word: &mut Vec<u8>) -> Result<&'a [u8], CaseFault>
    requires { 0 < length text.now }
    ensures { IfOk result (λ r. length r.now < length text.now) }
{
    if let [b'"', after @ ..] = text {
        return push_unquoted(after, line, word);
    }
    let (bytes, after) = word_at(text);
    word.extend_from_slice(bytes)?;
    Ok(after)
}

/// Appends the word at the front, which isn't a blank, and gives what stands behind it.
fn push_next<'a>(
    alloc: Global,
    text: &'a [u8],
    line: u32,
    words: &mut Vec<String>,
) -> Result<&'a [u8], CaseFault>
    requires { 0 < length text.now }
    ensures { IfOk result (λ r. length r.now < length text.now) }
{
    let mut word = Vec::new(alloc);
    let after = push_front(text, line, &mut word)?;
    push_word(word, line, words)?;
    Ok(after)
}

/// Appends the words of a text.
pub(crate) fn push_words(
    alloc: Global,
    text: &str,
    line: u32,
    words: &mut Vec<String>,
) -> Result<(), CaseFault> {
    let mut rest = text.as_bytes();
    while let [first, after @ ..] = rest {
        if is_blank(*first) {
            rest = after;
            continue;
        }
        rest = push_next(alloc, rest, line, words)?;
    }
    Ok(())
}

/// Appends a word, which is UTF-8.
fn push_word(word: Vec<u8>, line: u32, words: &mut Vec<String>) -> Result<(), CaseFault> {
    let Ok(word) = String::from_utf8(word) else {
        return Err(CaseFault::At(line, "a word isn't UTF-8"));
    };
    words.push(word)?;
    Ok(())
}
