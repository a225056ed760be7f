ghost use Rattle.std.specs.Prelude.{◌≡◌, ◌<◌, ◌≤◌, ◌+◌, ◌++◌, ◌∷◌, [], length, IfOk, IfSome, OnOk, option_map, not, ◌||◌, ◌==◌, false, take, drop};
ghost use Rattle.std.specs.List.{position};
ghost use Rattle.db_text.specs.Cutting.{is_alphanumeric, is_word, is_key, is_mark, is_blank, escape, quoted_at, word_len, is_before_colon, key_text, put, json_at};
ghost use Rattle.db_text.specs.Macros.{before_first};

use crate::macros::front;
use pvd_type::NoMemory;
use std::alloc::Global;

/// Whether a byte may stand in a bare word.
pub fn is_word(byte: u8) -> bool
    ensures { result ≡ is_word byte }
{
    byte.is_ascii_alphanumeric()
        || matches!(
            byte,
            b'_' | b'-' | b'+' | b':' | b'.' | b'[' | b']' | b'<' | b'>' | b';'
        )
}

/// Whether a byte may stand in a bare word of JSON.
pub fn is_key(byte: u8) -> bool
    ensures { result ≡ is_key byte }
{
    byte.is_ascii_alphanumeric() || matches!(byte, b'_' | b'+' | b'-' | b'.')
}

/// Whether a byte is a mark.
pub fn is_mark(byte: u8) -> bool
    ensures { result ≡ is_mark byte }
{
    matches!(byte, b'(' | b')' | b'{' | b'}' | b',')
}

/// Whether a byte may stand between tokens.
pub fn is_blank(byte: u8) -> bool
    ensures { result ≡ is_blank byte }
{
    matches!(byte, b' ' | b'\t' | b'\r' | b'\n')
}

/// Adds what a backslash and this byte stand for in quotes.
#[tactic(auto, unfolding(crate::specs::Cutting::escape))]
fn push_escape(text: &mut Vec<u8>, byte: u8) -> Result<(), NoMemory>
    ensures { OnOk result (text.new.items ≡ text.old.items ++ escape byte) }
{
    match byte {
        b'"' => text.push(b'"')?,
        b'\\' => text.push(b'\\')?,
        b'n' => text.push(b'\n')?,
        b't' => text.push(b'\t')?,
        _ => text.extend_from_slice(&[b'\\', byte])?,
    }
    Ok(())
}

/// A quoted text behind its opening quote, and what follows its closing one, where that stands on its line.
pub fn quoted_at(alloc: Global, bytes: &[u8]) -> Result<Option<(Vec<u8>, &[u8])>, NoMemory>
    ensures value { IfOk result (λ r. option_map (λ t. (t.0.items, t.1.now)) r ≡ quoted_at (length bytes.now) bytes.now) }
    ensures shorter { IfOk result (λ r. IfSome r (λ t. length t.1.now < length bytes.now)) }
{
    let mut text = Vec::new(alloc);
    let mut rest = bytes;
    while let Some((byte, after)) = front(rest) {
        if byte == b'"' {
            return Ok(Some((text, after)));
        }
        if byte == b'\n' {
            return Ok(None);
        }
        if byte != b'\\' {
            text.push(byte)?;
            rest = after;
            continue;
        }
        let Some((second, next)) = front(after) else {
            return Ok(None);
        };
        if second == b'\n' {
            return Ok(None);
        }
        push_escape(&mut text, second)?;
        rest = next;
    }
    Ok(None)
}

/// Where a bare word of JSON ends, if it does.
fn word_end(bytes: &[u8]) -> Option<usize>
    ensures value { result ≡ position (λ b. not (is_key b)) bytes.now }
    ensures within { IfSome result (λ i. i < length bytes.now) }
{
    bytes.iter().position(|byte| !is_key(*byte))
}

/// The rest of a bare word of JSON, and what follows it.
fn word_at(bytes: &[u8]) -> (&[u8], &[u8])
    ensures word { result.0.now ≡ take (word_len bytes.now) bytes.now }
    ensures rest { result.1.now ≡ drop (word_len bytes.now) bytes.now }
    ensures shorter { length result.1.now ≤ length bytes.now }
{
    match word_end(bytes) {
        Some(len) => bytes.split_at(len),
        None => (bytes, &[]),
    }
}

/// Where blanks end, if they do.
fn blanks_end(bytes: &[u8]) -> Option<usize>
    ensures value { result ≡ position (λ b. not (b == 32 || b == 9)) bytes.now }
    ensures within { IfSome result (λ i. i < length bytes.now) }
{
    bytes
        .iter()
        .position(|byte| !(*byte == b' ' || *byte == b'\t'))
}

/// How many blanks stand here.
fn blanks_len(bytes: &[u8]) -> usize
    ensures value { result ≡ before_first (λ b. not (b == 32 || b == 9)) bytes.now }
    ensures within { result ≤ length bytes.now }
{
    match blanks_end(bytes) {
        Some(len) => len,
        None => bytes.len(),
    }
}

/// Whether a colon stands here, after blanks.
fn is_before_colon(bytes: &[u8]) -> bool
    ensures { result ≡ is_before_colon bytes.now }
{
    match &bytes[blanks_len(bytes)..] {
        [byte, ..] => *byte == b':',
        [] => false,
    }
}

/// Adds a bare word of JSON, in quotes where it is a key.
fn push_word(text: &mut Vec<u8>, first: u8, word: &[u8], rest: &[u8]) -> Result<(), NoMemory>
    ensures { OnOk result (text.new.items ≡ text.old.items ++ key_text (first ∷ word.now) rest.now) }
{
    if is_before_colon(rest) {
        text.push(b'"')?;
        text.push(first)?;
        text.extend_from_slice(word)?;
        text.push(b'"')?;
        return Ok(());
    }
    text.push(first)?;
    text.extend_from_slice(word)?;
    Ok(())
}

/// JSON whose opening brace stood before these bytes, up to the matching one, with its bare keys in
/// quotes, and what follows.
pub fn json_at(alloc: Global, bytes: &[u8]) -> Result<Option<(Vec<u8>, &[u8])>, NoMemory>
    ensures value { IfOk result (λ r. option_map (λ t. (t.0.items, t.1.now)) r ≡ put (123 ∷ []) (json_at (length bytes.now) false 0 bytes.now)) }
    ensures shorter { IfOk result (λ r. IfSome r (λ t. length t.1.now < length bytes.now)) }
{
    let mut text = Vec::new(alloc);
    text.push(b'{')?;
    let mut rest = bytes;
    let mut quoted = false;
    let mut depth = 0usize;
    while let Some((byte, after)) = front(rest) {
        if quoted {
            if byte == b'\\' {
                let Some((second, next)) = front(after) else {
                    return Ok(None);
                };
                push_pair(&mut text, byte, second)?;
                rest = next;
                continue;
            }
            text.push(byte)?;
            quoted = byte != b'"';
            rest = after;
            continue;
        }
        if is_key(byte) {
            let (word, next) = word_at(after);
            push_word(&mut text, byte, word, next)?;
            rest = next;
            continue;
        }
        text.push(byte)?;
        rest = after;
        if byte == b'}' {
            if depth == 0 {
                return Ok(Some((text, after)));
            }
            depth -= 1;
            continue;
        }
        quoted = byte == b'"';
        if byte == b'{' {
            depth += 1;
        }
    }
    Ok(None)
}

/// Adds two bytes.
fn push_pair(text: &mut Vec<u8>, first: u8, second: u8) -> Result<(), NoMemory>
    ensures { OnOk result (text.new.items ≡ text.old.items ++ first ∷ second ∷ []) }
{
    text.push(first)?;
    text.push(second)?;
    Ok(())
}
