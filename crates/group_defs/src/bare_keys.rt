ghost use Rattle.std.specs.Prelude.{◌≡◌, ◌<◌, ◌++◌, ◌∷◌, [], length, IfOk, IfSome, OnOk, option_map, not};
ghost use Rattle.std.specs.List.{position, find};
ghost use Rattle.std.specs.String.{string_bytes};
ghost use Rattle.group_defs.specs.declared.bare_keys.Within.TheVariants as places;
ghost use Rattle.group_defs.specs.BareKeys.{is_word, is_space, unquoted, behind, is_before_colon, is_rest_of_key, opens_key, closes_key, quote_if, byte_text, text_from, with_quoted_keys};

use pvd_type::NoMemory;
use std::alloc::Global;

/// Where a byte of JSON stands.
#[derive(Clone, Copy)]
pub(crate) enum Within {
    /// Neither in quotes nor in a bare word.
    Elsewhere,
    /// In a bare word, behind its first byte.
    Word,
    /// In quotes.
    Quotes,
    /// In quotes, behind a backslash.
    Escape,
}

/// Whether a byte may stand in a bare word.
fn is_word(byte: u8) -> bool
    ensures { result ≡ is_word byte }
{
    byte.is_ascii_alphanumeric() || matches!(byte, b'_' | b'+' | b'-' | b'.')
}

/// The place behind a byte that stands in no quotes.
fn unquoted(byte: u8) -> Within
    ensures { result ≡ unquoted byte }
{
    if byte == b'"' {
        return Within::Quotes;
    }
    if is_word(byte) {
        return Within::Word;
    }
    Within::Elsewhere
}

/// The place behind a byte that stands in quotes.
fn quoted(byte: u8) -> Within
    ensures { result ≡ behind places.Quotes byte }
{
    match byte {
        b'\\' => Within::Escape,
        b'"' => Within::Elsewhere,
        _ => Within::Quotes,
    }
}

/// The place behind a byte.
fn behind(within: Within, byte: u8) -> Within
    ensures { result ≡ behind within byte }
{
    match within {
        Within::Elsewhere => unquoted(byte),
        Within::Word => unquoted(byte),
        Within::Quotes => quoted(byte),
        Within::Escape => Within::Quotes,
    }
}

/// Whether a byte is a space or a tab.
fn is_space(byte: u8) -> bool
    ensures { result ≡ is_space byte }
{
    byte == b' ' || byte == b'\t'
}

/// The first byte that is no space or tab.
fn behind_spaces(bytes: &[u8]) -> Option<&u8>
    ensures { option_map (λ b. b.now) result ≡ find (λ b. not (is_space b)) bytes.now }
{
    bytes.iter().find(|byte| !is_space(**byte))
}

/// Whether a colon stands here, after spaces and tabs.
fn is_before_colon(bytes: &[u8]) -> bool
    ensures { result ≡ is_before_colon bytes.now }
{
    match behind_spaces(bytes) {
        Some(byte) => *byte == b':',
        None => false,
    }
}

/// Where a bare word ends, if it does.
fn word_end(bytes: &[u8]) -> Option<usize>
    ensures value { result ≡ position (λ b. not (is_word b)) bytes.now }
    ensures within { IfSome result (λ i. i < length bytes.now) }
{
    bytes.iter().position(|byte| !is_word(*byte))
}

/// Whether these bytes are the rest of a bare key, and what follows it.
fn is_rest_of_key(bytes: &[u8]) -> bool
    ensures { result ≡ is_rest_of_key bytes.now }
{
    match word_end(bytes) {
        Some(len) => is_before_colon(&bytes[len..]),
        None => false,
    }
}

/// Whether a bare key begins with this byte.
fn opens_key(within: Within, byte: u8, rest: &[u8]) -> bool
    ensures { result ≡ opens_key within byte rest.now }
{
    match within {
        Within::Elsewhere => is_word(byte) && is_rest_of_key(rest),
        Within::Word => false,
        Within::Quotes => false,
        Within::Escape => false,
    }
}

/// Whether a bare key ends with this byte.
fn closes_key(within: Within, byte: u8, rest: &[u8]) -> bool
    ensures { result ≡ closes_key within byte rest.now }
{
    match within {
        Within::Elsewhere => is_word(byte) && is_before_colon(rest),
        Within::Word => is_word(byte) && is_before_colon(rest),
        Within::Quotes => false,
        Within::Escape => false,
    }
}

/// Adds a quote where one belongs.
fn push_quote_if(text: &mut Vec<u8>, needed: bool) -> Result<(), NoMemory>
    ensures { OnOk result (text.new.items ≡ text.old.items ++ quote_if needed) }
{
    if needed {
        text.push(b'"')?;
    }
    Ok(())
}

/// Adds a byte, and a quote where a bare key begins or ends with it.
fn push_byte(text: &mut Vec<u8>, within: Within, byte: u8, rest: &[u8]) -> Result<(), NoMemory>
    ensures { OnOk result (text.new.items ≡ text.old.items ++ byte_text within byte rest.now) }
{
    push_quote_if(text, opens_key(within, byte, rest))?;
    text.push(byte)?;
    push_quote_if(text, closes_key(within, byte, rest))?;
    Ok(())
}

/// JSON with its bare keys in quotes, as bytes.
fn quoted_bytes(alloc: Global, bytes: &[u8]) -> Result<Vec<u8>, NoMemory>
    ensures { IfOk result (λ text. text.items ≡ with_quoted_keys bytes.now) }
{
    let mut text = Vec::new(alloc);
    let mut within = Within::Elsewhere;
    for (index, byte) in bytes.iter().enumerate() {
        push_byte(&mut text, within, *byte, &bytes[index + 1..])?;
        within = behind(within, *byte);
    }
    Ok(text)
}

/// JSON with its bare keys in quotes (EPICS IOC Application Developer's Guide, "Database Definition"). It takes time in
/// proportion to the text: each bare word is looked at once ahead, and so are the blanks behind it.
pub(crate) fn with_quoted_keys(alloc: Global, text: &str) -> Result<String, NoMemory>
    ensures { IfOk result (λ quoted. string_bytes quoted ≡ with_quoted_keys text.now) }
{
    let bytes = quoted_bytes(alloc, text.as_bytes())?;
    // Quotes were put between characters alone.
    Ok(String::from_utf8(bytes).unwrap())
}
