// The macros that the words give.
ghost use Rattle.std.specs.Prelude.{◌≡◌, ◌↔◌, ℕ, List, Contains, IfOk, IsTrue, MatchOption, map};
ghost use Rattle.std.specs.List.{list_all};
ghost use Rattle.db_text.specs.Macros.{Macros};
ghost use Rattle.prog_source.specs.Words.{AreMacros, ArePairs, IsPair, is_macro_name, is_name_byte, pieces};

use pvd_type::{Name, NoMemory};
use std::alloc::{AllocError, Global};

/// Whether the byte is a letter, a digit or `_`.
fn is_name_byte(byte: u8) -> bool
    ensures { result ≡ is_name_byte byte }
{
    matches!(byte, b'0'..=b'9' | b'A'..=b'Z' | b'_' | b'a'..=b'z')
}

/// Whether all bytes are letters, digits or `_`.
fn are_name_bytes(bytes: &[u8]) -> bool
    ensures { result ≡ list_all is_name_byte bytes.now }
{
    bytes.iter().all(|byte| is_name_byte(*byte))
}

/// Whether a text may name a macro: letters, digits and `_`, at least one.
fn is_macro_name(text: &str) -> bool
    ensures { result ≡ is_macro_name text.now }
{
    if text.is_empty() {
        return false;
    }
    are_name_bytes(text.as_bytes())
}

/// Whether a text has a line feed.
fn has_line_feed(text: &str) -> bool
    ensures { IsTrue result ↔ Contains text.now 10 }
{
    text.as_bytes().contains(&b'\n')
}

/// A macro's name and its value, of `NAME=TEXT`.
fn read_pair(text: &str) -> Option<(&str, &str)>
    ensures { MatchOption result ((pair : List ℕ × List ℕ) → ¬ (IsPair text.now pair)) (λ p. IsPair text.now (p.0.now, p.1.now)) }
{
    let (name, value) = text.split_once('=')?;
    if !is_macro_name(name) {
        return None;
    }
    if has_line_feed(value) {
        return None;
    }
    Some((name, value))
}

/// The pairs of a text, which commas divide.
fn pairs_in(alloc: Global, text: &str) -> Result<Vec<&str>, AllocError>
    ensures { IfOk result (λ v. map (λ text. text.now) v.items ≡ pieces text.now) }
{
    if text.is_empty() {
        return Ok(Vec::new(alloc));
    }
    text.split(',').collect(alloc)
}

/// The macros of these pairs. None where one is at fault.
fn read_pairs(alloc: Global, texts: &[&str]) -> Result<Option<Vec<(Name, Name)>>, NoMemory>
    ensures { IfOk result (λ o. MatchOption o ((pairs : Macros) → ¬ (ArePairs (map (λ text. text.now) texts.now) pairs)) (λ v. ArePairs (map (λ text. text.now) texts.now) v.items)) }
{
    let mut macros = Vec::new(alloc);
    for piece in texts {
        let Some((name, value)) = read_pair(piece) else {
            return Ok(None);
        };
        let pair = (Name::of(alloc, name)?, Name::of(alloc, value)?);
        macros.push(pair)?;
    }
    Ok(Some(macros))
}

/// The macros that a text gives, as pairs `NAME=TEXT` divided by commas, or none where it is empty. None where a pair is at
/// fault.
pub fn read_macros(alloc: Global, text: &str) -> Result<Option<Vec<(Name, Name)>>, NoMemory>
    ensures { IfOk result (λ o. MatchOption o ((macros : Macros) → ¬ (AreMacros text.now macros)) (λ v. AreMacros text.now v.items)) }
{
    let texts = pairs_in(alloc, text)?;
    read_pairs(alloc, &texts)
}
