ghost use Rattle.std.specs.Prelude.{◌≡◌, ◌<◌, length, IfOk, Ok, not};
ghost use Rattle.std.specs.List.{list_all};
ghost use Rattle.std.specs.HashSet.{contains_text};
ghost use Rattle.db_load.specs.Forms.{Gives, is_special, is_record_name, name_in, head_with};

use crate::fault::{FormStop, LoadFault};
use crate::forms::{begin_at, kind_in, mark_at, word_at};
use db_text::Token;
use pvd_type::Name;
use rec_kinds::Kind;
use std::alloc::Global;
use std::collections::HashSet;

/// Whether a byte may not stand in a record's name.
fn is_special(byte: u8) -> bool
    ensures { result ≡ is_special byte }
{
    matches!(byte, b' ' | b'\t' | b'"' | b'\'' | b'.' | b'$')
}

/// Whether no byte is special.
fn is_plain(text: &[u8]) -> bool
    ensures { result ≡ list_all (λ b. not (is_special b)) text.now }
{
    text.iter().all(|byte| !is_special(*byte))
}

/// Whether a record may have this name.
fn is_record_name(text: &[u8]) -> bool
    ensures { result ≡ is_record_name text.now }
{
    if text.is_empty() {
        return false;
    }
    if text.len() > 60 {
        return false;
    }
    is_plain(text)
}

/// The name of a record, which must be none of these.
fn name_in(alloc: Global, names: &HashSet<String>, token: &Token) -> Result<Name, FormStop>
    ensures { Gives (λ name. name) result (name_in (contains_text names.now token.now.text) token.now) }
{
    if !is_record_name(token.text.as_str().as_bytes()) {
        return Err(FormStop::Fault(LoadFault::BadForm(token.line)));
    }
    let name = token.text.clone_in(alloc)?;
    if names.contains(token.text.as_str()) {
        return Err(FormStop::Fault(LoadFault::SameRecord(name, token.line)));
    }
    Ok(name)
}

/// A record's kind, name and line, and what follows them.
#[tactic(auto, unfolding(crate::specs::Forms::head_with))]
pub fn head_at<'a>(
    alloc: Global,
    names: &HashSet<String>,
    tokens: &'a [Token],
) -> Result<((Kind, Name, u32), &'a [Token]), FormStop>
    ensures value { Gives (λ x. (x.0, x.1.now)) result (head_with (contains_text names.now) tokens.now) }
    ensures shorter { IfOk result (λ x. length x.1.now < length tokens.now) }
{
    let (begin, rest) = begin_at(tokens)?;
    let rest = mark_at(b'(', rest)?;
    let (kind, rest) = word_at(rest)?;
    let kind = kind_in(alloc, kind)?;
    let rest = mark_at(b',', rest)?;
    let (name, rest) = word_at(rest)?;
    let name = name_in(alloc, names, name)?;
    let rest = mark_at(b')', rest)?;
    Ok(((kind, name, begin.line), rest))
}
