ghost use Rattle.std.specs.Prelude.{◌≡◌, ◌<◌, length, IfOk, Ok, []};
ghost use Rattle.std.specs.HashSet.{contains_text};
ghost use Rattle.db_load.specs.Forms.{Gives, is_given, last_given, record_with, records_from};

use crate::bodies::body_at;
use crate::fault::FormStop;
use crate::forms::mark_at;
use crate::names::head_at;
use db_text::Token;
use pvd_type::{Name, NoMemory};
use rec_kinds::{FieldText, Items, RecText};
use std::alloc::Global;
use std::collections::HashSet;

/// Whether a field of this name is among these.
fn is_given(name: &Name, fields: &[FieldText]) -> bool
    ensures { result ≡ is_given name.now fields.now }
{
    for field in fields {
        if field.name.as_str() == name.as_str() {
            return true;
        }
    }
    false
}

/// The fields, of which those that are given again later are left out. A kind knows few fields, so that
/// few are kept at a time.
fn last_given(alloc: Global, fields: Vec<FieldText>) -> Result<Vec<FieldText>, NoMemory>
    ensures { IfOk result (λ kept. kept.items ≡ last_given fields.items) }
{
    let mut left = fields;
    let mut kept: Vec<FieldText> = Vec::new(alloc);
    while let Some(field) = left.pop() {
        if is_given(&field.name, &kept) {
            continue;
        }
        kept.push(field)?;
    }
    kept.reverse();
    Ok(kept)
}

/// A record, and what follows it. Its name must be none of these.
#[tactic(auto, unfolding(crate::specs::Forms::record_with))]
fn record_at<'a>(
    alloc: Global,
    names: &HashSet<String>,
    tokens: &'a [Token],
) -> Result<(RecText, &'a [Token]), FormStop>
    ensures value { Gives (λ x. (x.0, x.1.now)) result (record_with (contains_text names.now) tokens.now) }
    ensures shorter { IfOk result (λ x. length x.1.now < length tokens.now) }
{
    let (head, rest) = head_at(alloc, names, tokens)?;
    let rest = mark_at(b'{', rest)?;
    let (kind, name, line) = head;
    let (fields, infos, rest) = body_at(alloc, kind, rest)?;
    let fields = last_given(alloc, fields)?;
    let record = RecText {
        kind,
        name,
        fields: Items::from_vec(fields),
        infos: Items::from_vec(infos),
        line,
    };
    Ok((record, rest))
}

/// The records of these tokens.
pub fn records_at(alloc: Global, tokens: &[Token]) -> Result<Vec<RecText>, FormStop>
    ensures { Gives (λ x. x.items) result (records_from (length tokens.now) [] tokens.now) }
{
    let mut records: Vec<RecText> = Vec::new(alloc);
    let mut names: HashSet<String> = HashSet::new(alloc);
    let mut rest = tokens;
    while !rest.is_empty() {
        let (record, after) = record_at(alloc, &names, rest)?;
        let name = String::from_str(alloc, record.name.as_str())?;
        names.insert(name)?;
        records.push(record)?;
        rest = after;
    }
    Ok(records)
}
