// The fields that the words ask for.
ghost use Rattle.std.specs.Prelude.{◌≡◌, ◌<◌, ◌==◌, ℕ, List, IfOk, MatchOption, map};
ghost use Rattle.std.specs.List.{list_all, slice_split};
ghost use Rattle.cli_within.specs.Words.{AreFields, is_path, is_some_part};

use crate::verb::names_of;
use pvd_type::{Name, NoMemory};
use std::alloc::{AllocError, Global};

/// How many paths may be asked for.
const PATHS: usize = 64;

/// How many names a path may have.
const PARTS: usize = 30;

/// The pieces of a text between these marks, each of one byte.
pub fn pieces<'a>(alloc: Global, text: &'a str, mark: char) -> Result<Vec<&'a str>, AllocError>
    requires { mark < 128 }
    ensures { IfOk result (λ v. map (λ piece. piece.now) v.items ≡ slice_split (λ c. c == mark) text.entry.now) }
{
    text.split(mark).collect(alloc)
}

/// Whether no part is empty.
fn are_some_parts(parts: &[&str]) -> bool
    ensures { result ≡ list_all (λ part. is_some_part part.now) parts.now }
{
    parts.iter().all(|part| !part.is_empty())
}

/// Whether a text is a path: names with dots between them, at most 30, none of them empty.
#[tactic(auto, using(crate::proofs::Paths::too_deep, crate::proofs::Paths::deep_enough))]
fn is_path(alloc: Global, text: &str) -> Result<bool, NoMemory>
    ensures { IfOk result (λ b. b ≡ is_path text.now) }
{
    let parts = pieces(alloc, text, '.')?;
    if parts.len() > PARTS {
        return Ok(false);
    }
    Ok(are_some_parts(&parts))
}

/// Whether each text is a path.
fn are_paths(alloc: Global, texts: &[&str]) -> Result<bool, NoMemory>
    ensures { IfOk result (λ b. b ≡ list_all (λ text. is_path text.now) texts.now) }
{
    for text in texts {
        let is_one = is_path(alloc, text)?;
        if !is_one {
            return Ok(false);
        }
    }
    Ok(true)
}

/// The paths that a text asks for, with commas between them, at most 64. None where it is at fault.
#[tactic(auto, using(crate::proofs::Paths::too_many, crate::proofs::Paths::bad_path))]
pub fn read_fields(alloc: Global, text: &str) -> Result<Option<Vec<Name>>, NoMemory>
    ensures { IfOk result (λ o. MatchOption o ((paths : List (List ℕ)) → ¬ (AreFields text.now paths)) (λ v. AreFields text.now v.items)) }
{
    let texts = pieces(alloc, text, ',')?;
    if texts.len() > PATHS {
        return Ok(None);
    }
    let are_all = are_paths(alloc, &texts)?;
    if !are_all {
        return Ok(None);
    }
    Ok(Some(names_of(alloc, &texts)?))
}
