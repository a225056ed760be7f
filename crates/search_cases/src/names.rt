// The names that the client of a case searches for.
ghost use Rattle.std.specs.Prelude.{◌≤◌, IfOk, OnOk, length};
ghost use Rattle.search_cases.specs.Names.{AreNames};

use case_files::{Case, CaseFault, Entry};
use pva_search::Name;
use std::alloc::Global;

/// The most names that are searched for, and the most bytes of one.
const MOST: usize = 64;

const LONGEST: usize = 200;

/// Appends a name.
fn push_name(alloc: Global, word: &str, line: u32, names: &mut Vec<Name>) -> Result<(), CaseFault>
    requires { AreNames names.old.items }
    ensures { OnOk result (AreNames names.new.items) }
{
    if names.len() >= MOST || word.len() > LONGEST {
        return Err(CaseFault::At(
            line,
            "these are more than 64 names, or one of more than 200 bytes",
        ));
    }
    let Ok(name) = Name::of(alloc, word) else {
        return Err(CaseFault::NoMemory);
    };
    names.push(name)?;
    Ok(())
}

/// Appends names of these words.
fn push_names(
    alloc: Global,
    words: &[String],
    line: u32,
    names: &mut Vec<Name>,
) -> Result<(), CaseFault>
    requires { AreNames names.old.items }
    ensures { OnOk result (AreNames names.new.items) }
{
    for word in words {
        push_name(alloc, word.as_str(), line, names)?;
    }
    Ok(())
}

/// Appends names of these words so often.
fn push_copies(
    alloc: Global,
    words: &[String],
    line: u32,
    copies: u64,
    names: &mut Vec<Name>,
) -> Result<(), CaseFault>
    requires { AreNames names.old.items }
    ensures { OnOk result (AreNames names.new.items) }
{
    for _ in 0..copies {
        push_names(alloc, words, line, names)?;
    }
    Ok(())
}

/// How often all names are searched for, which is once unless it is given.
fn copies_of(case: &Case<'_>) -> Result<u64, CaseFault> {
    match case.find("copies") {
        Some(entry) => entry.number(),
        None => Ok(1),
    }
}

/// The names of these words, so often.
fn names_in(alloc: Global, words: &[String], line: u32, copies: u64) -> Result<Vec<Name>, CaseFault>
    ensures { IfOk result (λ v. AreNames v.items) }
{
    let mut names = Vec::new(alloc);
    push_copies(alloc, words, line, copies, &mut names)?;
    Ok(names)
}

/// The names of an entry, 1 to 64 of at most 200 bytes each.
pub fn names_of(alloc: Global, case: &Case<'_>, entry: Entry<'_>) -> Result<Vec<Name>, CaseFault>
    ensures names { IfOk result (λ v. AreNames v.items) }
    ensures some { IfOk result (λ v. 1 ≤ length v.items) }
{
    let copies = copies_of(case)?;
    let words = entry.words(alloc)?;
    let names = names_in(alloc, &words, entry.line, copies)?;
    if names.is_empty() {
        return Err(CaseFault::At(entry.line, "these are no names"));
    }
    Ok(names)
}
