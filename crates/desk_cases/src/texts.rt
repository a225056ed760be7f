// What a text is.
use crate::telling::{
    groups_words, load_fault_words, records_words, site_fault_words, text_fault_words, tokens_words,
};
use case_files::{Case, CaseFault, difference};
use db_load::read_records;
use db_text::{expand, tokens};
use desk_api::Site;
use group_defs::read_groups;
use pvd_type::Name;
use std::alloc::{AllocError, Global};

/// What is looked at of a text.
#[derive(Clone, Copy)]
enum View {
    /// The text without comments and macros.
    Plain,
    /// Its tokens.
    Tokens,
    /// Its records.
    Records,
    /// The groups that its records define.
    Groups,
    /// Why it gives no site.
    Fault,
}

/// A text as a name.
fn name_of(alloc: Global, text: &str) -> Result<Name, CaseFault> {
    match Name::of(alloc, text) {
        Ok(name) => Ok(name),
        Err(_) => Err(CaseFault::NoMemory),
    }
}

/// The macros that a case gives: words of the form NAME=VALUE.
pub fn macros_of(alloc: Global, case: &Case<'_>) -> Result<Vec<(Name, Name)>, CaseFault> {
    let mut macros = Vec::new(alloc);
    let Some(entry) = case.find("macros") else {
        return Ok(macros);
    };
    for word in &entry.words(alloc)? {
        let Some((name, value)) = word.split_once('=') else {
            return Err(CaseFault::At(entry.line, "a macro has no value"));
        };
        macros.push((name_of(alloc, name)?, name_of(alloc, value)?))?;
    }
    Ok(macros)
}

/// The site of a text.
pub fn site_of(alloc: Global, case: &Case<'_>, text: &str) -> Result<Site, CaseFault> {
    let macros = macros_of(alloc, case)?;
    match Site::build(alloc, text, &macros) {
        Ok(site) => Ok(site),
        Err(_) => Err(CaseFault::At(case.line, "the database gives no site")),
    }
}

/// What a text is expanded to, or its fault.
fn plain_words(alloc: Global, text: &str, macros: &[(Name, Name)]) -> Result<String, AllocError> {
    match expand(alloc, text, macros) {
        Ok(plain) => String::from_str(alloc, plain.as_str()),
        Err(fault) => text_fault_words(alloc, &fault),
    }
}

/// The tokens of a text, or its fault.
fn cut_words(alloc: Global, text: &str) -> Result<String, AllocError> {
    match tokens(alloc, text) {
        Ok(tokens) => tokens_words(alloc, &tokens),
        Err(fault) => text_fault_words(alloc, &fault),
    }
}

/// The records of a text, or its fault.
fn loaded_words(alloc: Global, text: &str, macros: &[(Name, Name)]) -> Result<String, AllocError> {
    match read_records(alloc, text, macros) {
        Ok(records) => records_words(alloc, &records),
        Err(fault) => load_fault_words(alloc, &fault),
    }
}

/// The groups of a text, or its fault.
fn defined_words(alloc: Global, text: &str, macros: &[(Name, Name)]) -> Result<String, AllocError> {
    match read_records(alloc, text, macros) {
        Ok(records) => groups_words(alloc, &read_groups(alloc, &records)),
        Err(fault) => load_fault_words(alloc, &fault),
    }
}

/// Why a text gives no site; nothing where it gives one.
fn fault_words(alloc: Global, text: &str, macros: &[(Name, Name)]) -> Result<String, AllocError> {
    match Site::build(alloc, text, macros) {
        Ok(_) => Ok(String::new(alloc)),
        Err(fault) => site_fault_words(alloc, &fault),
    }
}

/// What a text is, in words.
fn words_of(
    alloc: Global,
    view: View,
    text: &str,
    macros: &[(Name, Name)],
) -> Result<String, AllocError> {
    match view {
        View::Plain => plain_words(alloc, text, macros),
        View::Tokens => cut_words(alloc, text),
        View::Records => loaded_words(alloc, text, macros),
        View::Groups => defined_words(alloc, text, macros),
        View::Fault => fault_words(alloc, text, macros),
    }
}

/// How what a text is differs from what the case says.
fn differs_by(
    alloc: Global,
    case: &Case<'_>,
    key: &'static str,
    view: View,
    text: &str,
) -> Result<Option<String>, CaseFault> {
    let Some(entry) = case.find(key) else {
        return Ok(None);
    };
    let expected = case.content(alloc, entry)?;
    let macros = macros_of(alloc, case)?;
    let words = words_of(alloc, view, text, &macros)?;
    Ok(difference(alloc, key, &expected, words.as_bytes())?)
}

/// How a text differs from what the case says of it. None where it agrees.
pub fn differs(alloc: Global, case: &Case<'_>, text: &str) -> Result<Option<String>, CaseFault> {
    for (key, view) in [
        ("plain", View::Plain),
        ("tokens", View::Tokens),
        ("records", View::Records),
        ("groups", View::Groups),
        ("fault", View::Fault),
    ] {
        let told = differs_by(alloc, case, key, view, text)?;
        if told.is_some() {
            return Ok(told);
        }
    }
    Ok(None)
}
