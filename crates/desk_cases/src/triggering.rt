// Which leaves of a group each of its records triggers.
use crate::texts::site_of;
use case_files::{Case, CaseFault, Entry, difference};
use desk_api::{ChannelKind, Group, Site, found_channels};
use pvd_type::BitSet;
use std::alloc::{AllocError, Global};

/// The group of this name.
fn group_of<'a>(site: &'a Site, name: &str) -> Option<&'a Group> {
    found_channels();
    let Some(channel) = site.find(name) else {
        return None;
    };
    match channel.kind {
        ChannelKind::Group => Some(site.group(channel.number as usize)),
        ChannelKind::Rec | ChannelKind::Desc | ChannelKind::Service => None,
    }
}

/// The name of a record, by its number.
fn name_of(site: &Site, rec: u32) -> &str {
    let rec = rec as usize;
    if rec < site.records() {
        return site.name(rec);
    }
    "?"
}

/// Appends the names of records, by their numbers.
fn push_records(words: &mut String, site: &Site, records: &[u32]) -> Result<(), AllocError> {
    for rec in records {
        write!(words, " {}", name_of(site, *rec))?;
    }
    Ok(())
}

/// Appends the numbers of leaves.
fn push_leaves(words: &mut String, leaves: &BitSet) -> Result<(), AllocError> {
    for number in 0..leaves.bound() * 8 {
        if leaves.contains(number) {
            write!(words, " {number}")?;
        }
    }
    Ok(())
}

/// Appends the leaves that a record triggers, and the records that these read; nothing where it triggers none.
fn push_triggered(
    words: &mut String,
    site: &Site,
    group: &Group,
    rec: u32,
) -> Result<(), AllocError> {
    let leaves = group.triggered(rec);
    if leaves.is_empty() {
        return Ok(());
    }
    write!(words, "{} posts", name_of(site, rec))?;
    push_leaves(words, leaves)?;
    words.push_str(" of")?;
    push_records(words, site, group.footprint(rec))?;
    words.push_str("\n")
}

/// The records that a group reads, and what each of them triggers.
fn group_words(alloc: Global, site: &Site, group: &Group) -> Result<String, AllocError> {
    let mut words = String::from_str(alloc, "all of")?;
    push_records(&mut words, site, group.members())?;
    words.push_str("\n")?;
    for rec in group.members() {
        push_triggered(&mut words, site, group, *rec)?;
    }
    Ok(words)
}

/// How what the records of a group trigger differs from an entry.
fn differs_by(
    alloc: Global,
    case: &Case<'_>,
    entry: Entry<'_>,
    text: &str,
) -> Result<Option<String>, CaseFault> {
    let named = entry.inner();
    let expected = case.content(alloc, named)?;
    let site = site_of(alloc, case, text)?;
    let Some(group) = group_of(&site, named.key) else {
        return Err(CaseFault::At(entry.line, "there is no such group"));
    };
    let words = group_words(alloc, &site, group)?;
    Ok(difference(alloc, "triggers", &expected, words.as_bytes())?)
}

/// How what records trigger differs from what a case says of it. None where it agrees.
pub fn differs(alloc: Global, case: &Case<'_>, text: &str) -> Result<Option<String>, CaseFault> {
    match case.find("triggers") {
        Some(entry) => differs_by(alloc, case, entry, text),
        None => Ok(None),
    }
}
