ghost use Rattle.std.specs.Prelude.{◌≡◌, ◌<◌, ◌≤◌, ◌^◌, ◌==◌, [], map, length, not, is_some, IfOk, IfSome, MatchOption};
ghost use Rattle.std.specs.List.{list_any, slice_split, filter_map};
ghost use Rattle.group_defs.specs.Triggers.{is_blank, trimmed_start, trimmed_end, trimmed, trigger_of, number_of, is_known, numbers_from, numbers_in};
ghost use Rattle.group_defs.specs.Named.{trigger_seen, names_seen};

use crate::names::cut;
use indexmap::IndexSet;
use pvd_type::NoMemory;
use std::alloc::Global;

/// What a trigger names.
#[derive(Drop)]
pub(crate) enum Trigger<'a> {
    /// Every member.
    All,
    /// The members of these names.
    Those(Vec<&'a [u8]>),
}

fn is_blank(byte: u8) -> bool
    ensures { result ≡ is_blank byte }
{
    byte == b' ' || byte == b'\t'
}

/// A text without the blanks at its front.
#[tactic(auto, using(crate::proofs::Trimming::start_blank, crate::proofs::Trimming::start_kept))]
fn trimmed_start(text: &[u8]) -> &[u8]
    ensures { result.now ≡ trimmed_start text.now }
{
    let mut rest = text;
    while let Some((first, after)) = rest.split_first() {
        if !is_blank(*first) {
            return rest;
        }
        rest = after;
    }
    rest
}

/// A text without the blanks at its end.
#[tactic(auto, using(crate::proofs::Trimming::end_blank, crate::proofs::Trimming::end_kept))]
fn trimmed_end(text: &[u8]) -> &[u8]
    ensures { result.now ≡ trimmed_end text.now }
{
    let mut rest = text;
    while let Some((last, before)) = rest.split_last() {
        if !is_blank(*last) {
            return rest;
        }
        rest = before;
    }
    rest
}

/// A text without the blanks at its ends.
fn trimmed(text: &[u8]) -> &[u8]
    ensures { result.now ≡ trimmed text.now }
{
    trimmed_end(trimmed_start(text))
}

/// The names that commas divide.
#[tactic(auto, using(crate::proofs::Trimming::names_more))]
fn names_in(alloc: Global, text: &str) -> Result<Vec<&[u8]>, NoMemory>
    ensures { IfOk result (λ names. map (λ s. s.now) names.items ≡ map trimmed (slice_split (λ b. b == 44) text.now)) }
{
    let mut names: Vec<&[u8]> = Vec::new(alloc);
    let mut rest = Some(text);
    while let Some(left) = rest {
        let (name, after) = cut(left, ',');
        names.push(trimmed(name.as_bytes()))?;
        rest = after;
    }
    Ok(names)
}

/// What the text of a trigger names.
#[tactic(auto, unfolding(crate::specs::Triggers::trigger_of))]
pub(crate) fn trigger_of(alloc: Global, text: &str) -> Result<Trigger<'_>, NoMemory>
    ensures { IfOk result (λ trigger. trigger_seen trigger ≡ trigger_of text.now) }
{
    let kept = trimmed(text.as_bytes());
    if kept == b"*".as_slice() {
        return Ok(Trigger::All);
    }
    if kept.is_empty() {
        return Ok(Trigger::Those(Vec::new(alloc)));
    }
    Ok(Trigger::Those(names_in(alloc, text)?))
}

/// The number of the member of this name.
fn number_of(names: &IndexSet<&[u8]>, name: &[u8]) -> Option<usize>
    ensures value { result ≡ number_of (names_seen names.now) name.now }
    ensures within { IfSome result (λ number. number < length (names_seen names.now)) }
{
    if name.is_empty() {
        return None;
    }
    names.get_index_of(name)
}

/// Whether each name that a trigger has is a member's.
pub(crate) fn is_known(names: &IndexSet<&[u8]>, trigger: &Trigger<'_>) -> bool
    ensures { result ≡ is_known (names_seen names.now) (trigger_seen trigger.now) }
{
    match trigger {
        Trigger::All => true,
        Trigger::Those(triggered) => all_known(names, triggered),
    }
}

/// Whether each of these names is a member's.
fn all_known(names: &IndexSet<&[u8]>, triggered: &[&[u8]]) -> bool
    ensures { result ≡ not (list_any
        (λ name. not (is_some (number_of (names_seen names.now) name)))
        (map (λ s. s.now) triggered.now)) }
{
    for name in triggered {
        if number_of(names, name).is_none() {
            return false;
        }
    }
    true
}

/// The numbers of the members that a trigger names.
pub(crate) fn numbers_in(
    alloc: Global,
    names: &IndexSet<&[u8]>,
    trigger: &Trigger<'_>,
) -> Result<Vec<u32>, NoMemory>
    requires { length (names_seen names.now) < 2 ^ 32 }
    ensures { IfOk result (λ numbers. numbers.items ≡ numbers_in (names_seen names.now) (trigger_seen trigger.now)) }
{
    match trigger {
        Trigger::All => all_numbers(alloc, names),
        Trigger::Those(triggered) => numbers_of(alloc, names, triggered),
    }
}

/// The numbers of all members.
#[tactic(auto, using(crate::proofs::Numbering::numbers_more))]
fn all_numbers(alloc: Global, names: &IndexSet<&[u8]>) -> Result<Vec<u32>, NoMemory>
    requires { length (names_seen names.now) < 2 ^ 32 }
    ensures { IfOk result (λ numbers. numbers.items ≡ numbers_from 0 (names_seen names.now)) }
{
    let mut numbers = Vec::new(alloc);
    for number in 0..names.len() {
        numbers.push(number as u32)?;
    }
    Ok(numbers)
}

/// The numbers of the members of these names.
fn numbers_of(
    alloc: Global,
    names: &IndexSet<&[u8]>,
    triggered: &[&[u8]],
) -> Result<Vec<u32>, NoMemory>
    requires { length (names_seen names.now) < 2 ^ 32 }
    ensures { IfOk result (λ numbers. numbers.items
        ≡ filter_map (number_of (names_seen names.now)) (map (λ s. s.now) triggered.now)) }
{
    let mut numbers = Vec::new(alloc);
    for name in triggered {
        if let Some(number) = number_of(names, name) {
            numbers.push(number as u32)?;
        }
    }
    Ok(numbers)
}
