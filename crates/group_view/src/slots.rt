// The structure of a group as a tree.
ghost use Rattle.std.specs.Prelude.{◌≡◌, ℕ, List, [], ◌∷◌, map, IfOk, IfErr, OnOk};
ghost use Rattle.group_view.specs.Seen.{entries_seen, slots_seen, branch_seen, named_seen};
ghost use Rattle.group_view.specs.Slots.{Slot, Slots, level, no_slots, slot, with_last, in_last, behind, behind_to, slots_to};

use crate::entry::Entry;
use crate::source::Source;
use pvd_type::{Name, NoMemory};
use std::alloc::Global;
use std::collections::BTreeMap;

/// What stands under a name of a group's structure.
#[cycle(slots)]
#[derive(Drop)]
pub(crate) enum Branch {
    /// What a member shows.
    Shows(Source),
    /// A structure with an id.
    Level(Name, Vec<Named>),
}

/// A name of a structure, and what stands under it.
#[cycle(slots)]
#[derive(Drop)]
pub(crate) struct Named {
    pub name: Name,
    pub branch: Branch,
}

/// How many levels are made below the root: one more than a type may have, so that a type's check finds what is too deep. A
/// name with very many dots then makes no more.
pub(crate) const LEVELS: usize = 32;

/// The structure that entries make, with at most so many levels.
pub(crate) fn slots_of(
    alloc: Global,
    entries: BTreeMap<Vec<&str>, Entry>,
    room: usize,
) -> Result<Vec<Named>, NoMemory>
    ensures { IfOk result (λ slots. slots_seen slots.items ≡ slots_to room (entries_seen entries.entry.entries)) }
{
    let mut left = entries;
    let mut slots = Vec::new(alloc);
    while let Some((path, entry)) = left.pop_first() {
        put_behind(alloc, &mut slots, &path, entry, room)?;
    }
    Ok(slots)
}

/// Puts an entry behind slots, each of which comes before it, with at most so many levels.
fn put_behind(
    alloc: Global,
    slots: &mut Vec<Named>,
    path: &[&str],
    entry: Entry,
    room: usize,
) -> Result<(), NoMemory>
    ensures { OnOk result (slots_seen slots.new.items ≡ behind_to room (map (λ part. part.now) path.now) entry (slots_seen slots.old.items)) }
{
    if room == 0 {
        return Ok(());
    }
    if path.is_empty() {
        return Ok(());
    }
    let name = path[0];
    if path.len() == 1 {
        return put_last(alloc, slots, name, entry);
    }
    let (id, mut inner) = take_last(alloc, slots, name)?;
    put_behind(alloc, &mut inner, &path[1..], entry, room - 1)?;
    push(alloc, slots, name, Branch::Level(id, inner))
}

/// Puts an entry under a name behind slots.
fn put_last(alloc: Global, slots: &mut Vec<Named>, name: &str, entry: Entry) -> Result<(), NoMemory>
    ensures { OnOk result (slots_seen slots.new.items ≡ behind (name.now ∷ []) entry (slots_seen slots.old.items)) }
{
    match entry {
        Entry::Shown(source) => push(alloc, slots, name, Branch::Shows(source)),
        Entry::WithId(id) => {
            let (_, inner) = take_last(alloc, slots, name)?;
            push(alloc, slots, name, Branch::Level(id, inner))
        }
    }
}

/// Puts something under a name behind slots.
fn push(alloc: Global, slots: &mut Vec<Named>, name: &str, branch: Branch) -> Result<(), NoMemory>
    ensures { OnOk result (slots_seen slots.new.items ≡ with_last name.now (branch_seen branch) (slots_seen slots.old.items)) }
{
    let name = Name::of(alloc, name)?;
    slots.push(Named { name, branch })?;
    Ok(())
}

/// Takes away the structure that stands last, where it has this name; else a new one is made, without an id.
fn take_last(
    alloc: Global,
    slots: &mut Vec<Named>,
    name: &str,
) -> Result<(Name, Vec<Named>), NoMemory>
    ensures { IfOk result (λ taken. (make : List ℕ → Slots → Slot) → in_last name.now make (slots_seen slots.old.items) ≡ with_last name.now (make taken.0 (slots_seen taken.1.items)) (slots_seen slots.new.items)) }
{
    if let Some(last) = slots.pop() {
        match opened(last, name) {
            Ok((id, inner)) => return Ok((id, inner)),
            Err(other) => slots.push(other)?,
        }
    }
    Ok((Name::of(alloc, "")?, Vec::new(alloc)))
}

/// The structure that stands under this name; else what was given.
fn opened(last: Named, name: &str) -> Result<(Name, Vec<Named>), Named>
    ensures level { IfOk result (λ taken. named_seen last ≡ (name.now, level taken.0 (slots_seen taken.1.items))) }
    ensures other { IfErr result (λ other. named_seen other ≡ named_seen last) }
    ensures apart { IfErr result (λ other. (make : List ℕ → Slots → Slot) → in_last name.now make (slot (named_seen last).0 (named_seen last).1 no_slots) ≡ slot (named_seen last).0 (named_seen last).1 (slot name.now (make [] no_slots) no_slots)) }
{
    let Named {
        name: found,
        branch,
    } = last;
    if found.as_str() != name {
        return Err(Named {
            name: found,
            branch,
        });
    }
    match branch {
        Branch::Level(id, inner) => Ok((id, inner)),
        Branch::Shows(source) => Err(Named {
            name: found,
            branch: Branch::Shows(source),
        }),
    }
}
