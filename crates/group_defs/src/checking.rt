ghost use Rattle.std.specs.Prelude.{◌≡◌, ◌<◌, ◌≤◌, length, IfOk};
ghost use Rattle.std.specs.List.{list_any, AllByRecursion, IsDistinct};
ghost use Rattle.std.specs.Str.{bytes_eq};
ghost use Rattle.group_defs.specs.Groups.{Answers};
ghost use Rattle.group_defs.specs.Named.{names_seen};
ghost use Rattle.group_defs.specs.Checking.{names_of, is_lost, has_lost, is_ending, is_named, is_taken, fault_of, fault_from};

use crate::fault::GroupFault;
use crate::listed::{Group, Member};
use crate::triggers::{is_known, trigger_of};
use indexmap::IndexSet;
use pvd_type::NoMemory;
use rec_kinds::RecText;
use std::alloc::Global;

/// The most groups, and the most members of one.
const MOST_GROUPS: usize = 1024;

const MOST_MEMBERS: usize = 256;

/// The names of members, each of which stands once.
pub(crate) fn names_of(alloc: Global, members: &[Member]) -> Result<IndexSet<&[u8]>, NoMemory>
    requires { IsDistinct bytes_eq (names_of members.now) }
    ensures { IfOk result (λ names. names_seen names ≡ names_of members.now) }
{
    let mut names = IndexSet::new(alloc);
    for member in members {
        names.insert_full(member.name.as_str().as_bytes())?;
    }
    Ok(names)
}

/// Whether a member's trigger names no member.
fn is_lost(alloc: Global, names: &IndexSet<&[u8]>, member: &Member) -> Result<bool, NoMemory>
    ensures { IfOk result (λ lost. lost ≡ is_lost (names_seen names.now) member.now.text.trigger) }
{
    match &member.text.trigger {
        Some(text) => {
            let trigger = trigger_of(alloc, text.as_str())?;
            Ok(!is_known(names, &trigger))
        }
        None => Ok(false),
    }
}

/// Whether the trigger of one of these members names none of these names.
fn has_lost_among(
    alloc: Global,
    names: &IndexSet<&[u8]>,
    members: &[Member],
) -> Result<bool, NoMemory>
    ensures { IfOk result (λ lost. lost ≡ list_any (λ m. is_lost (names_seen names.now) m.text.trigger) members.now) }
{
    for member in members {
        if is_lost(alloc, names, member)? {
            return Ok(true);
        }
    }
    Ok(false)
}

/// Whether the trigger of one of these members names none of them.
fn has_lost(alloc: Global, members: &[Member]) -> Result<bool, NoMemory>
    requires { IsDistinct bytes_eq (names_of members.now) }
    ensures { IfOk result (λ lost. lost ≡ has_lost members.now) }
{
    let names = names_of(alloc, members)?;
    let lost = has_lost_among(alloc, &names, members)?;
    Ok(lost)
}

/// Whether two runs of bytes are the same.
fn is_same(bytes: &[u8], other: &[u8]) -> bool
    ensures { result ≡ bytes_eq bytes.now other.now }
{
    bytes == other
}

/// Whether nothing, `.VAL` or `.DESC` stands behind a record's name.
fn is_ending(rest: &[u8]) -> bool
    ensures { result ≡ is_ending rest.now }
{
    rest.is_empty() || is_same(rest, b".VAL") || is_same(rest, b".DESC")
}

/// Whether a record, its `.VAL` or its `.DESC` has this name.
fn is_named(name: &str, of: &str) -> bool
    ensures { result ≡ is_named name.now of.now }
{
    match name.as_bytes().strip_prefix(of.as_bytes()) {
        Some(rest) => is_ending(rest),
        None => false,
    }
}

/// Whether one of the records has this name. There are few records and groups, so that each is looked at.
fn is_taken(texts: &[RecText], name: &str) -> bool
    ensures { result ≡ is_taken texts.now name.now }
{
    for text in texts {
        if is_named(name, text.name.as_str()) {
            return true;
        }
    }
    false
}

/// The first fault of a group that has so many before it, among so many.
#[tactic(auto, unfolding(crate::specs::Checking::fault_of))]
fn fault_of(
    alloc: Global,
    texts: &[RecText],
    total: usize,
    before: usize,
    group: &Group,
) -> Result<(), GroupFault>
    requires { IsDistinct bytes_eq (names_of group.now.members) }
    ensures { Answers (λ u. u) result (fault_of texts.now total before group.now) }
{
    let members = group.members.as_slice();
    if has_lost(alloc, members)? {
        return Err(GroupFault::UnknownTrigger(group.name.clone_in(alloc)?));
    }
    if is_taken(texts, group.name.as_str()) {
        return Err(GroupFault::NameTaken(group.name.clone_in(alloc)?));
    }
    if before >= MOST_GROUPS {
        return Err(GroupFault::TooMany(total));
    }
    if members.len() > MOST_MEMBERS {
        return Err(GroupFault::TooMany(members.len()));
    }
    Ok(())
}

/// The first fault of groups, one after another.
pub(crate) fn check(alloc: Global, texts: &[RecText], groups: &[Group]) -> Result<(), GroupFault>
    requires { AllByRecursion (λ g. IsDistinct bytes_eq (names_of g.members)) groups.now }
    ensures { Answers (λ u. u) result (fault_from texts.now groups.now) }
{
    for (before, group) in groups.iter().enumerate() {
        fault_of(alloc, texts, groups.len(), before, group)?;
    }
    Ok(())
}
