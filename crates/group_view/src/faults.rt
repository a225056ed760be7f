// Which groups have no type.
ghost use Rattle.std.specs.Prelude.{◌≡◌, ◌<◌, ◌||◌, ℕ, List, length, IfOk, OnOk};
ghost use Rattle.std.specs.Str.{bytes_eq};
ghost use Rattle.pvd_type.specs.Numbers.{path_of};
ghost use Rattle.group_view.specs.Faults.{holds_members, closed_names, is_closed, is_cut, has_name, Knows, is_below, begins_with, is_meta_name, is_meta_member, is_misplaced, is_doubled, has_empty_name, has_meta_name};

use crate::member::Member;
use group_defs::MemberKind;
use pvd_type::NoMemory;
use std::alloc::Global;
use std::collections::BTreeSet;

/// Names, each behind its length: a part of a name is then compared with the names of its length alone.
type Names<'a> = BTreeSet<(usize, &'a [u8])>;

/// Whether a member stands below one that is no `structure`.
pub(crate) fn is_misplaced(alloc: Global, members: &[Member]) -> Result<bool, NoMemory>
    ensures { IfOk result (λ misplaced. misplaced ≡ is_misplaced members.now) }
{
    let closed = closed_names(alloc, members)?;
    for member in members {
        if is_below(&closed, member.def.name.as_str().as_bytes()) {
            return Ok(true);
        }
    }
    Ok(false)
}

/// The names below which no member may stand.
fn closed_names(alloc: Global, members: &[Member]) -> Result<Names<'_>, NoMemory>
    ensures { IfOk result (λ closed. Knows closed (closed_names members.now)) }
{
    let mut closed = BTreeSet::new(alloc);
    for member in members {
        add_closed(&mut closed, member)?;
    }
    Ok(closed)
}

/// Adds the name of a member below which none may stand.
fn add_closed<'a>(closed: &mut Names<'a>, member: &'a Member) -> Result<(), NoMemory>
    ensures { OnOk result ((name : List ℕ) → has_name closed.new name ≡ (is_closed member.now name || has_name closed.old name)) }
{
    if holds_members(member.def.kind) {
        return Ok(());
    }
    let name = member.def.name.as_str().as_bytes();
    closed.insert((name.len(), name))?;
    Ok(())
}

/// Whether members may stand below one of this kind.
fn holds_members(kind: MemberKind) -> bool
    ensures { result ≡ holds_members kind }
{
    match kind {
        MemberKind::Structure => true,
        MemberKind::Whole | MemberKind::Plain | MemberKind::Any => false,
        MemberKind::Meta | MemberKind::Proc => false,
    }
}

/// Whether what stands before one of a name's dots is one of these names.
fn is_below<'a>(closed: &Names<'a>, name: &'a [u8]) -> bool
    ensures { (names : List (List ℕ)) → Knows closed.now names → result ≡ is_below names name.now }
{
    for place in 0..name.len() {
        if is_cut(closed, name, place) {
            return true;
        }
    }
    false
}

/// Whether the name up to this place is one of these, and a dot follows.
fn is_cut<'a>(closed: &Names<'a>, name: &'a [u8], place: usize) -> bool
    requires { place < length name.now }
    ensures { (names : List (List ℕ)) → Knows closed.now names → result ≡ is_cut names name.now place }
{
    if name[place] != b'.' {
        return false;
    }
    closed.contains(&(place, &name[..place]))
}

/// Whether a member stands at or below the place of the alarm or the time stamp that the empty name places at the top.
pub(crate) fn is_doubled(members: &[Member]) -> bool
    ensures { result ≡ is_doubled members.now }
{
    has_empty_name(members) && has_meta_name(members)
}

fn has_empty_name(members: &[Member]) -> bool
    ensures { result ≡ has_empty_name members.now }
{
    for member in members {
        if member.def.name.as_str().is_empty() {
            return true;
        }
    }
    false
}

fn has_meta_name(members: &[Member]) -> bool
    ensures { result ≡ has_meta_name members.now }
{
    for member in members {
        if is_meta_member(member) {
            return true;
        }
    }
    false
}

/// Whether a member has a place in the structure, and it is in the alarm or the time stamp at the top.
fn is_meta_member(member: &Member) -> bool
    ensures { result ≡ is_meta_member member.now }
{
    match member.def.kind {
        MemberKind::Proc => false,
        MemberKind::Whole | MemberKind::Plain | MemberKind::Any => {
            is_meta_name(member.def.name.as_str())
        }
        MemberKind::Meta | MemberKind::Structure => is_meta_name(member.def.name.as_str()),
    }
}

/// Whether a dotted name begins with the one that the alarm or the time stamp has at the top.
fn is_meta_name(name: &str) -> bool
    ensures { result ≡ is_meta_name name.now }
{
    let first = first_part(name);
    first == "alarm" || first == "timeStamp"
}

/// What stands before the first dot of a name.
fn first_part(name: &str) -> &str
    ensures { (other : List ℕ) → begins_with other (path_of name.now) ≡ bytes_eq result.now other }
{
    match name.split_once('.') {
        Some((first, _)) => first,
        None => name,
    }
}
