// What the members of a group put where in its structure.
ghost use Rattle.std.specs.Prelude.{◌≡◌, ◌≤◌, Some, length, IfOk, OnOk};
ghost use Rattle.pvd_type.specs.Numbers as numbers;
ghost use Rattle.group_view.specs.Seen.{entries_seen};
ghost use Rattle.group_view.specs.Slots.{entries_by, entries_of, in_order, shown_by, added, added_all};
ghost use Rattle.group_view.specs.declared.entry.Entry.TheVariants.{Shown, WithId};

use crate::link::Linked;
use crate::member::Member;
use crate::paths::path_of;
use crate::piece::Piece;
use crate::source::Source;
use group_defs::MemberKind;
use pvd_type::{Name, NoMemory};
use std::alloc::Global;
use std::collections::BTreeMap;

/// What a member puts at a path of the group's structure.
#[derive(Drop)]
pub(crate) enum Entry {
    /// Something that is shown.
    Shown(Source),
    /// The id of the structure there.
    WithId(Name),
}

/// What stands at which path, in the order of the paths.
type Entries<'a> = BTreeMap<Vec<&'a str>, Entry>;

/// What the members put where, in the order of the paths.
pub(crate) fn entries_of<'a>(alloc: Global, members: &'a [Member]) -> Result<Entries<'a>, NoMemory>
    requires { length members.now ≤ 256 }
    ensures { IfOk result (λ found. entries_seen found.entries ≡ in_order (entries_of members.now)) }
{
    let mut entries = BTreeMap::new(alloc);
    for (number, member) in members.iter().enumerate() {
        add_member(alloc, &mut entries, number as u32, member)?;
    }
    Ok(entries)
}

/// Adds what a member of this number puts where.
fn add_member<'a>(
    alloc: Global,
    entries: &mut Entries<'a>,
    number: u32,
    member: &'a Member,
) -> Result<(), NoMemory>
    ensures { OnOk result (entries_seen entries.new.entries ≡ added_all (entries_seen entries.old.entries) (entries_by (number, member.now))) }
{
    let name = member.def.name.as_str();
    match member.def.kind {
        MemberKind::Structure => add_id(alloc, entries, name, &member.def.id),
        MemberKind::Whole | MemberKind::Plain | MemberKind::Any => {
            add_link(alloc, entries, number, member, name)
        }
        MemberKind::Meta | MemberKind::Proc => add_link(alloc, entries, number, member, name),
    }
}

/// Adds the id of the structure under a dotted name.
fn add_id<'a>(
    alloc: Global,
    entries: &mut Entries<'a>,
    name: &'a str,
    id: &Name,
) -> Result<(), NoMemory>
    ensures { OnOk result (entries_seen entries.new.entries ≡ added (entries_seen entries.old.entries) (numbers.path_of name.now, WithId id.now)) }
{
    let path = path_of(alloc, name)?;
    let id = id.clone_in(alloc)?;
    entries.insert(path, Entry::WithId(id))?;
    Ok(())
}

/// Adds what a member shows of its record, if it has one.
fn add_link<'a>(
    alloc: Global,
    entries: &mut Entries<'a>,
    number: u32,
    member: &'a Member,
    name: &'a str,
) -> Result<(), NoMemory>
    ensures { OnOk result (entries_seen entries.new.entries ≡ added_all (entries_seen entries.old.entries) (shown_by number member.now.def.kind name.now member.now.link)) }
{
    match &member.link {
        Some(link) => add_shown(alloc, entries, number, member.def.kind, name, link),
        None => Ok(()),
    }
}

/// Adds what a member of this kind and name shows of its record.
fn add_shown<'a>(
    alloc: Global,
    entries: &mut Entries<'a>,
    number: u32,
    kind: MemberKind,
    name: &'a str,
    link: &Linked,
) -> Result<(), NoMemory>
    ensures { OnOk result (entries_seen entries.new.entries ≡ added_all (entries_seen entries.old.entries) (shown_by number kind name.now (Some link.now))) }
{
    let piece = match kind {
        MemberKind::Whole => Piece::Whole,
        MemberKind::Plain => Piece::Plain,
        MemberKind::Any => Piece::Any,
        MemberKind::Meta if name.is_empty() => {
            add_piece(alloc, entries, "alarm", number, Piece::Alarm, link)?;
            return add_piece(alloc, entries, "timeStamp", number, Piece::Time, link);
        }
        MemberKind::Meta => Piece::Meta,
        MemberKind::Proc | MemberKind::Structure => return Ok(()),
    };
    add_piece(alloc, entries, name, number, piece, link)
}

/// Adds what is shown under a dotted name.
fn add_piece<'a>(
    alloc: Global,
    entries: &mut Entries<'a>,
    name: &'a str,
    number: u32,
    piece: Piece,
    link: &Linked,
) -> Result<(), NoMemory>
    ensures { OnOk result (entries_seen entries.new.entries ≡ added (entries_seen entries.old.entries) (numbers.path_of name.now, Shown (record { member = number; piece = piece; link = link.now }))) }
{
    let path = path_of(alloc, name)?;
    let source = Source::of(alloc, number, piece, link)?;
    entries.insert(path, Entry::Shown(source))?;
    Ok(())
}
