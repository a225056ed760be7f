// The writable members of a group.
ghost use Rattle.std.specs.Prelude.{◌≡◌, ◌≤◌, [], length, map, slice_get, OnOk, IfOk};
ghost use Rattle.std.specs.List.{enumerate_from};
ghost use Rattle.group_view.specs.Leaves.{leaves_at};
ghost use Rattle.group_view.specs.Puts.{writing_of, writer_of, with_writer, writers_among};

use crate::link::Linked;
use crate::member::Member;
use group_defs::MemberKind;
use pvd_type::NoMemory;
use std::alloc::Global;
use std::collections::BTreeMap;

/// What a put to a group does with a member's record.
#[derive(Clone, Copy, Debug, PartialEq, Eq)]
pub(crate) enum Writing {
    /// It puts the leaf of this number, where that is marked.
    Writes(u32),
    /// It processes the record.
    Processes,
}

/// A writable member.
#[derive(Drop)]
pub(crate) struct Writer {
    pub link: Linked,
    pub writing: Writing,
}

/// Writable members by their put orders, and by their numbers where these are the same.
type Writers = BTreeMap<(i32, u32), Writer>;

/// The writable members in rising put order, where each member shows these leaves.
pub(crate) fn writers_of(
    alloc: Global,
    members: &[Member],
    own: &[Vec<u16>],
) -> Result<Vec<Writer>, NoMemory>
    requires few { length members.now ≤ 256 }
    requires same { length own.now ≡ length members.now }
    ensures { IfOk result (λ writers. writers.items ≡ map (λ e. e.1) (writers_among (leaves_at own.now) [] (enumerate_from 0 members.now))) }
{
    let mut found = BTreeMap::new(alloc);
    for (number, member) in members.iter().enumerate() {
        add_writer(&mut found, number as u32, member, &own[number])?;
    }
    in_order(alloc, found)
}

/// Adds a member of this number, which shows these leaves, if it is writable.
fn add_writer(
    found: &mut Writers,
    number: u32,
    member: &Member,
    leaves: &[u16],
) -> Result<(), NoMemory>
    ensures { OnOk result (found.new.entries ≡ with_writer found.old.entries (writer_of number member.now leaves.now)) }
{
    let Some(order) = member.def.order else {
        return Ok(());
    };
    let Some(link) = &member.link else {
        return Ok(());
    };
    let Some(writing) = writing_of(member.def.kind, leaves) else {
        return Ok(());
    };
    let link = link.share()?;
    found.insert((order, number), Writer { link, writing })?;
    Ok(())
}

/// What a put does with a member of this kind that shows these leaves.
fn writing_of(kind: MemberKind, leaves: &[u16]) -> Option<Writing>
    ensures { result ≡ writing_of kind (slice_get leaves.now 0) }
{
    match kind {
        MemberKind::Whole | MemberKind::Plain => match leaves.first() {
            Some(leaf) => Some(Writing::Writes(u32::from(*leaf))),
            None => None,
        },
        MemberKind::Proc => Some(Writing::Processes),
        MemberKind::Any | MemberKind::Meta | MemberKind::Structure => None,
    }
}

/// The writable members, taken from the map in order.
fn in_order(alloc: Global, found: Writers) -> Result<Vec<Writer>, NoMemory>
    ensures { IfOk result (λ writers. writers.items ≡ map (λ e. e.1) found.entries) }
{
    let mut left = found;
    let mut writers = Vec::with_capacity(alloc, left.len())?;
    while let Some((_, writer)) = left.pop_first() {
        writers.push(writer)?;
    }
    Ok(writers)
}
