// What the records of a group trigger, and what is read for it.
ghost use Rattle.std.specs.Prelude.{◌≡◌, ◌≤◌, ◌<◌, ◌==◌, ◌++◌, ◌∷◌, [], false, if◌then◌else◌, ℕ, length, fold, slice_get, option_and_then, IfOk, OnOk};
ghost use Rattle.std.specs.FinSet as set;
ghost use Rattle.std.specs.List.{AllByRecursion, flat_map};
ghost use Rattle.group_view.specs.Leaves.{places, is_number, leaves_at, is_about, read_by, numbers_at, rising, triggered_by, records_read, records_of};

use crate::member::Member;
use group_defs::MemberKind;
use pvd_type::{BitSet, NoMemory};
use rec_kinds::Items;
use std::alloc::Global;
use std::collections::{BTreeMap, BTreeSet};

/// What a record of a group triggers.
#[derive(Drop)]
pub(crate) struct Reach {
    /// The leaves that are posted when the record changes.
    pub triggered: BitSet,
    /// The records that these leaves read, in rising order.
    pub footprint: Items<u32>,
}

impl Reach {
    /// What the members of these numbers reach, in a group whose members show these leaves.
    pub fn of(
        alloc: Global,
        members: &[Member],
        own: &[Vec<u16>],
        triggers: &[u32],
    ) -> Result<Reach, NoMemory>
        requires { AllByRecursion (λ n. n < length own.now) triggers.now }
        ensures { IfOk result (λ reach. reach ≡ record { triggered = fold set.insert set.empty (flat_map (leaves_at own.now) triggers.now); footprint = records_read members.now triggers.now }) }
    {
        let numbers = each_once(alloc, triggers)?;
        Ok(Reach {
            triggered: leaves_in(alloc, own, &numbers)?,
            footprint: Items::from_vec(records_read(alloc, members, &numbers)?),
        })
    }
}

/// What the members of each record trigger, one after another.
pub(crate) type Triggers = BTreeMap<u32, Vec<u32>>;

/// What the members of each record trigger.
pub(crate) fn triggers_of(alloc: Global, members: &[Member]) -> Result<Triggers, NoMemory>
    ensures { IfOk result (λ found. (rec : ℕ) → numbers_at found rec ≡ triggered_by members.now rec) }
{
    let mut found = BTreeMap::new(alloc);
    for member in members {
        add_triggers(alloc, &mut found, member)?;
    }
    Ok(found)
}

/// Adds what a member triggers to what its record does.
fn add_triggers(alloc: Global, found: &mut Triggers, member: &Member) -> Result<(), NoMemory>
    ensures { OnOk result ((rec : ℕ) → numbers_at found.new rec ≡ numbers_at found.old rec ++ (if is_about rec member.now.link then member.now.def.trigger else [])) }
{
    let Some(link) = &member.link else {
        return Ok(());
    };
    let rec = link.rec();
    let mut numbers = take_numbers(alloc, found, rec);
    numbers.extend_from_slice(member.def.trigger.as_slice())?;
    found.insert(rec, numbers)?;
    Ok(())
}

/// Takes what a record triggers out of a map.
fn take_numbers(alloc: Global, found: &mut Triggers, rec: u32) -> Vec<u32>
    ensures numbers { result.items ≡ numbers_at found.old rec }
    ensures others { (other : ℕ) → (rec == other) ≡ false → numbers_at found.new other ≡ numbers_at found.old other }
{
    match found.remove(&rec) {
        Some(numbers) => numbers,
        None => Vec::new(alloc),
    }
}

/// What the members of a record trigger, one after another.
pub(crate) fn numbers_of(found: &Triggers, rec: u32) -> &[u32]
    ensures { result.now ≡ numbers_at found.now rec }
{
    match found.get(&rec) {
        Some(numbers) => numbers,
        None => &[],
    }
}

/// Numbers in rising order, each once.
fn each_once(alloc: Global, numbers: &[u32]) -> Result<Vec<u32>, NoMemory>
    ensures { IfOk result (λ list. list.items ≡ rising numbers.now) }
{
    let mut found = BTreeSet::new(alloc);
    for number in numbers {
        found.insert(*number)?;
    }
    in_order(alloc, found)
}

/// Which leaves each of so many members shows, where this says which member shows the leaf under each number.
pub(crate) fn own_leaves(
    alloc: Global,
    shown: &[Option<u32>],
    count: usize,
) -> Result<Vec<Vec<u16>>, NoMemory>
    requires { length shown.now ≤ 4096 }
    ensures count { IfOk result (λ own. length own.items ≡ count) }
    ensures leaves { IfOk result (λ own. (n : ℕ) → n < count → leaves_at own.items n ≡ places (is_number n) 0 shown.now) }
{
    let mut own = Vec::with_capacity(alloc, count)?;
    for _ in 0..count {
        own.push(Vec::new(alloc))?;
    }
    for (number, member) in shown.iter().enumerate() {
        if let Some(member) = member {
            add_leaf(&mut own, *member, number as u16)?;
        }
    }
    Ok(own)
}

/// Adds a leaf to those that a member shows.
fn add_leaf(own: &mut Vec<Vec<u16>>, member: u32, number: u16) -> Result<(), NoMemory>
    ensures count { length own.new.items ≡ length own.old.items }
    ensures leaves { OnOk result ((n : ℕ) → n < length own.old.items → leaves_at own.new.items n ≡ (if member == n then leaves_at own.old.items n ++ number ∷ [] else leaves_at own.old.items n)) }
{
    if let Some(leaves) = own.get_mut(member as usize) {
        leaves.push(number)?;
    }
    Ok(())
}

/// The leaves that the members of these numbers show.
fn leaves_in(alloc: Global, own: &[Vec<u16>], numbers: &[u32]) -> Result<BitSet, NoMemory>
    requires { AllByRecursion (λ n. n < length own.now) numbers.now }
    ensures { IfOk result (λ found. found ≡ fold set.insert set.empty (flat_map (leaves_at own.now) numbers.now)) }
{
    let mut found = BitSet::new(alloc);
    for number in numbers {
        add_leaves(&mut found, &own[*number as usize])?;
    }
    Ok(found)
}

fn add_leaves(found: &mut BitSet, leaves: &[u16]) -> Result<(), NoMemory>
    ensures { OnOk result (found.new ≡ fold set.insert found.old leaves.now) }
{
    for leaf in leaves {
        found.insert(u32::from(*leaf))?;
    }
    Ok(())
}

/// The records that the members of these numbers show, in rising order, each once.
fn records_read(alloc: Global, members: &[Member], numbers: &[u32]) -> Result<Vec<u32>, NoMemory>
    ensures { IfOk result (λ records. records.items ≡ records_read members.now numbers.now) }
{
    let mut found = BTreeSet::new(alloc);
    for number in numbers {
        if let Some(rec) = read_at(members, *number) {
            found.insert(rec)?;
        }
    }
    in_order(alloc, found)
}

/// The record that the member of this number shows.
fn read_at(members: &[Member], number: u32) -> Option<u32>
    ensures { result ≡ option_and_then read_by (slice_get members.now number) }
{
    let member = members.get(number as usize)?;
    let link = member.link.as_ref()?;
    match member.def.kind {
        MemberKind::Whole | MemberKind::Plain | MemberKind::Any | MemberKind::Meta => {
            Some(link.rec())
        }
        MemberKind::Proc | MemberKind::Structure => None,
    }
}

/// All records of members, in rising order, each once.
pub(crate) fn records_of(alloc: Global, members: &[Member]) -> Result<Vec<u32>, NoMemory>
    ensures { IfOk result (λ records. records.items ≡ records_of members.now) }
{
    let mut found = BTreeSet::new(alloc);
    for member in members {
        if let Some(link) = &member.link {
            found.insert(link.rec())?;
        }
    }
    in_order(alloc, found)
}

/// The numbers of a set, in rising order.
fn in_order(alloc: Global, numbers: BTreeSet<u32>) -> Result<Vec<u32>, NoMemory>
    ensures { IfOk result (λ list. list.items ≡ numbers.keys) }
{
    let mut left = numbers;
    let mut list = Vec::with_capacity(alloc, left.len())?;
    while let Some(number) = left.pop_first() {
        list.push(number)?;
    }
    Ok(list)
}
