// Which records a record reaches by live links.
ghost use Rattle.std.specs.Prelude.{◌≡◌, ◌==◌, ◌<◌, ℕ, List, [], length, slice_get, true, IfOk, OnOk};
ghost use Rattle.std.specs.Option.{option_copied};
ghost use Rattle.db_links.specs.Live.{are_inside, names, any_names};
ghost use Rattle.db_links.specs.Reaching.{IsReach};
ghost use Rattle.db_links.specs.declared.link.RecordLinks.{RecordLinks};
ghost use Rattle.db_links.specs.Walks.{Grows, IsWalk};

use crate::link::{Link, Links, RecordLinks};
use pvd_type::NoMemory;
use std::alloc::Global;
use std::collections::BTreeSet;

/// The records that are reached, and those of them whose links are still to be followed.
#[derive(Drop)]
struct Walk {
    reached: BTreeSet<u32>,
    left: Vec<u32>,
}

impl Links {
    /// The records that a record reaches by live links, itself among them, in rising order (EPICS record reference, "Lock
    /// Sets"). It takes time and memory for what it reaches alone.
    pub fn reach(&self, alloc: Global, rec: u32) -> Result<Vec<u32>, NoMemory>
        requires within { rec < length self.now }
        ensures { IfOk result (λ records. IsReach self.now rec records.items) }
    {
        let mut walk = begun(alloc, rec)?;
        follow_all(self.by_record.as_slice(), rec, &mut walk)?;
        let records = in_order(alloc, walk.reached)?;
        Ok(records)
    }
}

/// Follows the links that are left to be followed on the walk from a record, until none is.
fn follow_all(links: &[RecordLinks], from: u32, walk: &mut Walk) -> Result<(), NoMemory>
    requires inside { are_inside links.now ≡ true }
    requires walk { IsWalk links.now from walk.old.reached walk.old.left.items }
    ensures none { OnOk result (walk.new.left.items ≡ []) }
    ensures walk { OnOk result (IsWalk links.now from walk.new.reached walk.new.left.items) }
{
    while let Some(next) = walk.left.pop() {
        follow(walk, links_at(links, next))?;
    }
    Ok(())
}

/// The links of a record.
fn links_at(links: &[RecordLinks], rec: u32) -> Option<&RecordLinks>
    ensures { option_copied result ≡ slice_get links.now rec }
{
    links.get(rec as usize)
}

/// The walk that begins at a record.
fn begun(alloc: Global, rec: u32) -> Result<Walk, NoMemory>
    ensures { IfOk result (λ walk. (links : List RecordLinks) → rec < length links → IsWalk links rec walk.reached walk.left.items) }
{
    let mut walk = Walk {
        reached: BTreeSet::new(alloc),
        left: Vec::new(alloc),
    };
    mark(&mut walk, rec)?;
    Ok(walk)
}

/// Marks a record as reached. If it wasn't, its links are to be followed.
fn mark(walk: &mut Walk, rec: u32) -> Result<(), NoMemory>
    ensures { OnOk result (Grows (λ q. q == rec) walk.old.reached walk.old.left.items walk.new.reached walk.new.left.items) }
{
    if walk.reached.insert(rec)? {
        walk.left.push(rec)?;
    }
    Ok(())
}

/// Marks the record that a link names.
fn mark_target(walk: &mut Walk, link: &Option<Link>) -> Result<(), NoMemory>
    ensures { OnOk result (Grows (names link.now) walk.old.reached walk.old.left.items walk.new.reached walk.new.left.items) }
{
    match link {
        Some(link) => mark(walk, link.target),
        None => Ok(()),
    }
}

/// Marks the records that the links of a record name.
fn follow(walk: &mut Walk, links: Option<&RecordLinks>) -> Result<(), NoMemory>
    ensures { OnOk result (Grows (any_names (option_copied links.entry)) walk.old.reached walk.old.left.items walk.new.reached walk.new.left.items) }
{
    let Some(links) = links else {
        return Ok(());
    };
    mark_target(walk, &links.inp)?;
    mark_target(walk, &links.out)?;
    mark_target(walk, &links.flnk)
}

/// The numbers of a set, in rising order.
fn in_order(alloc: Global, numbers: BTreeSet<u32>) -> Result<Vec<u32>, NoMemory>
    ensures { IfOk result (λ list. list.items ≡ numbers.keys) }
{
    let mut left = numbers;
    let mut list = Vec::with_capacity(alloc, left.len())?;
    while let Some(number) = left.pop_first() {
        list.push(number)?;
    }
    Ok(list)
}
