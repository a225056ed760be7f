// For each record, the slots of the subscriptions of which it triggers leaves.
ghost use Rattle.std.specs.Prelude.{◌≡◌, ◌<◌, ◌==◌, ◌&&◌, ◌||◌, ℕ, not, false, length, IfOk, OnOk, OnErr};
ghost use Rattle.std.specs.List.{list_any};
ghost use Rattle.std.specs.FinSet.{contains};
ghost use Rattle.mon_shown.specs.Noting.{has_slot, has_slot_at, names};

use pvd_type::{BitSet, NoMemory};
use rec_kinds::RecState;
use std::alloc::Global;

/// The slots that are listed under one record.
#[derive(Drop)]
pub(crate) struct Listed {
    slots: Vec<u16>,
}

impl Listed {
    /// One more.
    fn add(&mut self, slot: u16) -> Result<(), NoMemory>
        ensures ok { OnOk result ((s : ℕ) → has_slot self.new s ≡ (has_slot self.old s || (s == slot))) }
        ensures err { OnErr result ((s : ℕ) → has_slot self.new s ≡ has_slot self.old s) }
    {
        self.slots.push(slot)?;
        Ok(())
    }

    /// One fewer.
    fn remove(&mut self, slot: u16)
        ensures { (s : ℕ) → has_slot self.new s ≡ (not (s == slot) && has_slot self.old s) }
    {
        self.slots.retain(move |kept| *kept != slot);
    }

    /// Adds them to a set.
    fn add_to(&self, found: &mut BitSet) -> Result<(), NoMemory>
        ensures { OnOk result ((s : ℕ) → contains found.new s ≡ (contains found.old s || has_slot self.now s)) }
    {
        for slot in &self.slots {
            found.insert(*slot as u32)?;
        }
        Ok(())
    }
}

/// The lists of all records, each at its record's place.
#[derive(Drop)]
pub(crate) struct Index {
    lists: Vec<Listed>,
}

impl Index {
    /// Nothing is listed.
    pub(crate) fn new(alloc: Global) -> Index
        ensures { (r s : ℕ) → names result r s ≡ false }
    {
        Index {
            lists: Vec::new(alloc),
        }
    }

    /// Makes a list for a record, and for those before it.
    fn widen(&mut self, alloc: Global, rec: usize) -> Result<(), NoMemory>
        requires { rec < 4294967296 }
        ensures same { (r s : ℕ) → names self.new r s ≡ names self.old r s }
        ensures there { OnOk result (rec < length self.new.lists.items) }
    {
        for _list in self.lists.len()..rec + 1 {
            self.lists.push(Listed {
                slots: Vec::new(alloc),
            })?;
        }
        Ok(())
    }

    /// Lists a slot under a record.
    pub(crate) fn add(&mut self, alloc: Global, rec: u32, slot: u16) -> Result<(), NoMemory>
        ensures ok { OnOk result ((r s : ℕ) → names self.new r s ≡ (names self.old r s || ((r == rec) && (s == slot)))) }
        ensures err { OnErr result ((r s : ℕ) → names self.new r s ≡ names self.old r s) }
    {
        let at = rec as usize;
        self.widen(alloc, at)?;
        add_at(&mut self.lists, at, slot)
    }

    /// Takes a slot from a record's list.
    pub(crate) fn remove(&mut self, rec: u32, slot: u16)
        ensures { (r s : ℕ) → names self.new r s ≡ (not ((r == rec) && (s == slot)) && names self.old r s) }
    {
        let at = rec as usize;
        if at >= self.lists.len() {
            return;
        }
        remove_at(&mut self.lists, at, slot);
    }

    /// The slots that are listed under some of the written records.
    pub(crate) fn concerned(
        &self,
        alloc: Global,
        writes: &[(u32, RecState)],
    ) -> Result<BitSet, NoMemory>
        ensures { IfOk result (λ found. (s : ℕ) → contains found s ≡ list_any (λ w. names self.now w.0 s) writes.now) }
    {
        let mut found = BitSet::new(alloc);
        for write in writes {
            self.add_listed(write.0, &mut found)?;
        }
        Ok(found)
    }

    /// Adds the slots that are listed under a record.
    fn add_listed(&self, rec: u32, found: &mut BitSet) -> Result<(), NoMemory>
        ensures { OnOk result ((s : ℕ) → contains found.new s ≡ (contains found.old s || names self.now rec s)) }
    {
        match self.lists.get(rec as usize) {
            Some(listed) => listed.add_to(found),
            None => Ok(()),
        }
    }
}

/// Adds to the list at a place.
fn add_at(lists: &mut Vec<Listed>, at: usize, slot: u16) -> Result<(), NoMemory>
    requires { at < length lists.old.items }
    ensures ok { OnOk result ((r s : ℕ) → has_slot_at lists.new.items r s ≡ (has_slot_at lists.old.items r s || ((r == at) && (s == slot)))) }
    ensures err { OnErr result ((r s : ℕ) → has_slot_at lists.new.items r s ≡ has_slot_at lists.old.items r s) }
{
    lists[at].add(slot)
}

/// Takes from the list at a place.
fn remove_at(lists: &mut Vec<Listed>, at: usize, slot: u16)
    requires { at < length lists.old.items }
    ensures { (r s : ℕ) → has_slot_at lists.new.items r s ≡ (not ((r == at) && (s == slot)) && has_slot_at lists.old.items r s) }
{
    lists[at].remove(slot);
}
