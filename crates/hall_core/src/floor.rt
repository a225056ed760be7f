//! The floor: cells, a hub, and actors that take them and give them back.
ghost use Rattle.std.specs.Prelude.{◌≡◌, ◌↔◌, ◌^◌, ◌<◌, [], Bool, None, Some, length, slice_get, IfOk, IsTrue};
ghost use Rattle.histories.specs.History.{Every};
ghost use Rattle.hall_core.specs.Floor.{opened_with, written, HoldsNoneFrom, HoldsOneFrom, Shows, IsSound, take_cell, take_hub, commit, look, give_cell, event_of, IsReady, Steps, FloorState};

use crate::law::Law;
use crate::memory::NoMemory;
use std::alloc::Global;
use std::marker::Model;

/// What a commit leaves behind.
#[derive(Drop)]
pub struct Next<T: Law> {
    /// The hub with the new entry.
    pub hub: T::Hub,
    /// The new value of each cell in the entry's footprint.
    pub writes: Vec<(u32, T::Cell)>,
}

/// What an actor does on a floor. Actors and cells are numbers, the actor's first.
#[derive(Drop)]
pub enum FloorEvent<T: Law> {
    /// The actor takes the cell: a free one above all that it holds, while it doesn't hold the hub.
    Take(u32, u32),
    /// The actor takes the hub, which is free.
    TakeHub(u32),
    /// The actor, which holds the hub and the cells of the entry's footprint, adds one entry to the
    /// journal, writes those cells and gives the hub back.
    Commit(u32, Next<T>),
    /// The actor gives the hub back as it was.
    Look(u32),
    /// The actor gives the cell back, while it doesn't hold the hub.
    Give(u32, u32),
}

/// Cells and a hub, each with at most one holder.
#[derive(Drop)]
pub struct Floor<T: Law> {
    cells: Vec<T::Cell>,
    holders: Vec<Option<u32>>,
    hub: T::Hub,
    hub_holder: Option<u32>,
}

impl<T: Law> Model for Floor<T> {
    ghost Value = { FloorState T.Cell T.Hub };

    ghost view = { λ f. record {
      cells = f.cells.items;
      holders = f.holders.items;
      hub = f.hub;
      hub_holder = f.hub_holder;
    } };

    ghost invariant = { λ f. length f.holders.items ≡ length f.cells.items };
}

impl<T: Law> Floor<T> {
    /// A floor on which nobody holds anything, with an empty journal.
    pub fn new(alloc: Global, cells: Vec<T::Cell>, hub: T::Hub) -> Result<Floor<T>, NoMemory>
        requires few { length cells.items < 2 ^ 32 }
        requires empty { T.meaning.entries hub ≡ [] }
        requires shown { Shows T.meaning (T.meaning.base_of hub) [] cells.items }
        ensures opened { IfOk result (λ f. f ≡ opened_with cells.items hub) }
        ensures sound { IfOk result (IsSound T.meaning) }
    {
        let holders = vec![in alloc; None; cells.len()]?;
        Ok(Floor {
            cells,
            holders,
            hub,
            hub_holder: None,
        })
    }

    /// The value of a cell.
    pub fn cell(&self, cell: u32) -> &T::Cell
        requires { cell < length self.now.cells }
        ensures { slice_get self.now.cells cell ≡ Some result.now }
    {
        &self.cells[cell as usize]
    }

    /// Does what the event says, where it is enabled. Else the answer is false, and nothing changes.
    ///
    /// It takes no memory: a commit moves its hub and its cells in.
    pub fn step(&mut self, event: FloorEvent<T>) -> bool
        requires ready { IsReady T.meaning self.old (event_of event) }
        ensures step { Steps T.meaning self.old (event_of event) result self.new }
        ensures sound { IsSound T.meaning self.old → IsSound T.meaning self.new }
    {
        match event {
            FloorEvent::Take(actor, cell) => self.take(actor, cell as usize),
            FloorEvent::TakeHub(actor) => self.take_hub(actor),
            FloorEvent::Commit(actor, next) => self.commit(actor, next),
            FloorEvent::Look(actor) => self.look(actor),
            FloorEvent::Give(actor, cell) => self.give(actor, cell as usize),
        }
    }

    fn take(&mut self, actor: u32, cell: usize) -> bool
        ensures { Steps T.meaning self.old (take_cell actor cell) result self.new }
    {
        if self.hub_holder == Some(actor) || holds_from(self.holders.as_slice(), actor, cell) {
            return false;
        }
        if !is_free(self.holders.as_slice(), cell) {
            return false;
        }
        self.holders[cell] = Some(actor);
        true
    }

    fn take_hub(&mut self, actor: u32) -> bool
        ensures { Steps T.meaning self.old (take_hub actor) result self.new }
    {
        if self.hub_holder.is_some() {
            return false;
        }
        self.hub_holder = Some(actor);
        true
    }

    fn commit(&mut self, actor: u32, next: Next<T>) -> bool
        requires { IsReady T.meaning self.old (commit actor next.hub next.writes.items) }
        ensures { Steps T.meaning self.old (commit actor next.hub next.writes.items) result self.new }
    {
        if self.hub_holder != Some(actor) {
            return false;
        }
        if !holds_all(self.holders.as_slice(), actor, next.writes.as_slice()) {
            return false;
        }
        let Next { hub, writes } = next;
        self.hub = hub;
        self.hub_holder = None;
        write_all(&mut self.cells, writes);
        true
    }

    fn look(&mut self, actor: u32) -> bool
        ensures { Steps T.meaning self.old (look actor) result self.new }
    {
        if self.hub_holder != Some(actor) {
            return false;
        }
        self.hub_holder = None;
        true
    }

    fn give(&mut self, actor: u32, cell: usize) -> bool
        ensures { Steps T.meaning self.old (give_cell actor cell) result self.new }
    {
        if self.hub_holder == Some(actor) || !holds(self.holders.as_slice(), actor, cell) {
            return false;
        }
        self.holders[cell] = None;
        true
    }
}

/// Whether the actor holds the cell.
fn holds(holders: &[Option<u32>], actor: u32, cell: usize) -> bool
    ensures { IsTrue result ↔ (slice_get holders.now cell ≡ Some (Some actor)) }
{
    match holders.get(cell) {
        Some(holder) => *holder == Some(actor),
        None => false,
    }
}

/// Whether nobody holds the cell.
fn is_free(holders: &[Option<u32>], cell: usize) -> bool
    ensures { IsTrue result ↔ (slice_get holders.now cell ≡ Some None) }
{
    match holders.get(cell) {
        Some(holder) => holder.is_none(),
        None => false,
    }
}

/// Whether the actor holds a cell at or above this one.
fn holds_from(holders: &[Option<u32>], actor: u32, cell: usize) -> bool
    ensures none { result ≡ Bool.false → HoldsNoneFrom holders.now actor cell }
    ensures some { result ≡ Bool.true → HoldsOneFrom holders.now actor cell }
{
    for above in cell..holders.len() {
        if holders[above] == Some(actor) {
            return true;
        }
    }
    false
}

/// Whether the actor holds each cell that is written.
fn holds_all<C>(holders: &[Option<u32>], actor: u32, writes: &[(u32, C)]) -> bool
    ensures { IsTrue result ↔ Every (λ w. slice_get holders.now w.0 ≡ Some (Some actor)) writes.now }
{
    for write in writes {
        if !holds(holders, actor, write.0 as usize) {
            return false;
        }
    }
    true
}

/// Writes the cells.
fn write_all<C: Drop>(cells: &mut Vec<C>, writes: Vec<(u32, C)>)
    requires { Every (λ w. w.0 < length cells.old.items) writes.items }
    ensures { cells.new.items ≡ written cells.old.items writes.items }
{
    for (cell, value) in writes {
        cells[cell as usize] = value;
    }
}
