//! Visits begin and end.
ghost use Rattle.std.specs.Prelude.{◌≡◌, ◌<◌, ◌≤◌, [], length, IfOk, IfErr, IsOk, vec_capacity};
ghost use Rattle.histories.specs.History.{Every};
ghost use Rattle.hall_locks.specs.Hall.{WasShown};
ghost use Rattle.hall_locks.specs.Passes.{hall_id, pass_hall, pass_view, pass_seen, pass_others, visit_hall, visit_view, visit_others};
ghost use Rattle.hall_locks.specs.Hands.{Carries, Rises, in_visit, Rests, AsTaken};

use crate::hall::{Hall, Token};
use crate::pass::Pass;
use crate::plays::Footprint;
use crate::visit::Visit;
use hall_core::{Law, NoMemory};
use std::alloc::{AllocError, Global};
use std::marker::Brand;
use std::sync::Wait;

/// An empty vector with room for so many. Room for none takes no memory.
fn with_room<C>(alloc: Global, room: usize) -> Result<Vec<C>, AllocError>
    ensures room { IfOk result (λ v. (v.items ≡ []) × (room ≤ vec_capacity v)) }
    ensures none { room ≡ 0 → IsOk result }
{
    if room == 0 {
        return Ok(Vec::new(alloc));
    }
    Vec::with_capacity(alloc, room)
}

impl<T: Law> Hall<T> {
    // Takes the cells of the footprint, one after another.
    fn take_all<B: Footprint, R: Wait>(
        &self,
        rt: &R,
        seat: &mut Token<T>,
        footprint: &[u32],
        cells: &mut Vec<T::Cell>,
    )
        requires own { seat.old.table_id ≡ self.now.table.shared.table_id }
        requires rests { Rests seat.old.me }
        requires bound { footprint.now ≡ B.bound }
        requires rises { Rises footprint.now }
        requires inside { Every (λ c. c < self.now.count) footprint.now }
        requires room { (cells.old.items ≡ []) × (length footprint.now ≤ vec_capacity cells.old) }
        ensures own { (seat.new.table_id ≡ seat.old.table_id) × (seat.new.id ≡ seat.old.id) }
        ensures carries { Carries seat.new.me footprint.now }
        ensures values { AsTaken T.meaning seat.new.me.0 cells.new.items }
        ensures many { length cells.new.items ≡ length footprint.now }
        ensures same { seat.new.me.0 ≡ in_visit seat.old.me.0 seat.new.me.0.bound seat.new.me.0.cells }
        ensures was { Every (WasShown T.meaning seat.old.me.0.seen.base) seat.new.me.0.cells }
    {
        for i in 0..footprint.len() {
            let x = self.take::<B, R>(rt, seat, footprint[i] as usize);
            cells.push_reserved(x);
        }
    }

    // Gives the cells back, the last one first.
    pub(crate) fn give_all(
        &self,
        seat: &mut Token<T>,
        mut footprint: Vec<u32>,
        mut cells: Vec<T::Cell>,
    )
        requires own { seat.old.table_id ≡ self.now.table.shared.table_id }
        requires carries { Carries seat.old.me footprint.items }
        requires inside { Every (λ c. c < self.now.count) footprint.items }
        requires many { length cells.items ≡ length footprint.items }
        requires taken { AsTaken T.meaning seat.old.me.0 cells.items }
        ensures own { (seat.new.table_id ≡ seat.old.table_id) × (seat.new.id ≡ seat.old.id) }
        ensures rests { Rests seat.new.me }
        ensures same { seat.new.me.0 ≡ in_visit seat.old.me.0 seat.old.me.0.bound [] }
    {
        while let Some(cell) = footprint.pop() {
            let Some(x) = cells.pop() else { unreachable!() };
            self.give(seat, cell as usize, x);
        }
    }
}

impl<T: Law> Hall<T> {
    /// Takes the cells of the footprint, in rising order. It may wait for each.
    ///
    /// Without memory for them the pass comes back as it was.
    pub fn visit<R: Wait>(
        &self,
        rt: &R,
        alloc: Global,
        pass: Pass<T>,
        footprint: Vec<u32>,
    ) -> Result<Visit<T>, (Pass<T>, NoMemory)>
        requires own { pass_hall pass ≡ hall_id self.now }
        requires rises { Rises footprint.items }
        requires inside { Every (λ c. c < self.now.count) footprint.items }
        ensures own { IfOk result (λ v. visit_hall v ≡ pass_hall pass) }
        ensures footprint { IfOk result (λ v. v.footprint.items ≡ footprint.items) }
        ensures taken { IfOk result (λ v. AsTaken T.meaning (visit_view v) v.cells.items) }
        ensures same { IfOk result (λ v. visit_view v
            ≡ in_visit (pass_view pass) (visit_view v).bound (visit_view v).cells) }
        ensures others { IfOk result (λ v. visit_others v ≡ pass_others pass) }
        ensures was { IfOk result (λ v. Every (WasShown T.meaning (pass_seen pass).base) (visit_view v).cells) }
        ensures back { IfErr result (λ e. e.0 ≡ pass) }
        ensures empty { footprint.items ≡ [] → IsOk result }
    {
        let mut cells = match with_room(alloc, footprint.len()) {
            Ok(cells) => cells,
            Err(_) => return Err((pass, NoMemory)),
        };
        let Pass { mut seat } = pass;
        self.take_all::<Brand, R>(rt, &mut seat, footprint.as_slice(), &mut cells);
        Ok(Visit {
            seat,
            footprint,
            cells,
        })
    }

    /// Gives the cells back, which show what they showed when they were taken. It takes no memory.
    pub fn leave(&self, visit: Visit<T>) -> Pass<T>
        requires own { visit_hall visit ≡ hall_id self.now }
        requires taken { AsTaken T.meaning (visit_view visit) visit.cells.items }
        ensures own { pass_hall result ≡ visit_hall visit }
        ensures same { pass_view result ≡ in_visit (visit_view visit) (visit_view visit).bound [] }
        ensures others { pass_others result ≡ visit_others visit }
    {
        let Visit {
            mut seat,
            footprint,
            cells,
        } = visit;
        self.give_all(&mut seat, footprint, cells);
        Pass { seat }
    }
}
