//! One cell is taken or given back.
ghost use Rattle.std.specs.Prelude.{◌≡◌, ℕ, suc, ◌+◌, ◌<◌, ◌∷◌, None, true, false};
ghost use Rattle.atomic_table.specs.Table.{rest};
ghost use Rattle.histories.specs.History.{Every};
ghost use Rattle.hall_locks.specs.Hall.{with_cell, with_cells, WasShown};
ghost use Rattle.hall_locks.specs.Lines.{word_at};
ghost use Rattle.hall_locks.specs.Steps.{MayTake, TookCell};
ghost use Rattle.hall_locks.specs.declared.view.Place.TheVariants.{Away, Cell};

use crate::hall::{Hall, Token};
use crate::plays::{Footprint, GivesCell, TakesCell};
use crate::view::Place;
use crate::words::{AWAITED, FREE, TAKEN, TRIES, word_of};
use hall_core::Law;
use std::sync::Wait;

impl<T: Law> Hall<T> {
    // Takes one cell, above all that the seat holds.
    pub(crate) fn take<B: Footprint, R: Wait>(
        &self,
        rt: &R,
        seat: &mut Token<T>,
        cell: usize,
    ) -> T::Cell
        requires own { seat.old.table_id ≡ self.now.table.shared.table_id }
        requires inside { Every (λ c. c < self.now.count) B.bound }
        requires live { seat.old.me.0.live ≡ true }
        requires may { MayTake seat.old.me.0 B.bound cell }
        ensures own { (seat.new.table_id ≡ seat.old.table_id) × (seat.new.id ≡ seat.old.id) }
        ensures taken { seat.new.me
            ≡ (with_cell seat.old.me.0 B.bound cell (T.meaning.shows result), (suc cell, Away) ∷ seat.old.me.1) }
        ensures was { WasShown T.meaning seat.old.me.0.seen.base (cell, T.meaning.shows result) }
    {
        self.take_word::<B, R>(rt, seat, cell);
        self.take_out(seat, cell + 1)
    }

    // The cell's word, once it is free.
    fn take_word<B: Footprint, R: Wait>(&self, rt: &R, seat: &mut Token<T>, cell: usize)
        requires own { seat.old.table_id ≡ self.now.table.shared.table_id }
        requires inside { Every (λ c. c < self.now.count) B.bound }
        requires live { seat.old.me.0.live ≡ true }
        requires may { MayTake seat.old.me.0 B.bound cell }
        ensures own { (seat.new.table_id ≡ seat.old.table_id) × (seat.new.id ≡ seat.old.id) }
        ensures took { TookCell T.meaning B.bound (word_at (cell + 1)) seat.old.me seat.new.me }
    {
        if self.try_word::<B>(seat, cell) {
            return;
        }
        let place = cell + 1;
        let word = word_of(place);
        let table = &self.table.shared;
        for _ in rt.forever() {
            if table.swap::<TakesCell<T, B>>(seat, word, AWAITED) == FREE {
                return;
            }
            table.park(rt, word, AWAITED as u32);
        }
        unreachable!()
    }

    // The cell's word, if it is free within a few tries.
    fn try_word<B: Footprint>(&self, seat: &mut Token<T>, cell: usize) -> bool
        requires own { seat.old.table_id ≡ self.now.table.shared.table_id }
        requires inside { Every (λ c. c < self.now.count) B.bound }
        requires live { seat.old.me.0.live ≡ true }
        requires may { MayTake seat.old.me.0 B.bound cell }
        ensures own { (seat.new.table_id ≡ seat.old.table_id) × (seat.new.id ≡ seat.old.id) }
        ensures took { result ≡ true → TookCell T.meaning B.bound (word_at (cell + 1)) seat.old.me seat.new.me }
        ensures not { result ≡ false → seat.new.me ≡ seat.old.me }
    {
        let place = cell + 1;
        let word = word_of(place);
        for _ in 0..TRIES {
            if self
                .table
                .shared
                .compare_exchange::<TakesCell<T, B>>(seat, word, FREE, TAKEN)
                == FREE
            {
                return true;
            }
            self.watch(place);
        }
        false
    }

    // The cell out of its slot, whose word is taken.
    fn take_out(&self, seat: &mut Token<T>, place: usize) -> T::Cell
        requires own { seat.old.table_id ≡ self.now.table.shared.table_id }
        requires there { (x : T.Cell) × (seat.old.me.1 ≡ (place, Cell x) ∷ rest seat.old.me.1) }
        ensures own { (seat.new.table_id ≡ seat.old.table_id) × (seat.new.id ≡ seat.old.id) }
        ensures value { seat.old.me.1 ≡ (place, Cell result) ∷ rest seat.old.me.1 }
        ensures away { seat.new.me ≡ (seat.old.me.0, (place, Away) ∷ rest seat.old.me.1) }
    {
        let Place::Cell(cell) = self.table.shared.exchange(seat, place, Place::Away) else {
            unreachable!()
        };
        cell
    }

    // Gives back the cell that was taken last.
    pub(crate) fn give(&self, seat: &mut Token<T>, cell: usize, value: T::Cell)
        requires own { seat.old.table_id ≡ self.now.table.shared.table_id }
        requires inside { cell < self.now.count }
        requires last { seat.old.me.0.cells ≡ (cell, T.meaning.shows value) ∷ rest seat.old.me.0.cells }
        requires no_hub { seat.old.me.0.hub ≡ None }
        requires away { seat.old.me.1 ≡ (suc cell, Away) ∷ rest seat.old.me.1 }
        ensures own { (seat.new.table_id ≡ seat.old.table_id) × (seat.new.id ≡ seat.old.id) }
        ensures given { seat.new.me
            ≡ (with_cells seat.old.me.0 (rest seat.old.me.0.cells), rest seat.old.me.1) }
    {
        let place = cell + 1;
        let word = word_of(place);
        self.table.shared.exchange(seat, place, Place::Cell(value));
        let found = self.table.shared.swap::<GivesCell>(seat, word, FREE);
        self.wake(place, found);
    }
}
