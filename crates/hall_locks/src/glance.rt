//! A visit that looks at the hub.
ghost use Rattle.std.specs.Prelude.{◌≡◌, length, true};
ghost use Rattle.hall_locks.specs.Hands.{GlancesAtHub, have_slots};

use crate::view::{Place, View};
use atomic_table::Seat;
use hall_core::Law;

/// A seat that has the hub above the cells of a footprint, and leaves it where it is: nobody else adds to the history meanwhile.
///
/// If it is dropped, neither the hub nor its cells are ever given back.
#[derive(Drop)]
pub struct Glance<T: Law> {
    pub seat: Seat<
        Place<T::Cell, T::Hub>,
        View<T::Hub, T::Entry, T::Base, T::Mark, T::RollItem, T::Shown>,
    >,
    /// The numbers of the cells.
    pub footprint: Vec<u32>,
    /// The cells, in the same order.
    pub cells: Vec<T::Cell>,
    ghost glances: { GlancesAtHub seat.me footprint.items },
    ghost slots: { have_slots seat.table_id.slots footprint.items ≡ true },
    ghost many: { length cells.items ≡ length footprint.items },
}
