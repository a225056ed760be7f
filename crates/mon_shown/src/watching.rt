ghost use Rattle.std.specs.Prelude.{◌≡◌, true};
ghost use Rattle.pvd_value.specs.View.{view};
ghost use Rattle.pvd_value.specs.Fits.{fits_of};
ghost use Rattle.mon_queue.specs.Told.{are_leaves};
ghost use Rattle.mon_queue.specs.Unread.{type_of};

use mon_queue::{MonQueue, Prepared, SharedValue};
use pvd_type::BitSet;

/// A living subscription: its channel, the leaves that it asked for, a value that has these as it is shown them at present, and its unread
/// updates.
#[derive(Drop)]
pub struct Watching<C> {
    pub(crate) channel: C,
    pub(crate) requested: BitSet,
    pub(crate) shown: SharedValue,
    pub(crate) queue: MonQueue,
    ghost fit: { fits_of 16 (view shown) (type_of queue) ≡ true },
    ghost leaves: { are_leaves (type_of queue) requested ≡ true },
}

/// What an entry will change of a subscription that it posts to.
#[derive(Drop)]
pub struct Ready {
    /// What it is shown then.
    pub(crate) shown: SharedValue,
    pub(crate) prepared: Prepared,
}
