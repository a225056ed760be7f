// All subscriptions of a desk.
ghost use Rattle.std.specs.Prelude.{◌≡◌, ◌≤◌, length, true};
ghost use Rattle.mon_shown.specs.Readies.{are_apart};

use crate::index::Index;
use crate::watching::{Ready, Watching};

/// How many subscriptions may live at a time.
pub(crate) const LIMIT: usize = 1024;

/// The living subscriptions of a desk, at most 1,024, each in its slot.
#[derive(Drop)]
pub struct Subscriptions<C> {
    pub(crate) slots: Vec<Option<Watching<C>>>,
    pub(crate) index: Index,
    ghost few: { length slots.items ≤ 1024 },
}

/// What an entry will change of the subscriptions: of each that it posts to, by its slot.
#[derive(Drop)]
pub struct Readied {
    pub(crate) readies: Vec<(u32, Ready)>,
    ghost apart: { are_apart readies.items ≡ true },
}
