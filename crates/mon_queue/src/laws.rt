//! Laws of monitors, each the contract of a function that does nothing.

ghost use Rattle.std.specs.Prelude.{◌≤◌, ℕ, List};
ghost use Rattle.mon_queue.specs.Course.{Subscription, AreBetween, begun, after_pops, IsFoldedAt, IsUnreadAt};

/// The updates that a monitor was given and those that are unread fold to what it is shown, at every place of a history and
/// whatever the channel, its triggers and the requested leaves are.
///
/// Each entry that takes some requested leaf anew posts those in which the value shown differs, and the pops may stand at any
/// places in order.
pub fn updates_fold<State, Entry>()
    ensures { (sub : Subscription State Entry) (entries : List Entry) (pops : List ℕ) (n : ℕ) → 1 ≤ sub.size → AreBetween sub.place pops n → IsFoldedAt sub entries (after_pops sub entries (begun sub) pops) n }
{}

/// The unread runs of a subscription's course are those that a queue of its size holds after the same posts and pops.
pub fn courses_are_those_of_queues<State, Entry>()
    ensures { (sub : Subscription State Entry) (entries : List Entry) (pops : List ℕ) (n : ℕ) → 1 ≤ sub.size → IsUnreadAt sub entries pops n }
{}
