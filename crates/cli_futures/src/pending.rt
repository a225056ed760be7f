// A poll that asks for another one.
ghost use Rattle.std.specs.Prelude.{◌≡◌, ℕ, true};
ghost use Rattle.futures.specs.Task.{Hears, IsArmed, Keeps};
ghost use Rattle.futures.specs.declared.task.Poll.TheVariants as polls;

use futures::task::{Context, Poll};

/// Asks for another poll of the task. This one is pending.
pub(crate) fn ask_again<T>(cx: &mut Context<'_>) -> Poll<T>
    ensures pending { result ≡ polls.Pending }
    ensures armed { IsArmed cx.new }
    ensures yielded { (s : ℕ) → Hears cx.new s }
    ensures woken { cx.new.is_woken ≡ true }
    ensures kept { Keeps cx.old cx.new }
{
    cx.yield_now()
}
