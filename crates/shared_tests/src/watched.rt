// A put posts to the subscriptions of other desks, and all desks share the count of those that live.
ghost use Rattle.std.specs.Prelude.{◌≡◌, ℕ, true};
ghost use Rattle.desk_api.specs.Living.{lives};

use crate::halls::beside;
use crate::scenes::{DoingBeside, begun, popped, put_number};
use desk_api::{Desk, SubAnswer};
use std::alloc::Global;
use std::test::Fail;

/// One desk watches B, and the other puts 5 to B, 9 to A and 6 to B. The number of the first update, of one behind it, of one behind the
/// puts, and of one behind that.
struct Watch;

impl DoingBeside for Watch {
    type Told = [Option<i32>; 4];

    fn with<D: Desk, E: Desk>(&self, alloc: Global, one: &mut D, two: &mut E) -> Self::Told {
        let Ok(sub) = begun(alloc, one, 1) else {
            return [None; 4];
        };
        let first = popped(one, &sub);
        let none = popped(one, &sub);
        let _ = put_number(alloc, two, "B", 5);
        let _ = put_number(alloc, two, "A", 9);
        let _ = put_number(alloc, two, "B", 6);
        let merged = popped(one, &sub);
        let empty = popped(one, &sub);
        one.unsubscribe(sub);
        [first, none, merged, empty]
    }
}

#[test]
fn a_put_posts_to_the_subscription_of_another_desk(rt: HostRuntime) -> Result<(), Fail> {
    let told = beside(&rt, rt.alloc(), &Watch);
    assert_eq!(rt; told, Some([Some(1), None, Some(6), None]));
    Ok(())
}

/// Begins so many subscriptions, and tells how many began.
fn begin_many<D: Desk>(alloc: Global, desk: &mut D, times: u32) -> u32 {
    let mut count = 0u32;
    for _ in 0..times {
        count = count.saturating_add(u32::from(begun(alloc, desk, 1).is_ok()));
    }
    count
}

/// Whether as many subscriptions live as may, so that no other begins.
fn is_crowded<D: Desk>(alloc: Global, desk: &mut D) -> bool
    ensures { (slot : ℕ) → lives (D.seat desk.old).log slot ≡ true → lives (D.seat desk.new).log slot ≡ true }
{
    matches!(
        begun(alloc, desk, 1),
        Err(Some(SubAnswer::TooManyMonitors(1024)))
    )
}

/// Two desks begin 1,024 subscriptions beside each other, and the first one ends one of its own. How many began, whether then neither
/// begins one more, whether a put that posts to all is done, and whether one begins again once one has ended.
struct Crowd;

impl DoingBeside for Crowd {
    type Told = ([u32; 3], [bool; 4]);

    fn with<D: Desk, E: Desk>(&self, alloc: Global, one: &mut D, two: &mut E) -> Self::Told {
        let first = begin_many(alloc, one, 511);
        let second = begin_many(alloc, two, 512);
        let Ok(sub) = begun(alloc, one, 1) else {
            return ([first, second, 0], [false; 4]);
        };
        let full = [is_crowded(alloc, one), is_crowded(alloc, two)];
        let done = put_number(alloc, two, "B", 5).is_some_and(|answer| answer.is_ok());
        one.unsubscribe(sub);
        let third = begin_many(alloc, two, 2);
        let again = is_crowded(alloc, one);
        ([first, second, third], [full[0], full[1], done, again])
    }
}

#[test]
fn desks_share_the_count_of_subscriptions(rt: HostRuntime) -> Result<(), Fail> {
    let told = beside(&rt, rt.alloc(), &Crowd);
    assert_eq!(rt; told, Some(([511, 512, 1], [true; 4])));
    Ok(())
}
