// Two threads put to one group and get it, beside each other.

use crate::halls::{Making, in_threads, ports_by, site, with_desk_here};
use crate::scenes::{Answer, Doing, both_shown, entered, put_both};
use desk_api::{Desk, NoMemory};
use desk_shared::open_hall;
use pva_outside::{DriveStep, Port};
use std::alloc::Global;
use std::sync::Wait;
use std::test::Fail;
use std::thread::Threads;

/// A port that takes every text and keeps none. Another would do, but a search finds of this one that it may cross threads.
#[derive(Drop)]
struct SilentPort {
    faults: u64,
}

impl Port for SilentPort {
    ghost use Rattle.std.specs.Prelude.{None};

    ghost port = { λ p. record { faults = p.faults; drives = None } };

    fn drive(&mut self, _text: &[u8]) -> DriveStep {
        DriveStep::Drove
    }
}

/// Ports of this kind.
struct Silent;

impl Making for Silent {
    type Port = SilentPort;

    fn make(&self, _alloc: Global) -> Result<SilentPort, NoMemory> {
        Ok(SilentPort { faults: 0 })
    }
}

/// Puts 500 numbers to both members of the group, from this one on, and gets the group behind each. How many puts were done, and how
/// many gets showed one number in both members.
#[derive(Drop)]
struct PutMany {
    from: i32,
}

impl Doing for PutMany {
    type Told = [u32; 2];

    fn with<D: Desk>(&self, alloc: Global, desk: &mut D) -> [u32; 2] {
        let mut done = 0u32;
        let mut same = 0u32;
        for number in 0..500i32 {
            let answer = put_both(alloc, desk, self.from.saturating_add(number));
            done = done.saturating_add(u32::from(matches!(answer, Some(Ok(_)))));
            same = same.saturating_add(u32::from(is_one_number(both_shown(alloc, desk, None))));
        }
        [done, same]
    }
}

/// Whether both members have one number.
fn is_one_number(pair: Option<[i32; 2]>) -> bool {
    match pair {
        Some(pair) => pair[0] == pair[1],
        None => false,
    }
}

/// Whether both members have the last number of one of the threads.
fn is_last(pair: Option<[i32; 2]>) -> bool {
    pair == Some([499, 499]) || pair == Some([1499, 1499])
}

/// Tells whether the last number of a thread is there, then puts one number more, and gets the group.
struct Count;

impl Doing for Count {
    type Told = (bool, Answer, Option<[i32; 2]>);

    fn with<D: Desk>(&self, alloc: Global, desk: &mut D) -> Self::Told {
        let last = is_last(both_shown(alloc, desk, None));
        let answer = put_both(alloc, desk, 7);
        (last, answer, both_shown(alloc, desk, None))
    }
}

/// What both threads tell, and then a third desk.
type Told = (
    [Option<[u32; 2]>; 2],
    Option<(bool, Answer, Option<[i32; 2]>)>,
);

fn put_in_threads<R: Threads + Wait + Sync>(rt: &R, alloc: Global) -> Option<Told> {
    let Ok(site) = site(alloc) else {
        return None;
    };
    let Ok(ports) = ports_by(alloc, &site, &Silent) else {
        return None;
    };
    let Ok((hall, mut keep)) = open_hall(alloc, &site, ports, 1_000_000) else {
        return None;
    };
    let (Ok(one), Ok(two)) = (hall.split(&mut keep), hall.split(&mut keep)) else {
        return None;
    };
    let ((mut one, first), (mut two, second)) = in_threads(
        rt,
        alloc,
        &hall,
        &site,
        (one, two),
        (&PutMany { from: 0 }, &PutMany { from: 1000 }),
    );
    let _met = hall.meet(&mut one, &mut two);
    hall.end(&mut keep, one);
    hall.end(&mut keep, two);
    let (_keep, third) = with_desk_here(rt, alloc, &hall, &site, keep, &Count);
    Some(([first, second], third))
}

#[test]
fn two_threads_put_and_get_a_group_beside_each_other(rt: HostRuntime) -> Result<(), Fail> {
    let told = put_in_threads(&rt, rt.alloc());
    let third = Some((true, entered(1000), Some([7, 7])));
    assert_eq!(rt; told, Some(([Some([500, 500]), Some([500, 500])], third)));
    Ok(())
}
