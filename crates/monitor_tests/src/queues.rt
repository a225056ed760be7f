// Queues of updates against one that keeps all posts.
ghost use Rattle.std.specs.Prelude.{◌≤◌, IfOk};
ghost use Rattle.mon_queue.specs.Told.{IsPostOf};

use crate::leaves::{discard, int_at, ints_named, leaves_of};
use mon_queue::{MonQueue, NoMemory, Post, SharedValue, Update};
use pvd_type::PvType;
use pvd_value::{PvValue, fits};
use std::alloc::Global;
use std::test::Fail;

/// The leaves of a structure of eight ints, each with a bit of its own.
const LEAVES: [(u16, u16); 8] = [
    (1, 1),
    (2, 2),
    (3, 4),
    (4, 8),
    (5, 16),
    (6, 32),
    (7, 64),
    (8, 128),
];

/// A structure of eight ints.
fn type_of(alloc: Global) -> Result<PvType, NoMemory> {
    let shape = ints_named(alloc, &["a", "b", "c", "d", "e", "f", "g", "h"])?;
    match PvType::check(alloc, shape) {
        Ok(ty) => Ok(ty),
        Err(_) => Err(NoMemory),
    }
}

/// Eight times this int.
fn filled(alloc: Global, int: i32) -> Result<PvValue, NoMemory> {
    let mut members = Vec::new(alloc);
    for _ in LEAVES {
        members.push(PvValue::I32(int))?;
    }
    Ok(PvValue::Struct(members))
}

/// A post of this int to those of the numbers that are leaves of the type.
fn post(alloc: Global, ty: &PvType, numbers: &[u16], int: i32) -> Result<Post, NoMemory>
    ensures { IfOk result (IsPostOf ty.now) }
{
    let mask = leaves_of(alloc, ty, numbers)?;
    let value = filled(alloc, int)?;
    if fits(ty, &value) {
        return Ok(Post {
            mask,
            value: SharedValue::new(alloc, value)?,
        });
    }
    discard(value);
    Err(NoMemory)
}

/// A queue whose first post is this int to these leaves.
fn begin(alloc: Global, numbers: &[u16], int: i32, size: u32) -> Result<MonQueue, NoMemory>
    requires { (1 ≤ size) × (size ≤ 64) }
{
    let ty = type_of(alloc)?;
    match post(alloc, &ty, numbers, int) {
        Ok(first) => MonQueue::start(alloc, ty, first.mask, first.value, size),
        Err(stop) => {
            discard(ty);
            Err(stop)
        }
    }
}

/// Adds a post of this int to these leaves.
fn add_post(
    alloc: Global,
    queue: &mut MonQueue,
    numbers: &[u16],
    int: i32,
) -> Result<(), NoMemory> {
    let post = post(alloc, queue.ty(), numbers, int)?;
    let prepared = queue.prepare(alloc, post)?;
    queue.apply(prepared);
    Ok(())
}

/// A queue that keeps all posts of its unread runs: the bits of their leaves and their one int.
#[derive(Drop)]
struct Plain {
    size: usize,
    runs: Vec<Vec<(u16, i32)>>,
}

impl Plain {
    fn post(&mut self, alloc: Global, bits: u16, int: i32) -> Result<(), NoMemory> {
        if self.runs.len() >= self.size {
            if let Some(run) = self.runs.last_mut() {
                run.push((bits, int))?;
            }
            return Ok(());
        }
        let mut run = Vec::new(alloc);
        run.push((bits, int))?;
        self.runs.push(run)?;
        Ok(())
    }

    fn pop(&mut self) -> Option<Vec<(u16, i32)>> {
        if self.runs.is_empty() {
            return None;
        }
        Some(self.runs.remove(0))
    }
}

/// In how many posts a leaf stands, and its int in the last of them.
fn told(run: &[(u16, i32)], bit: u16) -> (u32, i32) {
    let mut times = 0u32;
    let mut last = 0;
    for (bits, int) in run {
        if *bits & bit != 0 {
            times = times.wrapping_add(1);
            last = *int;
        }
    }
    (times, last)
}

/// Whether an update is that of a run.
fn agrees(ty: &PvType, update: &Update, run: &[(u16, i32)]) -> bool {
    for (number, bit) in LEAVES {
        let (times, last) = told(run, bit);
        let number = u32::from(number);
        if update.changed.contains(number) != (times > 0) {
            return false;
        }
        if update.overrun.contains(number) != (times > 1) {
            return false;
        }
        if times > 0 && int_at(ty, update.value.value(), number) != Some(last) {
            return false;
        }
    }
    true
}

/// Whether both queues pop the same.
fn pops_alike(queue: &mut MonQueue, plain: &mut Plain) -> bool {
    match (queue.pop(), plain.pop()) {
        (Some(update), Some(run)) => {
            let alike = agrees(queue.ty(), &update, &run);
            discard(update);
            alike
        }
        (None, None) => true,
        (update, run) => {
            discard(update);
            discard(run);
            false
        }
    }
}

/// The leaves of these bits.
fn numbers_of(alloc: Global, bits: u16) -> Result<Vec<u16>, NoMemory> {
    let mut numbers = Vec::new(alloc);
    for (number, bit) in LEAVES {
        if bits & bit != 0 {
            numbers.push(number)?;
        }
    }
    Ok(numbers)
}

/// Adds one post to both queues.
fn post_alike(
    alloc: Global,
    queue: &mut MonQueue,
    plain: &mut Plain,
    bits: u16,
    int: i32,
) -> Result<(), NoMemory> {
    let numbers = numbers_of(alloc, bits)?;
    add_post(alloc, queue, &numbers, int)?;
    plain.post(alloc, bits, int)
}

/// Whether both queues do the same in a thousand steps.
fn agree_in_steps(
    alloc: Global,
    queue: &mut MonQueue,
    plain: &mut Plain,
) -> Result<bool, NoMemory> {
    let mut seed = 20_261_127u32;
    for step in 0..1000u16 {
        seed = seed.wrapping_mul(1_664_525).wrapping_add(1_013_904_223);
        let bits = (seed >> 8) % 255 + 1;
        if (seed >> 24) % 4 == 0 {
            if !pops_alike(queue, plain) {
                return Ok(false);
            }
        } else {
            post_alike(alloc, queue, plain, bits as u16, i32::from(step))?;
        }
    }
    Ok(true)
}

/// Whether both queues pop the same so often, and once more.
fn agree_at_the_end(queue: &mut MonQueue, plain: &mut Plain, times: u16) -> bool {
    for _ in 0..=times {
        if !pops_alike(queue, plain) {
            return false;
        }
    }
    true
}

/// Whether a queue of a size does in a thousand steps what a queue does that keeps all posts, and has nothing behind what is left
/// then.
fn agrees_with_plain(alloc: Global, size: u16) -> Result<bool, NoMemory>
    requires { (1 ≤ size) × (size ≤ 64) }
{
    let mut plain = Plain {
        size: usize::from(size),
        runs: Vec::new(alloc),
    };
    plain.post(alloc, 7, 0)?;
    let mut queue = begin(alloc, &[1, 2, 3], 0, u32::from(size))?;
    let agreed = agree_in_steps(alloc, &mut queue, &mut plain);
    let ended = agree_at_the_end(&mut queue, &mut plain, size);
    discard(queue);
    Ok(agreed? && ended)
}

#[test]
fn a_thousand_steps_agree_with_a_queue_of_posts(rt: HostRuntime) -> Result<(), Fail> {
    assert!(rt; agrees_with_plain(rt.alloc(), 1)?);
    assert!(rt; agrees_with_plain(rt.alloc(), 2)?);
    assert!(rt; agrees_with_plain(rt.alloc(), 64)?);
    Ok(())
}
