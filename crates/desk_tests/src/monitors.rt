// Which slots subscriptions get, and how many may live.
ghost use Rattle.std.specs.Prelude.{◌≡◌, ℕ, true, IfOk, IsTrue};
ghost use Rattle.desk_api.specs.Living.{lives};
ghost use Rattle.desk_api.specs.Sites.{is_channel};
ghost use Rattle.desk_api.specs.Triggers.{may_be_watched};
ghost use Rattle.desk_api.specs.Types.{HoldsLeaves, type_of};

use desk_api::{Sub, SubAnswer, found_channels};
use desk_core::{Channel, Desk, PvType, Site, SoloDesk, discard};
use pva_outside::MemoryPort;
use pvd_type::{BitSet, NoMemory};
use std::alloc::Global;
use std::test::Fail;

/// A desk with a living subscription.
#[derive(Drop)]
struct Watched {
    desk: SoloDesk<MemoryPort>,
    sub: Sub,
    ghost living: { lives desk.log.log sub.slot ≡ true },
}

/// Those of these numbers that are leaves of the type.
fn leaves_of(alloc: Global, ty: &PvType, numbers: &[u16]) -> Result<BitSet, NoMemory>
    ensures { IfOk result (HoldsLeaves ty.now) }
{
    let mut mask = BitSet::new(alloc);
    for number in numbers {
        mask.insert(u32::from(*number))?;
    }
    let leaves = ty.leaves(alloc)?;
    mask.meet(&leaves);
    Ok(mask)
}

/// The value of the channel, which may be subscribed to.
fn leaves_for<D: Desk>(alloc: Global, desk: &D, channel: Channel) -> Result<BitSet, NoMemory>
    requires { IsTrue (is_channel (D.seat desk.now).seen.base.site channel) }
    ensures may { IfOk result (λ m. may_be_watched (D.seat desk.now).seen.base.site channel ≡ true) }
    ensures leaves { IfOk result (HoldsLeaves (type_of (D.seat desk.now).seen.base.site channel)) }
{
    let Some(ty) = desk.type_of(channel) else {
        return Err(NoMemory);
    };
    leaves_of(alloc, ty, &[1])
}

/// Begins a subscription to the value of X. Without an answer there is no such channel, or memory ran out before.
fn begun<D: Desk>(alloc: Global, desk: &mut D) -> Result<Sub, Option<SubAnswer>>
    ensures lives { IfOk result (λ sub. lives (D.seat desk.new).log sub.slot ≡ true) }
    ensures stay { (slot : ℕ) → lives (D.seat desk.old).log slot ≡ true → lives (D.seat desk.new).log slot ≡ true }
{
    found_channels();
    let Some(channel) = desk.find("X") else {
        return Err(None);
    };
    let Ok(mask) = leaves_for(alloc, desk, channel) else {
        return Err(None);
    };
    match desk.subscribe(alloc, channel, &mask, 1) {
        Ok(sub) => Ok(sub),
        Err(answer) => Err(Some(answer)),
    }
}

/// The desk with such a subscription. None where it didn't begin.
fn watching_desk(alloc: Global, mut desk: SoloDesk<MemoryPort>) -> Option<Watched> {
    match begun(alloc, &mut desk) {
        Ok(sub) => Some(Watched { desk, sub }),
        Err(_) => {
            discard(desk);
            None
        }
    }
}

/// Why no subscription to X began, or the slot in which one did.
fn next<D: Desk>(alloc: Global, desk: &mut D) -> Result<u32, Option<SubAnswer>>
    ensures { (slot : ℕ) → lives (D.seat desk.old).log slot ≡ true → lives (D.seat desk.new).log slot ≡ true }
{
    match begun(alloc, desk) {
        Ok(sub) => Ok(sub.slot),
        Err(answer) => Err(answer),
    }
}

impl Watched {
    /// Begins one more, or tells why not.
    fn next(&mut self, alloc: Global) -> Result<u32, Option<SubAnswer>> {
        next(alloc, &mut self.desk)
    }

    /// Begins subscriptions, each of which is to get the least slot, from this one on up to the last. Whether all did.
    fn crowd(&mut self, alloc: Global, first: u32) -> bool {
        for slot in first..1024 {
            if self.next(alloc) != Ok(slot) {
                return false;
            }
        }
        true
    }

    /// Ends the subscription.
    fn end(self) -> SoloDesk<MemoryPort> {
        let Watched { desk, sub } = self;
        let mut desk = desk;
        desk.unsubscribe(sub);
        desk
    }
}

/// The desk of a record without a port, which is 42.
fn plain_desk(alloc: Global) -> Result<SoloDesk<MemoryPort>, NoMemory> {
    let site = Site::single(alloc, "X", 42)?;
    let ports = vec![in alloc; None]?;
    SoloDesk::new(alloc, site, ports, 10_000)
}

/// Whether a first subscription and 1,022 behind the second began in turn, and what the next ones answer: beside all of them, and after the
/// second has ended.
type Crowd = (bool, bool, [Result<u32, Option<SubAnswer>>; 3]);

fn crowd(alloc: Global) -> Result<Option<Crowd>, NoMemory> {
    let mut desk = plain_desk(alloc)?;
    let first = next(alloc, &mut desk) == Ok(0);
    let Some(mut second) = watching_desk(alloc, desk) else {
        return Ok(None);
    };
    let all = second.crowd(alloc, 2);
    let refused = second.next(alloc);
    let mut desk = second.end();
    let again = next(alloc, &mut desk);
    let full = next(alloc, &mut desk);
    discard(desk);
    Ok(Some((first, all, [refused, again, full])))
}

#[test]
fn as_many_subscriptions_live_as_may_and_the_least_free_slot_is_taken(
    rt: HostRuntime,
) -> Result<(), Fail> {
    let refused = Err(Some(SubAnswer::TooManyMonitors(1024)));
    let answers = [refused, Ok(1), refused];
    assert_eq!(rt; crowd(rt.alloc())?, Some((true, true, answers)));
    Ok(())
}
