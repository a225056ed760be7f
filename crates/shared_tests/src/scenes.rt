// What tests do with a desk, whichever it is.
ghost use Rattle.std.specs.Prelude.{◌≡◌, ◌≤◌, ℕ, IfOk, IsTrue, OnOk, true};
ghost use Rattle.desk_api.specs.Living.{lives};
ghost use Rattle.desk_api.specs.Sites.{is_channel};
ghost use Rattle.desk_api.specs.Triggers.{may_be_watched};
ghost use Rattle.desk_api.specs.Types.{HoldsLeaves, type_of};
ghost use Rattle.pvd_value.specs.Fits.{fits_of};
ghost use Rattle.pvd_value.specs.View.{view};

use desk_api::{
    Channel, Desk, Done, Moment, NoMemory, PutAnswer, PvType, PvValue, Sub, SubAnswer, Update,
    found_channels,
};
use desk_core::discard;
use pvd_type::BitSet;
use pvd_value::fits;
use rec_fields::view;
use rec_kinds::longout;
use std::alloc::Global;

/// What a test does with a desk.
pub(crate) trait Doing {
    /// What it tells.
    type Told: Drop + Send;

    /// Does it.
    fn with<D: Desk>(&self, alloc: Global, desk: &mut D) -> Self::Told;
}

/// What a test does with two desks beside each other.
pub(crate) trait DoingBeside {
    /// What it tells.
    type Told: Drop;

    /// Does it.
    fn with<D: Desk, E: Desk>(&self, alloc: Global, one: &mut D, two: &mut E) -> Self::Told;
}

/// Those of these numbers that are leaves of the type.
fn leaves_of(alloc: Global, ty: &PvType, numbers: &[u16]) -> Result<BitSet, NoMemory>
    ensures { IfOk result (HoldsLeaves ty.now) }
{
    let mut mask = BitSet::new(alloc);
    for number in numbers {
        mask.insert(u32::from(*number))?;
    }
    let leaves = ty.leaves(alloc)?;
    mask.meet(&leaves);
    Ok(mask)
}

/// Those of these numbers that are leaves of the channel, where the value is one of it.
fn mask_for<D: Desk>(
    alloc: Global,
    desk: &D,
    channel: Channel,
    value: &PvValue,
    numbers: &[u16],
) -> Result<BitSet, NoMemory>
    requires { IsTrue (is_channel (D.seat desk.now).seen.base.site channel) }
    ensures fits { OnOk result (fits_of 16 (view value.now) (type_of (D.seat desk.now).seen.base.site channel) ≡ true) }
    ensures leaves { IfOk result (HoldsLeaves (type_of (D.seat desk.now).seen.base.site channel)) }
{
    let Some(ty) = desk.type_of(channel) else {
        return Err(NoMemory);
    };
    if !fits(ty, value) {
        return Err(NoMemory);
    }
    leaves_of(alloc, ty, numbers)
}

/// What a put answers. None where memory ran out before.
pub(crate) type Answer = Option<Result<Done, PutAnswer>>;

/// One entry, at this place.
pub(crate) const fn entered(first: u64) -> Answer {
    Some(Ok(Done { first, count: 1 }))
}

/// Puts leaves of a value at 100 seconds and 5 nanoseconds.
pub(crate) fn put<D: Desk>(
    alloc: Global,
    desk: &mut D,
    name: &str,
    value: &PvValue,
    numbers: &[u16],
) -> Answer {
    found_channels();
    let Some(channel) = desk.find(name) else {
        return None;
    };
    match mask_for(alloc, desk, channel, value, numbers) {
        Ok(mask) => Some(desk.put(alloc, channel, &mask, value, Moment::new(100, 5), None)),
        Err(_) => None,
    }
}

/// A record's structure with this number.
fn value_with(alloc: Global, number: i32) -> Result<PvValue, NoMemory> {
    let (config, state) = longout(alloc, number)?;
    let value = view(alloc, &config, &state);
    discard(config);
    discard(state);
    value
}

/// Puts a number to a record.
pub(crate) fn put_number<D: Desk>(alloc: Global, desk: &mut D, name: &str, number: i32) -> Answer {
    let Ok(value) = value_with(alloc, number) else {
        return None;
    };
    let answer = put(alloc, desk, name, &value, &[1]);
    discard(value);
    answer
}

/// Puts leaves of a value at 100 seconds and 5 nanoseconds, and gets the channel by the same call.
pub(crate) fn put_get<D: Desk>(
    alloc: Global,
    desk: &mut D,
    name: &str,
    value: &PvValue,
    numbers: &[u16],
    atomic: Option<bool>,
) -> (Answer, Option<PvValue>) {
    found_channels();
    let Some(channel) = desk.find(name) else {
        return (None, None);
    };
    match mask_for(alloc, desk, channel, value, numbers) {
        Ok(mask) => told_by(desk.put_get(
            alloc,
            channel,
            &mask,
            value,
            Moment::new(100, 5),
            atomic,
        )),
        Err(_) => (None, None),
    }
}

/// What a put-get answers of its put, and what the channel then shows.
fn told_by(answer: Result<(Done, PvValue), PutAnswer>) -> (Answer, Option<PvValue>) {
    match answer {
        Ok((done, value)) => (Some(Ok(done)), Some(value)),
        Err(answer) => (Some(Err(answer)), None),
    }
}

/// Puts a number to A and gets A, by one call or by two.
pub(crate) fn put_and_get<D: Desk>(
    alloc: Global,
    desk: &mut D,
    number: i32,
    at_once: bool,
) -> (Answer, Option<PvValue>) {
    if at_once {
        return put_get_number(alloc, desk, "A", number);
    }
    let answer = put_number(alloc, desk, "A", number);
    (answer, got(alloc, desk, "A", None))
}

/// Puts a number to a record, and gets it by the same call.
fn put_get_number<D: Desk>(
    alloc: Global,
    desk: &mut D,
    name: &str,
    number: i32,
) -> (Answer, Option<PvValue>) {
    let Ok(value) = value_with(alloc, number) else {
        return (None, None);
    };
    let told = put_get(alloc, desk, name, &value, &[1], None);
    discard(value);
    told
}

/// The group's structure with these numbers in its members.
pub(crate) fn pair_with(alloc: Global, numbers: [i32; 2]) -> Result<PvValue, NoMemory> {
    Ok(PvValue::Struct(vec![in alloc; PvValue::I32(numbers[0]), PvValue::I32(numbers[1])]?))
}

/// Puts a number to both members of the group.
pub(crate) fn put_both<D: Desk>(alloc: Global, desk: &mut D, number: i32) -> Answer {
    put_pair(alloc, desk, [number, number])
}

/// Puts a number to each member of the group.
pub(crate) fn put_pair<D: Desk>(alloc: Global, desk: &mut D, numbers: [i32; 2]) -> Answer {
    let Ok(value) = pair_with(alloc, numbers) else {
        return None;
    };
    let answer = put(alloc, desk, "G", &value, &[1, 2]);
    discard(value);
    answer
}

/// What a channel shows. None where memory ran out.
pub(crate) fn got<D: Desk>(
    alloc: Global,
    desk: &mut D,
    name: &str,
    atomic: Option<bool>,
) -> Option<PvValue> {
    found_channels();
    let Some(channel) = desk.find(name) else {
        return None;
    };
    match desk.get(alloc, channel, atomic) {
        Ok(value) => Some(value),
        Err(_) => None,
    }
}

/// A number.
pub(crate) fn int(value: Option<&PvValue>) -> Option<i32> {
    match value {
        Some(PvValue::I32(number)) => Some(*number),
        _ => None,
    }
}

/// The numbers of the group's members, where it is shown.
pub(crate) fn pair_in(shown: Option<PvValue>) -> Option<[i32; 2]> {
    let Some(value) = shown else {
        return None;
    };
    let pair = pair(&value);
    discard(value);
    pair
}

/// The numbers of the group's members.
fn pair(group: &PvValue) -> Option<[i32; 2]> {
    let members = group.members();
    Some([int(members.get(0))?, int(members.get(1))?])
}

/// The numbers that the group's members show.
pub(crate) fn both_shown<D: Desk>(
    alloc: Global,
    desk: &mut D,
    atomic: Option<bool>,
) -> Option<[i32; 2]> {
    pair_in(got(alloc, desk, "G", atomic))
}

/// The leaf of a channel's value, where it may be subscribed to.
fn watched<D: Desk>(alloc: Global, desk: &D, channel: Channel) -> Result<BitSet, NoMemory>
    requires { IsTrue (is_channel (D.seat desk.now).seen.base.site channel) }
    ensures may { IfOk result (λ m. may_be_watched (D.seat desk.now).seen.base.site channel ≡ true) }
    ensures leaves { IfOk result (HoldsLeaves (type_of (D.seat desk.now).seen.base.site channel)) }
{
    let Some(ty) = desk.type_of(channel) else {
        return Err(NoMemory);
    };
    leaves_of(alloc, ty, &[1])
}

/// Begins a subscription to the value of B. Without an answer memory ran out before.
pub(crate) fn begun<D: Desk>(
    alloc: Global,
    desk: &mut D,
    size: u32,
) -> Result<Sub, Option<SubAnswer>>
    requires { (1 ≤ size) × (size ≤ 64) }
    ensures lives { IfOk result (λ sub. lives (D.seat desk.new).log sub.slot ≡ true) }
    ensures stay { (slot : ℕ) → lives (D.seat desk.old).log slot ≡ true → lives (D.seat desk.new).log slot ≡ true }
{
    found_channels();
    let Some(channel) = desk.find("B") else {
        return Err(None);
    };
    let Ok(mask) = watched(alloc, desk, channel) else {
        return Err(None);
    };
    match desk.subscribe(alloc, channel, &mask, size) {
        Ok(sub) => Ok(sub),
        Err(answer) => Err(Some(answer)),
    }
}

/// The number in the oldest unread update of a subscription.
pub(crate) fn popped<D: Desk>(desk: &mut D, sub: &Sub) -> Option<i32>
    requires { lives (D.seat desk.old).log sub.now.slot ≡ true }
    ensures { lives (D.seat desk.new).log sub.now.slot ≡ true }
{
    number_in(desk.pop(sub))
}

/// The number in the value of an update.
fn number_in(update: Option<Update>) -> Option<i32> {
    let Some(update) = update else {
        return None;
    };
    let number = int(update.value.value().members().get(0));
    discard(update);
    number
}
