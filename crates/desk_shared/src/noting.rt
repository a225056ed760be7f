// The steps that give the hub back, each with its mark. The arguments of each are the parts of its mark, from which the caller picks it.
// Of a port's type they know only that it may be let go, so that none can be driven here.
ghost use Rattle.std.specs.Prelude.{◌≡◌, ◌<◌, ◌+◌, ◌^◌, Some, length};
ghost use Rattle.std.specs.List.{AllByRecursion};
ghost use Rattle.std.specs.List.Sorted.{IsStrictlyIncreasing};
ghost use Rattle.desk_api.specs.Calls.{now, with_mark};
ghost use Rattle.desk_api.specs.Views.{found_in};
ghost use Rattle.desk_api.specs.declared.mark.Mark.TheVariants as marks;
ghost use Rattle.desk_core.specs.Ports.{ports_there};
ghost use Rattle.desk_core.specs.Subscribing.{begun_in, crowded, dropped, popped};
ghost use Rattle.desk_shared.specs.Exchanges.{IsGivenBack};
ghost use Rattle.desk_shared.specs.Hands.{MayEnter, states_of};
ghost use Rattle.desk_shared.specs.Records.{records, seat_of};
ghost use Rattle.hall_locks.specs.Hands.{MayGlance, MayLook};
ghost use Rattle.journal_core.specs.Histories.{kept};
ghost use Rattle.journal_core.specs.Weights.{weight as weight_of};

use crate::exchanging::exchange;
use crate::lent::LentPort;
use crate::records::{Noted, Notes, Records};
use desk_api::{Channel, Update};
use desk_core::Cells;
use desk_hub::{Readied, post};
use hall_locks::{Glance, Hall, Held, Pass};
use journal_core::Entry;
use pvd_type::BitSet;

/// Gives all back with the mark of a look of a get of this channel, which found the records in hand. The hub stayed where it is.
pub(crate) fn look_read<P: Drop, B: Notes>(
    hall: &Hall<Records<P>>,
    held: Glance<Records<P>>,
    _channel: Channel,
) -> Pass<Records<P>>
    requires own { held.seat.table_id ≡ hall.now.table.shared.table_id }
    requires may { MayGlance records held.seat.me.0 held.cells.items (Some (marks.Read (now (seat_of held.seat.me.0)) _channel held.footprint.items (states_of held.cells.items))) }
    requires mark { B.mark ≡ marks.Read (now (seat_of held.seat.me.0)) _channel held.footprint.items (states_of held.cells.items) }
    ensures own { result.seat.table_id ≡ held.seat.table_id }
    ensures others { result.seat.me.0.others ≡ held.seat.me.0.others }
    ensures marked { seat_of result.seat.me.0 ≡ with_mark (seat_of held.seat.me.0) (λ at. marks.Read at _channel held.footprint.items (states_of held.cells.items)) }
{
    hall.glanced::<Noted<B>>(held)
}

/// Gives all back with the mark of an entry that would have been too heavy.
pub(crate) fn look_overweight<P: Drop, B: Notes>(
    hall: &Hall<Records<P>>,
    held: Held<Records<P>>,
    _entry: &Entry,
    _kept: u64,
    _weight: u64,
    _limit: u64,
) -> Pass<Records<P>>
    requires own { held.seat.table_id ≡ hall.now.table.shared.table_id }
    requires may { MayLook records held.seat.me.0 held.hub held.cells.items (Some (marks.Overweight (now (seat_of held.seat.me.0)) _entry.now.footprint _entry.now.actions _kept _weight _limit)) }
    requires mark { B.mark ≡ marks.Overweight (now (seat_of held.seat.me.0)) _entry.now.footprint _entry.now.actions _kept _weight _limit }
    ensures own { result.seat.table_id ≡ held.seat.table_id }
    ensures others { result.seat.me.0.others ≡ held.seat.me.0.others }
    ensures marked { seat_of result.seat.me.0 ≡ with_mark (seat_of held.seat.me.0) (λ at. marks.Overweight at _entry.now.footprint _entry.now.actions _kept _weight _limit) }
{
    hall.look::<Noted<B>>(held)
}

/// Gives all back with the mark of a subscription that began.
pub(crate) fn look_begun<P: Drop, B: Notes>(
    hall: &Hall<Records<P>>,
    held: Held<Records<P>>,
    _slot: u32,
    _channel: Channel,
    _mask: &BitSet,
    _size: u32,
) -> Pass<Records<P>>
    requires own { held.seat.table_id ≡ hall.now.table.shared.table_id }
    requires may { MayLook records held.seat.me.0 held.hub held.cells.items (Some (begun_in (seat_of held.seat.me.0) _slot _channel _mask.now _size (now (seat_of held.seat.me.0)))) }
    requires mark { B.mark ≡ begun_in (seat_of held.seat.me.0) _slot _channel _mask.now _size (now (seat_of held.seat.me.0)) }
    ensures own { result.seat.table_id ≡ held.seat.table_id }
    ensures others { result.seat.me.0.others ≡ held.seat.me.0.others }
    ensures marked { seat_of result.seat.me.0 ≡ with_mark (seat_of held.seat.me.0) (begun_in (seat_of held.seat.me.0) _slot _channel _mask.now _size) }
{
    hall.look::<Noted<B>>(held)
}

/// Gives all back with the mark that no subscription began, since so many live.
pub(crate) fn look_crowded<P: Drop, B: Notes>(
    hall: &Hall<Records<P>>,
    held: Held<Records<P>>,
    _count: u32,
) -> Pass<Records<P>>
    requires own { held.seat.table_id ≡ hall.now.table.shared.table_id }
    requires may { MayLook records held.seat.me.0 held.hub held.cells.items (Some (crowded (seat_of held.seat.me.0) _count (now (seat_of held.seat.me.0)))) }
    requires mark { B.mark ≡ crowded (seat_of held.seat.me.0) _count (now (seat_of held.seat.me.0)) }
    ensures own { result.seat.table_id ≡ held.seat.table_id }
    ensures others { result.seat.me.0.others ≡ held.seat.me.0.others }
    ensures marked { seat_of result.seat.me.0 ≡ with_mark (seat_of held.seat.me.0) (crowded (seat_of held.seat.me.0) _count) }
{
    hall.look::<Noted<B>>(held)
}

/// Gives the hub back with the mark of a pop.
pub(crate) fn look_popped<P: Drop, B: Notes>(
    hall: &Hall<Records<P>>,
    held: Held<Records<P>>,
    _slot: u32,
    _update: &Option<Update>,
) -> Pass<Records<P>>
    requires own { held.seat.table_id ≡ hall.now.table.shared.table_id }
    requires may { MayLook records held.seat.me.0 held.hub held.cells.items (Some (popped _slot _update.now (now (seat_of held.seat.me.0)))) }
    requires mark { B.mark ≡ popped _slot _update.now (now (seat_of held.seat.me.0)) }
    ensures own { result.seat.table_id ≡ held.seat.table_id }
    ensures others { result.seat.me.0.others ≡ held.seat.me.0.others }
    ensures marked { seat_of result.seat.me.0 ≡ with_mark (seat_of held.seat.me.0) (popped _slot _update.now) }
{
    hall.look::<Noted<B>>(held)
}

/// Gives the hub back with the mark of a subscription's end.
pub(crate) fn look_dropped<P: Drop, B: Notes>(
    hall: &Hall<Records<P>>,
    held: Held<Records<P>>,
    _slot: u32,
) -> Pass<Records<P>>
    requires own { held.seat.table_id ≡ hall.now.table.shared.table_id }
    requires may { MayLook records held.seat.me.0 held.hub held.cells.items (Some (dropped (seat_of held.seat.me.0) _slot (now (seat_of held.seat.me.0)))) }
    requires mark { B.mark ≡ dropped (seat_of held.seat.me.0) _slot (now (seat_of held.seat.me.0)) }
    ensures own { result.seat.table_id ≡ held.seat.table_id }
    ensures others { result.seat.me.0.others ≡ held.seat.me.0.others }
    ensures marked { seat_of result.seat.me.0 ≡ with_mark (seat_of held.seat.me.0) (dropped (seat_of held.seat.me.0) _slot) }
{
    hall.look::<Noted<B>>(held)
}

/// Adds an entry, of which these are the states after it, posts what was made ready of it, and gives all back with its mark: these
/// records were then looked at. It takes no memory.
pub(crate) fn commit_entered<P: Drop, B: Notes>(
    hall: &Hall<Records<P>>,
    mut held: Held<Records<P>>,
    cells: &mut Cells<LentPort<P>>,
    recs: &[u32],
    entry: Entry,
    ready: Readied,
    _looked: &[u32],
) -> Pass<Records<P>>
    requires own { held.seat.table_id ≡ hall.now.table.shared.table_id }
    requires may { MayEnter held.seat.me.0 held.hub recs.now cells.old.states.items entry _looked.now ready }
    requires weight { kept held.hub.history.entries + weight_of entry < 2 ^ 64 }
    requires many { length held.cells.items ≡ length recs.now }
    requires rises { IsStrictlyIncreasing recs.now }
    requires inside { AllByRecursion (λ rec. rec < length cells.old.states.items) recs.now }
    requires ports { length cells.old.ports.items ≡ length cells.old.states.items }
    requires mark { B.mark ≡ marks.Entered (now (seat_of held.seat.me.0)) entry _looked.now (found_in cells.old.states.items _looked.now) }
    ensures own { result.seat.table_id ≡ held.seat.table_id }
    ensures others { result.seat.me.0.others ≡ held.seat.me.0.others }
    ensures marked { seat_of result.seat.me.0 ≡ with_mark (seat_of held.seat.me.0) (λ at. marks.Entered at entry _looked.now (found_in cells.old.states.items _looked.now)) }
    ensures given { IsGivenBack recs.now (states_of held.cells.items) cells.old.states.items cells.new.states.items }
    ensures ports { ports_there cells.new.ports.items ≡ ports_there cells.old.ports.items }
{
    exchange(&mut held.cells, recs, cells);
    let hub = &mut held.hub;
    hub.history.push(entry);
    post(&mut hub.subs, ready);
    hall.commit::<Noted<B>>(held)
}
