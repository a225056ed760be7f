// Subscriptions of a desk on a pass.
ghost use Rattle.std.specs.Prelude.{◌≡◌, ◌≤◌, true, IfSome};
ghost use Rattle.desk_api.specs.Calls.{AreSubscribe, Calls, EndsAtItsMarks, EndsAtLastRoll, FitsSubscribed, IsEnding, IsPop, OnSubscribed};
ghost use Rattle.desk_api.specs.Living.{lives};
ghost use Rattle.desk_api.specs.Triggers.{may_be_watched};
ghost use Rattle.desk_api.specs.Types as types;
ghost use Rattle.desk_core.specs.Ports.{ports_there};
ghost use Rattle.desk_shared.specs.Desks.{Stands};
ghost use Rattle.desk_shared.specs.Records.{seat_of};

use crate::exchanging::exchange;
use crate::lent::LentPort;
use crate::noting::{look_begun, look_crowded, look_dropped, look_popped};
use crate::records::Records;
use crate::visiting::{opening_is_valid, visit_channel};
use desk_api::{Channel, Site, Sub, SubAnswer, Update, footprints_rise, looks_show_states};
use desk_core::{Cells, MOST, discard, groups_over_records, names_and_configs};
use desk_hub::{NotBegun, begin, end, logs_tell_slots, pop, ready};
use hall_locks::{Hall, NoMark, Pass};
use pvd_type::BitSet;
use std::alloc::Global;
use std::marker::Brand;
use std::sync::Wait;

/// Begins a subscription to the marked leaves of what the channel shows. What it is shown, and its queue, are made before the hub is taken.
pub(crate) fn subscribe_in<R: Wait, P: Drop>(
    rt: &R,
    alloc: Global,
    hall: &Hall<Records<P>>,
    site: &Site,
    cells: &mut Cells<LentPort<P>>,
    pass: Pass<Records<P>>,
    channel: Channel,
    mask: &BitSet,
    size: u32,
) -> (Pass<Records<P>>, Result<Sub, SubAnswer>)
    requires stands { Stands hall.now.table.shared.table_id hall.now.count site.now cells.old.states.items (ports_there cells.old.ports.items) pass.seat.table_id pass.seat.me.0 }
    requires channel { may_be_watched site.now channel ≡ true }
    requires leaves { types.HoldsLeaves (types.type_of site.now channel) mask.now }
    requires size { (1 ≤ size) × (size ≤ 64) }
    ensures stands { Stands hall.now.table.shared.table_id hall.now.count site.now cells.new.states.items (ports_there cells.new.ports.items) result.0.seat.table_id result.0.seat.me.0 }
    ensures others { result.0.seat.me.0.others ≡ pass.seat.me.0.others }
    ensures calls { Calls (seat_of pass.seat.me.0) (seat_of result.0.seat.me.0) (AreSubscribe channel mask.now size result.1) }
    ensures rolled { OnSubscribed result.1 (EndsAtLastRoll (seat_of result.0.seat.me.0)) }
    ensures ends { OnSubscribed result.1 (EndsAtItsMarks (seat_of pass.seat.me.0) (seat_of result.0.seat.me.0)) }
{
    footprints_rise();
    looks_show_states();
    names_and_configs(site);
    groups_over_records(site);
    opening_is_valid(site);
    let Ok(requested) = mask.clone_in(alloc) else {
        return (pass, Err(SubAnswer::NoMemory));
    };
    let mut visit = match visit_channel(rt, alloc, hall, site, pass, channel) {
        Ok(visit) => visit,
        Err((pass, _)) => {
            discard(requested);
            return (pass, Err(SubAnswer::NoMemory));
        }
    };
    exchange(&mut visit.cells, site.footprint_of(channel), cells);
    let states = cells.states.as_slice();
    let first = ready(alloc, site, channel, requested, states, size);
    exchange(&mut visit.cells, site.footprint_of(channel), cells);
    let Ok(watching) = first else {
        return (hall.leave(visit), Err(SubAnswer::NoMemory));
    };
    let mut held = hall.hub(rt, visit);
    let hub = &mut held.hub;
    match begin(alloc, site, &mut hub.subs, watching) {
        Ok(slot) => {
            let pass = look_begun::<P, Brand>(hall, held, slot, channel, mask, size);
            (pass, Ok(Sub { slot }))
        }
        Err(NotBegun::TooMany) => {
            let pass = look_crowded::<P, Brand>(hall, held, MOST);
            (pass, Err(SubAnswer::TooManyMonitors(MOST)))
        }
        Err(NotBegun::NoMemory) => (hall.look::<NoMark>(held), Err(SubAnswer::NoMemory)),
    }
}

/// The oldest unread update of a living subscription of this seat, or none. It takes no memory.
pub(crate) fn pop_in<R: Wait, P: Drop>(
    rt: &R,
    alloc: Global,
    hall: &Hall<Records<P>>,
    pass: Pass<Records<P>>,
    slot: u32,
) -> (Pass<Records<P>>, Option<Update>)
    requires own { pass.seat.table_id ≡ hall.now.table.shared.table_id }
    requires lives { lives pass.seat.me.0.log slot ≡ true }
    ensures own { result.0.seat.table_id ≡ pass.seat.table_id }
    ensures others { result.0.seat.me.0.others ≡ pass.seat.me.0.others }
    ensures calls { Calls (seat_of pass.seat.me.0) (seat_of result.0.seat.me.0) (IsPop slot result.1) }
    ensures ends { EndsAtItsMarks (seat_of pass.seat.me.0) (seat_of result.0.seat.me.0) }
    ensures fits { IfSome result.1 (FitsSubscribed (seat_of pass.seat.me.0) slot) }
{
    logs_tell_slots();
    let Ok(visit) = hall.visit(rt, alloc, pass, Vec::new(alloc)) else {
        unreachable!()
    };
    let mut held = hall.hub(rt, visit);
    let hub = &mut held.hub;
    let update = pop(&mut hub.subs, slot);
    (look_popped::<P, Brand>(hall, held, slot, &update), update)
}

/// Ends a living subscription of this seat. It takes no memory.
pub(crate) fn unsubscribe_in<R: Wait, P: Drop>(
    rt: &R,
    alloc: Global,
    hall: &Hall<Records<P>>,
    site: &Site,
    pass: Pass<Records<P>>,
    slot: u32,
) -> Pass<Records<P>>
    requires own { pass.seat.table_id ≡ hall.now.table.shared.table_id }
    requires site { pass.seat.me.0.seen.base.site ≡ site.now }
    requires lives { lives pass.seat.me.0.log slot ≡ true }
    ensures own { result.seat.table_id ≡ pass.seat.table_id }
    ensures others { result.seat.me.0.others ≡ pass.seat.me.0.others }
    ensures calls { Calls (seat_of pass.seat.me.0) (seat_of result.seat.me.0) (IsEnding slot) }
    ensures rolled { EndsAtLastRoll (seat_of result.seat.me.0) }
    ensures ends { EndsAtItsMarks (seat_of pass.seat.me.0) (seat_of result.seat.me.0) }
{
    let Ok(visit) = hall.visit(rt, alloc, pass, Vec::new(alloc)) else {
        unreachable!()
    };
    let mut held = hall.hub(rt, visit);
    let hub = &mut held.hub;
    end(site, &mut hub.subs, slot);
    look_dropped::<P, Brand>(hall, held, slot)
}
