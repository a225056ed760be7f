// Puts of a desk on a pass, and put-gets.
ghost use Rattle.std.specs.Prelude.{◌≡◌, ◌<◌, ◌≤◌, ◌+◌, ◌==◌, ◌^◌, [], false, true, nat_le, if◌then◌else◌, IfOk, IsTrue, length};
ghost use Rattle.std.specs.List.{AllByRecursion};
ghost use Rattle.desk_api.specs.Calls.{ArePut, ArePutGet, Calls, EndsAtItsMarks, OnTold};
ghost use Rattle.desk_api.specs.Puts.{entries_by};
ghost use Rattle.desk_api.specs.Sites as sites;
ghost use Rattle.desk_api.specs.Sites.{footprint_of, is_channel};
ghost use Rattle.desk_api.specs.Types as types;
ghost use Rattle.desk_api.specs.Types.{type_of};
ghost use Rattle.desk_api.specs.Views.{found_in};
ghost use Rattle.desk_core.specs.Ports.{ports_there};
ghost use Rattle.desk_shared.specs.Desks.{Stands};
ghost use Rattle.desk_shared.specs.Entries.{AreEntered, AreEntry, ArePutGot, ArePutInTurn};
ghost use Rattle.desk_shared.specs.Hands.{IsDrafted, IsDraftedAhead, Undoes, states_of};
ghost use Rattle.desk_shared.specs.Records.{seat_of};
ghost use Rattle.group_view.specs.Puts.{MayBeDoneBy};
ghost use Rattle.hall_locks.specs.Passes.{hall_id, pass_hall, pass_others, pass_view, visit_hall, visit_others, visit_view};
ghost use Rattle.journal_core.specs.Weights.{weight as weight_of};
ghost use Rattle.pvd_value.specs.Fits.{fits_of};
ghost use Rattle.pvd_value.specs.View.{view};

use crate::exchanging::exchange;
use crate::lent::LentPort;
use crate::looking::get_in;
use crate::noting::{commit_entered, look_overweight};
use crate::records::Records;
use crate::visiting::{opening_is_valid, visit_these};
use desk_api::{
    Action, Channel, Done, Moment, PutAnswer, PvValue, Site, entries_write_inside, footprints_rise,
    looks_show_states,
};
use desk_core::{
    Cells, Port, discard, groups_over_records, names_and_configs, not_done, one_action,
};
use desk_hub::make_ready;
use hall_locks::{Hall, Held, NoMark, Pass, Visit};
use journal_core::{Entry, weight};
use pvd_type::BitSet;
use std::alloc::Global;
use std::marker::Brand;
use std::sync::Wait;

/// Whether the entries may weigh so much more.
fn is_light(kept: u64, added: u64, limit: u64) -> bool
    ensures { result ≡ nat_le (kept + added) limit }
{
    kept <= limit && added <= limit - kept
}

/// Gives all back as it was taken, with what an entry had written put back, and without a mark.
fn give_up<P: Drop>(
    hall: &Hall<Records<P>>,
    site: &Site,
    mut held: Held<Records<P>>,
    cells: &mut Cells<LentPort<P>>,
    recs: &[u32],
) -> Pass<Records<P>>
    requires own { held.seat.table_id ≡ hall.now.table.shared.table_id }
    requires undoes { Undoes held.seat.me.0 held.hub recs.now (states_of held.cells.items) site.now.opening cells.old.states.items cells.old.before.items }
    requires many { length held.cells.items ≡ length recs.now }
    requires ports { length cells.old.ports.items ≡ length cells.old.states.items }
    ensures own { result.seat.table_id ≡ held.seat.table_id }
    ensures others { result.seat.me.0.others ≡ held.seat.me.0.others }
    ensures same { seat_of result.seat.me.0 ≡ seat_of held.seat.me.0 }
    ensures states { cells.new.states.items ≡ site.now.opening }
    ensures ports { ports_there cells.new.ports.items ≡ ports_there cells.old.ports.items }
{
    cells.restore();
    exchange(&mut held.cells, recs, cells);
    hall.look::<NoMark>(held)
}

/// What `enter` does once it has the hub.
fn enter_held<P: Drop>(
    alloc: Global,
    hall: &Hall<Records<P>>,
    site: &Site,
    cells: &mut Cells<LentPort<P>>,
    mut held: Held<Records<P>>,
    recs: &[u32],
    entry: Entry,
    looked: &[u32],
    done: u32,
) -> (Pass<Records<P>>, Result<u64, PutAnswer>)
    requires own { held.seat.table_id ≡ hall.now.table.shared.table_id }
    requires drafted { IsDrafted held.seat.me.0 held.hub recs.now (states_of held.cells.items) site.now cells.old.states.items cells.old.before.items entry looked.now }
    requires weight { weight_of entry < 2 ^ 64 }
    requires many { length held.cells.items ≡ length recs.now }
    requires ports { length cells.old.ports.items ≡ length cells.old.states.items }
    ensures own { result.0.seat.table_id ≡ held.seat.table_id }
    ensures others { result.0.seat.me.0.others ≡ held.seat.me.0.others }
    ensures calls { Calls (seat_of held.seat.me.0) (seat_of result.0.seat.me.0) (AreEntered entry looked.now (found_in cells.old.states.items looked.now) done result.1) }
    ensures ends { OnTold result.1 (EndsAtItsMarks (seat_of held.seat.me.0) (seat_of result.0.seat.me.0)) }
    ensures states { cells.new.states.items ≡ site.now.opening }
    ensures ports { ports_there cells.new.ports.items ≡ ports_there cells.old.ports.items }
{
    groups_over_records(site);
    opening_is_valid(site);
    let kept = held.hub.history.kept();
    let added = weight(&entry);
    let limit = held.hub.limit;
    let light = is_light(kept, added, limit);
    if !light {
        cells.restore();
        exchange(&mut held.cells, recs, cells);
        let pass = look_overweight::<P, Brand>(hall, held, &entry, kept, added, limit);
        let full = PutAnswer::JournalFull {
            kept,
            entry: added,
            limit,
            done,
        };
        return (pass, Err(full));
    }
    let states = cells.states.as_slice();
    let Ok(ready) = make_ready(alloc, site, &held.hub.subs, &entry, states) else {
        return (
            give_up(hall, site, held, cells, recs),
            Err(PutAnswer::NoMemory { done }),
        );
    };
    let hub = &mut held.hub;
    let Ok(()) = hub.history.reserve() else {
        discard(ready);
        return (
            give_up(hall, site, held, cells, recs),
            Err(PutAnswer::NoMemory { done }),
        );
    };
    let place = held.hub.history.len();
    let pass = commit_entered::<P, Brand>(hall, held, cells, recs, entry, ready, looked);
    (pass, Ok(place))
}

/// Takes the hub and adds the entry that was drafted on the records in hand, behind so many others of its put, and tells its place, unless
/// the history would then be above its limit. It is posted to the subscriptions of all seats that it concerns. All memory is taken before
/// anything is changed. From here to where the hub is given back no port can be driven: of its type no more is known than that it may be let go.
fn enter<R: Wait, P: Drop>(
    rt: &R,
    alloc: Global,
    hall: &Hall<Records<P>>,
    site: &Site,
    cells: &mut Cells<LentPort<P>>,
    visit: Visit<Records<P>>,
    recs: &[u32],
    entry: Entry,
    looked: &[u32],
    done: u32,
) -> (Pass<Records<P>>, Result<u64, PutAnswer>)
    requires own { visit_hall visit ≡ hall_id hall.now }
    requires ahead { IsDraftedAhead (visit_view visit) recs.now (states_of visit.cells.items) site.now cells.old.states.items cells.old.before.items entry looked.now }
    requires weight { weight_of entry < 2 ^ 64 }
    requires many { length visit.cells.items ≡ length recs.now }
    requires ports { length cells.old.ports.items ≡ length cells.old.states.items }
    ensures own { pass_hall result.0 ≡ visit_hall visit }
    ensures others { pass_others result.0 ≡ visit_others visit }
    ensures calls { Calls (seat_of (visit_view visit)) (seat_of (pass_view result.0)) (AreEntered entry looked.now (found_in cells.old.states.items looked.now) done result.1) }
    ensures ends { OnTold result.1 (EndsAtItsMarks (seat_of (visit_view visit)) (seat_of (pass_view result.0))) }
    ensures states { cells.new.states.items ≡ site.now.opening }
    ensures ports { ports_there cells.new.ports.items ≡ ports_there cells.old.ports.items }
{
    let held = hall.hub(rt, visit);
    enter_held(alloc, hall, site, cells, held, recs, entry, looked, done)
}

/// Adds the entry of these actions behind so many others of its put, and tells its place. Its records are taken first, then it is
/// drafted and the ports of its actions' records are driven, and then the hub is taken.
fn put_entry<R: Wait, P: Port + Drop>(
    rt: &R,
    alloc: Global,
    hall: &Hall<Records<P>>,
    site: &Site,
    cells: &mut Cells<LentPort<P>>,
    pass: Pass<Records<P>>,
    actions: Vec<(u32, Action)>,
    moment: Moment,
    done: u32,
) -> (Pass<Records<P>>, Result<u64, PutAnswer>)
    requires stands { Stands hall.now.table.shared.table_id hall.now.count site.now cells.old.states.items (ports_there cells.old.ports.items) pass.seat.table_id pass.seat.me.0 }
    requires within { AllByRecursion (λ a. a.0 < length site.now.configs) actions.items }
    requires may { AllByRecursion (MayBeDoneBy site.now.configs) actions.items }
    requires few { length actions.items ≤ 256 }
    ensures stands { Stands hall.now.table.shared.table_id hall.now.count site.now cells.new.states.items (ports_there cells.new.ports.items) result.0.seat.table_id result.0.seat.me.0 }
    ensures others { result.0.seat.me.0.others ≡ pass.seat.me.0.others }
    ensures calls { Calls (seat_of pass.seat.me.0) (seat_of result.0.seat.me.0) (AreEntry site.now moment actions.items [] [] done result.1) }
    ensures ends { OnTold result.1 (EndsAtItsMarks (seat_of pass.seat.me.0) (seat_of result.0.seat.me.0)) }
{
    entries_write_inside();
    footprints_rise();
    names_and_configs(site);
    groups_over_records(site);
    opening_is_valid(site);
    let Ok(footprint) = site.footprint_by(alloc, actions.as_slice()) else {
        return (pass, Err(PutAnswer::NoMemory { done }));
    };
    let recs = footprint.as_slice();
    let mut visit = match visit_these(rt, alloc, hall, pass, recs) {
        Ok(visit) => visit,
        Err((pass, _)) => return (pass, Err(PutAnswer::NoMemory { done })),
    };
    exchange(&mut visit.cells, recs, cells);
    let Ok(entry) = cells.draft(alloc, site, actions, &[], moment) else {
        exchange(&mut visit.cells, recs, cells);
        return (hall.leave(visit), Err(PutAnswer::NoMemory { done }));
    };
    enter(rt, alloc, hall, site, cells, visit, recs, entry, &[], done)
}

/// Adds all actions as one entry.
fn put_whole<R: Wait, P: Port + Drop>(
    rt: &R,
    alloc: Global,
    hall: &Hall<Records<P>>,
    site: &Site,
    cells: &mut Cells<LentPort<P>>,
    pass: Pass<Records<P>>,
    actions: Vec<(u32, Action)>,
    moment: Moment,
) -> (Pass<Records<P>>, Result<Done, PutAnswer>)
    requires stands { Stands hall.now.table.shared.table_id hall.now.count site.now cells.old.states.items (ports_there cells.old.ports.items) pass.seat.table_id pass.seat.me.0 }
    requires within { AllByRecursion (λ a. a.0 < length site.now.configs) actions.items }
    requires may { AllByRecursion (MayBeDoneBy site.now.configs) actions.items }
    requires few { length actions.items ≤ 256 }
    ensures stands { Stands hall.now.table.shared.table_id hall.now.count site.now cells.new.states.items (ports_there cells.new.ports.items) result.0.seat.table_id result.0.seat.me.0 }
    ensures others { result.0.seat.me.0.others ≡ pass.seat.me.0.others }
    ensures calls { Calls (seat_of pass.seat.me.0) (seat_of result.0.seat.me.0) (ArePutInTurn site.now moment (entries_by true actions.items) result.1) }
    ensures ends { OnTold result.1 (EndsAtItsMarks (seat_of pass.seat.me.0) (seat_of result.0.seat.me.0)) }
{
    let (pass, entered) = put_entry(rt, alloc, hall, site, cells, pass, actions, moment, 0);
    match entered {
        Ok(first) => (pass, Ok(Done { first, count: 1 })),
        Err(answer) => (pass, Err(answer)),
    }
}

/// The place of a put's first entry, where so many were added before this one.
fn first_of(count: u32, first: u64, place: u64) -> u64
    ensures { result ≡ (if count == 0 then place else first) }
{
    if count == 0 { place } else { first }
}

/// Adds each action as an entry of its own, in order.
fn put_each<R: Wait, P: Port + Drop>(
    rt: &R,
    alloc: Global,
    hall: &Hall<Records<P>>,
    site: &Site,
    cells: &mut Cells<LentPort<P>>,
    pass: Pass<Records<P>>,
    actions: Vec<(u32, Action)>,
    moment: Moment,
) -> (Pass<Records<P>>, Result<Done, PutAnswer>)
    requires stands { Stands hall.now.table.shared.table_id hall.now.count site.now cells.old.states.items (ports_there cells.old.ports.items) pass.seat.table_id pass.seat.me.0 }
    requires within { AllByRecursion (λ a. a.0 < length site.now.configs) actions.items }
    requires may { AllByRecursion (MayBeDoneBy site.now.configs) actions.items }
    requires few { length actions.items ≤ 256 }
    ensures stands { Stands hall.now.table.shared.table_id hall.now.count site.now cells.new.states.items (ports_there cells.new.ports.items) result.0.seat.table_id result.0.seat.me.0 }
    ensures others { result.0.seat.me.0.others ≡ pass.seat.me.0.others }
    ensures calls { Calls (seat_of pass.seat.me.0) (seat_of result.0.seat.me.0) (ArePutInTurn site.now moment (entries_by false actions.items) result.1) }
    ensures ends { OnTold result.1 (EndsAtItsMarks (seat_of pass.seat.me.0) (seat_of result.0.seat.me.0)) }
{
    let mut pass = pass;
    let mut first = 0;
    let mut count = 0;
    for action in actions {
        let Ok(alone) = one_action(alloc, action) else {
            return (pass, Err(PutAnswer::NoMemory { done: count }));
        };
        let (next, entered) = put_entry(rt, alloc, hall, site, cells, pass, alone, moment, count);
        pass = next;
        match entered {
            Ok(place) => {
                first = first_of(count, first, place);
                count += 1;
            }
            Err(answer) => return (pass, Err(answer)),
        }
    }
    (pass, Ok(Done { first, count }))
}

/// Puts the marked leaves of the value at this moment.
pub(crate) fn put_in<R: Wait, P: Port + Drop>(
    rt: &R,
    alloc: Global,
    hall: &Hall<Records<P>>,
    site: &Site,
    cells: &mut Cells<LentPort<P>>,
    pass: Pass<Records<P>>,
    channel: Channel,
    mask: &BitSet,
    value: &PvValue,
    moment: Moment,
    atomic: Option<bool>,
) -> (Pass<Records<P>>, Result<Done, PutAnswer>)
    requires stands { Stands hall.now.table.shared.table_id hall.now.count site.now cells.old.states.items (ports_there cells.old.ports.items) pass.seat.table_id pass.seat.me.0 }
    requires channel { IsTrue (is_channel site.now channel) }
    requires fits { fits_of 16 (view value.now) (type_of site.now channel) ≡ true }
    ensures stands { Stands hall.now.table.shared.table_id hall.now.count site.now cells.new.states.items (ports_there cells.new.ports.items) result.0.seat.table_id result.0.seat.me.0 }
    ensures others { result.0.seat.me.0.others ≡ pass.seat.me.0.others }
    ensures calls { Calls (seat_of pass.seat.me.0) (seat_of result.0.seat.me.0) (ArePut (record { site = pass.seat.me.0.seen.base.site; channel = channel; mask = mask.now; value = view value.now; moment = moment; atomic = atomic }) result.1) }
    ensures ends { OnTold result.1 (EndsAtItsMarks (seat_of pass.seat.me.0) (seat_of result.0.seat.me.0)) }
{
    let actions = match site.actions(alloc, channel, value, mask) {
        Ok(actions) => actions,
        Err(answer) => return (pass, Err(not_done(answer))),
    };
    if site.is_atomic(channel, atomic) {
        return put_whole(rt, alloc, hall, site, cells, pass, actions, moment);
    }
    put_each(rt, alloc, hall, site, cells, pass, actions, moment)
}

/// Adds all actions as one entry, which holds the channel's records too, and tells what the channel shows right after it.
fn put_and_show<R: Wait, P: Port + Drop>(
    rt: &R,
    alloc: Global,
    hall: &Hall<Records<P>>,
    site: &Site,
    cells: &mut Cells<LentPort<P>>,
    pass: Pass<Records<P>>,
    channel: Channel,
    actions: Vec<(u32, Action)>,
    moment: Moment,
) -> (Pass<Records<P>>, Result<(Done, PvValue), PutAnswer>)
    requires stands { Stands hall.now.table.shared.table_id hall.now.count site.now cells.old.states.items (ports_there cells.old.ports.items) pass.seat.table_id pass.seat.me.0 }
    requires channel { IsTrue (is_channel site.now channel) }
    requires within { AllByRecursion (λ a. a.0 < length site.now.configs) actions.items }
    requires may { AllByRecursion (MayBeDoneBy site.now.configs) actions.items }
    requires few { length actions.items ≤ 256 }
    ensures stands { Stands hall.now.table.shared.table_id hall.now.count site.now cells.new.states.items (ports_there cells.new.ports.items) result.0.seat.table_id result.0.seat.me.0 }
    ensures others { result.0.seat.me.0.others ≡ pass.seat.me.0.others }
    ensures calls { Calls (seat_of pass.seat.me.0) (seat_of result.0.seat.me.0) (ArePutGot site.now channel moment actions.items result.1) }
    ensures ends { OnTold result.1 (EndsAtItsMarks (seat_of pass.seat.me.0) (seat_of result.0.seat.me.0)) }
    ensures fits { IfOk result.1 (λ r. fits_of 16 (view r.1) (type_of site.now channel) ≡ true) }
{
    entries_write_inside();
    footprints_rise();
    looks_show_states();
    names_and_configs(site);
    groups_over_records(site);
    opening_is_valid(site);
    let looked = site.footprint_of(channel);
    let Ok(footprint) = site.footprint_with(alloc, actions.as_slice(), looked) else {
        return (pass, Err(PutAnswer::NoMemory { done: 0 }));
    };
    let recs = footprint.as_slice();
    let mut visit = match visit_these(rt, alloc, hall, pass, recs) {
        Ok(visit) => visit,
        Err((pass, _)) => return (pass, Err(PutAnswer::NoMemory { done: 0 })),
    };
    exchange(&mut visit.cells, recs, cells);
    let Ok(drafted) = cells.draft_shown(alloc, site, channel, actions, moment) else {
        exchange(&mut visit.cells, recs, cells);
        return (hall.leave(visit), Err(PutAnswer::NoMemory { done: 0 }));
    };
    let (entry, value) = drafted;
    let (pass, entered) = enter(rt, alloc, hall, site, cells, visit, recs, entry, looked, 0);
    match entered {
        Ok(first) => (pass, Ok((Done { first, count: 1 }, value))),
        Err(answer) => {
            discard(value);
            (pass, Err(answer))
        }
    }
}

/// Puts the marked leaves, and then gets the channel.
fn put_then_get<R: Wait, P: Port + Drop>(
    rt: &R,
    alloc: Global,
    hall: &Hall<Records<P>>,
    site: &Site,
    cells: &mut Cells<LentPort<P>>,
    pass: Pass<Records<P>>,
    channel: Channel,
    mask: &BitSet,
    value: &PvValue,
    moment: Moment,
    atomic: Option<bool>,
) -> (Pass<Records<P>>, Result<(Done, PvValue), PutAnswer>)
    requires stands { Stands hall.now.table.shared.table_id hall.now.count site.now cells.old.states.items (ports_there cells.old.ports.items) pass.seat.table_id pass.seat.me.0 }
    requires channel { IsTrue (is_channel site.now channel) }
    requires fits { fits_of 16 (view value.now) (type_of site.now channel) ≡ true }
    requires apart { sites.is_atomic site.now channel atomic ≡ false }
    ensures stands { Stands hall.now.table.shared.table_id hall.now.count site.now cells.new.states.items (ports_there cells.new.ports.items) result.0.seat.table_id result.0.seat.me.0 }
    ensures others { result.0.seat.me.0.others ≡ pass.seat.me.0.others }
    ensures calls { Calls (seat_of pass.seat.me.0) (seat_of result.0.seat.me.0) (ArePutGet (record { site = pass.seat.me.0.seen.base.site; channel = channel; mask = mask.now; value = view value.now; moment = moment; atomic = atomic }) result.1) }
    ensures ends { OnTold result.1 (EndsAtItsMarks (seat_of pass.seat.me.0) (seat_of result.0.seat.me.0)) }
    ensures fits { IfOk result.1 (λ r. fits_of 16 (view r.1) (type_of site.now channel) ≡ true) }
{
    let (pass, answer) = put_in(
        rt, alloc, hall, site, cells, pass, channel, mask, value, moment, atomic,
    );
    let done = match answer {
        Ok(done) => done,
        Err(answer) => return (pass, Err(answer)),
    };
    let (pass, got) = get_in(rt, alloc, hall, site, cells, pass, channel, atomic);
    match got {
        Ok(value) => (pass, Ok((done, value))),
        Err(_) => (pass, Err(PutAnswer::NoMemory { done: done.count })),
    }
}

/// Puts the marked leaves of the value at this moment and gets the channel, as one entry where the call is atomic.
pub(crate) fn put_get_in<R: Wait, P: Port + Drop>(
    rt: &R,
    alloc: Global,
    hall: &Hall<Records<P>>,
    site: &Site,
    cells: &mut Cells<LentPort<P>>,
    pass: Pass<Records<P>>,
    channel: Channel,
    mask: &BitSet,
    value: &PvValue,
    moment: Moment,
    atomic: Option<bool>,
) -> (Pass<Records<P>>, Result<(Done, PvValue), PutAnswer>)
    requires stands { Stands hall.now.table.shared.table_id hall.now.count site.now cells.old.states.items (ports_there cells.old.ports.items) pass.seat.table_id pass.seat.me.0 }
    requires channel { IsTrue (is_channel site.now channel) }
    requires fits { fits_of 16 (view value.now) (type_of site.now channel) ≡ true }
    ensures stands { Stands hall.now.table.shared.table_id hall.now.count site.now cells.new.states.items (ports_there cells.new.ports.items) result.0.seat.table_id result.0.seat.me.0 }
    ensures others { result.0.seat.me.0.others ≡ pass.seat.me.0.others }
    ensures calls { Calls (seat_of pass.seat.me.0) (seat_of result.0.seat.me.0) (ArePutGet (record { site = pass.seat.me.0.seen.base.site; channel = channel; mask = mask.now; value = view value.now; moment = moment; atomic = atomic }) result.1) }
    ensures ends { OnTold result.1 (EndsAtItsMarks (seat_of pass.seat.me.0) (seat_of result.0.seat.me.0)) }
    ensures fits { IfOk result.1 (λ r. fits_of 16 (view r.1) (type_of site.now channel) ≡ true) }
{
    let at_once = site.is_atomic(channel, atomic);
    if !at_once {
        return put_then_get(
            rt, alloc, hall, site, cells, pass, channel, mask, value, moment, atomic,
        );
    }
    match site.actions(alloc, channel, value, mask) {
        Ok(actions) => put_and_show(rt, alloc, hall, site, cells, pass, channel, actions, moment),
        Err(answer) => (pass, Err(not_done(answer))),
    }
}
