// Gets of a desk on a pass, and looks at all records.
ghost use Rattle.std.specs.Prelude.{◌≡◌, ◌<◌, ◌∷◌, [], IfOk, false, true, IsTrue, OnOk, length};
ghost use Rattle.std.specs.List.{AllByRecursion};
ghost use Rattle.desk_api.specs.Calls.{AreGet, AreSnapshot, Calls, EndsAtItsMarks};
ghost use Rattle.desk_api.specs.History.{IsLegal};
ghost use Rattle.desk_api.specs.Marks.{IsLookOf};
ghost use Rattle.desk_api.specs.Sites as sites;
ghost use Rattle.desk_api.specs.Sites.{is_channel};
ghost use Rattle.desk_api.specs.Types.{type_of};
ghost use Rattle.desk_core.specs.Ports.{ports_there};
ghost use Rattle.desk_shared.specs.Desks.{Stands};
ghost use Rattle.desk_shared.specs.Looks.{AreLook, AreLookedAt, IsRestorable};
ghost use Rattle.desk_shared.specs.Records.{seat_of};
ghost use Rattle.journal_core.specs.Legality.{AreValid};
ghost use Rattle.pvd_value.specs.Fits.{fits_of};
ghost use Rattle.pvd_value.specs.View.{view};

use crate::exchanging::exchange;
use crate::lent::LentPort;
use crate::noting::look_read;
use crate::records::Records;
use crate::visiting::{opening_is_valid, visit_channel, visit_records};
use desk_api::{Channel, NoMemory, PvValue, RecRow, Site, footprints_rise, looks_show_states};
use desk_core::{Cells, SERVICE, groups_over_records, names_and_configs};
use hall_locks::{Hall, Pass};
use std::alloc::Global;
use std::marker::Brand;
use std::sync::Wait;

/// What a channel shows of its records, which are looked at in one place. The value is made before the hub is taken.
fn get_at_once<R: Wait, P: Drop>(
    rt: &R,
    alloc: Global,
    hall: &Hall<Records<P>>,
    site: &Site,
    cells: &mut Cells<LentPort<P>>,
    pass: Pass<Records<P>>,
    channel: Channel,
    atomic: Option<bool>,
) -> (Pass<Records<P>>, Result<PvValue, NoMemory>)
    requires stands { Stands hall.now.table.shared.table_id hall.now.count site.now cells.old.states.items (ports_there cells.old.ports.items) pass.seat.table_id pass.seat.me.0 }
    requires channel { IsTrue (is_channel site.now channel) }
    requires whole { IsTrue (sites.is_atomic site.now channel atomic) }
    ensures stands { Stands hall.now.table.shared.table_id hall.now.count site.now cells.new.states.items (ports_there cells.new.ports.items) result.0.seat.table_id result.0.seat.me.0 }
    ensures others { result.0.seat.me.0.others ≡ pass.seat.me.0.others }
    ensures calls { Calls (seat_of pass.seat.me.0) (seat_of result.0.seat.me.0) (AreGet pass.seat.me.0.seen.base.site channel atomic result.1) }
    ensures ends { OnOk result.1 (EndsAtItsMarks (seat_of pass.seat.me.0) (seat_of result.0.seat.me.0)) }
    ensures fits { IfOk result.1 (λ v. fits_of 16 (view v) (type_of pass.seat.me.0.seen.base.site channel) ≡ true) }
{
    footprints_rise();
    looks_show_states();
    groups_over_records(site);
    names_and_configs(site);
    opening_is_valid(site);
    let mut visit = match visit_channel(rt, alloc, hall, site, pass, channel) {
        Ok(visit) => visit,
        Err((pass, no_memory)) => return (pass, Err(no_memory)),
    };
    exchange(&mut visit.cells, site.footprint_of(channel), cells);
    let shown = site.view(alloc, channel, cells.states.as_slice());
    exchange(&mut visit.cells, site.footprint_of(channel), cells);
    match shown {
        Ok(value) => {
            let held = hall.glance(rt, visit);
            (look_read::<P, Brand>(hall, held, channel), Ok(value))
        }
        Err(no_memory) => (hall.leave(visit), Err(no_memory)),
    }
}

/// The list of one record.
fn one_record(alloc: Global, rec: u32) -> Result<Vec<u32>, NoMemory>
    ensures { IfOk result (λ recs. recs.items ≡ rec ∷ []) }
{
    Ok(vec![in alloc; rec]?)
}

/// Looks at one record for a get of the channel, and keeps a copy of its state at the record's place.
fn look_at<R: Wait, P: Drop>(
    rt: &R,
    alloc: Global,
    hall: &Hall<Records<P>>,
    site: &Site,
    cells: &mut Cells<LentPort<P>>,
    pass: Pass<Records<P>>,
    channel: Channel,
    rec: u32,
) -> (Pass<Records<P>>, Result<(), NoMemory>)
    requires own { pass.seat.table_id ≡ hall.now.table.shared.table_id }
    requires site { pass.seat.me.0.seen.base.site ≡ site.now }
    requires legal { IsLegal pass.seat.me.0.seen }
    requires count { hall.now.count ≡ length site.now.names }
    requires look { IsLookOf site.now channel (rec ∷ []) }
    requires rec { rec < length site.now.names }
    requires valid { AreValid site.now.configs cells.old.states.items }
    requires restorable { IsRestorable site.now.opening cells.old.states.items cells.old.before.items }
    ensures own { result.0.seat.table_id ≡ pass.seat.table_id }
    ensures others { result.0.seat.me.0.others ≡ pass.seat.me.0.others }
    ensures calls { Calls (seat_of pass.seat.me.0) (seat_of result.0.seat.me.0) (AreLook channel rec cells.old.states.items cells.new.states.items result.1) }
    ensures ends { OnOk result.1 (EndsAtItsMarks (seat_of pass.seat.me.0) (seat_of result.0.seat.me.0)) }
    ensures valid { AreValid site.now.configs cells.new.states.items }
    ensures restorable { IsRestorable site.now.opening cells.new.states.items cells.new.before.items }
    ensures ports { cells.new.ports.items ≡ cells.old.ports.items }
{
    names_and_configs(site);
    opening_is_valid(site);
    let Ok(recs) = one_record(alloc, rec) else {
        return (pass, Err(NoMemory));
    };
    let visit = match visit_records(rt, alloc, hall, pass, recs) {
        Ok(visit) => visit,
        Err((pass, no_memory)) => return (pass, Err(no_memory)),
    };
    let Ok(copy) = visit.cells[0].state.clone_in(alloc) else {
        return (hall.leave(visit), Err(NoMemory));
    };
    match cells.write(rec, copy) {
        Ok(()) => {
            let held = hall.glance(rt, visit);
            (look_read::<P, Brand>(hall, held, channel), Ok(()))
        }
        Err(no_memory) => (hall.leave(visit), Err(no_memory)),
    }
}

/// Looks at these records one after another, and keeps a copy of each state at its record's place.
fn look_at_each<R: Wait, P: Drop>(
    rt: &R,
    alloc: Global,
    hall: &Hall<Records<P>>,
    site: &Site,
    cells: &mut Cells<LentPort<P>>,
    pass: Pass<Records<P>>,
    channel: Channel,
    recs: &[u32],
) -> (Pass<Records<P>>, Result<(), NoMemory>)
    requires own { pass.seat.table_id ≡ hall.now.table.shared.table_id }
    requires site { pass.seat.me.0.seen.base.site ≡ site.now }
    requires legal { IsLegal pass.seat.me.0.seen }
    requires count { hall.now.count ≡ length site.now.names }
    requires looks { AllByRecursion (λ rec. IsLookOf site.now channel (rec ∷ [])) recs.now }
    requires recs { AllByRecursion (λ rec. rec < length site.now.names) recs.now }
    requires valid { AreValid site.now.configs cells.old.states.items }
    requires restorable { IsRestorable site.now.opening cells.old.states.items cells.old.before.items }
    ensures own { result.0.seat.table_id ≡ pass.seat.table_id }
    ensures others { result.0.seat.me.0.others ≡ pass.seat.me.0.others }
    ensures calls { Calls (seat_of pass.seat.me.0) (seat_of result.0.seat.me.0) (AreLookedAt channel recs.now cells.old.states.items cells.new.states.items result.1) }
    ensures ends { OnOk result.1 (EndsAtItsMarks (seat_of pass.seat.me.0) (seat_of result.0.seat.me.0)) }
    ensures valid { AreValid site.now.configs cells.new.states.items }
    ensures restorable { IsRestorable site.now.opening cells.new.states.items cells.new.before.items }
    ensures ports { cells.new.ports.items ≡ cells.old.ports.items }
{
    let mut pass = pass;
    for rec in recs {
        let (next, looked) = look_at(rt, alloc, hall, site, cells, pass, channel, *rec);
        pass = next;
        match looked {
            Ok(()) => continue,
            Err(no_memory) => return (pass, Err(no_memory)),
        }
    }
    (pass, Ok(()))
}

/// What a channel shows of its records, which are looked at one after another.
fn get_one_by_one<R: Wait, P: Drop>(
    rt: &R,
    alloc: Global,
    hall: &Hall<Records<P>>,
    site: &Site,
    cells: &mut Cells<LentPort<P>>,
    pass: Pass<Records<P>>,
    channel: Channel,
    atomic: Option<bool>,
) -> (Pass<Records<P>>, Result<PvValue, NoMemory>)
    requires stands { Stands hall.now.table.shared.table_id hall.now.count site.now cells.old.states.items (ports_there cells.old.ports.items) pass.seat.table_id pass.seat.me.0 }
    requires channel { IsTrue (is_channel site.now channel) }
    requires apart { sites.is_atomic site.now channel atomic ≡ false }
    ensures stands { Stands hall.now.table.shared.table_id hall.now.count site.now cells.new.states.items (ports_there cells.new.ports.items) result.0.seat.table_id result.0.seat.me.0 }
    ensures others { result.0.seat.me.0.others ≡ pass.seat.me.0.others }
    ensures calls { Calls (seat_of pass.seat.me.0) (seat_of result.0.seat.me.0) (AreGet pass.seat.me.0.seen.base.site channel atomic result.1) }
    ensures ends { OnOk result.1 (EndsAtItsMarks (seat_of pass.seat.me.0) (seat_of result.0.seat.me.0)) }
    ensures fits { IfOk result.1 (λ v. fits_of 16 (view v) (type_of pass.seat.me.0.seen.base.site channel) ≡ true) }
{
    groups_over_records(site);
    names_and_configs(site);
    opening_is_valid(site);
    cells.before.clear();
    let recs = site.footprint_of(channel);
    let (pass, looked) = look_at_each(rt, alloc, hall, site, cells, pass, channel, recs);
    match looked {
        Ok(()) => {
            let shown = site.view(alloc, channel, cells.states.as_slice());
            cells.restore();
            (pass, shown)
        }
        Err(no_memory) => {
            cells.restore();
            (pass, Err(no_memory))
        }
    }
}

/// What a channel shows of its records.
pub(crate) fn get_in<R: Wait, P: Drop>(
    rt: &R,
    alloc: Global,
    hall: &Hall<Records<P>>,
    site: &Site,
    cells: &mut Cells<LentPort<P>>,
    pass: Pass<Records<P>>,
    channel: Channel,
    atomic: Option<bool>,
) -> (Pass<Records<P>>, Result<PvValue, NoMemory>)
    requires stands { Stands hall.now.table.shared.table_id hall.now.count site.now cells.old.states.items (ports_there cells.old.ports.items) pass.seat.table_id pass.seat.me.0 }
    requires channel { IsTrue (is_channel site.now channel) }
    ensures stands { Stands hall.now.table.shared.table_id hall.now.count site.now cells.new.states.items (ports_there cells.new.ports.items) result.0.seat.table_id result.0.seat.me.0 }
    ensures others { result.0.seat.me.0.others ≡ pass.seat.me.0.others }
    ensures calls { Calls (seat_of pass.seat.me.0) (seat_of result.0.seat.me.0) (AreGet pass.seat.me.0.seen.base.site channel atomic result.1) }
    ensures ends { OnOk result.1 (EndsAtItsMarks (seat_of pass.seat.me.0) (seat_of result.0.seat.me.0)) }
    ensures fits { IfOk result.1 (λ v. fits_of 16 (view v) (type_of pass.seat.me.0.seen.base.site channel) ≡ true) }
{
    if site.is_atomic(channel, atomic) {
        return get_at_once(rt, alloc, hall, site, cells, pass, channel, atomic);
    }
    get_one_by_one(rt, alloc, hall, site, cells, pass, channel, atomic)
}

/// A row for each record, all of which are looked at in one place. The rows are made before the hub is taken.
pub(crate) fn snapshot_in<R: Wait, P: Drop>(
    rt: &R,
    alloc: Global,
    hall: &Hall<Records<P>>,
    site: &Site,
    cells: &mut Cells<LentPort<P>>,
    pass: Pass<Records<P>>,
) -> (Pass<Records<P>>, Result<Vec<RecRow>, NoMemory>)
    requires stands { Stands hall.now.table.shared.table_id hall.now.count site.now cells.old.states.items (ports_there cells.old.ports.items) pass.seat.table_id pass.seat.me.0 }
    ensures stands { Stands hall.now.table.shared.table_id hall.now.count site.now cells.new.states.items (ports_there cells.new.ports.items) result.0.seat.table_id result.0.seat.me.0 }
    ensures others { result.0.seat.me.0.others ≡ pass.seat.me.0.others }
    ensures calls { Calls (seat_of pass.seat.me.0) (seat_of result.0.seat.me.0) (AreSnapshot pass.seat.me.0.seen.base.site result.1) }
    ensures ends { OnOk result.1 (EndsAtItsMarks (seat_of pass.seat.me.0) (seat_of result.0.seat.me.0)) }
{
    footprints_rise();
    groups_over_records(site);
    names_and_configs(site);
    opening_is_valid(site);
    let mut visit = match visit_channel(rt, alloc, hall, site, pass, SERVICE) {
        Ok(visit) => visit,
        Err((pass, no_memory)) => return (pass, Err(no_memory)),
    };
    exchange(&mut visit.cells, site.footprint_of(SERVICE), cells);
    let told = site.rows(alloc, cells.states.as_slice());
    exchange(&mut visit.cells, site.footprint_of(SERVICE), cells);
    match told {
        Ok(rows) => {
            let held = hall.glance(rt, visit);
            (look_read::<P, Brand>(hall, held, SERVICE), Ok(rows))
        }
        Err(no_memory) => (hall.leave(visit), Err(no_memory)),
    }
}
