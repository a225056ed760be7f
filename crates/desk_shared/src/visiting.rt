// Records are taken, and what was seen is brought up to date.
ghost use Rattle.std.specs.Prelude.{◌≡◌, ◌<◌, [], IfErr, IfOk, IsTrue, length};
ghost use Rattle.std.specs.List.{AllByRecursion};
ghost use Rattle.std.specs.List.Sorted.{IsStrictlyIncreasing};
ghost use Rattle.desk_api.specs.Calls.{Adds};
ghost use Rattle.desk_api.specs.Sites.{footprint_of, is_channel};
ghost use Rattle.desk_shared.specs.Hands.{Visits, states_of};
ghost use Rattle.desk_shared.specs.Records.{seat_of};
ghost use Rattle.journal_core.specs.Legality.{AreValid};

use crate::records::Records;
use desk_api::{Channel, NoMemory, Site, footprints_rise};
use desk_core::{groups_over_records, names_and_configs};
use hall_locks::{Hall, NoMark, Pass, Visit};
use std::alloc::Global;
use std::sync::Wait;

/// Nothing is done. It tells that each record opens in a state that is valid for it.
pub(crate) fn opening_is_valid(site: &Site)
    ensures { AreValid site.now.configs site.now.opening }
{
    let _ = site.records();
}

/// Takes the cells of these records. It may wait for each.
pub(crate) fn visit_records<R: Wait, P: Drop>(
    rt: &R,
    alloc: Global,
    hall: &Hall<Records<P>>,
    pass: Pass<Records<P>>,
    recs: Vec<u32>,
) -> Result<Visit<Records<P>>, (Pass<Records<P>>, NoMemory)>
    requires own { pass.seat.table_id ≡ hall.now.table.shared.table_id }
    requires rises { IsStrictlyIncreasing recs.items }
    requires inside { AllByRecursion (λ rec. rec < hall.now.count) recs.items }
    ensures own { IfOk result (λ v. v.seat.table_id ≡ pass.seat.table_id) }
    ensures others { IfOk result (λ v. v.seat.me.0.others ≡ pass.seat.me.0.others) }
    ensures recs { IfOk result (λ v. v.footprint.items ≡ recs.items) }
    ensures visits { IfOk result (λ v. Visits pass.seat.me.0 v.seat.me.0 recs.items (states_of v.cells.items)) }
    ensures back { IfErr result (λ e. e.0 ≡ pass) }
{
    match hall.visit(rt, alloc, pass, recs) {
        Ok(visit) => Ok(visit),
        Err((pass, _)) => Err((pass, NoMemory)),
    }
}

/// Takes the cells of these records, whose list it copies. It may wait for each.
pub(crate) fn visit_these<R: Wait, P: Drop>(
    rt: &R,
    alloc: Global,
    hall: &Hall<Records<P>>,
    pass: Pass<Records<P>>,
    recs: &[u32],
) -> Result<Visit<Records<P>>, (Pass<Records<P>>, NoMemory)>
    requires own { pass.seat.table_id ≡ hall.now.table.shared.table_id }
    requires rises { IsStrictlyIncreasing recs.now }
    requires inside { AllByRecursion (λ rec. rec < hall.now.count) recs.now }
    ensures own { IfOk result (λ v. v.seat.table_id ≡ pass.seat.table_id) }
    ensures others { IfOk result (λ v. v.seat.me.0.others ≡ pass.seat.me.0.others) }
    ensures recs { IfOk result (λ v. v.footprint.items ≡ recs.now) }
    ensures visits { IfOk result (λ v. Visits pass.seat.me.0 v.seat.me.0 recs.now (states_of v.cells.items)) }
    ensures back { IfErr result (λ e. e.0 ≡ pass) }
{
    let Ok(copy) = Vec::from_slice(alloc, recs) else {
        return Err((pass, NoMemory));
    };
    visit_records(rt, alloc, hall, pass, copy)
}

/// Takes the cells of the records that a get of the channel reads. It may wait for each.
pub(crate) fn visit_channel<R: Wait, P: Drop>(
    rt: &R,
    alloc: Global,
    hall: &Hall<Records<P>>,
    site: &Site,
    pass: Pass<Records<P>>,
    channel: Channel,
) -> Result<Visit<Records<P>>, (Pass<Records<P>>, NoMemory)>
    requires own { pass.seat.table_id ≡ hall.now.table.shared.table_id }
    requires count { hall.now.count ≡ length site.now.names }
    requires channel { IsTrue (is_channel site.now channel) }
    ensures own { IfOk result (λ v. v.seat.table_id ≡ pass.seat.table_id) }
    ensures others { IfOk result (λ v. v.seat.me.0.others ≡ pass.seat.me.0.others) }
    ensures recs { IfOk result (λ v. v.footprint.items ≡ footprint_of site.now channel) }
    ensures visits { IfOk result (λ v. Visits pass.seat.me.0 v.seat.me.0 (footprint_of site.now channel) (states_of v.cells.items)) }
    ensures back { IfErr result (λ e. e.0 ≡ pass) }
{
    footprints_rise();
    groups_over_records(site);
    names_and_configs(site);
    let Ok(recs) = Vec::from_slice(alloc, site.footprint_of(channel)) else {
        return Err((pass, NoMemory));
    };
    visit_records(rt, alloc, hall, pass, recs)
}

/// Sees the history to its present end. It may wait, and takes no memory.
pub(crate) fn catch_up<R: Wait, P: Drop>(
    rt: &R,
    alloc: Global,
    hall: &Hall<Records<P>>,
    pass: Pass<Records<P>>,
) -> Pass<Records<P>>
    requires own { pass.seat.table_id ≡ hall.now.table.shared.table_id }
    ensures own { result.seat.table_id ≡ pass.seat.table_id }
    ensures others { result.seat.me.0.others ≡ pass.seat.me.0.others }
    ensures adds { Adds (seat_of pass.seat.me.0) (seat_of result.seat.me.0) [] }
{
    let Ok(visit) = hall.visit(rt, alloc, pass, Vec::new(alloc)) else {
        unreachable!()
    };
    let held = hall.glance(rt, visit);
    hall.glanced::<NoMark>(held)
}
