ghost use Rattle.std.specs.Prelude.{◌≡◌, true, IfOk};
ghost use Rattle.pvd_value.specs.Leaves.{marked_leaves};
ghost use Rattle.pva_messages.specs.Views.{part_view, update_view, valued_view};
ghost use Rattle.cli_session.specs.Fitting.{part_fits, update_fits, valued_fits, all_fit};
ghost use Rattle.cli_session.specs.Seen.{reports_view};
ghost use Rattle.cli_session.specs.declared.report.Report.TheVariants as reports;
ghost use Rattle.cli_session.specs.Steps.{value_told, type_told, outcome_told, update_told};

use pva_messages::Part;
use pva_wire::Status;
use pvd_type::{BitSet, NoMemory, PvType};
use pvd_value::{PvValue, ValueBits, leaves_of};
use std::alloc::Global;

/// What a client tells of an operation.
#[derive(Drop)]
pub enum Report {
    /// A part of a value: what a get, a put-get or a call gave, or an update of a monitor.
    Part {
        /// The type of the value, which the value fits.
        ty: PvType,
        /// The leaves that are there; all of them for a call.
        mask: BitSet,
        /// The leaves that changed more than once since the last update.
        overrun: BitSet,
        value: PvValue,
    },
    /// The type of the channel.
    Kind(PvType),
    /// The server refused, with the status ERROR or FATAL. The operation has then ended.
    Refused(Status),
    /// The operation has ended otherwise.
    Finished,
}

/// What an event tells: a report, where there is one, and then perhaps that the operation has ended.
#[derive(Drop)]
pub(crate) struct Telling {
    pub(crate) report: Option<Report>,
    pub(crate) finished: bool,
}

/// A part of a value, of which these leaves changed more than once.
fn part_report(part: Part, overrun: BitSet) -> Report
    ensures { result ≡ reports.Part part.ty part.mask overrun part.value }
{
    Report::Part {
        ty: part.ty,
        mask: part.mask,
        overrun,
        value: part.value,
    }
}

/// A part of a value, of which nothing changed more than once.
pub(crate) fn value_report(alloc: Global, part: Option<Part>) -> Option<Report>
    requires { part_fits (part_view part) ≡ true }
    ensures told { reports_view result ≡ value_told (part_view part) }
    ensures fits { all_fit (reports_view result) ≡ true }
{
    let part = part?;
    Some(part_report(part, BitSet::new(alloc)))
}

/// The type that was asked for.
pub(crate) fn type_report(ty: Option<PvType>) -> Option<Report>
    ensures told { reports_view result ≡ type_told ty }
    ensures fits { all_fit (reports_view result) ≡ true }
{
    match ty {
        Some(ty) => Some(Report::Kind(ty)),
        None => None,
    }
}

/// The result of a call, with all its leaves.
pub(crate) fn outcome_report(
    alloc: Global,
    value: Option<(PvType, PvValue)>,
) -> Result<Option<Report>, NoMemory>
    requires { valued_fits (valued_view value) ≡ true }
    ensures told { IfOk result (λ r. reports_view r ≡ outcome_told (valued_view value)) }
    ensures fits { IfOk result (λ r. all_fit (reports_view r) ≡ true) }
{
    let Some((ty, value)) = value else {
        return Ok(None);
    };
    let mask = ty.leaves(alloc)?;
    Ok(value_report(alloc, Some(Part { ty, mask, value })))
}

/// The bits that are numbers of the type's nodes.
fn within(alloc: Global, ty: &PvType, bits: &BitSet) -> Result<BitSet, NoMemory>
    ensures { IfOk result (λ s. marked_leaves ty.now s ≡ marked_leaves ty.now bits.now) }
{
    let mut found = BitSet::new(alloc);
    for number in 0..ty.node_count() {
        if !bits.contains(number) {
            continue;
        }
        found.insert(number)?;
    }
    Ok(found)
}

/// The leaves that bits mark, where a structure's bit stands for all its leaves, and a bit outside the type marks none.
fn leaves_marked(alloc: Global, ty: &PvType, bits: BitSet) -> Result<BitSet, NoMemory>
    ensures { IfOk result (λ s. s ≡ marked_leaves ty.now bits) }
{
    let bits = within(alloc, ty, &bits)?;
    match leaves_of(alloc, ty, &bits) {
        Ok(leaves) => Ok(leaves),
        Err(_) => Err(NoMemory),
    }
}

/// An update of a monitor.
pub(crate) fn update_report(
    alloc: Global,
    update: Option<(Part, BitSet)>,
) -> Result<Option<Report>, NoMemory>
    requires { update_fits (update_view update) ≡ true }
    ensures told { IfOk result (λ r. reports_view r ≡ update_told (update_view update)) }
    ensures fits { IfOk result (λ r. all_fit (reports_view r) ≡ true) }
{
    let Some((part, bits)) = update else {
        return Ok(None);
    };
    let overrun = leaves_marked(alloc, &part.ty, bits)?;
    Ok(Some(part_report(part, overrun)))
}
