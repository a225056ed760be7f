// The present states of the records, and their ports.
ghost use Rattle.std.specs.Prelude.{◌≡◌, ◌<◌, ◌^◌, IfOk, Some, length, slice_get};
ghost use Rattle.desk_api.specs.Sites.{AreOver};
ghost use Rattle.journal_core.specs.Legality.{AreValid};
ghost use Rattle.rec_kinds.specs.Validity.{IsValid};

use desk_api::{NoMemory, RecState, Site};
use rec_kinds::RecConfig;
use std::alloc::Global;

/// The present states of the records of a site, and their ports, each at its record's place.
#[derive(Drop)]
pub struct Cells<P> {
    /// The states.
    pub states: Vec<RecState>,
    /// The ports.
    pub ports: Vec<Option<P>>,
    /// The states that the records of the last draft had before it, in the order of its writes. It is kept for its memory.
    pub before: Vec<(u32, RecState)>,
}

/// The states that the records of a site open with.
pub fn opening_of(alloc: Global, site: &Site) -> Result<Vec<RecState>, NoMemory>
    ensures states { IfOk result (λ states. states.items ≡ site.now.opening) }
    ensures valid { AreValid site.now.configs site.now.opening }
{
    let count = site.records();
    let mut states = Vec::with_capacity(alloc, count)?;
    for rec in 0..count {
        states.push(site.opening(rec).clone_in(alloc)?)?;
    }
    Ok(states)
}

/// How a record is configured, and its present state, by its number.
pub(crate) fn record_at<'a>(
    site: &'a Site,
    states: &'a Vec<RecState>,
    rec: usize,
) -> (&'a RecConfig, &'a RecState)
    requires within { rec < length site.now.configs }
    requires valid { AreValid site.now.configs states.now.items }
    ensures configured { slice_get site.now.configs rec ≡ Some result.0.now }
    ensures found { slice_get states.now.items rec ≡ Some result.1.now }
    ensures valid { IsValid result.0.now result.1.now }
    ensures few { result.0.now.nelm < 2 ^ 32 }
{
    names_and_configs(site);
    let config = site.config(rec);
    has_few_elements(config);
    let state = &states[rec];
    (config, state)
}

/// Nothing is done. It tells that there are as many names as configurations, and at most 4,000.
pub fn names_and_configs(site: &Site)
    ensures same { length site.now.names ≡ length site.now.configs }
    ensures few { length site.now.configs < 4001 }
{
    let _ = site.records();
}

/// Nothing is done. It tells that the groups of a site are over its records.
pub fn groups_over_records(site: &Site)
    ensures { AreOver site.now }
{
    let _ = site.groups();
}

/// Nothing is done. It tells that the record's field NELM is a number of 32 bits.
fn has_few_elements(config: &RecConfig)
    ensures { config.now.nelm < 2 ^ 32 }
{
    let _ = config.nelm();
}
