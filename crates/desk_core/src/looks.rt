// The looks of a get.
ghost use Rattle.std.specs.Prelude.{◌≡◌, [], ◌∷◌, IsTrue, map};
ghost use Rattle.desk_api.specs.Calls.{looks_of};
ghost use Rattle.desk_api.specs.Sites.{is_channel};
ghost use Rattle.desk_core.specs.Looking.{looked_by};

use crate::log::{Log, note_read};
use desk_api::{Channel, RecState, Site};
use std::marker::Brand;
use std::slice;

/// Notes a look at each of these records, one after another.
fn note_each(log: &mut Log, channel: Channel, recs: &[u32], cells: &[RecState])
    ensures { log.new ≡ looked_by channel cells.now log.old (map (λ rec. rec ∷ []) recs.now) }
{
    for rec in recs {
        note_read::<Brand>(log, channel, slice::from_ref(rec), cells);
    }
}

/// Notes the looks of a get: one at all of the channel's records where it is atomic, and else one at each.
pub(crate) fn note_looks(
    log: &mut Log,
    site: &Site,
    channel: Channel,
    atomic: Option<bool>,
    cells: &[RecState],
)
    requires { IsTrue (is_channel site.now channel) }
    ensures { log.new ≡ looked_by channel cells.now log.old (looks_of site.now channel atomic) }
{
    let recs = site.footprint_of(channel);
    if site.is_atomic(channel, atomic) {
        note_read::<Brand>(log, channel, recs, cells);
        return;
    }
    note_each(log, channel, recs, cells);
}
