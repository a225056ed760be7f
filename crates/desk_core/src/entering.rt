// How a put's entries are added to the history.
ghost use Rattle.std.specs.Prelude.{◌<◌, ◌≤◌, ◌≡◌, ◌^◌, length, OnErr, OnOk};
ghost use Rattle.desk_api.specs.Triggers.{channel_view, may_be_watched};
ghost use Rattle.desk_api.specs.Views.{found_in};
ghost use Rattle.desk_core.specs.Begun.{Enters};
ghost use Rattle.desk_hub.specs.Steps.{Posts};
ghost use Rattle.journal_core.specs.Histories.{WritesWithin, kept};
ghost use Rattle.journal_core.specs.Legality.{AreValid};
ghost use Rattle.journal_core.specs.Weights.{weight as weight_of};
ghost use Rattle.mon_shown.specs.Slots.{Stand};

use crate::driving::discard;
use crate::log::{Log, Terms, note_entered, note_overweight};
use desk_api::{Channel, PutAnswer, RecState};
use desk_hub::{Subscriptions, make_ready, post};
use journal_core::{Entry, History, weight};
use std::alloc::Global;
use std::marker::Brand;

/// Adds an entry at the end of the history, behind so many of its put, and tells its place, unless the history would then be above the
/// limit. These are the states after it, in which these records are looked at. It is posted to the subscriptions that it concerns, and
/// all memory of that is taken before anything is changed.
pub(crate) fn enter(
    alloc: Global,
    terms: &Terms,
    history: &mut History,
    log: &mut Log,
    subs: &mut Subscriptions<Channel>,
    entry: Entry,
    looked: &[u32],
    cells: &[RecState],
    done: u32,
) -> Result<u64, PutAnswer>
    requires light { kept history.old.entries ≤ terms.now.limit }
    requires weight { weight_of entry < 2 ^ 64 }
    requires within { WritesWithin (length history.old.opening) entry.writes }
    requires stand { Stand (may_be_watched terms.now.site) (channel_view terms.now.site) subs.old }
    requires valid { AreValid terms.now.site.configs cells.now }
    ensures entered { Enters entry looked.now (found_in cells.now looked.now) terms.now.limit done history.old history.new log.old log.new result }
    ensures posts { OnOk result (Posts terms.now.site cells.now entry subs.old subs.new) }
    ensures same { OnErr result (subs.new ≡ subs.old) }
{
    let kept = history.kept();
    let added = weight(&entry);
    let limit = terms.limit;
    if added > limit - kept {
        note_overweight::<Brand>(log, &entry, kept, added, limit);
        return Err(PutAnswer::JournalFull {
            kept,
            entry: added,
            limit,
            done,
        });
    }
    let Ok(ready) = make_ready(alloc, &terms.site, subs, &entry, cells) else {
        return Err(PutAnswer::NoMemory { done });
    };
    let Ok(()) = history.reserve() else {
        discard(ready);
        return Err(PutAnswer::NoMemory { done });
    };
    let place = history.len();
    note_entered::<Brand>(log, &entry, looked, cells);
    history.push(entry);
    post(subs, ready);
    Ok(place)
}
