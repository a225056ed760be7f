// The steps of a desk on its subscriptions.
ghost use Rattle.std.specs.Prelude.{◌≡◌, ◌≤◌, true, IfErr, IfOk, IfSome, List, Some};
ghost use Rattle.journal_core.specs.declared.entry.Entry.{Entry};
ghost use Rattle.rec_kinds.specs.declared.state.RecState.{RecState};
ghost use Rattle.desk_api.specs.Triggers.{channel_view, may_be_watched};
ghost use Rattle.desk_api.specs.Types.{HoldsLeaves, type_of};
ghost use Rattle.desk_api.specs.declared.history.SiteData.{SiteData};
ghost use Rattle.desk_hub.specs.Steps.{Ends, Pops, Posts, StartsAsItBegins, StartsNot};
ghost use Rattle.journal_core.specs.Legality.{AreValid};
ghost use Rattle.mon_queue.specs.Told.{IsUpdateOf};
ghost use Rattle.mon_shown.specs.Keeping.{tree_of, Begins, IsOf};
ghost use Rattle.mon_shown.specs.Slots.{AreReady, MayTakeAll, slot_in, Stand};
ghost use Rattle.mon_shown.specs.declared.watching.Watching.{Watching};

use desk_api::{Channel, Site};
use journal_core::Entry;
use mon_queue::Update;
use mon_shown::{
    NotBegun, Readied, Subscriptions, Watching, entries_are_kept, slots_are_least,
    slots_follow_the_roll,
};
use pvd_type::{BitSet, NoMemory};
use rec_kinds::RecState;
use std::alloc::Global;

/// What a subscription to these leaves of a channel begins with, where the records have these states: what it is shown, which is its
/// first post, and its queue. It stands in no slot yet.
pub fn ready(
    alloc: Global,
    site: &Site,
    channel: Channel,
    mask: BitSet,
    states: &[RecState],
    size: u32,
) -> Result<Watching<Channel>, NoMemory>
    requires channel { may_be_watched site.now channel ≡ true }
    requires leaves { HoldsLeaves (type_of site.now channel) mask }
    requires valid { AreValid site.now.configs states.now }
    requires size { (1 ≤ size) × (size ≤ 64) }
    ensures { IfOk result (Begins (may_be_watched site.now) (channel_view site.now) channel mask size states.now) }
{
    Watching::begin(alloc, site, channel, mask, states, size)
}

/// Begins a subscription in the least free slot. Memory is taken for its place among the slots and in the lists of its records alone.
pub fn begin(
    alloc: Global,
    site: &Site,
    subs: &mut Subscriptions<Channel>,
    watching: Watching<Channel>,
) -> Result<u32, NotBegun>
    requires stand { Stand (may_be_watched site.now) (channel_view site.now) subs.old }
    requires is_of { IsOf (may_be_watched site.now) (channel_view site.now) watching }
    ensures starts { IfOk result (λ slot. StartsAsItBegins site.now subs.old slot watching subs.new) }
    ensures starts_not { IfErr result (StartsNot subs.old subs.new) }
    ensures stand { Stand (may_be_watched site.now) (channel_view site.now) subs.new }
{
    slots_are_least::<Channel>();
    slots_follow_the_roll::<Channel>();
    subs.add(alloc, site, watching)
}

/// The oldest unread update of a slot. It takes no memory.
pub fn pop(subs: &mut Subscriptions<Channel>, slot: u32) -> Option<Update>
    ensures pops { Pops subs.old slot result subs.new }
    ensures fits { IfSome result (λ u. (x : Watching Channel) → slot_in subs.old slot ≡ Some x → IsUpdateOf (tree_of x) u) }
{
    subs.pop(slot)
}

/// Ends the subscription of a slot. It takes no memory.
pub fn end(site: &Site, subs: &mut Subscriptions<Channel>, slot: u32)
    requires { Stand (may_be_watched site.now) (channel_view site.now) subs.old }
    ensures ends { Ends site.now subs.old slot subs.new }
    ensures stand { Stand (may_be_watched site.now) (channel_view site.now) subs.new }
{
    slots_follow_the_roll::<Channel>();
    subs.clear(site, slot);
}

/// What an entry will post, where these are the states after it. All memory of its posts is taken here, and nothing is changed. It looks
/// at those subscriptions alone that the written records concern.
pub fn make_ready(
    alloc: Global,
    site: &Site,
    subs: &Subscriptions<Channel>,
    entry: &Entry,
    states: &[RecState],
) -> Result<Readied, NoMemory>
    requires stand { Stand (may_be_watched site.now) (channel_view site.now) subs.now }
    requires valid { AreValid site.now.configs states.now }
    ensures { IfOk result (AreReady (channel_view site.now) states.now entry.now subs.now) }
{
    subs.ready_all(alloc, site, entry, states)
}

/// Posts what was made ready of the subscriptions as they are. It takes no memory.
pub fn post(subs: &mut Subscriptions<Channel>, ready: Readied)
    requires { MayTakeAll subs.old ready }
    ensures { (site : SiteData) (states : List RecState) (entry : Entry) → AreReady (channel_view site) states entry subs.old ready → Posts site states entry subs.old subs.new }
{
    entries_are_kept::<Channel>();
    subs.take_all(ready);
}
