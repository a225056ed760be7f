// What an entry changes of a subscription.
ghost use Rattle.std.specs.Prelude.{◌≡◌, true, IfOk, Some, IfSome};
ghost use Rattle.std.specs.FinSet as set;
ghost use Rattle.pvd_value.specs.View.{view};
ghost use Rattle.pvd_value.specs.Fits.{fits_of};
ghost use Rattle.pvd_value.specs.LeafValues.{leaf_values, differing_in};
ghost use Rattle.mon_queue.specs.Runs.{posted};
ghost use Rattle.mon_queue.specs.Told.{are_leaves, IsUpdateOf};
ghost use Rattle.mon_queue.specs.Unread.{type_of, prepared_post};
ghost use Rattle.mon_shown.specs.Channels.{triggered};
ghost use Rattle.mon_shown.specs.Keeping.{channel_of, tree_of, IsOf, anew_of, ShowsWith, IsReady, MayTake, Took, Popped};
ghost use Rattle.mon_shown.specs.Viewing.{AreViews};

use crate::viewed::Viewed;
use crate::views::Views;
use crate::watching::{Ready, Watching};
use journal_core::Entry;
use mon_queue::{Post, SharedValue, Update, is_within};
use pvd_type::{BitSet, NoMemory};
use pvd_value::differs_in;
use rec_kinds::RecState;
use std::alloc::Global;

impl<C: Copy> Watching<C> {
    /// What an entry will change, where these are the states after it, of which some channels were viewed already. None where it posts
    /// nothing. The subscription stays as it is.
    pub(crate) fn ready<V: Views<C>>(
        &self,
        alloc: Global,
        views: &V,
        entry: &Entry,
        states: &[RecState],
        viewed: &mut Viewed<C>,
    ) -> Result<Option<Ready>, NoMemory>
        requires is_of { IsOf (V.has views.now) (V.shows views.now) self.now }
        requires ready { V.ready views.now (channel_of self.now) (anew_of (V.shows views.now) self.now entry.now) states.now }
        requires viewed { AreViews (V.shows views.now) states.now viewed.old.views.items }
        ensures ready { IfOk result (IsReady (V.shows views.now) states.now entry.now self.now) }
        ensures viewed { AreViews (V.shows views.now) states.now viewed.new.views.items }
    {
        let anew = self.anew(alloc, views, entry)?;
        if anew.is_empty() {
            return Ok(None);
        }
        let value = viewed.view(alloc, views, self.channel, states, &anew)?;
        match differs_in(
            alloc,
            self.queue.ty(),
            &anew,
            self.shown.value(),
            value.value(),
        ) {
            Ok(mask) => {
                if mask.is_empty() {
                    discard(value);
                    return Ok(None);
                }
                match self.post(alloc, &anew, mask, value) {
                    Ok(ready) => Ok(Some(ready)),
                    Err(no_memory) => Err(no_memory),
                }
            }
            Err(no_memory) => {
                discard(value);
                Err(no_memory)
            }
        }
    }

    /// The requested leaves that the entry takes anew.
    fn anew<V: Views<C>>(&self, alloc: Global, views: &V, entry: &Entry) -> Result<BitSet, NoMemory>
        requires { V.has views.now self.now.channel ≡ true }
        ensures { IfOk result (λ m. m ≡ anew_of (V.shows views.now) self.now entry.now) }
    {
        let mut mask = triggered_by(alloc, views, self.channel, entry.writes.as_slice())?;
        mask.meet(&self.requested);
        Ok(mask)
    }

    /// The post of those of the leaves that were taken anew in which the value differs from what is shown, and what is shown with it.
    fn post(
        &self,
        alloc: Global,
        anew: &BitSet,
        mask: BitSet,
        value: SharedValue,
    ) -> Result<Ready, NoMemory>
        requires fits { fits_of 16 (view value) (type_of self.now.queue) ≡ true }
        requires leaves { are_leaves (type_of self.now.queue) mask ≡ true }
        requires differing { mask ≡ differing_in anew.now (leaf_values (type_of self.now.queue) (view self.now.shown)) (leaf_values (type_of self.now.queue) (view value)) }
        ensures shown { IfOk result (λ r. ShowsWith (type_of self.now.queue) self.now.requested mask (view self.now.shown) (view value) (view r.shown)) }
        ensures post { IfOk result (λ r. prepared_post (type_of self.now.queue) r.prepared ≡ posted mask (leaf_values (type_of self.now.queue) (view value))) }
        ensures may { IfOk result (MayTake self.now) }
    {
        match self.next_shown(alloc, anew, &mask, &value) {
            Ok(shown) => match self.queue.prepare(alloc, Post { mask, value }) {
                Ok(prepared) => Ok(Ready { shown, prepared }),
                Err(no_memory) => {
                    discard(shown);
                    Err(no_memory)
                }
            },
            Err(no_memory) => {
                discard(value);
                Err(no_memory)
            }
        }
    }

    /// What is shown with these leaves of a value, in which it differs from what is shown of the leaves that were taken anew. It is the value
    /// itself where those are all that were asked for.
    fn next_shown(
        &self,
        alloc: Global,
        anew: &BitSet,
        mask: &BitSet,
        value: &SharedValue,
    ) -> Result<SharedValue, NoMemory>
        requires fits { fits_of 16 (view value.now) (type_of self.now.queue) ≡ true }
        requires differing { mask.now ≡ differing_in anew.now (leaf_values (type_of self.now.queue) (view self.now.shown)) (leaf_values (type_of self.now.queue) (view value.now)) }
        ensures fits { IfOk result (λ v. fits_of 16 (view v) (type_of self.now.queue) ≡ true) }
        ensures shown { IfOk result (λ v. ShowsWith (type_of self.now.queue) self.now.requested mask.now (view self.now.shown) (view value.now) (view v)) }
    {
        if is_within(&self.requested, anew) {
            return value.share();
        }
        self.shown.with(alloc, self.queue.ty(), mask, value.value())
    }

    /// Takes in what was made ready for the subscription as it is. It takes no memory.
    pub fn take(&mut self, ready: Ready)
        requires { MayTake self.old ready }
        ensures { Took self.old (Some ready) self.new }
    {
        let Ready { shown, prepared } = ready;
        discard(std::mem::replace(&mut self.shown, shown));
        self.queue.apply(prepared);
    }

    /// The oldest unread update, or none where none is unread. It takes no memory.
    pub fn pop(&mut self) -> Option<Update>
        ensures popped { Popped self.old result self.new }
        ensures update { IfSome result (IsUpdateOf (tree_of self.old)) }
    {
        self.queue.pop()
    }
}

/// Lets a value go in a function of its own, since its parts would else be let go one by one in the caller's proof.
pub(crate) fn discard<T: Drop>(_value: T) {}

/// The leaves that these writes trigger.
fn triggered_by<C: Copy, V: Views<C>>(
    alloc: Global,
    views: &V,
    channel: C,
    writes: &[(u32, RecState)],
) -> Result<BitSet, NoMemory>
    requires { V.has views.now channel ≡ true }
    ensures { IfOk result (λ m. m ≡ triggered (V.shows views.now channel).triggers writes.now) }
{
    let mut mask = BitSet::new(alloc);
    for write in writes {
        mask.union(views.triggers(channel, write.0))?;
    }
    Ok(mask)
}
