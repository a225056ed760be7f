// What was viewed for an entry: subscriptions that are shown the same share one value.
ghost use Rattle.std.specs.Prelude.{◌≡◌, [], true, ℕ, List, IsTrue, IfOk, IfSome};
ghost use Rattle.std.specs.FinSet.{contains};
ghost use Rattle.pvd_value.specs.View.{view};
ghost use Rattle.rec_kinds.specs.declared.state.RecState.{RecState};
ghost use Rattle.mon_shown.specs.Channels.{ChannelView};
ghost use Rattle.mon_shown.specs.Viewing.{IsView, AreViews};

use crate::views::Views;
use mon_queue::{SharedValue, is_within};
use pvd_type::{BitSet, NoMemory};
use rec_kinds::RecState;
use std::alloc::Global;

/// How many views are looked through for one that will do.
const MOST: usize = 64;

/// Some leaves of what a channel shows.
#[derive(Drop)]
pub(crate) struct View<C> {
    channel: C,
    mask: BitSet,
    value: SharedValue,
}

/// The first views that were made for an entry, all of the same states.
#[derive(Drop)]
pub(crate) struct Viewed<C> {
    views: Vec<View<C>>,
}

impl<C: Copy> Viewed<C> {
    /// None yet.
    pub(crate) fn new(alloc: Global) -> Viewed<C>
        ensures { result.views.items ≡ [] }
    {
        Viewed {
            views: Vec::new(alloc),
        }
    }

    /// These leaves of what the channel shows of the states: of a view that was made before, or viewed now.
    pub(crate) fn view<V: Views<C>>(
        &mut self,
        alloc: Global,
        views: &V,
        channel: C,
        states: &[RecState],
        mask: &BitSet,
    ) -> Result<SharedValue, NoMemory>
        requires there { V.has views.now channel ≡ true }
        requires ready { V.ready views.now channel mask.now states.now }
        requires viewed { AreViews (V.shows views.now) states.now self.old.views.items }
        ensures viewed { AreViews (V.shows views.now) states.now self.new.views.items }
        ensures view { IfOk result (λ v. IsView (V.shows views.now channel) states.now mask.now (view v)) }
    {
        if let Some(value) = self.find(views, channel, mask) {
            return value.share();
        }
        let value = view_now(alloc, views, channel, states, mask)?;
        match self.keep(alloc, channel, mask, &value) {
            Ok(()) => Ok(value),
            Err(no_memory) => Err(no_memory),
        }
    }

    /// A view that has these leaves of the channel.
    fn find<V: Views<C>>(&self, views: &V, channel: C, mask: &BitSet) -> Option<&SharedValue>
        ensures { IfSome result (λ v. (states : List RecState) → AreViews (V.shows views.now) states self.now.views.items → IsView (V.shows views.now channel) states mask.now (view v.now)) }
    {
        for at in 0..self.views.len() {
            let seen = &self.views[at];
            if seen.serves(views, channel, mask) {
                return Some(&seen.value);
            }
        }
        None
    }

    /// Keeps a view for those behind, unless many are kept.
    fn keep(
        &mut self,
        alloc: Global,
        channel: C,
        mask: &BitSet,
        value: &SharedValue,
    ) -> Result<(), NoMemory>
        ensures { (shows : C → ChannelView) (states : List RecState) → IsView (shows channel) states mask.now (view value.now) → AreViews shows states self.old.views.items → AreViews shows states self.new.views.items }
    {
        if self.views.len() >= MOST {
            return Ok(());
        }
        let mask = mask.clone_in(alloc)?;
        let value = value.share()?;
        self.views.push(View {
            channel,
            mask,
            value,
        })?;
        Ok(())
    }
}

impl<C: Copy> View<C> {
    /// Whether it has these leaves of the channel.
    fn serves<V: Views<C>>(&self, views: &V, channel: C, mask: &BitSet) -> bool
        ensures channel { IsTrue result → self.now.channel ≡ channel }
        ensures leaves { IsTrue result → (k : ℕ) → contains mask.now k ≡ true → contains self.now.mask k ≡ true }
    {
        if views.is_same(self.channel, channel) {
            return is_within(mask, &self.mask);
        }
        false
    }
}

/// These leaves of what the channel shows.
fn view_now<C: Copy, V: Views<C>>(
    alloc: Global,
    views: &V,
    channel: C,
    states: &[RecState],
    mask: &BitSet,
) -> Result<SharedValue, NoMemory>
    requires there { V.has views.now channel ≡ true }
    requires ready { V.ready views.now channel mask.now states.now }
    ensures { IfOk result (λ v. IsView (V.shows views.now channel) states.now mask.now (view v)) }
{
    SharedValue::new(alloc, views.view_part(alloc, channel, states, mask)?)
}
