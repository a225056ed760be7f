// The beginning of a subscription.
ghost use Rattle.std.specs.Prelude.{◌≡◌, ◌≤◌, ◌∷◌, [], true, ℕ, IfOk};
ghost use Rattle.pvd_value.specs.View.{view};
ghost use Rattle.pvd_value.specs.Fits.{fits_of};
ghost use Rattle.pvd_value.specs.LeafValues.{leaf_values};
ghost use Rattle.mon_queue.specs.Runs.{fresh, posted};
ghost use Rattle.mon_queue.specs.Told.{are_leaves};
ghost use Rattle.mon_queue.specs.Unread.{type_of, size_of, Holds};
ghost use Rattle.mon_shown.specs.Keeping.{Begins};

use crate::entering::discard;
use crate::views::Views;
use crate::watching::Watching;
use mon_queue::{MonQueue, SharedValue};
use pvd_type::{BitSet, NoMemory, PvType};
use rec_kinds::RecState;
use std::alloc::Global;

impl<C: Copy> Watching<C> {
    /// A subscription that begins where the records have these states. What it is shown is its first post.
    pub fn begin<V: Views<C>>(
        alloc: Global,
        views: &V,
        channel: C,
        requested: BitSet,
        states: &[RecState],
        size: u32,
    ) -> Result<Watching<C>, NoMemory>
        requires there { V.has views.now channel ≡ true }
        requires leaves { are_leaves (V.shows views.now channel).ty requested ≡ true }
        requires ready { V.ready views.now channel requested states.now }
        requires size { (1 ≤ size) × (size ≤ 64) }
        ensures { IfOk result (Begins (V.has views.now) (V.shows views.now) channel requested size states.now) }
    {
        let ty = views.type_of(channel);
        let part = views.view_part(alloc, channel, states, &requested)?;
        let shown = SharedValue::new(alloc, part)?;
        match first_queue(alloc, ty, &requested, &shown, size) {
            Ok(queue) => Ok(Watching {
                channel,
                requested,
                shown,
                queue,
            }),
            Err(no_memory) => {
                discard(shown);
                Err(no_memory)
            }
        }
    }
}

/// A queue whose first post has these leaves of the value.
fn first_queue(
    alloc: Global,
    ty: &PvType,
    requested: &BitSet,
    shown: &SharedValue,
    size: u32,
) -> Result<MonQueue, NoMemory>
    requires fits { fits_of 16 (view shown.now) ty.now ≡ true }
    requires leaves { are_leaves ty.now requested.now ≡ true }
    requires size { (1 ≤ size) × (size ≤ 64) }
    ensures ty { IfOk result (λ q. type_of q ≡ ty.now) }
    ensures size { IfOk result (λ q. size_of q ≡ size) }
    ensures holds { IfOk result (λ q. Holds q (fresh (posted requested.now (leaf_values ty.now (view shown.now))) ∷ [])) }
{
    let kind = ty.clone_in(alloc)?;
    let mask = requested.clone_in(alloc)?;
    let value = shown.share()?;
    MonQueue::start(alloc, kind, mask, value, size)
}
