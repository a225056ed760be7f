ghost use Rattle.std.specs.Prelude.{◌≡◌, ◌&&◌, ℕ, not, true, false, IsTrue, IfOk};
ghost use Rattle.std.specs.FinSet as set;
ghost use Rattle.std.specs.FinSet.{contains};
ghost use Rattle.pvd_value.specs.View.{view};
ghost use Rattle.pvd_value.specs.Leaves.{leaf_at};
ghost use Rattle.pvd_value.specs.LeafValues.{leaf_values};
ghost use Rattle.pvd_value.specs.Fits.{fits_of};
ghost use Rattle.mon_queue.specs.Runs.{posted};
ghost use Rattle.mon_queue.specs.Told.{posted_by, told_by, IsPostOf, is_update_of};
ghost use Rattle.mon_queue.specs.Merged.{told_more};

use crate::shared::SharedValue;
use crate::update::{Post, Update};
use pvd_type::{BitSet, NoMemory, PvType};
use std::alloc::Global;

/// The update of one post.
pub(crate) fn first_update(alloc: Global, post: Post) -> Update
    ensures changed { result.changed ≡ post.mask }
    ensures overrun { result.overrun ≡ set.empty }
    ensures value { result.value ≡ post.value }
{
    Update {
        changed: post.mask,
        overrun: BitSet::new(alloc),
        value: post.value,
    }
}

/// The changed leaves of an update that takes a post with this mask.
fn changed_with(alloc: Global, newest: &Update, mask: &BitSet) -> Result<BitSet, NoMemory>
    ensures { IfOk result (λ s. s ≡ set.union newest.now.changed mask.now) }
{
    let mut changed = newest.changed.clone_in(alloc)?;
    changed.union(mask)?;
    Ok(changed)
}

/// The overrun leaves of an update that takes a post with this mask.
fn overrun_with(alloc: Global, newest: &Update, mask: &BitSet) -> Result<BitSet, NoMemory>
    ensures { IfOk result (λ s. s ≡ set.union (set.intersection mask.now newest.now.changed) newest.now.overrun) }
{
    let mut overrun = mask.clone_in(alloc)?;
    overrun.meet(&newest.changed);
    overrun.union(&newest.overrun)?;
    Ok(overrun)
}

/// Whether one set has a number that the other lacks, and this is it.
fn is_only_in(set: &BitSet, other: &BitSet, bit: u32) -> bool
    ensures { result ≡ (contains set.now bit && not (contains other.now bit)) }
{
    set.contains(bit) && !other.contains(bit)
}

/// Whether the other set has all that one has.
pub fn is_within(set: &BitSet, other: &BitSet) -> bool
    ensures { IsTrue result → (k : ℕ) → contains set.now k ≡ true → contains other.now k ≡ true }
{
    for bit in 0..set.bound() * 8 {
        if is_only_in(set, other, bit) {
            return false;
        }
    }
    true
}

/// A value that has the changed leaves of an update and, over them, the leaves of a post. It is the post's own where that has all of them.
fn value_with(
    alloc: Global,
    ty: &PvType,
    newest: &Update,
    post: &Post,
) -> Result<SharedValue, NoMemory>
    requires newest { fits_of 16 (view newest.now.value) ty.now ≡ true }
    requires post { fits_of 16 (view post.now.value) ty.now ≡ true }
    ensures fits { IfOk result (λ v. fits_of 16 (view v) ty.now ≡ true) }
    ensures new { IfOk result (λ v. (k : ℕ) → contains post.now.mask k ≡ true → leaf_at k ty.now (view v) ≡ leaf_at k ty.now (view post.now.value)) }
    ensures old { IfOk result (λ v. (k : ℕ) → contains post.now.mask k ≡ false → contains newest.now.changed k ≡ true → leaf_at k ty.now (view v) ≡ leaf_at k ty.now (view newest.now.value)) }
{
    if is_within(&newest.changed, &post.mask) {
        return post.value.share();
    }
    newest.value.with(alloc, ty, &post.mask, post.value.value())
}

/// What a run comes to that takes a post.
pub(crate) fn joined(
    alloc: Global,
    ty: &PvType,
    newest: &Update,
    post: &Post,
) -> Result<Update, NoMemory>
    requires newest { is_update_of ty.now newest.now ≡ true }
    requires post { IsPostOf ty.now post.now }
    ensures told { IfOk result (λ u. told_by ty.now u ≡ told_more (told_by ty.now newest.now) (posted post.now.mask (leaf_values ty.now (view u.value)))) }
    ensures post { IfOk result (λ u. posted post.now.mask (leaf_values ty.now (view u.value)) ≡ posted_by ty.now post.now) }
    ensures update { IfOk result (λ u. is_update_of ty.now u ≡ true) }
{
    let changed = changed_with(alloc, newest, &post.mask)?;
    let overrun = overrun_with(alloc, newest, &post.mask)?;
    let value = value_with(alloc, ty, newest, post)?;
    Ok(Update {
        changed,
        overrun,
        value,
    })
}

/// Lets a value go in a function of its own, since its parts would else be let go one by one in the caller's proof.
pub(crate) fn discard<T: Drop>(_value: T) {}
