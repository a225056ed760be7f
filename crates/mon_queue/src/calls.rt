ghost use Rattle.std.specs.Prelude.{◌≡◌, ◌≤◌, ◌<◌, ◌-◌, ◌∷◌, ◌++◌, ◌↔◌, [], List, Some, true, length, take, drop, map, IfOk, IfSome, IsNone, slice_get, option_map};
ghost use Rattle.circular_buffer.specs.Buffer.{buffer, last_item};
ghost use Rattle.pvd_value.specs.View.{view};
ghost use Rattle.pvd_value.specs.Fits.{fits_of};
ghost use Rattle.pvd_value.specs.LeafValues.{leaf_values};
ghost use Rattle.mon_queue.specs.Runs.{posted, Run, fresh, with_post, without_oldest, oldest_of, Event, post as posting, pop as popping, unread_runs};
ghost use Rattle.mon_queue.specs.Merged.{told_with};
ghost use Rattle.mon_queue.specs.Told.{posted_by, told_by, are_leaves, IsPostOf, is_update_of, are_updates_of, IsUpdateOf};
ghost use Rattle.mon_queue.specs.declared.update.Prepared.TheVariants.{Joins};
ghost use Rattle.mon_queue.specs.Unread.{type_of, size_of, unread, Holds, StandsFor, prepared_post, IsReadyFor};

use crate::joining::{discard, first_update, joined};
use crate::queue::MonQueue;
use crate::shared::SharedValue;
use crate::update::{Post, Prepared, Update};
use circular_buffer::HeapCircularBuffer;
use pvd_type::{BitSet, NoMemory, PvType};
use std::alloc::Global;

impl MonQueue {
    /// A queue in which one post is unread: the first value of a monitor, with the leaves that it asked for. All memory that the
    /// queue needs for its updates is taken here.
    pub fn start(
        alloc: Global,
        ty: PvType,
        mask: BitSet,
        first: SharedValue,
        size: u32,
    ) -> Result<MonQueue, NoMemory>
        requires size { (1 ≤ size) × (size ≤ 64) }
        requires fits { fits_of 16 (view first) ty ≡ true }
        requires mask { are_leaves ty mask ≡ true }
        ensures ty { IfOk result (λ q. type_of q ≡ ty) }
        ensures size { IfOk result (λ q. size_of q ≡ size) }
        ensures runs { IfOk result (λ q. Holds q (fresh (posted mask (leaf_values ty (view first))) ∷ [])) }
        ensures stands { IfOk result (λ q. StandsFor q (posting (posted mask (leaf_values ty (view first))) ∷ [])) }
    {
        let mut ring = HeapCircularBuffer::with_capacity(alloc, size as usize)?;
        let first = Post { mask, value: first };
        append(&mut ring, first_update(alloc, first));
        Ok(MonQueue { ty, ring })
    }

    /// The type of the monitor's values.
    pub fn ty(&self) -> &PvType
        ensures { result.now ≡ type_of self.now }
    {
        &self.ty
    }

    /// Takes the memory that a post needs: none is left for [`MonQueue::apply`] to take. The queue stays as it is.
    pub fn prepare(&self, alloc: Global, post: Post) -> Result<Prepared, NoMemory>
        requires post { IsPostOf (type_of self.now) post }
        ensures post { IfOk result (λ p. prepared_post (type_of self.now) p ≡ posted_by (type_of self.now) post) }
        ensures ready { IfOk result (IsReadyFor self.now) }
    {
        let Some(newest) = self.newest_of_full() else {
            return Ok(Prepared::Begins(first_update(alloc, post)));
        };
        match joined(alloc, &self.ty, newest, &post) {
            Ok(update) => Ok(joins(post, update)),
            Err(no_memory) => {
                discard(post);
                Err(no_memory)
            }
        }
    }

    /// The newest update, where as many are unread as may be.
    fn newest_of_full(&self) -> Option<&Update>
        ensures full { IfSome result (λ u. length (unread self.now) ≡ size_of self.now) }
        ensures newest { IfSome result (λ u. last_item self.now.ring.items ≡ Some u.now) }
        ensures room { IsNone result → length (unread self.now) < size_of self.now }
    {
        if self.ring.len() < self.ring.capacity() {
            return None;
        }
        self.ring.back()
    }

    /// Adds a post that this queue prepared, and that nothing came after. It takes no memory.
    pub fn apply(&mut self, prepared: Prepared)
        requires { IsReadyFor self.old prepared }
        ensures ty { type_of self.new ≡ type_of self.old }
        ensures size { size_of self.new ≡ size_of self.old }
        ensures few { length (unread self.new) ≤ size_of self.new }
        ensures unread { unread self.new ≡ told_with (size_of self.old) (unread self.old) (prepared_post (type_of self.old) prepared) }
        ensures runs { (runs : List Run) → Holds self.old runs → Holds self.new (with_post (size_of self.old) runs (prepared_post (type_of self.old) prepared)) }
        ensures stands { (events : List Event) → StandsFor self.old events → StandsFor self.new (events ++ posting (prepared_post (type_of self.old) prepared) ∷ []) }
    {
        match prepared {
            Prepared::Begins(update) => append(&mut self.ring, update),
            Prepared::Joins { mask, update } => {
                discard(mask);
                replace_newest(&mut self.ring, update);
            }
        }
    }

    /// The oldest unread update, or none where none is unread. It takes no memory.
    pub fn pop(&mut self) -> Option<Update>
        ensures none { IsNone result ↔ (unread self.old ≡ []) }
        ensures first { option_map (told_by (type_of self.old)) result ≡ slice_get (unread self.old) 0 }
        ensures update { IfSome result (IsUpdateOf (type_of self.old)) }
        ensures ty { type_of self.new ≡ type_of self.old }
        ensures size { size_of self.new ≡ size_of self.old }
        ensures few { length (unread self.new) ≤ size_of self.new }
        ensures unread { unread self.new ≡ drop 1 (unread self.old) }
        ensures oldest { (runs : List Run) → Holds self.old runs → option_map (told_by (type_of self.old)) result ≡ oldest_of runs }
        ensures runs { (runs : List Run) → Holds self.old runs → Holds self.new (without_oldest runs) }
        ensures stands { (events : List Event) → StandsFor self.old events → StandsFor self.new (events ++ popping ∷ []) }
    {
        take_oldest(&mut self.ring)
    }
}

/// The first update leaves the ring.
fn take_oldest(ring: &mut HeapCircularBuffer<Update>) -> Option<Update>
    ensures first { result ≡ slice_get ring.old.items 0 }
    ensures rest { ring.new ≡ buffer (drop 1 ring.old.items) ring.old.capacity }
{
    ring.pop_front()
}

/// The last update leaves the ring.
fn take_newest(ring: &mut HeapCircularBuffer<Update>) -> Update
    requires { 1 ≤ length ring.old.items }
    ensures last { last_item ring.old.items ≡ Some result }
    ensures rest { ring.new ≡ buffer (take (length ring.old.items - 1) ring.old.items) ring.old.capacity }
{
    ring.pop_back().unwrap()
}

/// One more update, for which there is room.
#[inline(always)]
fn append(ring: &mut HeapCircularBuffer<Update>, update: Update)
    requires { length ring.old.items < ring.old.capacity }
    ensures { ring.new ≡ buffer (ring.old.items ++ update ∷ []) ring.old.capacity }
{
    discard(ring.push_back(update));
}

/// What was prepared of a post that joins a run, which then comes to this.
fn joins(post: Post, update: Update) -> Prepared
    ensures { result ≡ Joins post.mask update }
{
    let Post { mask, value } = post;
    discard(value);
    Prepared::Joins { mask, update }
}

/// Another update takes the place of the newest.
fn replace_newest(ring: &mut HeapCircularBuffer<Update>, update: Update)
    requires some { 1 ≤ length ring.old.items }
    requires few { length ring.old.items ≤ ring.old.capacity }
    ensures { ring.new ≡ buffer (take (length ring.old.items - 1) ring.old.items ++ update ∷ []) ring.old.capacity }
{
    discard(take_newest(ring));
    append(ring, update);
}
