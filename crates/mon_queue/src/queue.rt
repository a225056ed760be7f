ghost use Rattle.std.specs.Prelude.{◌≡◌, ◌≤◌, length, true};
ghost use Rattle.mon_queue.specs.Told.{are_updates_of};

use crate::update::Update;
use circular_buffer::HeapCircularBuffer;
use pvd_type::PvType;

/// The unread updates of a monitor: at most as many as its size, which is 1 to 64.
///
/// Where so many are unread already, a further post is merged into the newest. No post is kept.
/// pvAccess Protocol Specification, "Channel Monitor" (queueSize, overrun).
#[derive(Drop)]
pub struct MonQueue {
    pub(crate) ty: PvType,
    pub(crate) ring: HeapCircularBuffer<Update>,
    ghost updates: { are_updates_of ty ring.items ≡ true },
    ghost some: { 1 ≤ ring.capacity },
    ghost few: { length ring.items ≤ ring.capacity },
}
