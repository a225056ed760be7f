use crate::shared::SharedValue;
use pvd_type::BitSet;

/// The leaves of a value that are new.
#[derive(Drop)]
pub struct Post {
    /// Their numbers.
    pub mask: BitSet,
    /// A value that has them. Its other leaves don't count.
    pub value: SharedValue,
}

/// What a pop takes: one post, or several that were merged because the queue was full.
/// pvAccess Protocol Specification, "Channel Monitor" (changed and overrun bit sets).
#[derive(Drop)]
pub struct Update {
    /// The leaves that some post had.
    pub changed: BitSet,
    /// The leaves that more than one post had.
    pub overrun: BitSet,
    /// A value that has the changed leaves, each as the last post with it left it. Nothing is said of its other leaves. It may be the value of a post,
    /// which others are told of too.
    pub value: SharedValue,
}

/// A post that a queue made ready, so that it can be applied without memory.
#[derive(Drop)]
pub enum Prepared {
    /// It begins a run, whose update this is.
    Begins(Update),
    /// It joins the newest run.
    Joins {
        /// The leaves of the post.
        mask: BitSet,
        /// What the run then comes to.
        update: Update,
    },
}
