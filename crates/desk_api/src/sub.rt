// What subscriptions answer.

/// A living subscription of a desk. Its desk makes it where the subscription begins, and takes it back where it ends.
#[derive(Drop, Debug)]
pub struct Sub {
    /// Its slot: the least number, from 0, that no living subscription had as it began.
    pub slot: u32,
}

/// Why a subscription didn't begin.
#[derive(Clone, Copy, Debug, PartialEq, Eq)]
pub enum SubAnswer {
    /// So many live, which is as many as may.
    TooManyMonitors(u32),
    /// Memory ran out.
    NoMemory,
}
