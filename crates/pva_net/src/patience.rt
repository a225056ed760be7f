// How long a call waits.
use std::time::Duration;

/// How many milliseconds a call waits for a peer, at the most, before it is idle.
pub(crate) const PATIENCE: u16 = 50;

/// How long a call waits for a peer, at the most, before it is idle.
pub(crate) fn patience() -> Duration {
    Duration::from_millis(PATIENCE as u64)
}

/// How long at least passes between two accepts that found nobody although something woke them.
pub(crate) fn pause() -> Duration {
    Duration::from_millis(1)
}

/// How long a server has to answer a dial.
pub(crate) fn dial_patience() -> Duration {
    Duration::from_secs(5)
}
