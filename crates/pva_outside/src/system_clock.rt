// The clock of the system.
ghost use Rattle.std.specs.Prelude.{◌≡◌, ◌<◌};
ghost use Rattle.std.specs.Duration.{as_nanos};
ghost use Rattle.pva_outside.specs.SystemClock.{IsMomentAt};

use crate::Clock;
use std::rt;
use std::time::{Duration, SystemTime, UNIX_EPOCH};

/// The system's clock, as the time since 1970-01-01 00:00:00 UTC. It gives (0, 0) where it can't be
/// read, where it stands before 1970, and past 2^63 - 1 seconds. It tells no moment.
#[derive(Drop)]
pub struct SystemClock<R: rt::Clock + Drop> {
    rt: R,
}

impl<R: rt::Clock + Drop> SystemClock<R> {
    ghost use Rattle.pva_outside.specs.SystemClock.{clock_runtime};

    /// A clock that reads the time of the runtime `rt`.
    pub fn new(rt: R) -> Self
        ensures { clock_runtime result ≡ rt }
    {
        SystemClock { rt }
    }
}

impl<R: rt::Clock + Drop> Clock for SystemClock<R> {
    fn now(&self) -> (i64, u32) {
        let Ok(moment) = SystemTime::now(&self.rt) else {
            return (0, 0);
        };
        match moment.duration_since(UNIX_EPOCH) {
            Ok(since) => moment_at(since),
            Err(_) => (0, 0),
        }
    }
}

// The moment so long after 1970 began.
fn moment_at(since: Duration) -> (i64, u32)
    ensures nanoseconds { result.1 < 1_000_000_000 }
    ensures moment { IsMomentAt (as_nanos since) result }
{
    match i64::try_from(since.as_secs()) {
        Ok(seconds) => (seconds, since.subsec_nanos()),
        Err(_) => (0, 0),
    }
}
