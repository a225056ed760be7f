// Moments of time.
ghost use Rattle.std.specs.Prelude.{◌≡◌, ◌<◌};
ghost use Rattle.rec_kinds.specs.Moments.{never};

use std::marker::Model;

/// A moment: seconds and nanoseconds since 1970-01-01 00:00:00 UTC. The nanoseconds are below 1,000,000,000 (Normative
/// Types, "time_t").
#[derive(Clone, Copy, Debug, PartialEq, Eq)]
pub struct Moment {
    seconds: i64,
    nanoseconds: u32,
}

impl Model for Moment {
    ghost use Rattle.std.specs.Prelude.{◌<◌};
    ghost use Rattle.rec_kinds.specs.Moments.{Instant};

    ghost Value = { Instant };

    ghost view = { λ m. record { seconds = m.seconds; nanoseconds = m.nanoseconds } };

    ghost inverse = { λ v. record { seconds = v.seconds; nanoseconds = v.nanoseconds } };

    ghost invariant = { λ m. m.nanoseconds < 1_000_000_000 };
}

impl Moment {
    /// The moment at which a record that was never processed stands.
    pub fn zero() -> Moment
        ensures { result ≡ never }
    {
        Moment::new(0, 0)
    }

    /// The moment at so many seconds and nanoseconds.
    pub fn new(seconds: i64, nanoseconds: u32) -> Moment
        requires { nanoseconds < 1_000_000_000 }
        ensures { result ≡ record { seconds = seconds; nanoseconds = nanoseconds } }
    {
        Moment {
            seconds,
            nanoseconds,
        }
    }

    /// The seconds.
    pub fn seconds(&self) -> i64
        ensures { result ≡ self.now.seconds }
    {
        self.seconds
    }

    /// The nanoseconds within the second.
    pub fn nanoseconds(&self) -> u32
        ensures same { result ≡ self.now.nanoseconds }
        ensures below { result < 1_000_000_000 }
    {
        self.nanoseconds
    }
}
