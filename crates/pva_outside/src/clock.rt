// The time of day, and a clock that stands still.
ghost use Rattle.std.specs.Prelude.{◌≡◌, ◌<◌, ℕ, ℤ, Option, Some, None, IfSome};

/// The time of day.
pub trait Clock {
    /// The moment at which the clock stands, where it is told.
    ghost moment: { Self → Option (ℤ × ℕ) } = { λ _. None };

    /// Seconds and nanoseconds since 1970-01-01 00:00:00 UTC. The nanoseconds are below 1,000,000,000. It
    /// never fails: a clock that can't be read gives (0, 0).
    fn now(&self) -> (i64, u32)
        ensures nanoseconds { result.1 < 1_000_000_000 }
        ensures moment { IfSome (moment self.now) (λ m. (result.0 ≡ m.0) × (result.1 ≡ m.1)) };
}

/// A clock that stands still at a moment that it tells.
#[derive(Clone, Copy, Debug)]
pub struct FixedClock {
    seconds: i64,
    nanoseconds: u32,
    ghost below: { nanoseconds < 1_000_000_000 },
}

impl FixedClock {
    ghost use Rattle.pva_outside.specs.Moment.{moment_of};

    /// A clock that stands at so many seconds and nanoseconds. The nanoseconds are below 1,000,000,000.
    pub fn new(seconds: i64, nanoseconds: u32) -> Self
        requires { nanoseconds < 1_000_000_000 }
        ensures { moment_of result ≡ (seconds, nanoseconds) }
    {
        FixedClock {
            seconds,
            nanoseconds,
        }
    }
}

impl Clock for FixedClock {
    ghost moment = { λ c. Some (c.seconds, c.nanoseconds) };

    fn now(&self) -> (i64, u32) {
        (self.seconds, self.nanoseconds)
    }
}
