ghost use Rattle.std.specs.Prelude.{◌≡◌, ◌<◌, ◌+◌, ◌-◌, ◌∷◌, ◌++◌, ◌↔◌, ℕ, List, [], IfOk, OnOk, OnErr, IsErr, IsTrue, true, false, if◌then◌else◌};
ghost use Rattle.mon_window.specs.Windows.{greatest, acknowledged, sent, Step, StandsFor};

use std::marker::Model;

/// The greatest free number: 2,147,483,647.
const GREATEST: u32 = 2_147_483_647;

/// Why a window can't have the count that it was given.
#[derive(Clone, Copy, Debug, PartialEq, Eq)]
pub enum WindowFault {
    /// The free number would pass 2,147,483,647.
    OverRange,
}

/// How many updates a pipelined monitor may send before its client acknowledges more of them.
///
/// A contract sees its free number: the first count and all acknowledgements, less the updates sent, at most 2,147,483,647.
/// No call takes memory. pvAccess Protocol Specification, "Channel Monitor" (pipeline).
#[derive(Clone, Copy, Debug, PartialEq, Eq)]
pub struct Window {
    free: u32,
}

impl Model for Window {
    ghost use Rattle.std.specs.Prelude.{ℕ, ◌≤◌};
    ghost use Rattle.std.specs.Coded.{coded_ℕ};
    ghost use Rattle.mon_window.specs.Windows.{greatest};

    ghost Value = { ℕ };

    ghost coded = { coded_ℕ };

    ghost view = { λ a. a.free };

    ghost invariant = { λ a. a.free ≤ greatest };

    ghost inverse = { λ free. record { free = free } };
}

impl Window {
    /// A window with the count that a client gives at the beginning of its monitor.
    pub fn start(free: u32) -> Result<Window, WindowFault>
        ensures free { IfOk result (λ w. w ≡ free) }
        ensures stands { IfOk result (λ w. StandsFor w free []) }
        ensures over { IsErr result ↔ (greatest < free) }
    {
        if free > GREATEST {
            return Err(WindowFault::OverRange);
        }
        Ok(Window { free })
    }

    /// Frees so many updates more. A refused count changes nothing.
    pub fn acknowledge(&mut self, count: u32) -> Result<(), WindowFault>
        ensures ok { OnOk result (self.new ≡ self.old + count) }
        ensures stands { OnOk result ((first : ℕ) (steps : List Step) → StandsFor self.old first steps → StandsFor self.new first (steps ++ acknowledged count ∷ [])) }
        ensures err { OnErr result (self.new ≡ self.old) }
        ensures over { IsErr result ↔ (greatest < self.old + count) }
    {
        if count > GREATEST - self.free {
            return Err(WindowFault::OverRange);
        }
        self.free += count;
        Ok(())
    }

    /// Whether one more update may be sent, which it then takes for sent: false exactly where the window is at 0, and it stays there.
    pub fn take(&mut self) -> bool
        ensures open { IsTrue result ↔ (0 < self.old) }
        ensures free { self.new ≡ self.old - 1 }
        ensures stands { IsTrue result → (first : ℕ) (steps : List Step) → StandsFor self.old first steps → StandsFor self.new first (steps ++ sent ∷ []) }
    {
        if self.free == 0 {
            return false;
        }
        self.free -= 1;
        true
    }
}
