ghost use Rattle.std.specs.Prelude.{◌≡◌, ◌↔◌, IsFalse};
ghost use Rattle.std.specs.FinSet as set;

use crate::set::BitSet;

impl BitSet {
    /// Whether the two sets have a number in common.
    pub fn meets(&self, other: &BitSet) -> bool
        ensures { IsFalse result ↔ (set.intersection self.now other.now ≡ set.empty) }
    {
        for place in 0..self.bound().min(other.bound()) {
            if self.byte(place) & other.byte(place) != 0 {
                return true;
            }
        }
        false
    }
}
