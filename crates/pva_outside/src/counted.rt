// Counts that rise by more than one.
ghost use Rattle.std.specs.Prelude.{◌≡◌};
ghost use Rattle.pva_outside.specs.Counted.{counted};

/// Counts so many more. A count stands still at 2^64 - 1, once it is there.
pub fn raise_by(count: &mut u64, more: u64)
    ensures { count.new ≡ counted count.old more }
{
    *count = count.saturating_add(more);
}
