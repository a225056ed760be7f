// Counts of the outside.
ghost use Rattle.pva_outside.specs.Count.{Rose, RoseByOne};

/// Counts one more. A count stands still at 2^64 - 1, once it is there.
pub fn raise(count: &mut u64)
    ensures rose { Rose count.old count.new }
    ensures by_one { RoseByOne count.old count.new }
{
    *count = count.saturating_add(1);
}
