// A law of the definitions, as the contract of a function that does nothing.
ghost use Rattle.std.specs.FinSet.{FinSet};
ghost use Rattle.std.specs.Ordering.{nat_cmp};
ghost use Rattle.rec_kinds.specs.Configs.{Config};
ghost use Rattle.rec_kinds.specs.declared.state.RecState.{RecState};
ghost use Rattle.rec_fields.specs.Again.{MayBePutAgain, IsPutAgain};

/// Of a record that takes puts, where the limits leave the value: a put of what it shows, with the value's leaf marked, puts
/// what it holds, and it then shows the same value. The record has no more choices than sixteen, as each has that is built.
pub fn what_is_shown_may_be_put()
    ensures { (config : Config) (state : RecState) (mask : FinSet nat_cmp) → MayBePutAgain config state mask → IsPutAgain config state mask }
{}
