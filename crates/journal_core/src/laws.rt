// Laws of the definitions. Each is the contract of a function that does nothing.
ghost use Rattle.std.specs.Prelude.{◌≡◌, ◌↔◌, ℕ, ◌+◌, ◌≤◌, List, [], ◌∷◌, ◌++◌, length, Some, slice_get};
ghost use Rattle.rec_kinds.specs.Configs.{Config};
ghost use Rattle.rec_kinds.specs.declared.state.RecState.{RecState};
ghost use Rattle.journal_core.specs.declared.entry.Entry.{Entry};
ghost use Rattle.journal_core.specs.Histories.{written, state_at, kept};
ghost use Rattle.journal_core.specs.Legality.{AreValid, IsLegalEntry, IsLegal};

/// As entries are added the states at a place stay, an entry's writes give the states behind it, and weights add up.
pub fn histories_grow()
    ensures states { (opening : List RecState) (entries more : List Entry) (n : ℕ) → n ≤ length entries → state_at opening (entries ++ more) n ≡ state_at opening entries n }
    ensures next { (opening : List RecState) (entries : List Entry) (entry : Entry) → state_at opening (entries ++ entry ∷ []) (length entries + 1) ≡ written (state_at opening entries (length entries)) entry.writes }
    ensures kept { (entries more : List Entry) → kept (entries ++ more) ≡ kept entries + kept more }
{}

/// A legal entry leaves the states valid, and so a legal history that opens with valid states has valid states everywhere.
pub fn states_stay_valid()
    ensures entry { (configs : List Config) (states : List RecState) (entry : Entry) → IsLegalEntry configs states entry → AreValid configs (written states entry.writes) }
    ensures history { (configs : List Config) (opening : List RecState) (entries : List Entry) → AreValid configs opening → IsLegal configs opening entries → (n : ℕ) → n ≤ length entries → AreValid configs (state_at opening entries n) }
{}

/// A history is legal exactly where each of its entries is legal after the states at its own place.
pub fn legal_at_each_place()
    ensures { (configs : List Config) (opening : List RecState) (entries : List Entry) → IsLegal configs opening entries ↔ ((n : ℕ) (entry : Entry) → slice_get entries n ≡ Some entry → IsLegalEntry configs (state_at opening entries n) entry) }
{}
