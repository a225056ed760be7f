// Laws of the definitions. Each is the contract of a function that does nothing.
ghost use Rattle.std.specs.Prelude.{◌≡◌, ◌↔◌, ℕ, Bool, true, List, None, codes};
ghost use Rattle.std.specs.Option.{is_some};
ghost use Rattle.rec_kinds.specs.Building.{config_of, misread};
ghost use Rattle.rec_kinds.specs.Configs.{Config};
ghost use Rattle.rec_kinds.specs.Fields.{rule_of};
ghost use Rattle.rec_kinds.specs.Moments.{Instant};
ghost use Rattle.rec_kinds.specs.Processing.{processed};
ghost use Rattle.rec_kinds.specs.Told.{datum_told, MayBeTold};
ghost use Rattle.rec_kinds.specs.Validity.{IsValid, MayBeDone};
ghost use Rattle.rec_kinds.specs.declared.datum.Action.{Action};
ghost use Rattle.rec_kinds.specs.declared.kind.Kind.{Kind};
ghost use Rattle.rec_kinds.specs.declared.record_text.FieldText.{FieldText};
ghost use Rattle.rec_kinds.specs.declared.state.RecState.{RecState};

/// What an action that may be done makes of a valid state is a valid state.
pub fn processing_keeps_states_valid()
    ensures { (config : Config) (old : RecState) (action : Action) (moment : Instant) (drove : Bool) → IsValid config old → MayBeDone config action → IsValid config (processed config old action moment drove) }
{}

/// Of each kind that has the field VAL, a text is taken as VAL exactly where the record may hold what it tells: the table of
/// fields and the states that are valid have the same ranges.
pub fn val_takes_what_a_record_may_hold()
    ensures { (kind : Kind) (fields : List FieldText) (text : List ℕ) → is_some (rule_of kind (codes "VAL")) ≡ true → (misread kind fields text (rule_of kind (codes "VAL")) ≡ None) ↔ MayBeTold (config_of kind fields) (datum_told kind text) }
{}
