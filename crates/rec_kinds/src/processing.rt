// What an action makes of a record.
ghost use Rattle.std.specs.Prelude.{◌≡◌, true, IfOk, IfErr};
ghost use Rattle.rec_kinds.specs.Processing.{processed, datum_after, undefined_after, clamped, nearest, is_shared};
ghost use Rattle.rec_kinds.specs.Validity.{IsValid, MayBeDone};

use crate::config::RecConfig;
use crate::datum::{Action, Datum};
use crate::moment::Moment;
use crate::state::RecState;
use pvd_type::NoMemory;
use std::alloc::Global;

/// The state of a record after an action at a moment. `drove` says whether its port took the value, and is true of a
/// record without a port. A number that is put goes to the nearest that DRVL and DRVH allow, where DRVL is below DRVH.
/// The tag stays. The new state shares its text or list with the action or with the old state, so that processing takes no
/// memory: `NoMemory` is answered only where 2^63 - 1 states share one, and never of a record that holds a number or an index.
pub fn process(
    alloc: Global,
    config: &RecConfig,
    old: &RecState,
    action: &Action,
    moment: Moment,
    drove: bool,
) -> Result<RecState, NoMemory>
    requires valid { IsValid config.now old.now }
    requires may { MayBeDone config.now action.now }
    ensures processed { IfOk result (λ state. state ≡ processed config.now old.now action.now moment drove) }
    ensures valid { IfOk result (λ state. IsValid config.now state) }
    ensures memory { IfErr result (λ _. is_shared (datum_after config.now old.now action.now) ≡ true) }
{
    let datum = new_datum(alloc, config, old, action)?;
    let undefined = stays_undefined(old, action);
    let state = RecState::with_alarm(config, datum, undefined, drove, (moment, old.tag));
    Ok(state)
}

/// The datum that the record holds after the action.
fn new_datum(
    alloc: Global,
    config: &RecConfig,
    old: &RecState,
    action: &Action,
) -> Result<Datum, NoMemory>
    ensures same { IfOk result (λ datum. datum ≡ datum_after config.now old.now action.now) }
    ensures memory { IfErr result (λ _. is_shared (datum_after config.now old.now action.now) ≡ true) }
{
    match action {
        Action::Put(datum) => put_datum(alloc, config, datum),
        Action::Process => old.datum.clone_in(alloc),
    }
}

/// What a put of the datum sets.
fn put_datum(alloc: Global, config: &RecConfig, datum: &Datum) -> Result<Datum, NoMemory>
    ensures same { IfOk result (λ put. put ≡ clamped config.now datum.now) }
    ensures memory { IfErr result (λ _. is_shared (clamped config.now datum.now) ≡ true) }
{
    match datum {
        Datum::Num(number) => Ok(Datum::Num(nearest_to(*number, config.drvl(), config.drvh()))),
        Datum::Index(_) | Datum::Text(_) | Datum::Nums(_) | Datum::Texts(_) => datum.clone_in(
            alloc,
        ),
    }
}

/// The number of a range that is nearest to a number, where the range has more than one number.
fn nearest_to(number: i64, low: i64, high: i64) -> i64
    ensures { result ≡ nearest low high number }
{
    if low >= high {
        return number;
    }
    if number < low {
        return low;
    }
    if high < number {
        return high;
    }
    number
}

/// Whether the record is undefined after the action.
fn stays_undefined(old: &RecState, action: &Action) -> bool
    ensures { result ≡ undefined_after old.now action.now }
{
    match action {
        Action::Put(_) => false,
        Action::Process => old.undefined,
    }
}
