// The parts of the values that records show.
ghost use Rattle.std.specs.Prelude.{◌≡◌, ◌<◌, pos, IfOk};
ghost use Rattle.pvd_value.specs.Data.{single, int, long, text};
ghost use Rattle.pvd_value.specs.View.{view};
ghost use Rattle.rec_fields.specs.Shown.{three, alarm_shown, time_shown};

use pvd_type::{Name, NoMemory};
use pvd_value::PvValue;
use rec_kinds::RecState;
use std::alloc::Global;

/// A structure of three values.
pub(crate) fn three_of(
    alloc: Global,
    a: PvValue,
    b: PvValue,
    c: PvValue,
) -> Result<PvValue, NoMemory>
    ensures { IfOk result (λ v. view v ≡ three (view a) (view b) (view c)) }
{
    Ok(PvValue::Struct(vec![in alloc; a, b, c]?))
}

/// The alarm that a record shows of a state.
pub fn alarm_view(alloc: Global, state: &RecState) -> Result<PvValue, NoMemory>
    ensures { IfOk result (λ v. view v ≡ alarm_shown state.now) }
{
    alarm_of(
        alloc,
        state.severity.number(),
        state.status.number(),
        state.message.as_str(),
    )
}

/// The time stamp that a record shows of a state.
pub fn time_view(alloc: Global, state: &RecState) -> Result<PvValue, NoMemory>
    ensures { IfOk result (λ v. view v ≡ time_shown state.now) }
{
    let moment = &state.moment;
    time_of(alloc, moment.seconds(), moment.nanoseconds(), state.tag)
}

/// An alarm.
pub(crate) fn alarm_of(
    alloc: Global,
    severity: u8,
    status: u8,
    message: &str,
) -> Result<PvValue, NoMemory>
    ensures { IfOk result (λ v. view v ≡ three (single (int (pos severity))) (single (int (pos status))) (single (text message.now))) }
{
    let message = PvValue::Text(Name::of(alloc, message)?);
    three_of(
        alloc,
        PvValue::I32(i32::from(severity)),
        PvValue::I32(i32::from(status)),
        message,
    )
}

/// A time stamp.
pub(crate) fn time_of(
    alloc: Global,
    seconds: i64,
    nanoseconds: u32,
    tag: i32,
) -> Result<PvValue, NoMemory>
    requires { nanoseconds < 1_000_000_000 }
    ensures { IfOk result (λ v. view v ≡ three (single (long seconds)) (single (int (pos nanoseconds))) (single (int tag))) }
{
    three_of(
        alloc,
        PvValue::I64(seconds),
        PvValue::I32(nanoseconds as i32),
        PvValue::I32(tag),
    )
}
