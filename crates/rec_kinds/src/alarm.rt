// The alarms of records.
ghost use Rattle.std.specs.Prelude.{◌≡◌, ◌&&◌, drop, slice_get};
ghost use Rattle.std.specs.Option.{unwrap_or};
ghost use Rattle.rec_kinds.specs.Alarms.{alarm_of, first_alarm, value_rows, at_least, at_most, state_severity};
ghost use Rattle.rec_kinds.specs.Messages.{message_of};
ghost use Rattle.rec_kinds.specs.Raised.{alarm_in};
ghost use Rattle.rec_kinds.specs.Severities.{is_alarm};

use crate::config::RecConfig;
use crate::datum::Datum;
use crate::message::AlarmRow;
use crate::severity::{Severity, Status};

/// An alarm, or none where the severity says so.
#[derive(Clone, Copy)]
pub(crate) struct Raised {
    pub(crate) severity: Severity,
    pub(crate) status: Status,
    pub(crate) row: AlarmRow,
}

/// The alarm of a record that holds this datum, by whether it is undefined and whether its port took the value.
pub(crate) fn raise(config: &RecConfig, datum: &Datum, undefined: bool, drove: bool) -> Raised
    ensures { alarm_in result ≡ alarm_of config.now datum.now undefined drove }
{
    if undefined {
        return with(Severity::Invalid, Status::Undefined, AlarmRow::Undefined);
    }
    if !drove {
        return with(Severity::Invalid, Status::Driver, AlarmRow::NotDriven);
    }
    raise_by_value(config, datum)
}

/// The alarm that what a record holds raises.
fn raise_by_value(config: &RecConfig, datum: &Datum) -> Raised
    ensures { alarm_in result ≡ first_alarm (value_rows config.now datum.now) }
{
    if is_high(config.hihi(), config.hhsv(), datum) {
        return with(config.hhsv(), Status::Device, AlarmRow::Hihi);
    }
    if is_low(config.lolo(), config.llsv(), datum) {
        return with(config.llsv(), Status::Device, AlarmRow::Lolo);
    }
    raise_by_warning(config, datum)
}

/// The alarm that what a record holds raises where it isn't beyond the outer limits.
fn raise_by_warning(config: &RecConfig, datum: &Datum) -> Raised
    ensures { alarm_in result ≡ first_alarm (drop 2 (value_rows config.now datum.now)) }
{
    if is_high(config.high(), config.hsv(), datum) {
        return with(config.hsv(), Status::Device, AlarmRow::High);
    }
    if is_low(config.low(), config.lsv(), datum) {
        return with(config.lsv(), Status::Device, AlarmRow::Low);
    }
    let state = severity_of_state(config, datum);
    if state.is_alarm() {
        return with(state, Status::Device, AlarmRow::State);
    }
    with(Severity::NoAlarm, Status::NoStatus, AlarmRow::Quiet)
}

fn with(severity: Severity, status: Status, row: AlarmRow) -> Raised
    ensures { alarm_in result ≡ record { severity = severity; status = status; message = message_of row } }
{
    Raised {
        severity,
        status,
        row,
    }
}

/// Whether a number is at or above a limit whose severity is that of an alarm.
fn is_high(limit: i64, severity: Severity, datum: &Datum) -> bool
    ensures { result ≡ (at_least limit datum.now && is_alarm severity) }
{
    match datum {
        Datum::Num(number) => limit <= *number && severity.is_alarm(),
        Datum::Index(_) | Datum::Text(_) | Datum::Nums(_) | Datum::Texts(_) => false,
    }
}

/// Whether a number is at or below a limit whose severity is that of an alarm.
fn is_low(limit: i64, severity: Severity, datum: &Datum) -> bool
    ensures { result ≡ (at_most limit datum.now && is_alarm severity) }
{
    match datum {
        Datum::Num(number) => *number <= limit && severity.is_alarm(),
        Datum::Index(_) | Datum::Text(_) | Datum::Nums(_) | Datum::Texts(_) => false,
    }
}

/// The severity of an index.
fn severity_of_state(config: &RecConfig, datum: &Datum) -> Severity
    ensures { result ≡ state_severity config.now.severities datum.now }
{
    match datum {
        Datum::Index(index) => severity_at(config.severities(), *index),
        Datum::Num(_) | Datum::Text(_) | Datum::Nums(_) | Datum::Texts(_) => Severity::NoAlarm,
    }
}

/// The severity in a place; no alarm past the end.
fn severity_at(severities: &[Severity], index: u16) -> Severity
    ensures { result ≡ unwrap_or (slice_get severities.now index) Severity.NoAlarm }
{
    match severities.get(usize::from(index)) {
        Some(severity) => *severity,
        None => Severity::NoAlarm,
    }
}
