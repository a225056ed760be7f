// How bad an alarm is, and where it comes from.
ghost use Rattle.std.specs.Prelude.{◌≡◌};
ghost use Rattle.rec_kinds.specs.Severities.{severity_number, status_number, is_alarm};
ghost use Rattle.rec_kinds.specs.Choices.{severity_of};

use crate::named::named;

/// How bad an alarm is (Normative Types, "alarm_t").
#[derive(Clone, Copy, Debug, PartialEq, Eq)]
pub enum Severity {
    /// There is no alarm.
    NoAlarm,
    /// A minor alarm.
    Minor,
    /// A major alarm.
    Major,
    /// The value can't be relied on.
    Invalid,
}

/// Where an alarm comes from (Normative Types, "alarm_t").
#[derive(Clone, Copy, Debug, PartialEq, Eq)]
pub enum Status {
    /// There is no alarm.
    NoStatus,
    /// The device: a value at or beyond a limit, or a state with a severity.
    Device,
    /// The driver: the port didn't take the value.
    Driver,
    /// The record.
    Record,
    /// The database.
    Db,
    /// The configuration.
    Configuration,
    /// The record was never given a value.
    Undefined,
    /// The client.
    Client,
}

impl Severity {
    /// Its number on the wire, from 0 to 3.
    pub fn number(self) -> u8
        ensures { result ≡ severity_number self }
    {
        match self {
            Severity::NoAlarm => 0,
            Severity::Minor => 1,
            Severity::Major => 2,
            Severity::Invalid => 3,
        }
    }

    /// Whether it is that of an alarm.
    pub fn is_alarm(self) -> bool
        ensures { result ≡ is_alarm self }
    {
        match self {
            Severity::NoAlarm => false,
            Severity::Minor => true,
            Severity::Major => true,
            Severity::Invalid => true,
        }
    }
}

impl Status {
    /// Its number on the wire, from 0 to 7.
    pub fn number(self) -> u8
        ensures { result ≡ status_number self }
    {
        match self {
            Status::NoStatus => 0,
            Status::Device => 1,
            Status::Driver => 2,
            Status::Record => 3,
            Status::Db => 4,
            Status::Configuration => 5,
            Status::Undefined => 6,
            Status::Client => 7,
        }
    }
}

const SEVERITIES: [(&str, Severity); 4] = [
    ("NO_ALARM", Severity::NoAlarm),
    ("MINOR", Severity::Minor),
    ("MAJOR", Severity::Major),
    ("INVALID", Severity::Invalid),
];

/// The severity of this name; none exactly where no severity has it.
pub(crate) fn severity_named(text: &str) -> Option<Severity>
    ensures { result ≡ severity_of text.now }
{
    named(&SEVERITIES, text)
}
