// The messages of alarms.
ghost use Rattle.std.specs.Prelude.{◌≡◌};
ghost use Rattle.rec_kinds.specs.Messages.{message_of};

use std::marker::Model;

/// The message of an alarm, which is empty where there is none. A contract sees its text. It takes no memory.
#[derive(Debug, Drop)]
pub struct Message {
    row: AlarmRow,
}

/// A row of the table of alarms, or none.
#[derive(Clone, Copy, Debug)]
pub(crate) enum AlarmRow {
    /// There is no alarm.
    Quiet,
    /// The record was never given a value.
    Undefined,
    /// The port didn't take the value.
    NotDriven,
    /// At or above HIHI.
    Hihi,
    /// At or below LOLO.
    Lolo,
    /// At or above HIGH.
    High,
    /// At or below LOW.
    Low,
    /// A state with a severity.
    State,
}

impl Model for Message {
    ghost use Rattle.std.specs.Prelude.{ℕ, List};
    ghost use Rattle.rec_kinds.specs.Messages.{message_of};

    ghost Value = { List ℕ };

    ghost view = { λ m. message_of m.row };
}

impl Message {
    /// The message of a row.
    pub(crate) fn of(row: AlarmRow) -> Message
        ensures { result ≡ message_of row }
    {
        Message { row }
    }

    /// Its text.
    pub fn as_str(&self) -> &'static str
        ensures { result.now ≡ self.now }
    {
        match self.row {
            AlarmRow::Quiet => "",
            AlarmRow::Undefined => "UDF",
            AlarmRow::NotDriven => "WRITE",
            AlarmRow::Hihi => "HIHI",
            AlarmRow::Lolo => "LOLO",
            AlarmRow::High => "HIGH",
            AlarmRow::Low => "LOW",
            AlarmRow::State => "STATE",
        }
    }

    /// The same message.
    pub(crate) fn copied(&self) -> Message
        ensures { result ≡ self.now }
    {
        Message { row: self.row }
    }
}
