// The states of records.
ghost use Rattle.std.specs.Prelude.{◌≡◌, IfOk};
ghost use Rattle.rec_kinds.specs.Alarms.{alarm_of};
ghost use Rattle.rec_kinds.specs.Processing.{state_with};
ghost use Rattle.rec_kinds.specs.Building.{opening};

use crate::alarm::raise;
use crate::config::RecConfig;
use crate::datum::Datum;
use crate::message::Message;
use crate::moment::Moment;
use crate::severity::{Severity, Status};
use pvd_type::NoMemory;
use std::alloc::Global;

/// The state of a record (Normative Types, "alarm_t" and "time_t").
#[derive(Debug, Drop)]
pub struct RecState {
    /// What it holds.
    pub datum: Datum,
    /// Whether it was never given a value.
    pub undefined: bool,
    /// How bad its alarm is, if it has one.
    pub severity: Severity,
    /// Where its alarm comes from.
    pub status: Status,
    /// The message of its alarm, which is empty where there is none.
    pub message: Message,
    /// When it was last processed.
    pub moment: Moment,
    /// The tag of its time stamp.
    pub tag: i32,
}

impl RecState {
    /// The state of a record that holds this datum, with the alarm that it then has.
    pub(crate) fn with_alarm(
        config: &RecConfig,
        datum: Datum,
        undefined: bool,
        drove: bool,
        stamp: (Moment, i32),
    ) -> RecState
        ensures { result ≡ state_with datum undefined (alarm_of config.now datum undefined drove) stamp.0 stamp.1 }
    {
        let alarm = raise(config, &datum, undefined, drove);
        RecState {
            datum,
            undefined,
            severity: alarm.severity,
            status: alarm.status,
            message: Message::of(alarm.row),
            moment: stamp.0,
            tag: stamp.1,
        }
    }

    /// The state in which a record opens with this datum.
    pub(crate) fn opening(config: &RecConfig, datum: Datum, undefined: bool) -> RecState
        ensures { result ≡ opening config.now datum undefined }
    {
        RecState::with_alarm(config, datum, undefined, true, (Moment::zero(), 0))
    }

    /// A copy of the state, which shares its text or list.
    pub fn clone_in(&self, alloc: Global) -> Result<RecState, NoMemory>
        ensures { IfOk result (λ state. state ≡ self.now) }
    {
        Ok(RecState {
            datum: self.datum.clone_in(alloc)?,
            undefined: self.undefined,
            severity: self.severity,
            status: self.status,
            message: self.message.copied(),
            moment: self.moment,
            tag: self.tag,
        })
    }
}
