// What is told of all records.
ghost use Rattle.std.specs.Prelude.{◌≡◌, ◌++◌, IfOk, OnOk, length, map};
ghost use Rattle.desk_api.specs.Calls.{row_shown, rows_shown};
ghost use Rattle.desk_api.specs.Sites.{names_of};

use crate::serving::state_of;
use crate::site::Site;
use pvd_type::{Name, NoMemory};
use rec_kinds::{Moment, RecState, plain_text};
use std::alloc::Global;

/// What is told of one record.
#[derive(Drop)]
pub struct RecRow {
    /// The record's name.
    pub name: Name,
    /// Its value, as the text that its port would be driven with.
    pub text: Name,
    /// How bad its alarm is: 0 for none, 1 minor, 2 major, 3 invalid (Normative Types, "alarm_t").
    pub severity: u8,
    /// When it was last processed.
    pub moment: Moment,
}

/// What is told of a record of this name in this state.
fn row_of(alloc: Global, name: &str, state: &RecState) -> Result<RecRow, NoMemory>
    ensures { IfOk result (λ row. row ≡ row_shown name.now state.now) }
{
    Ok(RecRow {
        name: Name::of(alloc, name)?,
        text: plain_text(alloc, state)?,
        severity: state.severity.number(),
        moment: state.moment,
    })
}

impl Site {
    /// The names of the records, in the order of their text, and then those of the groups, in the order in which the text first
    /// names them.
    pub fn names(&self, alloc: Global) -> Result<Vec<Name>, NoMemory>
        ensures { IfOk result (λ names. names.items ≡ names_of self.now) }
    {
        let mut names = Vec::with_capacity(alloc, self.records() + self.groups())?;
        for rec in 0..self.records() {
            names.push(Name::of(alloc, self.name(rec))?)?;
        }
        self.add_group_names(alloc, &mut names)?;
        Ok(names)
    }

    /// Adds the names of the groups.
    fn add_group_names(&self, alloc: Global, names: &mut Vec<Name>) -> Result<(), NoMemory>
        ensures { OnOk result (names.new.items ≡ names.old.items ++ map (λ g. g.name) self.now.groups) }
    {
        for number in 0..self.groups() {
            names.push(Name::of(alloc, self.group_name(number))?)?;
        }
        Ok(())
    }

    /// A row for each record, in order, where the records have these states.
    pub fn rows(&self, alloc: Global, states: &[RecState]) -> Result<Vec<RecRow>, NoMemory>
        requires { length states.now ≡ length self.now.names }
        ensures { IfOk result (λ rows. rows.items ≡ rows_shown self.now.names states.now) }
    {
        let mut rows = Vec::with_capacity(alloc, states.len())?;
        for rec in 0..states.len() {
            rows.push(row_of(alloc, self.name(rec), state_of(states, rec))?)?;
        }
        Ok(rows)
    }
}
