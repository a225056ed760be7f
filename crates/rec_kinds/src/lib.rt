//! The kinds of records, what a record holds, and what an action makes of it (EPICS record reference).
#![tactic(auto)]

mod alarm;
mod building;
mod choice;
mod config;
mod datum;
mod element;
mod fault;
mod field;
mod given;
mod items;
mod kind;
mod laws;
mod message;
mod moment;
mod named;
mod number;
mod port_text;
mod processing;
mod put;
mod ranges;
mod record_text;
mod severity;
mod shared;
mod state;

pub use building::{build, longout};
pub use config::RecConfig;
pub use datum::{Action, Datum};
pub use element::Element;
pub use fault::{BuildFault, FieldPlace};
pub use field::{Rule, field_known};
pub use items::Items;
pub use kind::{Kind, kind_named};
pub use laws::{processing_keeps_states_valid, val_takes_what_a_record_may_hold};
pub use message::Message;
pub use moment::Moment;
pub use port_text::plain_text;
pub use processing::process;
pub use put::{PutRefusal, check_put};
pub use pvd_type::{Name, NoMemory};
pub use record_text::{FieldText, Info, RecText};
pub use severity::{Severity, Status};
pub use shared::{SharedItems, SharedText};
pub use state::RecState;
