//! Records as pvData values: the type that a record shows, what it shows of a state, and what a put of a value does.
#![tactic(auto)]

mod datum;
mod desc;
mod laws;
mod numbers;
mod parts;
mod plain;
mod puts;
mod shown;
mod types;

pub use desc::{desc_type, desc_view};
pub use laws::what_is_shown_may_be_put;
pub use parts::{alarm_view, time_view};
pub use plain::{leaf_action, plain_shape, plain_view};
pub use puts::{FieldAnswer, action_of};
pub use rec_kinds::{Action, PutRefusal, RecConfig, RecState};
pub use shown::view;
pub use types::type_of;
