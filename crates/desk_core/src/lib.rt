//! The desks that a server reads its records through.
#![tactic(auto)]

mod cells;
mod draft;
mod driving;
mod entering;
mod log;
mod looks;
mod solo;

pub use cells::{Cells, groups_over_records, names_and_configs, opening_of};
pub use desk_api::{
    Channel, Desk, Done, Moment, NoMemory, PutAnswer, PvType, PvValue, Site, Sub, SubAnswer, Update,
};
pub use driving::{discard, drive};
pub use pva_outside::Port;
pub use solo::{MOST, SERVICE, SoloDesk, not_done, one_action};
