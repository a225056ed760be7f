//! What a session asks of the records: the site, the committed history, and the desk that reads it and adds to it.
#![tactic(auto)]

mod channel;
mod desk;
mod fault;
mod groups;
mod history;
mod laws;
mod mark;
mod put;
mod records;
mod rows;
mod serving;
mod site;
mod sub;
mod views;

pub use channel::{Channel, ChannelKind};
pub use desk::Desk;
pub use fault::SiteFault;
pub use group_view::Group;
pub use histories::{Deed, Story};
pub use history::{Base, SiteData};
pub use journal_core::Entry;
pub use laws::{
    calls_in_turn, entries_write_inside, footprints_rise, found_channels, gets_show_their_place,
    looks_show_states, other_calls_leave_subscriptions, put_gets_show_their_entry,
    snapshots_show_their_place, subscriptions_begin, truth_lasts, updates_fold, values_fit,
};
pub use mark::{Mark, Seat};
pub use mon_queue::Update;
pub use mon_shown::{RollItem, Views};
pub use put::{Done, PutAnswer};
pub use pvd_type::{NoMemory, PvType};
pub use pvd_value::PvValue;
pub use rec_fields::FieldAnswer;
pub use rec_kinds::{Action, Moment, PutRefusal, RecState};
pub use rows::RecRow;
pub use site::{Site, is_record_name};
pub use sub::{Sub, SubAnswer};
