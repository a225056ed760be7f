//! One session of a server: events of a client in, replies out (pvAccess Protocol Specification, "Application Messages").
#![tactic(auto)]

mod asking;
mod calls;
mod channels;
mod endings;
mod fields;
mod gets;
mod handling;
mod laws;
mod listing;
mod monitors;
mod pumping;
mod put_gets;
mod puts;
mod requests;
mod session;
mod stop;
mod subcommand;
mod validation;
mod writing;

pub use laws::{
    a_worked_window, one_output, pumps_drain, subscriptions_are_held, subscriptions_end,
    windows_hold,
};
pub use pvd_type::NoMemory;
pub use session::Session;
pub use stop::SessionStop;
