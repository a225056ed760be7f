//! Operations of a pvAccess client over links, as futures that are polled by hand or by an executor.
#![tactic(auto)]

mod conversation;
mod due;
mod end;
mod exchange;
mod link_calls;
mod next;
mod pending;
mod stream_client;
mod updates;

pub use end::{ExchangeEnd, Outcome};
pub use exchange::Exchange;
pub use next::{NextUpdate, next_update};
pub use updates::Updates;
