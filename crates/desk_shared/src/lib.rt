//! Desks that share the records of a site: each on a pass of a hall, whose cells are the records and whose hub keeps their history and
//! the subscriptions of all desks.
#![tactic(auto)]

mod books;
mod exchanging;
mod home;
mod lent;
mod looking;
mod noting;
mod opening;
mod putting;
mod records;
mod shared;
mod subscribing;
mod visiting;

pub use books::Books;
pub use hall_locks::{Hall, Pass};
pub use home::Home;
pub use lent::LentPort;
pub use opening::open_hall;
pub use records::{RecCell, Records};
pub use shared::SharedDesk;
