//! Many clients, each on a link of its own and a desk of its own, over the records of one site; and how they find the server.
#![tactic(auto)]

mod accepting;
mod answering;
mod endings;
mod hosted;
mod hosting;
mod joining;
mod lasting;
mod laws;
mod running;
mod session;
mod settling;

pub use accepting::Stop;
pub use hosted::Hosted;
pub use hosting::host;
pub use laws::steady_links_are_heard_out;
