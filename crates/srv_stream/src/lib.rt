//! One connection, from the bytes that a client sends to those that the server answers.
#![tactic(auto)]

mod ended;
mod laws;
mod serve;
mod serving;

pub use ended::{Ended, StreamFault};
pub use laws::{a_trouble_is_told, an_end_is_told, one_output};
pub use pvd_type::NoMemory;
pub use serve::serve_connection;
pub use serving::Serving;
