//! What a client prints of values and types, and the values that the words of a put give.
#![tactic(auto)]

mod fault;
mod law;
mod lines;
mod placing;
mod reading;
mod scalars;
mod types;
mod values;
mod words;

pub use fault::PutText;
pub use law::printed_scalars_are_read_back;
pub use lines::print_part;
pub use pvd_type::NoMemory;
pub use types::print_type;
pub use words::put_words;
