//! What a program makes of the words that name its records: SOURCE, the macros of its text and the numbers
//! beside it; the site of SOURCE, and the ports of its records.
#![tactic(auto)]

mod loading;
mod macros;
mod numbers;
mod ports;
mod printing;
mod source;

pub use loading::{SourceStop, read_site};
pub use macros::read_macros;
pub use numbers::count_within;
pub use ports::{PortsStop, make_ports};
pub use printing::{Printed, print};
pub use source::{Source, read_source};
