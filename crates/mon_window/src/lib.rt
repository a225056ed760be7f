//! The window of a pipelined monitor: how many updates may be sent before more are acknowledged.
#![tactic(auto)]

mod window;

pub use window::{Window, WindowFault};
