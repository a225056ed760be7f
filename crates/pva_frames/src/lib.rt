//! Frames of a pvAccess connection: headers, segments and control messages, read from pieces of any
//! size and written whole (pvAccess Protocol Specification, "Message Header", whose flags name the
//! order, the segments and the control messages).
#![tactic(auto)]

mod assembler;
mod event;
mod fault;
mod header;
mod laws;
mod reader;
mod writing;

pub use assembler::Assembler;
pub use event::{Event, Lent, Next, Payload, Whole};
pub use fault::FrameFault;
pub use header::{Header, Segment, read_header};
pub use laws::{
    control_reads_back, every_byte_has_its_frame, message_reads_back, pieces_do_not_matter,
};
pub use pva_wire::NoMemory;
pub use writing::{begin_message, end_message, write_control, write_message};
