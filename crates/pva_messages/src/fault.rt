use pvd_codec::ValueFault;

/// Why a message was refused. The place in the cause is counted in bytes from the start of the
/// payload.
#[derive(Clone, Copy, Debug, PartialEq, Eq)]
pub struct MessageFault {
    /// The command of the message.
    pub command: u8,
    /// The first item from the left that can't be read, or want of memory.
    pub cause: ValueFault,
}
