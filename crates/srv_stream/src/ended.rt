// Why a connection ends.
use mon_window::WindowFault;
use pva_frames::FrameFault;
use pva_messages::MessageFault;

/// What is wrong with a stream.
#[derive(Clone, Copy, Debug, PartialEq, Eq)]
pub enum StreamFault {
    /// A header is refused.
    Frame(FrameFault),
    /// A message can't be read.
    Message(MessageFault),
    /// A monitor's window would be above the greatest.
    Window(WindowFault),
}

/// Why a connection ended. Places are numbers of bytes from the start of what was read.
#[derive(Clone, Copy, Debug, PartialEq, Eq)]
pub enum Ended {
    /// The client ended the stream at the boundary of a message, and all was answered.
    Closed,
    /// The client ended the stream inside the frame, or the run of segments, that begins at this place.
    Truncated(u64),
    /// The stream is at fault, in the header or in the message that begins at this place. All before it was answered.
    Bad(StreamFault, u64),
    /// A read failed.
    ReadFault,
    /// A write failed.
    WriteFault,
    /// So many calls of the link were made, and a further one was due.
    Spent(u64),
    /// Memory ran out.
    NoMemory,
}
