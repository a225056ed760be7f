// A stream of bytes each way.
ghost use Rattle.std.specs.Prelude.{◌<◌, length};
ghost use Rattle.pva_outside.specs.Wire.{Wire, Reads, Writes, Unchanged, Steadily};

/// What one call of `Link::read` came to.
#[derive(Clone, Copy, Debug, PartialEq, Eq)]
pub enum ReadStep {
    /// So many bytes now stand at the front of the buffer: at least 1, and at most its length.
    Got(usize),
    /// The peer has ended its stream. The count of ends rose.
    End,
    /// Nothing came in this call, and a later one may bring more. The count of idles rose.
    Idle,
    /// The link failed. The count of faults rose.
    Failed,
    /// Memory ran out. No byte moved and no count rose.
    NoMemory,
}

/// What one call of `Link::write` came to.
#[derive(Clone, Copy, Debug, PartialEq, Eq)]
pub enum WriteStep {
    /// So many of the first bytes were taken: at least 1, and at most all.
    Took(usize),
    /// Nothing was taken in this call, and a later one may take some. The count of idles rose.
    Idle,
    /// The link failed, and no byte was taken. The count of faults rose.
    Failed,
    /// Memory ran out. No byte was taken and no count rose.
    NoMemory,
}

/// The bytes from a peer and to it, as those of one TCP connection (pvAccess Protocol Specification,
/// "Connection Management").
///
/// A link counts its faults, its idles and the ends of its input. A count never falls, and stands still
/// at 2^64 - 1; a call answers `Failed`, `Idle` or `End` only where that count rose in it, and no other
/// count moves. A link in memory tells the bytes left and the bytes written; one of the system tells
/// none. Where the bytes left are told, `End` comes only where none is left. A steady link stays so, and
/// neither its faults nor its idles rise.
pub trait Link {
    /// The bytes left and the bytes written, where they are told, and the counts.
    ghost wire: { Self → Wire };

    /// Puts the next bytes from the peer at the front of the buffer, which isn't empty.
    fn read(&mut self, buffer: &mut [u8]) -> ReadStep
        requires { 0 < length buffer.old }
        ensures step { Reads (wire self.old) (wire self.new) result buffer.new }
        ensures steady { Steadily (wire self.old) (wire self.new) };

    /// Takes some of the first bytes for the peer. The slice isn't empty.
    fn write(&mut self, bytes: &[u8]) -> WriteStep
        requires { 0 < length bytes.now }
        ensures step { Writes (wire self.old) (wire self.new) result bytes.now }
        ensures steady { Steadily (wire self.old) (wire self.new) };

    /// Ends the stream. What is told and counted stays as it was.
    fn close(&mut self)
        ensures same { Unchanged (wire self.old) (wire self.new) }
        ensures steady { Steadily (wire self.old) (wire self.new) };
}
