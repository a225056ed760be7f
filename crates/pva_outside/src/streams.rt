// A reader and a writer of std as one link.
ghost use Rattle.std.specs.Prelude.{◌≡◌, ◌<◌, IsTrue, false, true, length};
ghost use Rattle.pva_outside.specs.Wire.{Reads, Writes, Unchanged, Steadily};

use crate::count::raise;
use crate::refusal::{Refusal, refusal_of};
use crate::{Link, ReadStep, WriteStep};
use std::io::{Read, Write};

/// A link over a reader and a writer of std, as standard input and output
/// (`StreamLink::new(rt.stdin(), rt.stdout())`).
///
/// Each call of the link is one call of the reader or the writer. A read of no bytes is the end of
/// the input, and a write of no bytes a fault. Of the errors, `WouldBlock` and `Interrupted` are
/// `Idle`, `OutOfMemory` is `NoMemory`, and every other is a fault. Nothing is flushed, so the writer
/// has to be one that keeps nothing back.
///
/// After `close` each call is a fault, and the reader and the writer are not called again.
#[derive(Drop)]
pub struct StreamLink<R: Read + Drop, W: Write + Drop> {
    reader: R,
    writer: W,
    closed: bool,
    faults: u64,
    idles: u64,
    ends: u64,
}

impl<R: Read + Drop, W: Write + Drop> StreamLink<R, W> {
    ghost use Rattle.pva_outside.specs.StreamLink.{stream_wire, stream_start, is_closed};

    /// A link that reads from `reader` and writes to `writer`, with counts of 0.
    pub fn new(reader: R, writer: W) -> Self
        ensures start { stream_wire R.remaining W.contents result ≡ stream_start (R.remaining reader) (W.contents writer) }
        ensures ready { is_closed result ≡ false }
    {
        StreamLink {
            reader,
            writer,
            closed: false,
            faults: 0,
            idles: 0,
            ends: 0,
        }
    }
}

impl<R: Read + Drop, W: Write + Drop> Link for StreamLink<R, W> {
    ghost use Rattle.pva_outside.specs.StreamLink.{stream_wire, is_closed};

    ghost wire = { stream_wire R.remaining W.contents };

    fn read(&mut self, buffer: &mut [u8]) -> ReadStep
        requires { 0 < length buffer.old }
        ensures step { Reads (stream_wire R.remaining W.contents self.old) (stream_wire R.remaining W.contents self.new) result buffer.new }
        ensures steady { Steadily (stream_wire R.remaining W.contents self.old) (stream_wire R.remaining W.contents self.new) }
        ensures closed { IsTrue (is_closed self.old) → result ≡ ReadStep.Failed }
        ensures stays { is_closed self.new ≡ is_closed self.old }
    {
        if self.closed {
            raise(&mut self.faults);
            return ReadStep::Failed;
        }
        match self.reader.read(buffer) {
            Ok(0) => {
                raise(&mut self.ends);
                ReadStep::End
            }
            Ok(count) => ReadStep::Got(count),
            Err(error) => match refusal_of(&error) {
                Refusal::Idle => {
                    raise(&mut self.idles);
                    ReadStep::Idle
                }
                Refusal::NoMemory => ReadStep::NoMemory,
                Refusal::Fault => {
                    raise(&mut self.faults);
                    ReadStep::Failed
                }
            },
        }
    }

    fn write(&mut self, bytes: &[u8]) -> WriteStep
        requires { 0 < length bytes.now }
        ensures step { Writes (stream_wire R.remaining W.contents self.old) (stream_wire R.remaining W.contents self.new) result bytes.now }
        ensures steady { Steadily (stream_wire R.remaining W.contents self.old) (stream_wire R.remaining W.contents self.new) }
        ensures closed { IsTrue (is_closed self.old) → result ≡ WriteStep.Failed }
        ensures stays { is_closed self.new ≡ is_closed self.old }
    {
        if self.closed {
            raise(&mut self.faults);
            return WriteStep::Failed;
        }
        match self.writer.write(bytes) {
            Ok(0) => {
                raise(&mut self.faults);
                WriteStep::Failed
            }
            Ok(count) => WriteStep::Took(count),
            Err(error) => match refusal_of(&error) {
                Refusal::Idle => {
                    raise(&mut self.idles);
                    WriteStep::Idle
                }
                Refusal::NoMemory => WriteStep::NoMemory,
                Refusal::Fault => {
                    raise(&mut self.faults);
                    WriteStep::Failed
                }
            },
        }
    }

    fn close(&mut self)
        ensures same { Unchanged (stream_wire R.remaining W.contents self.old) (stream_wire R.remaining W.contents self.new) }
        ensures steady { Steadily (stream_wire R.remaining W.contents self.old) (stream_wire R.remaining W.contents self.new) }
        ensures closed { is_closed self.new ≡ true }
    {
        self.closed = true;
    }
}
