ghost use Rattle.std.specs.Prelude.{◌≡◌, ◌<◌, length, IfOk, IfSome, IfNone, OnOk, OnErr};
ghost use Rattle.pva_frames.specs.Assembled.{opening, fed, Lends, TookPart, GivesNext, rest_of};
ghost use Rattle.pva_frames.specs.LentView.{whole_of};

use crate::event::{Event, Lent, Next};
use crate::fault::FrameFault;
use crate::reader::Reader;
use pva_wire::NoMemory;
use std::alloc::Global;
use std::collections::VecDeque;
use std::marker::Model;

/// Turns the pieces of a stream into its messages and control messages, whatever the pieces are.
///
/// Each byte that is fed is copied once, into the payload of its message, and that payload is moved out
/// with its event. A message that stands whole in a piece can be lent in place of that.
#[derive(Drop)]
pub struct Assembler {
    alloc: Global,
    /// Events that are complete and not yet given.
    ready: VecDeque<Event>,
    /// The first header that was refused.
    fault: Option<FrameFault>,
    reader: Reader,
}

impl Model for Assembler {
    ghost use Rattle.pva_frames.specs.Assembled.{Assembled};
    ghost use Rattle.pva_frames.specs.Messages.{unless_refused};
    ghost use Rattle.pva_frames.specs.ReaderView.{left_of};

    ghost Value = { Assembled };

    ghost view = { λ a. record {
      events = a.ready.items;
      left = unless_refused a.fault (left_of a.reader);
    } };
}

impl Assembler {
    /// At the start of a stream. It takes no memory.
    pub fn new(alloc: Global) -> Assembler
        ensures { result ≡ opening }
    {
        Assembler {
            alloc,
            ready: VecDeque::new(alloc),
            fault: None,
            reader: Reader::new(alloc),
        }
    }

    /// Takes the next piece of the stream. Behind a header that is refused pieces mean nothing.
    /// Without memory, and where the pieces would be 2^64 bytes or more together, nothing changes.
    pub fn feed(&mut self, piece: &[u8]) -> Result<(), NoMemory>
        ensures ok { OnOk result (self.new ≡ fed self.old piece.now) }
        ensures err { OnErr result (self.new ≡ self.old) }
    {
        if self.fault.is_some() {
            return Ok(());
        }
        self.fault = self.reader.take(piece, &mut self.ready)?;
        if self.fault.is_some() {
            self.reader = Reader::new(self.alloc);
        }
        Ok(())
    }

    /// Takes at least one byte of the next piece, and at most the bytes up to the end of a frame or of
    /// its header, and says how many; else as `feed`.
    pub fn feed_some(&mut self, piece: &[u8]) -> Result<usize, NoMemory>
        requires { 0 < length piece.now }
        ensures ok { IfOk result (TookPart self.old self.new piece.now) }
        ensures err { OnErr result (self.new ≡ self.old) }
    {
        if self.fault.is_some() {
            return Ok(piece.len());
        }
        let taken = self.reader.take_part(piece, &mut self.ready)?;
        self.fault = taken.fault;
        if self.fault.is_some() {
            self.reader = Reader::new(self.alloc);
        }
        Ok(taken.count)
    }

    /// Gives the message that stands whole, in one frame, in front of the next piece, without a copy of
    /// its payload, and goes past its 8 bytes of header and its payload. None, and nothing has changed,
    /// where no such frame stands there, its header is refused, an event is ready, a header was refused
    /// before, the stream isn't at the boundary of a message, or the place behind the piece would pass
    /// 2^64 - 1: `feed_some` and `next` then go on. It takes no memory.
    pub fn lend<'a>(&mut self, piece: &'a [u8]) -> Option<Lent<'a>>
        ensures lent { IfSome result (λ lent. Lends self.old self.new piece.now (whole_of lent)) }
        ensures none { IfNone result (self.new ≡ self.old) }
    {
        if self.fault.is_some() || !self.ready.is_empty() {
            return None;
        }
        self.reader.lend(piece)
    }

    /// Gives the next event, in the order of the events' last bytes; then the first header that is
    /// refused, again and again; else More.
    pub fn next(&mut self) -> Result<Next, NoMemory>
        ensures { GivesNext self.old self.new result }
    {
        if let Some(event) = self.ready.pop_front() {
            return Ok(Next::Event(event));
        }
        match self.fault {
            Some(fault) => Ok(Next::Fault(fault)),
            None => Ok(Next::More),
        }
    }

    /// None exactly at a message boundary; else the place of the unfinished frame, or of its run's
    /// first segment. A header that is refused counts as unfinished.
    pub fn rest(&self) -> Option<u64>
        ensures { result ≡ rest_of self.now.left }
    {
        match self.fault {
            Some(fault) => Some(fault.place()),
            None => self.reader.rest(),
        }
    }
}
