// A session behind the bytes of a stream.
ghost use Rattle.std.specs.Prelude.{◌≡◌, ◌<◌, ◌≤◌, true, [], drop, length, Some, IfOk, OnOk};
ghost use Rattle.pva_frames.specs.Assembled.{rest_of};
ghost use Rattle.pva_frames.specs.declared.event.Event.TheVariants.{Message};
ghost use Rattle.pva_frames.specs.LentView.{whole_of};
ghost use Rattle.srv_stream.specs.Streams.{is_sound, stop_as};
ghost use Rattle.srv_session.specs.declared.stop.SessionStop.TheVariants as stops;

use crate::ended::{Ended, StreamFault};
use desk_api::{Desk, Moment};
use pva_frames::{Assembler, Event, Lent, Next};
use pva_wire::Order;
use pvd_type::NoMemory;
use srv_session::{Session, SessionStop};
use std::alloc::Global;

/// The bytes of a header (pvAccess Protocol Specification, "Message Header").
const HEADER: usize = 8;

/// How a message of this place, at which the session stops, ends the connection.
fn ended_at(stop: SessionStop, place: u64) -> Ended
    ensures { result ≡ stop_as place stop }
{
    match stop {
        SessionStop::Message(fault) => Ended::Bad(StreamFault::Message(fault), place),
        SessionStop::Window(fault) => Ended::Bad(StreamFault::Window(fault), place),
        SessionStop::NoMemory => Ended::NoMemory,
    }
}

/// Bytes in, bytes out. Of the input it keeps what is unfinished: a frame, and the run of segments that it belongs to.
#[derive(Drop)]
pub struct Serving {
    session: Session,
    stream: Assembler,
    ghost sound: { is_sound stream.left ≡ true },
}

impl Serving {
    ghost use Rattle.srv_session.specs.Calls.{AreLiving, Finished, Holds, IsOf, Pumps};
    ghost use Rattle.srv_session.specs.State.{slots_of};
    ghost use Rattle.srv_stream.specs.Streams.{Feeds, TakesSome, AnswersEvent, SameStream, shown_in};
    ghost use Rattle.srv_stream.specs.Views.{view_of, first_view};

    /// A serving whose output is the greeting. It writes in this byte order.
    pub fn start(alloc: Global, order: Order) -> Result<Serving, NoMemory>
        ensures { IfOk result (λ s. view_of s ≡ first_view order) }
    {
        Ok(Serving {
            session: Session::start(alloc, order)?,
            stream: Assembler::new(alloc),
        })
    }

    /// What is to be written.
    pub fn output(&self) -> &[u8]
        ensures { result.now ≡ (view_of self.now).pending }
    {
        self.session.output()
    }

    /// So much of it was written. It takes no memory.
    pub fn took(&mut self, count: usize)
        requires { count ≤ length (view_of self.old).pending }
        ensures { view_of self.new ≡ record (view_of self.old) { pending = drop count (view_of self.old).pending } }
    {
        self.session.took(count);
    }

    /// None exactly at the boundary of a message; else the place of the unfinished frame, or of its run's first segment. A
    /// header that is refused counts as unfinished. After an `Err` of `feed` it tells nothing.
    pub fn rest(&self) -> Option<u64>
        ensures { result ≡ rest_of (view_of self.now).stream.left }
    {
        self.stream.rest()
    }

    /// Answers an event that the stream has brought.
    fn answer<D: Desk>(
        &mut self,
        alloc: Global,
        event: &Event,
        desk: &mut D,
        moment: Moment,
    ) -> Result<(), Ended>
        requires site { IsOf (D.seat desk.old).seen.base.site (view_of self.old).state }
        requires holds { Holds (D.seat desk.old).log (view_of self.old).state }
        ensures answers { AnswersEvent (D.seat desk.old) (D.seat desk.new) moment (view_of self.old) (view_of self.new) event.now result }
        ensures site { OnOk result (IsOf (D.seat desk.new).seen.base.site (view_of self.new).state) }
        ensures holds { OnOk result (Holds (D.seat desk.new).log (view_of self.new).state) }
        ensures living { AreLiving (D.seat desk.new).log (slots_of (view_of self.new).state.requests) }
    {
        desk.has_legal_history();
        match event {
            Event::Control { command, number } => {
                match self.session.handle_control(*command, *number) {
                    Ok(()) => Ok(()),
                    Err(_) => Err(Ended::NoMemory),
                }
            }
            Event::Message(whole) => {
                let lent = Lent {
                    order: whole.order,
                    command: whole.command,
                    payload: whole.payload.as_slice(),
                    place: whole.place,
                };
                self.answer_message(alloc, &lent, desk, moment)
            }
        }
    }

    /// Answers a message, as `answer` does.
    fn answer_message<D: Desk>(
        &mut self,
        alloc: Global,
        message: &Lent<'_>,
        desk: &mut D,
        moment: Moment,
    ) -> Result<(), Ended>
        requires site { IsOf (D.seat desk.old).seen.base.site (view_of self.old).state }
        requires holds { Holds (D.seat desk.old).log (view_of self.old).state }
        ensures answers { AnswersEvent (D.seat desk.old) (D.seat desk.new) moment (view_of self.old) (view_of self.new) (Message (whole_of message.now)) result }
        ensures site { OnOk result (IsOf (D.seat desk.new).seen.base.site (view_of self.new).state) }
        ensures holds { OnOk result (Holds (D.seat desk.new).log (view_of self.new).state) }
        ensures living { AreLiving (D.seat desk.new).log (slots_of (view_of self.new).state.requests) }
    {
        match self.session.handle_message(alloc, message, desk, moment) {
            Ok(()) => Ok(()),
            Err(stop) => Err(ended_at(stop, message.place)),
        }
    }

    /// Answers the events that the stream has brought.
    fn answer_ready<D: Desk>(
        &mut self,
        alloc: Global,
        desk: &mut D,
        moment: Moment,
    ) -> Result<(), Ended>
        requires site { IsOf (D.seat desk.old).seen.base.site (view_of self.old).state }
        requires holds { Holds (D.seat desk.old).log (view_of self.old).state }
        ensures feeds { Feeds (D.seat desk.old) (D.seat desk.new) (Some moment) (view_of self.old) (view_of self.new) [] result }
        ensures site { OnOk result (IsOf (D.seat desk.new).seen.base.site (view_of self.new).state) }
        ensures holds { OnOk result (Holds (D.seat desk.new).log (view_of self.new).state) }
        ensures living { AreLiving (D.seat desk.new).log (slots_of (view_of self.new).state.requests) }
    {
        desk.has_legal_history();
        'events: loop {
            match self.stream.next() {
                Ok(next) => match next {
                    Next::Event(event) => match self.answer(alloc, &event, desk, moment) {
                        Ok(()) => continue 'events,
                        Err(ended) => return Err(ended),
                    },
                    Next::Fault(fault) => {
                        return Err(Ended::Bad(StreamFault::Frame(fault), fault.place()));
                    }
                    Next::More => return Ok(()),
                },
                Err(_) => return Err(Ended::NoMemory),
            }
        }
    }

    /// Takes bytes that a piece begins with, at least one, and answers the events that they bring. None stand ready before.
    fn take_some<D: Desk>(
        &mut self,
        alloc: Global,
        desk: &mut D,
        piece: &[u8],
        moment: Moment,
    ) -> Result<usize, Ended>
        requires some { 0 < length piece.now }
        requires site { IsOf (D.seat desk.old).seen.base.site (view_of self.old).state }
        requires holds { Holds (D.seat desk.old).log (view_of self.old).state }
        ensures takes { TakesSome (D.seat desk.old) (D.seat desk.new) (Some moment) (view_of self.old) (view_of self.new) piece.now result }
        ensures site { OnOk result (IsOf (D.seat desk.new).seen.base.site (view_of self.new).state) }
        ensures holds { OnOk result (Holds (D.seat desk.new).log (view_of self.new).state) }
        ensures living { AreLiving (D.seat desk.new).log (slots_of (view_of self.new).state.requests) }
    {
        desk.has_legal_history();
        if let Some(message) = self.stream.lend(piece) {
            return match self.answer_message(alloc, &message, desk, moment) {
                Ok(()) => Ok(HEADER + message.payload.len()),
                Err(ended) => Err(ended),
            };
        }
        let Ok(count) = self.stream.feed_some(piece) else {
            return Err(Ended::NoMemory);
        };
        match self.answer_ready(alloc, desk, moment) {
            Ok(()) => Ok(count),
            Err(ended) => Err(ended),
        }
    }

    /// Takes the next bytes of the stream and answers the events that they bring. What these put has this moment. The answer
    /// is `Bad` or `NoMemory`; after `Bad` the output still has the replies to the events before it.
    pub fn feed<D: Desk>(
        &mut self,
        alloc: Global,
        desk: &mut D,
        piece: &[u8],
        moment: Moment,
    ) -> Result<(), Ended>
        requires site { IsOf (D.seat desk.old).seen.base.site (view_of self.old).state }
        requires holds { Holds (D.seat desk.old).log (view_of self.old).state }
        ensures feeds { Feeds (D.seat desk.old) (D.seat desk.new) (Some moment) (view_of self.old) (view_of self.new) piece.now result }
        ensures site { OnOk result (IsOf (D.seat desk.new).seen.base.site (view_of self.new).state) }
        ensures holds { OnOk result (Holds (D.seat desk.new).log (view_of self.new).state) }
        ensures living { AreLiving (D.seat desk.new).log (slots_of (view_of self.new).state.requests) }
    {
        desk.has_legal_history();
        let mut at = 0;
        'pieces: while at < piece.len() {
            match self.take_some(alloc, desk, &piece[at..], moment) {
                Ok(count) => {
                    at += count;
                    continue 'pieces;
                }
                Err(ended) => return Err(ended),
            }
        }
        self.answer_ready(alloc, desk, moment)
    }

    /// Pops each started monitor whose window is open once, by the rising ids of their requests, and adds the updates. False exactly
    /// where each such pop found nothing unread.
    pub fn pump<D: Desk>(&mut self, desk: &mut D) -> Result<bool, NoMemory>
        requires site { IsOf (D.seat desk.old).seen.base.site (view_of self.old).state }
        requires holds { Holds (D.seat desk.old).log (view_of self.old).state }
        ensures pumps { Pumps (shown_in (D.seat desk.old) (view_of self.old)) (shown_in (D.seat desk.new) (view_of self.new)) result }
        ensures stream { SameStream (view_of self.old) (view_of self.new) }
        ensures site { OnOk result (IsOf (D.seat desk.new).seen.base.site (view_of self.new).state) }
        ensures holds { OnOk result (Holds (D.seat desk.new).log (view_of self.new).state) }
        ensures living { AreLiving (D.seat desk.new).log (slots_of (view_of self.new).state.requests) }
    {
        desk.has_legal_history();
        self.session.pump(desk)
    }

    /// Ends the session and its subscriptions. What is still to be written goes with it. It takes no memory.
    pub fn finish<D: Desk>(self, desk: &mut D)
        requires { AreLiving (D.seat desk.old).log (slots_of (view_of self).state.requests) }
        ensures { Finished (shown_in (D.seat desk.old) (view_of self)) (D.seat desk.new) }
    {
        self.session.finish(desk);
    }
}
