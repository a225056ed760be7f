//! The unfinished frame of a stream and the run of segments that stands.

ghost use Rattle.std.specs.Prelude.{◌≡◌, ◌<◌, ◌≤◌, ◌+◌, ◌^◌, [], ◌∷◌, ◌++◌, length, take, drop, slice_index, List, ℕ, None, Some, Ok, IfOk, IfSome, IfNone, OnOk, OnErr, IsTrue, ◌↔◌};
ghost use Rattle.std.specs.VecDeque.{deque_len, deque_capacity};
ghost use Rattle.pva_frames.specs.Headers.{magic, header_of};
ghost use Rattle.pva_frames.specs.Messages.{refusal, length_refusal, foreign, first_refusal, later_refusal};
ghost use Rattle.pva_frames.specs.Assembled.{start, rest_of_run};
ghost use Rattle.pva_frames.specs.Reader.{run_of, run_size, end_of, IsSound, Brings, Takes, message_of, message_event, EndsFrame, Grows, first_payload, IsLent};
ghost use Rattle.pva_frames.specs.LentView.{whole_of};

use crate::event::{Event, Lent, Payload, Whole};
use crate::fault::FrameFault;
use crate::header::{Header, MAGIC, SIZE, Segment, header_in, single_header};
use pva_wire::{NoMemory, Order};
use std::alloc::Global;
use std::collections::VecDeque;
use std::mem;

/// The greatest joined payload in bytes.
const LIMIT: u64 = 67_108_864;

/// The run of segments that stands, but for its payload.
#[derive(Clone, Copy)]
pub(crate) struct Run {
    order: Order,
    command: u8,
    place: u64,
    /// The length of its payload so far.
    length: u32,
}

/// Where a reader stands, but for the payload.
#[derive(Clone, Copy)]
pub(crate) struct Mark {
    /// The place of the unfinished frame, or of the next.
    place: u64,
    /// The bytes of its header, as many as have come.
    head: [u8; 8],
    filled: usize,
    run: Option<Run>,
}

/// What a reader took: at least one byte, and maybe a header that is refused.
#[derive(Clone, Copy)]
pub(crate) struct Taken {
    pub(crate) count: usize,
    pub(crate) fault: Option<FrameFault>,
}

/// Reads a stream up to the first header that is refused.
#[derive(Drop)]
pub(crate) struct Reader {
    mark: Mark,
    /// The payload of the run, and behind it that of the unfinished frame.
    payload: Vec<u8>,
    ghost sound: { IsSound mark payload.items },
}

fn length_refusal(joined: u32, header: Header, place: u64) -> Option<FrameFault>
    ensures { result ≡ length_refusal joined header place }
{
    let length = u64::from(joined) + u64::from(header.number);
    if length <= LIMIT {
        return None;
    }
    Some(FrameFault::TooLong { length, place })
}

fn foreign(have: Option<u8>, header: Header, place: u64) -> Option<FrameFault>
    ensures { result ≡ foreign have header place }
{
    Some(FrameFault::BadSegment {
        have,
        came: header.command,
        place,
    })
}

// Why a whole message, or the first segment of one, is refused.
fn refuse_first(run: Option<Run>, header: Header, place: u64) -> Option<FrameFault>
    ensures { (payload : List ℕ) → result ≡ first_refusal (run_of run payload) header place }
{
    match run {
        None => length_refusal(0, header, place),
        Some(run) => foreign(Some(run.command), header, place),
    }
}

// Why a later segment is refused.
fn refuse_later(run: Option<Run>, header: Header, place: u64) -> Option<FrameFault>
    ensures { (payload : List ℕ) → run_size run ≤ length payload
        → result ≡ later_refusal (run_of run payload) header place }
{
    let Some(run) = run else {
        return foreign(None, header, place);
    };
    if run.command != header.command {
        return foreign(Some(run.command), header, place);
    }
    length_refusal(run.length, header, place)
}

// Why a header is refused, if it is.
fn refuse(run: Option<Run>, header: Header, place: u64) -> Option<FrameFault>
    ensures { (payload : List ℕ) → run_size run ≤ length payload
        → result ≡ refusal (run_of run payload) header place }
{
    if header.is_control() {
        return None;
    }
    match header.segment() {
        Segment::Single | Segment::First => refuse_first(run, header, place),
        Segment::Middle | Segment::Last => refuse_later(run, header, place),
    }
}

impl Mark {
    // At the beginning of a frame.
    fn at(place: u64, run: Option<Run>) -> Mark
        ensures place { result.place ≡ place }
        ensures filled { result.filled ≡ 0 }
        ensures run { result.run ≡ run }
        ensures head { length result.head ≡ 8 }
    {
        Mark {
            place,
            head: [0; 8],
            filled: 0,
            run,
        }
    }

    // How many bytes of the payload belong to the run.
    fn run_size(&self) -> usize
        ensures { result ≡ run_size self.now.run }
    {
        match self.run {
            None => 0,
            Some(run) => run.length as usize,
        }
    }
}

// The run with one more segment, whose payload has come.
fn longer(run: Option<Run>, header: Header, place: u64) -> Run
    requires { run_size run + header.number < 2 ^ 32 }
    ensures size { result.length ≡ run_size run + header.number }
    ensures message { (payload : List ℕ) → length payload ≡ result.length
        → run_of (Some result) payload ≡ Some (message_of run header place payload) }
{
    match run {
        None => Run {
            order: header.order,
            command: header.command,
            place,
            length: header.number,
        },
        Some(run) => Run {
            length: run.length + header.number,
            ..run
        },
    }
}

// Ends a frame of an application message, whose payload is whole. An event has room.
fn end_frame(mark: &mut Mark, payload: &mut Vec<u8>, header: Header, ready: &mut VecDeque<Event>)
    requires whole { length payload.old.items ≡ run_size mark.old.run + header.number }
    requires fits { length payload.old.items < 2 ^ 32 }
    requires place { mark.old.place + 8 + header.number < 2 ^ 64 }
    requires room { deque_len ready.old < deque_capacity ready.old }
    ensures ends { EndsFrame mark.old payload.old.items header mark.new payload.new.items }
    ensures event { ready.new.items
        ≡ ready.old.items ++ message_event mark.old.run header mark.old.place payload.old.items }
    ensures kept { Grows ready.old.items payload.old.items ready.new.items payload.new.items }
{
    let run = longer(mark.run, header, mark.place);
    let next = mark.place + 8 + u64::from(header.number);
    match header.segment() {
        Segment::First | Segment::Middle => {
            *mark = Mark::at(next, Some(run));
        }
        Segment::Single | Segment::Last => {
            let bytes = mem::replace(payload, Vec::new(*payload.allocator()));
            let whole = Whole {
                order: run.order,
                command: run.command,
                payload: Payload::of(bytes),
                place: run.place,
            };
            ready.push_back(Event::Message(whole)).unwrap();
            *mark = Mark::at(next, None);
        }
    }
}

// Puts bytes of a header behind the first `start`.
fn fill(mut head: [u8; 8], start: usize, bytes: &[u8]) -> [u8; 8]
    requires { start + length bytes.now ≤ 8 }
    ensures front { take (start + length bytes.now) result ≡ take start head ++ bytes.now }
    ensures size { length result ≡ 8 }
{
    head[start..start + bytes.len()].copy_from_slice(bytes);
    head
}

impl Reader {
    ghost use Rattle.pva_frames.specs.ReaderView.{left_of};

    /// At the start of a stream.
    pub(crate) fn new(alloc: Global) -> Reader
        ensures { left_of result ≡ start }
    {
        Reader {
            mark: Mark::at(0, None),
            payload: Vec::new(alloc),
        }
    }

    // Begins the frame of a whole header that isn't refused.
    fn begin_frame(
        &mut self,
        header: Header,
        head: [u8; 8],
        ready: &mut VecDeque<Event>,
    ) -> Result<(), NoMemory>
        requires header { header ≡ header_of head }
        requires first { slice_index head 0 ≡ magic }
        requires fresh { self.old.mark.filled < 8 }
        requires accepted { refusal (left_of self.old).run header self.old.mark.place ≡ None }
        requires place { self.old.mark.place + 8 < 2 ^ 64 }
        ensures ok { OnOk result (Brings ready.old.items self.old.mark.place (left_of self.old).run
            head ready.new.items None (left_of self.new)) }
        ensures kept { Grows ready.old.items self.old.payload.items
            ready.new.items self.new.payload.items }
    {
        if header.is_control() {
            ready.push_back(Event::Control {
                command: header.command,
                number: header.number,
            })?;
            self.mark = Mark::at(self.mark.place + 8, self.mark.run);
            return Ok(());
        }
        if header.number > 0 {
            self.mark.head = head;
            self.mark.filled = SIZE;
            return Ok(());
        }
        ready.reserve(1)?;
        end_frame(&mut self.mark, &mut self.payload, header, ready);
        Ok(())
    }

    // Takes bytes of a header.
    fn take_header(&mut self, bytes: &[u8], ready: &mut VecDeque<Event>) -> Result<Taken, NoMemory>
        requires filled { self.old.mark.filled < 8 }
        requires some { 0 < length bytes.now }
        requires room { end_of (left_of self.old) + length bytes.now < 2 ^ 64 }
        ensures count { IfOk result (λ taken. (0 < taken.count) × (taken.count ≤ length bytes.now)) }
        ensures ok { IfOk result (λ taken. Takes ready.old.items (left_of self.old)
            (take taken.count bytes.now) ready.new.items taken.fault (left_of self.new)) }
        ensures kept { Grows ready.old.items self.old.payload.items
            ready.new.items self.new.payload.items }
    {
        let start = self.mark.filled;
        let count = bytes.len().min(SIZE - start);
        let head = fill(self.mark.head, start, &bytes[..count]);
        let place = self.mark.place;
        if head[0] != MAGIC {
            let fault = Some(FrameFault::BadMagic {
                byte: head[0],
                place,
            });
            return Ok(Taken { count, fault });
        }
        if start + count < SIZE {
            self.mark.head = head;
            self.mark.filled = start + count;
            return Ok(Taken { count, fault: None });
        }
        let header = header_in(&head);
        if let Some(fault) = refuse(self.mark.run, header, place) {
            let fault = Some(fault);
            return Ok(Taken { count, fault });
        }
        self.begin_frame(header, head, ready)?;
        Ok(Taken { count, fault: None })
    }

    // Takes bytes of a payload.
    fn take_payload(&mut self, bytes: &[u8], ready: &mut VecDeque<Event>) -> Result<Taken, NoMemory>
        requires filled { self.old.mark.filled ≡ 8 }
        requires some { 0 < length bytes.now }
        requires room { end_of (left_of self.old) + length bytes.now < 2 ^ 64 }
        ensures count { IfOk result (λ taken. (0 < taken.count) × (taken.count ≤ length bytes.now)) }
        ensures ok { IfOk result (λ taken. Takes ready.old.items (left_of self.old)
            (take taken.count bytes.now) ready.new.items taken.fault (left_of self.new)) }
        ensures kept { Grows ready.old.items self.old.payload.items
            ready.new.items self.new.payload.items }
    {
        let header = header_in(&self.mark.head);
        let missing = header.number as usize - (self.payload.len() - self.mark.run_size());
        if bytes.len() < missing {
            self.payload.extend_from_slice(bytes)?;
            return Ok(Taken {
                count: bytes.len(),
                fault: None,
            });
        }
        ready.reserve(1)?;
        self.payload.extend_from_slice(&bytes[..missing])?;
        end_frame(&mut self.mark, &mut self.payload, header, ready);
        Ok(Taken {
            count: missing,
            fault: None,
        })
    }

    // Takes some of these bytes, at least one.
    fn take_some(&mut self, bytes: &[u8], ready: &mut VecDeque<Event>) -> Result<Taken, NoMemory>
        requires some { 0 < length bytes.now }
        requires room { end_of (left_of self.old) + length bytes.now < 2 ^ 64 }
        ensures count { IfOk result (λ taken. (0 < taken.count) × (taken.count ≤ length bytes.now)) }
        ensures ok { IfOk result (λ taken. Takes ready.old.items (left_of self.old)
            (take taken.count bytes.now) ready.new.items taken.fault (left_of self.new)) }
        ensures kept { Grows ready.old.items self.old.payload.items
            ready.new.items self.new.payload.items }
    {
        if self.mark.filled < SIZE {
            return self.take_header(bytes, ready);
        }
        self.take_payload(bytes, ready)
    }

    // Whether so many further bytes keep every place below 2^64.
    fn has_room(&self, count: usize) -> bool
        ensures { IsTrue result ↔ (end_of (left_of self.now) + count < 2 ^ 64) }
    {
        let held = self.mark.filled + (self.payload.len() - self.mark.run_size());
        match self.mark.place.checked_add(held as u64) {
            None => false,
            Some(end) => end.checked_add(count as u64).is_some(),
        }
    }

    /// Takes at least one byte of a piece, and at most the bytes up to the end of a frame or of its
    /// header; else as `take`.
    pub(crate) fn take_part(
        &mut self,
        piece: &[u8],
        ready: &mut VecDeque<Event>,
    ) -> Result<Taken, NoMemory>
        requires some { 0 < length piece.now }
        ensures count { IfOk result (λ taken. (0 < taken.count) × (taken.count ≤ length piece.now)) }
        ensures ok { IfOk result (λ taken. Takes ready.old.items (left_of self.old)
            (take taken.count piece.now) ready.new.items taken.fault (left_of self.new)) }
        ensures err { OnErr result (ready.new.items ≡ ready.old.items) }
        ensures unchanged { OnErr result (left_of self.new ≡ left_of self.old) }
    {
        if !self.has_room(piece.len()) {
            return Err(NoMemory);
        }
        let mark = self.mark;
        let size = self.payload.len();
        let count = ready.len();
        match self.take_some(piece, ready) {
            Ok(taken) => Ok(taken),
            Err(error) => {
                undo(ready, count, &mut self.payload, size);
                self.mark = mark;
                Err(error)
            }
        }
    }

    /// Lends the message that stands whole, in one frame, in front of a piece, and goes past it. None
    /// where no such frame stands there, its length is refused, the stream isn't at the boundary of a
    /// message, or would have 2^64 bytes or more; then nothing changes. It takes no memory.
    pub(crate) fn lend<'a>(&mut self, piece: &'a [u8]) -> Option<Lent<'a>>
        ensures lent { IfSome result (λ lent. IsLent (left_of self.old) piece.now
            (whole_of lent) (left_of self.new)) }
        ensures none { IfNone result (left_of self.new ≡ left_of self.old) }
    {
        if self.mark.filled != 0 || self.mark.run.is_some() {
            return None;
        }
        let header = single_header(piece)?;
        let size = header.number as usize;
        if u64::from(header.number) > LIMIT || piece.len() - SIZE < size {
            return None;
        }
        if !self.has_room(piece.len()) {
            return None;
        }
        let end = SIZE + size;
        let place = self.mark.place;
        self.mark = Mark::at(place + end as u64, None);
        Some(Lent {
            order: header.order,
            command: header.command,
            payload: &piece[SIZE..end],
            place,
        })
    }

    /// Takes a piece, adds the events that it completes to those that are ready, and gives the
    /// first header that is refused; the reader is then of no further use. Without memory, and
    /// where the stream would have 2^64 bytes or more, nothing changes.
    pub(crate) fn take(
        &mut self,
        piece: &[u8],
        ready: &mut VecDeque<Event>,
    ) -> Result<Option<FrameFault>, NoMemory>
        ensures ok { IfOk result (λ fault. Takes ready.old.items (left_of self.old)
            piece.now ready.new.items fault (left_of self.new)) }
        ensures err { OnErr result (ready.new.items ≡ ready.old.items) }
        ensures unchanged { OnErr result (left_of self.new ≡ left_of self.old) }
    {
        if !self.has_room(piece.len()) {
            return Err(NoMemory);
        }
        let mark = self.mark;
        let size = self.payload.len();
        let count = ready.len();
        let mut at = 0;
        while at < piece.len() {
            match self.take_some(&piece[at..], ready) {
                Ok(taken) => {
                    if let Some(fault) = taken.fault {
                        return Ok(Some(fault));
                    }
                    at += taken.count;
                }
                Err(error) => {
                    undo(ready, count, &mut self.payload, size);
                    self.mark = mark;
                    return Err(error);
                }
            }
        }
        Ok(None)
    }

    /// The place of the unfinished frame or of the run that stands; none at a message boundary.
    pub(crate) fn rest(&self) -> Option<u64>
        ensures { result
            ≡ rest_of_run (left_of self.now).run (left_of self.now).place (left_of self.now).held }
    {
        if let Some(run) = self.mark.run {
            return Some(run.place);
        }
        if self.mark.filled == 0 {
            return None;
        }
        Some(self.mark.place)
    }
}

// The payload of a message takes the place of this one.
fn give_back(event: Event, payload: &mut Vec<u8>)
    ensures { payload.new.items ≡ first_payload (event ∷ []) payload.old.items }
{
    if let Event::Message(whole) = event {
        *payload = whole.payload.into_vec();
    }
}

// Takes the events behind the first `count` away again, and cuts the payload that stood before them
// to its length.
fn undo(ready: &mut VecDeque<Event>, count: usize, payload: &mut Vec<u8>, size: usize)
    ensures ready { ready.new.items ≡ take count ready.old.items }
    ensures payload { payload.new.items
        ≡ take size (first_payload (drop count ready.old.items) payload.old.items) }
{
    while ready.len() > count {
        if let Some(event) = ready.pop_back() {
            give_back(event, payload);
        }
    }
    payload.truncate(size);
}
