// What a client says at each turn.
ghost use Rattle.std.specs.Prelude.{◌≡◌, ◌<◌, ◌∷◌, [], Some, None, IfOk, OnOk};
ghost use Rattle.pva_messages.specs.Requests as requests;
ghost use Rattle.pva_messages.specs.Views.{part_data, request_view, valued_view};
ghost use Rattle.pva_messages.specs.Written.{FitsValued};
ghost use Rattle.pva_messages.specs.declared.part.Part.{Part};
ghost use Rattle.cli_session.specs.Messages as messages;
ghost use Rattle.cli_session.specs.Fitting.{CanPut};
ghost use Rattle.cli_session.specs.State.{segment_for, opening};

use crate::answer::discard;
use crate::ask::{Ask, Operation};
use crate::structures::{access_request, monitor_request, uri, user_of};
use crate::turn::{Turn, turns_of};
use pva_frames::write_control;
use pva_messages::{Part, PutPart, ToServer, write_to_server};
use pva_wire::Order;
use pvd_desc::Registry;
use pvd_type::{Name, NoMemory, PvType};
use pvd_value::PvValue;
use std::alloc::Global;
use std::mem::replace;

// Subcommands (pvAccess Protocol Specification, "Application Messages").
const BEGIN: u8 = 0x08;

const DO: u8 = 0x00;

const READ_BACK: u8 = 0x40;

const START: u8 = 0x44;

const ACKNOWLEDGE: u8 = 0x80;

/// The answer to a request for an echo (pvAccess Protocol Specification, "Control Messages").
const ECHO_RESPONSE: u8 = 4;

/// The client's id of its channel.
const CID: u32 = 1;

/// The id of its requests, but for that which brings the present value for a put-get.
const REQ: u32 = 1;

/// The least and the most of a server's buffer that a frame to it uses, whatever size the server
/// announced, and what of that is its header.
const LEAST: u32 = 1024;

const MOST: u32 = 65536;

const HEADER: u32 = 8;

/// The most payload of a frame to a server that announced a buffer of this size.
pub(crate) fn segment_for(size: u32) -> u32
    ensures exact { result ≡ segment_for size }
    ensures some { 0 < result }
{
    if size < LEAST {
        return LEAST - HEADER;
    }
    if size > MOST {
        return MOST - HEADER;
    }
    size - HEADER
}

/// The method of a validation, and its argument.
fn method_of(
    alloc: Global,
    user: &Option<(Name, Name)>,
) -> Result<(Name, Option<(PvType, PvValue)>), NoMemory>
    ensures is { IfOk result (λ m. requests.validation 65536 32767 0 m.0 (valued_view m.1) ≡ messages.validation user.now) }
    ensures fits { IfOk result (λ m. FitsValued (valued_view m.1)) }
{
    match user {
        None => Ok((Name::of(alloc, "anonymous")?, None)),
        Some((user, host)) => {
            let argument = user_of(alloc, user.as_str(), host.as_str())?;
            Ok((Name::of(alloc, "ca")?, Some(argument)))
        }
    }
}

/// The subcommand that begins a monitor.
fn monitor_sub(window: Option<u32>) -> u8
    ensures { result ≡ messages.monitor_sub window }
{
    match window {
        None => BEGIN,
        Some(_) => BEGIN | ACKNOWLEDGE,
    }
}

/// What a client keeps from event to event.
#[derive(Drop)]
pub(crate) struct Session {
    /// The byte order that it writes in.
    pub(crate) order: Order,
    /// The server has told another order since the last message.
    pub(crate) order_told: bool,
    /// The most payload of a frame to the server.
    pub(crate) segment: u32,
    /// The types that the server has defined.
    pub(crate) types: Registry,
    /// The replies that are awaited.
    pub(crate) turns: &'static [Turn],
    pub(crate) cid: Option<u32>,
    pub(crate) sid: u32,
    /// The request that was begun last.
    pub(crate) req: Option<u32>,
    /// The type that its server gave it.
    pub(crate) ty: Option<PvType>,
    /// What is put, once its words were read.
    pub(crate) put: Option<Part>,
    /// How many updates are awaited.
    pub(crate) left: u32,
    ghost some: { 0 < segment },
    ghost can_put: { (p : Part) → put ≡ Some p → CanPut (part_data p) },
}

impl Session {
    ghost use Rattle.cli_session.specs.Calls.{CanSay, Went};
    ghost use Rattle.cli_session.specs.Steps.{asking, next, saying, echoing};
    ghost use Rattle.cli_session.specs.Views.{state_of};
    ghost use Rattle.cli_session.specs.declared.turn.Turn.TheVariants as turn;

    /// A session that has heard nothing yet.
    pub(crate) fn start(alloc: Global, ask: &Ask) -> Session
        ensures { state_of result ≡ opening ask.now }
    {
        Session {
            order: Order::Little,
            order_told: false,
            segment: segment_for(MOST),
            types: Registry::new(alloc),
            turns: turns_of(&ask.operation),
            cid: None,
            sid: 0,
            req: None,
            ty: None,
            put: None,
            left: ask.operation.updates(),
        }
    }

    /// Appends a message.
    fn say(&self, out: &mut Vec<u8>, message: ToServer) -> Result<(), NoMemory>
        requires { CanSay (request_view message) }
        ensures { OnOk result (Went (saying (state_of self.now) (request_view message ∷ []) []) (state_of self.now) out.old.items out.new.items) }
    {
        let written = write_to_server(out, self.order, self.segment, &message);
        discard(message);
        written
    }

    /// Appends the answer to a request for an echo.
    pub(crate) fn echo(&self, out: &mut Vec<u8>, number: u32) -> Result<(), NoMemory>
        ensures { OnOk result (Went (echoing (state_of self.now) number) (state_of self.now) out.old.items out.new.items) }
    {
        write_control(out, self.order, false, ECHO_RESPONSE, number)
    }

    /// Says who the client is.
    fn validate(&self, alloc: Global, ask: &Ask, out: &mut Vec<u8>) -> Result<(), NoMemory>
        ensures { OnOk result (Went (asking ask.now (state_of self.now) turn.Validation) (state_of self.now) out.old.items out.new.items) }
    {
        let (method, argument) = method_of(alloc, &ask.user)?;
        let message = ToServer::Validation {
            buffer: 65536,
            registry: 32767,
            qos: 0,
            method,
            argument,
        };
        self.say(out, message)
    }

    /// Asks for the channel.
    fn create(&mut self, alloc: Global, ask: &Ask, out: &mut Vec<u8>) -> Result<(), NoMemory>
        ensures { OnOk result (Went (asking ask.now (state_of self.old) turn.Creation) (state_of self.new) out.old.items out.new.items) }
    {
        let channels = vec![in alloc; (CID, ask.name.clone_in(alloc)?)]?;
        self.cid = Some(CID);
        self.say(out, ToServer::Create { channels })
    }

    /// Begins a get.
    fn begin_get(&mut self, alloc: Global, ask: &Ask, out: &mut Vec<u8>) -> Result<(), NoMemory>
        ensures { OnOk result (Went (asking ask.now (state_of self.old) turn.BeginGet) (state_of self.new) out.old.items out.new.items) }
    {
        let request = access_request(alloc, "field", &ask.fields, ask.atomic)?;
        self.req = Some(REQ);
        let message = ToServer::Get {
            sid: self.sid,
            req: REQ,
            sub: BEGIN,
            request: Some(request),
        };
        self.say(out, message)
    }

    /// Asks for the value.
    fn get(&self, alloc: Global, ask: &Ask, out: &mut Vec<u8>) -> Result<(), NoMemory>
        ensures { OnOk result (Went (asking ask.now (state_of self.now) turn.Get) (state_of self.now) out.old.items out.new.items) }
    {
        let message = ToServer::Get {
            sid: self.sid,
            req: REQ,
            sub: DO,
            request: None,
        };
        self.say(out, message)
    }

    /// Begins a put.
    fn begin_put(&mut self, alloc: Global, ask: &Ask, out: &mut Vec<u8>) -> Result<(), NoMemory>
        ensures { OnOk result (Went (asking ask.now (state_of self.old) turn.BeginPut) (state_of self.new) out.old.items out.new.items) }
    {
        let request = access_request(alloc, "field", &[], ask.atomic)?;
        let req = ask.operation.put_id();
        self.req = Some(req);
        let message = ToServer::Put {
            sid: self.sid,
            req,
            sub: BEGIN,
            request: Some(request),
            part: PutPart::Absent,
        };
        self.say(out, message)
    }

    /// Asks for the present value of what is put.
    fn read_back(&self, alloc: Global, ask: &Ask, out: &mut Vec<u8>) -> Result<(), NoMemory>
        ensures { OnOk result (Went (asking ask.now (state_of self.now) turn.ReadBack) (state_of self.now) out.old.items out.new.items) }
    {
        let message = ToServer::Put {
            sid: self.sid,
            req: ask.operation.put_id(),
            sub: READ_BACK,
            request: None,
            part: PutPart::Absent,
        };
        self.say(out, message)
    }

    /// Puts what was read from the words.
    fn put(&mut self, alloc: Global, ask: &Ask, out: &mut Vec<u8>) -> Result<(), NoMemory>
        ensures { OnOk result (Went (asking ask.now (state_of self.old) turn.Put) (state_of self.new) out.old.items out.new.items) }
    {
        let Some(part) = replace(&mut self.put, None) else {
            return Ok(());
        };
        let message = ToServer::Put {
            sid: self.sid,
            req: REQ,
            sub: DO,
            request: None,
            part: PutPart::Given(part),
        };
        self.say(out, message)
    }

    /// Ends the put that brought the present value, and begins a put-get.
    fn begin_put_get(&mut self, alloc: Global, ask: &Ask, out: &mut Vec<u8>) -> Result<(), NoMemory>
        ensures { OnOk result (Went (asking ask.now (state_of self.old) turn.BeginPutGet) (state_of self.new) out.old.items out.new.items) }
    {
        self.end_request(out, 2)?;
        let request = access_request(alloc, "getField", &ask.fields, ask.atomic)?;
        self.req = Some(REQ);
        self.ty = None;
        let message = ToServer::PutGet {
            sid: self.sid,
            req: REQ,
            sub: BEGIN,
            request: Some(request),
            part: PutPart::Absent,
        };
        self.say(out, message)
    }

    /// Puts what was read from the words, and asks for the value that comes of it.
    fn put_get(&mut self, alloc: Global, ask: &Ask, out: &mut Vec<u8>) -> Result<(), NoMemory>
        ensures { OnOk result (Went (asking ask.now (state_of self.old) turn.PutGet) (state_of self.new) out.old.items out.new.items) }
    {
        let Some(part) = replace(&mut self.put, None) else {
            return Ok(());
        };
        let message = ToServer::PutGet {
            sid: self.sid,
            req: REQ,
            sub: DO,
            request: None,
            part: PutPart::Given(part),
        };
        self.say(out, message)
    }

    /// Begins a monitor.
    fn begin_monitor(&mut self, alloc: Global, ask: &Ask, out: &mut Vec<u8>) -> Result<(), NoMemory>
        ensures { OnOk result (Went (asking ask.now (state_of self.old) turn.BeginMonitor) (state_of self.new) out.old.items out.new.items) }
    {
        self.req = Some(REQ);
        let Operation::Monitor { queue, window, .. } = &ask.operation else {
            return Ok(());
        };
        let request = monitor_request(alloc, &ask.fields, *queue, *window)?;
        let message = ToServer::Monitor {
            sid: self.sid,
            req: REQ,
            sub: monitor_sub(*window),
            request: Some(request),
            count: *window,
        };
        self.say(out, message)
    }

    /// Starts a monitor.
    fn start_updates(&self, alloc: Global, ask: &Ask, out: &mut Vec<u8>) -> Result<(), NoMemory>
        ensures { OnOk result (Went (asking ask.now (state_of self.now) turn.Updates) (state_of self.now) out.old.items out.new.items) }
    {
        let message = ToServer::Monitor {
            sid: self.sid,
            req: REQ,
            sub: START,
            request: None,
            count: None,
        };
        self.say(out, message)
    }

    /// Asks for the type of the channel.
    fn ask_type(&mut self, alloc: Global, ask: &Ask, out: &mut Vec<u8>) -> Result<(), NoMemory>
        ensures { OnOk result (Went (asking ask.now (state_of self.old) turn.Field) (state_of self.new) out.old.items out.new.items) }
    {
        let path = Name::of(alloc, "")?;
        self.req = Some(REQ);
        let message = ToServer::GetField {
            sid: self.sid,
            req: REQ,
            path,
        };
        self.say(out, message)
    }

    /// Begins a call.
    fn begin_call(&mut self, alloc: Global, ask: &Ask, out: &mut Vec<u8>) -> Result<(), NoMemory>
        ensures { OnOk result (Went (asking ask.now (state_of self.old) turn.BeginCall) (state_of self.new) out.old.items out.new.items) }
    {
        let request = access_request(alloc, "field", &[], None)?;
        self.req = Some(REQ);
        let message = ToServer::Rpc {
            sid: self.sid,
            req: REQ,
            sub: BEGIN,
            argument: Some(request),
        };
        self.say(out, message)
    }

    /// Calls.
    fn call(&self, alloc: Global, ask: &Ask, out: &mut Vec<u8>) -> Result<(), NoMemory>
        ensures { OnOk result (Went (asking ask.now (state_of self.now) turn.Call) (state_of self.now) out.old.items out.new.items) }
    {
        let Operation::Call(operation) = &ask.operation else {
            return Ok(());
        };
        let argument = uri(alloc, ask.name.as_str(), operation.as_str())?;
        let message = ToServer::Rpc {
            sid: self.sid,
            req: REQ,
            sub: DO,
            argument: Some(argument),
        };
        self.say(out, message)
    }

    /// Says what the reply of a turn is to.
    fn ask_for(
        &mut self,
        alloc: Global,
        ask: &Ask,
        out: &mut Vec<u8>,
        turn: Turn,
    ) -> Result<(), NoMemory>
        ensures { OnOk result (Went (asking ask.now (state_of self.old) turn) (state_of self.new) out.old.items out.new.items) }
    {
        match turn {
            Turn::Greeting => Ok(()),
            Turn::Validation => self.validate(alloc, ask, out),
            Turn::Creation => self.create(alloc, ask, out),
            Turn::BeginGet => self.begin_get(alloc, ask, out),
            Turn::Get => self.get(alloc, ask, out),
            Turn::BeginPut => self.begin_put(alloc, ask, out),
            Turn::ReadBack => self.read_back(alloc, ask, out),
            Turn::Put => self.put(alloc, ask, out),
            Turn::BeginPutGet => self.begin_put_get(alloc, ask, out),
            Turn::PutGet => self.put_get(alloc, ask, out),
            Turn::BeginMonitor => self.begin_monitor(alloc, ask, out),
            Turn::Updates => self.start_updates(alloc, ask, out),
            Turn::Field => self.ask_type(alloc, ask, out),
            Turn::BeginCall => self.begin_call(alloc, ask, out),
            Turn::Call => self.call(alloc, ask, out),
        }
    }

    /// Goes to the next of these turns, and says what its reply is to.
    pub(crate) fn next(
        &mut self,
        alloc: Global,
        ask: &Ask,
        out: &mut Vec<u8>,
        later: &'static [Turn],
    ) -> Result<(), NoMemory>
        ensures { OnOk result (Went (next ask.now (state_of self.old) later.entry.now) (state_of self.new) out.old.items out.new.items) }
    {
        self.turns = later;
        match later.first() {
            Some(turn) => self.ask_for(alloc, ask, out, *turn),
            None => Ok(()),
        }
    }

    /// Ends the request of this id.
    fn end_request(&self, out: &mut Vec<u8>, req: u32) -> Result<(), NoMemory>
        ensures { OnOk result (Went (saying (state_of self.now) (requests.destroy_request (state_of self.now).sid req ∷ []) []) (state_of self.now) out.old.items out.new.items) }
    {
        self.say(out, ToServer::DestroyRequest { sid: self.sid, req })
    }

    /// Ends the operation, and with it the request that was begun last; a question for a field is none.
    pub(crate) fn end(&mut self, out: &mut Vec<u8>, turn: Turn) -> Result<(), NoMemory>
        ensures { OnOk result (Went (saying (record (state_of self.old) { turns = [] }) (messages.last_messages (state_of self.old) turn) []) (state_of self.new) out.old.items out.new.items) }
    {
        self.turns = &[];
        if turn == Turn::Field {
            return Ok(());
        }
        match self.req {
            Some(req) => self.end_request(out, req),
            None => Ok(()),
        }
    }

    /// Acknowledges an update, where the monitor has a window.
    pub(crate) fn acknowledge(&self, out: &mut Vec<u8>, window: Option<u32>) -> Result<(), NoMemory>
        ensures { OnOk result (Went (saying (state_of self.now) (messages.acknowledgement (state_of self.now).sid window) []) (state_of self.now) out.old.items out.new.items) }
    {
        if window.is_none() {
            return Ok(());
        }
        let message = ToServer::Monitor {
            sid: self.sid,
            req: REQ,
            sub: ACKNOWLEDGE,
            request: None,
            count: Some(1),
        };
        self.say(out, message)
    }
}
