// One session: its state, and what it has to write.
ghost use Rattle.std.specs.Prelude.{◌≡◌, ◌<◌, ◌≤◌, ◌++◌, drop, length, IfOk, IfNone, OnOk, OnErr, true, false, Some, option_map};
ghost use Rattle.pvd_value.specs.View.{view};
ghost use Rattle.pva_frames.specs.Spelling.{message_bytes};
ghost use Rattle.srv_session.specs.State.{buffer_for, segment_for, opening};
ghost use Rattle.srv_session.specs.Rising.{is_rising, AreListed};
ghost use Rattle.pva_messages.specs.Rows.{byte_of};
ghost use Rattle.srv_session.specs.Replies.{methods, greeting, command_of_kind};

use crate::writing::{
    write_answer, write_both_types, write_created, write_destroyed, write_field_refusal,
    write_field_type, write_result, write_validated, write_value,
};
use chan_table::{AskKind, Table};
use desk_api::{Channel, Sub};
use pva_frames::{write_control, write_message};
use pva_messages::{Command, ToClient, write_begun, write_to_client};
use pva_wire::Order;
use pvd_desc::Registry;
use pvd_type::{Name, NoMemory, PvType};
use pvd_value::PvValue;
use std::alloc::Global;

/// The control command that tells the byte order to use (pvAccess Protocol Specification, "Message Header").
const SET_BYTE_ORDER: u8 = 2;

/// The buffer of a client that announced this size: at least 1,024 bytes and at most 65,536.
fn buffer_for(size: u32) -> u32
    ensures { result ≡ buffer_for size }
{
    if size < 1024 {
        return 1024;
    }
    if size > 65536 {
        return 65536;
    }
    size
}

/// The most payload of a frame to this client. The header of eight bytes stands in its buffer too.
pub(crate) fn segment_for(size: u32) -> u32
    ensures exact { result ≡ segment_for size }
    ensures some { 0 < result }
{
    buffer_for(size) - 8
}

/// The methods of authentication that a client may choose from.
fn methods(alloc: Global) -> Result<Vec<Name>, NoMemory>
    ensures { IfOk result (λ names. names.items ≡ methods) }
{
    let mut methods = Vec::with_capacity(alloc, 2)?;
    methods.push(Name::of(alloc, "anonymous")?)?;
    methods.push(Name::of(alloc, "ca")?)?;
    Ok(methods)
}

/// The command of the messages about requests of this kind.
fn command_of(kind: AskKind) -> Command
    ensures { result ≡ command_of_kind kind }
{
    match kind {
        AskKind::Get => Command::Get,
        AskKind::Put => Command::Put,
        AskKind::PutGet => Command::PutGet,
        AskKind::Rpc => Command::Rpc,
        AskKind::Monitor => Command::Monitor,
    }
}

/// Lets a value go in a function of its own, since its many variants would else be let go one by one in the caller's proof.
pub(crate) fn discard<T: Drop>(_value: T) {}

/// One session with a client: its channels and requests, and what is still to be written to it.
#[derive(Drop)]
pub struct Session {
    pub(crate) order: Order,
    /// Whether a validation was answered OK.
    pub(crate) validated: bool,
    /// The most payload of a frame to the client.
    pub(crate) segment: u32,
    /// The number of types that the client's registry holds.
    pub(crate) registry: u16,
    /// The client's user and host, where it told them.
    pub(crate) user: Option<Name>,
    pub(crate) host: Option<Name>,
    /// The types that the client has defined.
    pub(crate) types: Registry,
    pub(crate) table: Table<Channel, Sub>,
    /// The ids of the requests that are monitors, rising.
    pub(crate) monitors: Vec<u32>,
    /// The payload of a reply that is being written.
    payload: Vec<u8>,
    pub(crate) output: Vec<u8>,
    sent: usize,
    ghost some: { 0 < segment },
    ghost within: { sent ≤ length output.items },
    ghost rising: { is_rising monitors.items ≡ true },
    ghost listed: { AreListed monitors.items table.asks },
}

impl Session {
    ghost use Rattle.std.specs.Prelude.{◌∷◌, []};
    ghost use Rattle.pva_wire.specs.Status.{good};
    ghost use Rattle.std.specs.FinMap.{get as at};
    ghost use Rattle.pvd_value.specs.Fits.{fits_of};
    ghost use Rattle.pva_messages.specs.Replies as reply;
    ghost use Rattle.pva_messages.specs.Subcommands.{begins};
    ghost use Rattle.pva_messages.specs.Views.{reply_view};
    ghost use Rattle.srv_session.specs.Replies.{CanSay, spelled_all, said, control, greetings, outcome, is_call, answered, begun, got, called, field_told, field_refused};
    ghost use Rattle.desk_api.specs.declared.history.SiteData.{SiteData};
    ghost use Rattle.srv_session.specs.Calls.{IsOf};
    ghost use Rattle.srv_session.specs.State.{Asked};
    ghost use Rattle.srv_session.specs.Views.{state_of, output_of, Keeps, HasSaid, HasSelected, HasOneType, HasPart, IsOkAlone, MayRefuse};
    ghost use Rattle.chan_table.specs.declared.ask.AskKind.TheVariants as kinds;

    /// A session that has said nothing yet.
    fn silent(alloc: Global, order: Order) -> Result<Session, NoMemory>
        ensures state { IfOk result (λ s. state_of s ≡ opening order) }
        ensures output { IfOk result (λ s. output_of s ≡ []) }
    {
        Ok(Session {
            order,
            validated: false,
            segment: segment_for(65536),
            registry: 0,
            user: None,
            host: None,
            types: Registry::new(alloc),
            table: Table::new(alloc)?,
            monitors: Vec::new(alloc),
            payload: Vec::new(alloc),
            output: Vec::new(alloc),
            sent: 0,
        })
    }

    /// Adds the greeting.
    fn greet(&mut self, alloc: Global) -> Result<(), NoMemory>
        ensures state { state_of self.new ≡ state_of self.old }
        ensures output { OnOk result (output_of self.new ≡ output_of self.old ++ spelled_all self.old.order self.old.segment greetings) }
    {
        self.say_control(SET_BYTE_ORDER, 0)?;
        let methods = methods(alloc)?;
        self.say(ToClient::Validation {
            buffer: 65536,
            registry: 32767,
            methods,
        })
    }

    /// A session whose output is the greeting, in this byte order: the order to use, and a validation with the server's sizes
    /// and methods (pvAccess Protocol Specification, "Connection Validation"). It may serve any site.
    pub fn start(alloc: Global, order: Order) -> Result<Session, NoMemory>
        ensures state { IfOk result (λ s. state_of s ≡ opening order) }
        ensures output { IfOk result (λ s. output_of s ≡ greeting order) }
        ensures site { IfOk result (λ s. (site : SiteData) → IsOf site (state_of s)) }
    {
        let mut session = Session::silent(alloc, order)?;
        session.greet(alloc)?;
        Ok(session)
    }

    /// What is to be written.
    pub fn output(&self) -> &[u8]
        ensures { result.now ≡ output_of self.now }
    {
        &self.output[self.sent..]
    }

    /// So many bytes of the output were written. It takes no memory.
    pub fn took(&mut self, count: usize)
        requires { count ≤ length (output_of self.old) }
        ensures state { state_of self.new ≡ state_of self.old }
        ensures output { output_of self.new ≡ drop count (output_of self.old) }
    {
        self.sent += count;
        if self.sent == self.output.len() {
            self.output.clear();
            self.sent = 0;
        }
    }

    /// Adds a control message.
    pub(crate) fn say_control(&mut self, command: u8, number: u32) -> Result<(), NoMemory>
        ensures state { state_of self.new ≡ state_of self.old }
        ensures ok { OnOk result (HasSaid self.old self.new (control command number)) }
        ensures err { OnErr result (output_of self.new ≡ output_of self.old) }
    {
        write_control(&mut self.output, self.order, true, command, number)?;
        Ok(())
    }

    /// Adds a reply.
    fn say(&mut self, reply: ToClient) -> Result<(), NoMemory>
        requires { CanSay (reply_view reply) }
        ensures state { state_of self.new ≡ state_of self.old }
        ensures ok { OnOk result (HasSaid self.old self.new (said (reply_view reply))) }
        ensures err { OnErr result (output_of self.new ≡ output_of self.old) }
    {
        let written = write_to_client(&mut self.output, self.order, self.segment, &reply);
        discard(reply);
        written
    }

    /// Adds a message of this command with this payload.
    pub(crate) fn say_bytes(&mut self, command: u8, payload: &[u8]) -> Result<(), NoMemory>
        ensures state { state_of self.new ≡ state_of self.old }
        ensures ok { OnOk result (output_of self.new ≡ output_of self.old ++ message_bytes self.old.order true command payload.now self.old.segment) }
        ensures err { OnErr result (output_of self.new ≡ output_of self.old) }
    {
        write_message(
            &mut self.output,
            self.order,
            true,
            command,
            payload,
            self.segment,
        )
    }

    /// Adds a message of this command whose payload stands ready.
    fn say_payload(&mut self, command: Command) -> Result<(), NoMemory>
        ensures state { state_of self.new ≡ state_of self.old }
        ensures ok { OnOk result (output_of self.new ≡ output_of self.old ++ message_bytes self.old.order true (byte_of command) self.old.payload.items self.old.segment) }
        ensures err { OnErr result (output_of self.new ≡ output_of self.old) }
        ensures keeps { Keeps self.old self.new }
        ensures table { self.new.table ≡ self.old.table }
    {
        write_message(
            &mut self.output,
            self.order,
            true,
            command.byte(),
            &self.payload,
            self.segment,
        )
    }

    /// Adds the reply to a validation: OK, or the text of the problem.
    pub(crate) fn say_validated(&mut self, problem: Option<&str>) -> Result<(), NoMemory>
        ensures state { state_of self.new ≡ state_of self.old }
        ensures ok { OnOk result (HasSaid self.old self.new (said (reply.validated (outcome (option_map (λ t. t.now) problem.entry))))) }
        ensures err { OnErr result (output_of self.new ≡ output_of self.old) }
    {
        self.payload.clear();
        write_validated(&mut self.payload, self.order, problem)?;
        self.say_payload(Command::Validated)
    }

    /// Adds the reply to the creation of a channel: the server's id of it, or the text of the problem.
    pub(crate) fn say_created(
        &mut self,
        cid: u32,
        sid: u32,
        problem: Option<&str>,
    ) -> Result<(), NoMemory>
        ensures state { state_of self.new ≡ state_of self.old }
        ensures ok { OnOk result (HasSaid self.old self.new (said (reply.created cid sid (outcome (option_map (λ t. t.now) problem.entry))))) }
        ensures err { OnErr result (output_of self.new ≡ output_of self.old) }
        ensures keeps { Keeps self.old self.new }
    {
        self.payload.clear();
        write_created(&mut self.payload, self.order, cid, sid, problem)?;
        self.say_payload(Command::CreateChannel)
    }

    /// Adds the reply that a channel has ended.
    pub(crate) fn say_destroyed(&mut self, sid: u32, cid: u32) -> Result<(), NoMemory>
        ensures state { state_of self.new ≡ state_of self.old }
        ensures ok { OnOk result (HasSaid self.old self.new (said (reply.channel_destroyed sid cid))) }
        ensures err { OnErr result (output_of self.new ≡ output_of self.old) }
    {
        self.payload.clear();
        write_destroyed(&mut self.payload, self.order, sid, cid)?;
        self.say_payload(Command::DestroyChannel)
    }

    /// Adds the reply to a message about a request: OK, or the text of the problem, and nothing beside. OK alone is said to the
    /// beginning of a call, and to a put that doesn't ask for the value.
    pub(crate) fn say_answer(
        &mut self,
        kind: AskKind,
        req: u32,
        sub: u8,
        problem: Option<&str>,
    ) -> Result<(), NoMemory>
        requires alone { IfNone problem (IsOkAlone kind sub) }
        requires refusal { MayRefuse kind sub }
        ensures state { state_of self.new ≡ state_of self.old }
        ensures ok { OnOk result (HasSaid self.old self.new (said (answered kind req sub (outcome (option_map (λ t. t.now) problem.entry))))) }
        ensures err { OnErr result (output_of self.new ≡ output_of self.old) }
        ensures table { self.new.table ≡ self.old.table }
    {
        self.payload.clear();
        write_answer(&mut self.payload, self.order, req, sub, problem)?;
        self.say_payload(command_of(kind))
    }

    /// Adds the reply that a request, which isn't a call, begins on a channel of this type.
    pub(crate) fn say_begun(
        &mut self,
        kind: AskKind,
        req: u32,
        sub: u8,
        ty: &PvType,
    ) -> Result<(), NoMemory>
        requires call { is_call kind ≡ false }
        requires begins { begins sub ≡ true }
        ensures state { state_of self.new ≡ state_of self.old }
        ensures table { self.new.table ≡ self.old.table }
        ensures ok { OnOk result (HasSaid self.old self.new (said (begun kind req sub ty.now))) }
        ensures err { OnErr result (output_of self.new ≡ output_of self.old) }
    {
        match kind {
            AskKind::PutGet => self.say_both_types(req, sub, ty),
            AskKind::Get => self.say_type(kind, req, sub, ty),
            AskKind::Put => self.say_type(kind, req, sub, ty),
            AskKind::Rpc => self.say_type(kind, req, sub, ty),
            AskKind::Monitor => self.say_type(kind, req, sub, ty),
        }
    }

    /// Adds the reply that a put-get begins on a channel of this type.
    fn say_both_types(&mut self, req: u32, sub: u8, ty: &PvType) -> Result<(), NoMemory>
        requires begins { begins sub ≡ true }
        ensures state { state_of self.new ≡ state_of self.old }
        ensures table { self.new.table ≡ self.old.table }
        ensures ok { OnOk result (HasSaid self.old self.new (said (begun kinds.PutGet req sub ty.now))) }
        ensures err { OnErr result (output_of self.new ≡ output_of self.old) }
    {
        self.payload.clear();
        write_both_types(&mut self.payload, self.order, req, sub, ty)?;
        self.say_payload(Command::PutGet)
    }

    /// Adds the reply that a get, a put or a monitor begins on a channel of this type.
    fn say_type(&mut self, kind: AskKind, req: u32, sub: u8, ty: &PvType) -> Result<(), NoMemory>
        requires kind { HasOneType kind }
        requires begins { begins sub ≡ true }
        ensures state { state_of self.new ≡ state_of self.old }
        ensures table { self.new.table ≡ self.old.table }
        ensures ok { OnOk result (HasSaid self.old self.new (said (begun kind req sub ty.now))) }
        ensures err { OnErr result (output_of self.new ≡ output_of self.old) }
    {
        write_begun(
            &mut self.output,
            self.order,
            self.segment,
            command_of(kind),
            req,
            sub,
            ty,
        )
    }

    /// Adds the reply that brings the leaves of a value which the request of this id selected.
    pub(crate) fn say_selected(
        &mut self,
        kind: AskKind,
        req: u32,
        sub: u8,
        ty: &PvType,
        value: &PvValue,
    ) -> Result<(), NoMemory>
        requires there { HasSelected (state_of self.old) req ty.now }
        requires kind { HasPart kind sub }
        requires sub { begins sub ≡ false }
        requires fits { fits_of 16 (view value.now) ty.now ≡ true }
        ensures state { state_of self.new ≡ state_of self.old }
        ensures ok { OnOk result ((ask : Asked) → at (state_of self.old).requests req ≡ Some ask → HasSaid self.old self.new (said (got kind req sub ty.now ask.mask (view value.now)))) }
        ensures err { OnErr result (output_of self.new ≡ output_of self.old) }
    {
        let ask = self.table.ask(req).unwrap();
        write_value(
            &mut self.output,
            self.order,
            self.segment,
            command_of(kind),
            req,
            sub,
            ty,
            &ask.mask,
            value,
        )
    }

    /// Adds the reply that brings the result of a call.
    pub(crate) fn say_result(
        &mut self,
        req: u32,
        sub: u8,
        ty: &PvType,
        value: &PvValue,
    ) -> Result<(), NoMemory>
        requires sub { begins sub ≡ false }
        requires fits { fits_of 16 (view value.now) ty.now ≡ true }
        ensures state { state_of self.new ≡ state_of self.old }
        ensures ok { OnOk result (HasSaid self.old self.new (said (called req sub ty.now (view value.now)))) }
        ensures err { OnErr result (output_of self.new ≡ output_of self.old) }
    {
        write_result(
            &mut self.output,
            self.order,
            self.segment,
            req,
            sub,
            ty,
            value,
        )
    }

    /// Adds the reply that tells the type of a field.
    pub(crate) fn say_field_type(&mut self, req: u32, ty: &PvType) -> Result<(), NoMemory>
        ensures state { state_of self.new ≡ state_of self.old }
        ensures ok { OnOk result (HasSaid self.old self.new (said (field_told req ty.now))) }
        ensures err { OnErr result (output_of self.new ≡ output_of self.old) }
    {
        self.payload.clear();
        write_field_type(&mut self.payload, self.order, req, ty)?;
        self.say_payload(Command::GetField)
    }

    /// Adds the reply that says why the type of a field isn't told.
    pub(crate) fn say_field_refusal(&mut self, req: u32, text: &str) -> Result<(), NoMemory>
        ensures state { state_of self.new ≡ state_of self.old }
        ensures ok { OnOk result (HasSaid self.old self.new (said (field_refused req text.now))) }
        ensures err { OnErr result (output_of self.new ≡ output_of self.old) }
    {
        self.payload.clear();
        write_field_refusal(&mut self.payload, self.order, req, text)?;
        self.say_payload(Command::GetField)
    }
}
