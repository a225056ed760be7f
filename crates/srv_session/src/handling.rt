// Events of a client.
ghost use Rattle.std.specs.Prelude.{◌≡◌};
ghost use Rattle.srv_session.specs.Views as views;

use crate::session::{Session, discard};
use crate::stop::SessionStop;
use desk_api::{Desk, Moment};
use pva_frames::{Event, Lent};
use pva_messages::{Command, ToServer, read_request};
use pvd_type::NoMemory;
use std::alloc::Global;

// Control commands (pvAccess Protocol Specification, "Message Header").
const ECHO_REQUEST: u8 = 3;

const ECHO_RESPONSE: u8 = 4;

// Commands of messages that are looked at before they are read.
const VALIDATION: u8 = Command::Validation as u8;

const ECHO: u8 = Command::Echo as u8;

/// The same answer for one whose caller may stop for other reasons too.
pub(crate) fn stopping(answer: Result<(), NoMemory>) -> Result<(), SessionStop>
    ensures { result ≡ views.stopping answer }
{
    match answer {
        Ok(()) => Ok(()),
        Err(NoMemory) => Err(SessionStop::NoMemory),
    }
}

impl Session {
    ghost use Rattle.std.specs.Prelude.{OnOk, length};
    ghost use Rattle.pvd_codec.specs.Written.{CanEach};
    ghost use Rattle.pva_frames.specs.LentView.{whole_of};
    ghost use Rattle.pva_frames.specs.declared.event.Event.TheVariants.{Message, Control};
    ghost use Rattle.pva_messages.specs.Requests.{request_fields};
    ghost use Rattle.pva_messages.specs.Views.{request_view};
    ghost use Rattle.pva_messages.specs.Written.{FitsField};
    ghost use Rattle.srv_session.specs.Calls.{AreLiving, Holds, IsOf, Handles};
    ghost use Rattle.srv_session.specs.State.{slots_of};
    ghost use Rattle.srv_session.specs.Tasks as task;
    ghost use Rattle.srv_session.specs.Tasks.{is_heard, heard_message};
    ghost use Rattle.srv_session.specs.Views.{state_of, show, HandlesControl, HasPlace, HeedsHearing, AnswersAlone};

    /// Answers an event of the client: adds the replies to the output. What it puts has this moment. The desk has the site that it
    /// had at the session's last call. After an `Err` the session has ended; the output is as it was before the event.
    pub fn handle<D: Desk>(
        &mut self,
        alloc: Global,
        event: Event,
        desk: &mut D,
        moment: Moment,
    ) -> Result<(), SessionStop>
        requires site { IsOf (D.seat desk.old).seen.base.site (state_of self.old) }
        requires holds { Holds (D.seat desk.old).log (state_of self.old) }
        ensures handles { Handles (show (D.seat desk.old) self.old) (show (D.seat desk.new) self.new) moment event result }
        ensures site { OnOk result (IsOf (D.seat desk.new).seen.base.site (state_of self.new)) }
        ensures holds { OnOk result (Holds (D.seat desk.new).log (state_of self.new)) }
        ensures living { AreLiving (D.seat desk.new).log (slots_of (state_of self.new).requests) }
    {
        desk.has_legal_history();
        match &event {
            Event::Control { command, number } => stopping(self.handle_control(*command, *number)),
            Event::Message(whole) => {
                let lent = Lent {
                    order: whole.order,
                    command: whole.command,
                    payload: whole.payload.as_slice(),
                    place: whole.place,
                };
                self.handle_message(alloc, &lent, desk, moment)
            }
        }
    }

    /// Answers a control message: an echo request. The others are passed over.
    pub fn handle_control(&mut self, command: u8, number: u32) -> Result<(), NoMemory>
        ensures { HandlesControl self.old self.new (Control command number) result }
    {
        if command == ECHO_REQUEST {
            return self.echo_control(number);
        }
        self.pass_over()
    }

    /// `handle` for a message whose payload stands elsewhere.
    pub fn handle_message<D: Desk>(
        &mut self,
        alloc: Global,
        message: &Lent<'_>,
        desk: &mut D,
        moment: Moment,
    ) -> Result<(), SessionStop>
        requires site { IsOf (D.seat desk.old).seen.base.site (state_of self.old) }
        requires holds { Holds (D.seat desk.old).log (state_of self.old) }
        ensures handles { Handles (show (D.seat desk.old) self.old) (show (D.seat desk.new) self.new) moment (Message (whole_of message.now)) result }
        ensures site { OnOk result (IsOf (D.seat desk.new).seen.base.site (state_of self.new)) }
        ensures holds { OnOk result (Holds (D.seat desk.new).log (state_of self.new)) }
        ensures living { AreLiving (D.seat desk.new).log (slots_of (state_of self.new).requests) }
    {
        self.answer_message(alloc, message, desk, moment)
    }

    /// Echoes a message, passes it over, or reads it and answers what was read.
    fn answer_message<D: Desk>(
        &mut self,
        alloc: Global,
        message: &Lent<'_>,
        desk: &mut D,
        moment: Moment,
    ) -> Result<(), SessionStop>
        requires site { IsOf (D.seat desk.old).seen.base.site (state_of self.old) }
        requires holds { Holds (D.seat desk.old).log (state_of self.old) }
        ensures { Handles (show (D.seat desk.old) self.old) (show (D.seat desk.new) self.new) moment (Message (whole_of message.now)) result }
    {
        desk.has_legal_history();
        if message.command == ECHO {
            return stopping(self.echo(message.payload));
        }
        if !self.is_heard(message.command) {
            return stopping(self.pass_over());
        }
        let request = read_request(
            alloc,
            message.order,
            message.command,
            message.payload,
            &mut self.types,
        )?;
        let answer = self.handle_request(alloc, message, &request, desk, moment);
        discard(request);
        answer
    }

    /// Whether a message of this command is heard. Before a validation was answered OK all but validations and echoes are
    /// passed over.
    fn is_heard(&self, command: u8) -> bool
        ensures { result ≡ is_heard (state_of self.now) command }
    {
        self.validated || command == VALIDATION || command == ECHO
    }

    /// Answers a message that was read.
    fn handle_request<D: Desk>(
        &mut self,
        alloc: Global,
        message: &Lent<'_>,
        request: &ToServer,
        desk: &mut D,
        moment: Moment,
    ) -> Result<(), SessionStop>
        requires site { IsOf (D.seat desk.old).seen.base.site (state_of self.old) }
        requires holds { Holds (D.seat desk.old).log (state_of self.old) }
        requires place { HasPlace (request_view request.now) (length message.now.payload.now) }
        requires fits { CanEach FitsField (request_fields (request_view request.now)) }
        ensures { HeedsHearing (D.seat desk.old) (D.seat desk.new) self.old self.new moment (heard_message (D.seat desk.old).seen.base.site (state_of self.old) (whole_of message.now) (state_of self.old).types (request_view request.now)) result }
    {
        desk.has_legal_history();
        match request {
            ToServer::Validation {
                buffer,
                registry,
                method,
                argument,
                ..
            } => stopping(self.validate(alloc, *buffer, *registry, method, argument)),
            ToServer::Echo { .. } => stopping(self.echo(message.payload)),
            ToServer::Create { channels } => stopping(self.create(channels, desk)),
            ToServer::DestroyChannel { sid, cid } => self.destroy_channel(*sid, *cid, desk),
            ToServer::Get {
                sid,
                req,
                sub,
                request,
            } => stopping(self.answer_get(alloc, *sid, *req, *sub, request, desk)),
            ToServer::Put {
                sid,
                req,
                sub,
                request,
                ..
            } => self.answer_put(alloc, message, *sid, *req, *sub, request, desk, moment),
            ToServer::DestroyRequest { sid, req } => self.destroy_request(*sid, *req, desk),
            ToServer::Cancel { .. } => stopping(self.pass_over()),
            ToServer::Message { .. } => stopping(self.pass_over()),
            ToServer::Skipped(_) => stopping(self.pass_over()),
            ToServer::PutGet {
                sid,
                req,
                sub,
                request,
                ..
            } => self.answer_put_get(alloc, message, *sid, *req, *sub, request, desk, moment),
            ToServer::GetField { sid, req, path } => {
                stopping(self.answer_field(alloc, *sid, *req, path, desk))
            }
            ToServer::Rpc {
                sid,
                req,
                sub,
                argument,
            } => stopping(self.answer_call(alloc, *sid, *req, *sub, argument, desk)),
            ToServer::Monitor {
                sid,
                req,
                sub,
                request,
                count,
            } => self.answer_monitor(alloc, *sid, *req, *sub, request, *count, desk),
        }
    }

    pub(crate) fn pass_over(&mut self) -> Result<(), NoMemory>
        ensures { AnswersAlone self.old self.new task.pass_over result }
    {
        Ok(())
    }

    fn echo_control(&mut self, number: u32) -> Result<(), NoMemory>
        ensures { AnswersAlone self.old self.new (task.echo_control number) result }
    {
        self.say_control(ECHO_RESPONSE, number)
    }

    fn echo(&mut self, payload: &[u8]) -> Result<(), NoMemory>
        ensures { AnswersAlone self.old self.new (task.echo payload.now) result }
    {
        self.say_bytes(ECHO, payload)
    }
}
