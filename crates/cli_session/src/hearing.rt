// What a client does at an event.
ghost use Rattle.std.specs.Prelude.{◌≡◌, ◌∷◌, [], true, IfOk, Ok, Err};
ghost use Rattle.std.specs.Option.{option_copied};
ghost use Rattle.pva_messages.specs.Views.{part_view, part_data, reply_view};
ghost use Rattle.cli_session.specs.Answers.{unless_own};
ghost use Rattle.cli_session.specs.Calls.{PutsWords};
ghost use Rattle.cli_session.specs.Fitting.{CanPut, part_fits, answer_fits, all_fit, reply_fits};
ghost use Rattle.cli_session.specs.Seen.{answer_view, reports_view, telling_view};
ghost use Rattle.cli_session.specs.Steps.{is_reply, type_for, read_words};

use crate::answer::{Answer, answer_of, discard};
use crate::ask::Ask;
use crate::fault::ClientFault;
use crate::report::{Report, Telling, outcome_report, type_report, update_report, value_report};
use crate::session::{Session, segment_for};
use crate::turn::Turn;
use cli_text::{PutText, put_words};
use pva_frames::{Event, Whole};
use pva_messages::{Command, Part, ToClient, read_to_client, request_of};
use pva_wire::Status;
use pvd_type::{BitSet, Name, PvType};
use pvd_value::PvValue;
use std::alloc::Global;

// Control commands (pvAccess Protocol Specification, "Control Messages").
const SET_BYTE_ORDER: u8 = 2;

const ECHO_REQUEST: u8 = 3;

/// Whether this is the command of a reply that a client awaits. All others are passed over unread.
fn is_reply(command: u8) -> bool
    ensures { result ≡ is_reply command }
{
    command == Command::Validation.byte()
        || command == Command::CreateChannel.byte()
        || command == Command::Validated.byte()
        || command == Command::Get.byte()
        || command == Command::Put.byte()
        || command == Command::PutGet.byte()
        || command == Command::Monitor.byte()
        || command == Command::GetField.byte()
        || command == Command::Rpc.byte()
}

/// An id that isn't the client's own.
fn unless_own(own: Option<u32>, id: u32) -> Option<u32>
    ensures { result ≡ unless_own own id }
{
    match own {
        Some(own) if own == id => None,
        _ => Some(id),
    }
}

/// The type of the request that a reply names.
fn type_for<'a>(own: Option<u32>, ty: &'a Option<PvType>, named: Option<u32>) -> Option<&'a PvType>
    ensures { option_copied result ≡ type_for own ty.now named }
{
    let Some(id) = named else {
        return None;
    };
    match unless_own(own, id) {
        None => ty.as_ref(),
        Some(_) => None,
    }
}

/// A part in place of one of the same type.
fn given_over(present: Part, mask: BitSet, value: PvValue) -> Part
    ensures { result ≡ record present { mask = mask; value = value } }
{
    Part {
        ty: present.ty,
        mask,
        value,
    }
}

/// What the words of a put give over a present value.
fn read_words(alloc: Global, words: &[Name], present: Option<Part>) -> Result<Part, ClientFault>
    requires { part_fits (part_view present) ≡ true }
    ensures gives { PutsWords result (read_words words.now (part_view present)) }
    ensures fits { IfOk result (λ p. CanPut (part_data p)) }
{
    let Some(present) = present else {
        return Err(ClientFault::Words(PutText::NoField(0)));
    };
    if words.is_empty() {
        discard(present);
        return Err(ClientFault::Words(PutText::NoField(0)));
    }
    let (mask, value) = put_words(alloc, &present.ty, &present.value, words)?;
    Ok(given_over(present, mask, value))
}

/// Nothing is told.
fn untold() -> Telling
    ensures { telling_view result ≡ [] }
{
    Telling {
        report: None,
        finished: false,
    }
}

impl Session {
    ghost use Rattle.cli_session.specs.Answers.{foreign_id};
    ghost use Rattle.cli_session.specs.Calls.{Reads, Takes};
    ghost use Rattle.cli_session.specs.Steps as step;
    ghost use Rattle.cli_session.specs.Views.{state_of};

    /// Goes to the next turn, and tells nothing.
    fn go_on(
        &mut self,
        alloc: Global,
        ask: &Ask,
        out: &mut Vec<u8>,
        later: &'static [Turn],
    ) -> Result<Telling, ClientFault>
        ensures takes { Takes (Ok (step.next ask.now (state_of self.old) later.entry.now)) (state_of self.new) out.old.items out.new.items result }
        ensures fits { IfOk result (λ t. all_fit (telling_view t) ≡ true) }
    {
        self.next(alloc, ask, out, later)?;
        Ok(untold())
    }

    /// The operation has ended with its last reply.
    fn finish(
        &mut self,
        out: &mut Vec<u8>,
        turn: Turn,
        report: Option<Report>,
    ) -> Result<Telling, ClientFault>
        requires { all_fit (reports_view report) ≡ true }
        ensures takes { Takes (Ok (step.finished (state_of self.old) turn (reports_view report))) (state_of self.new) out.old.items out.new.items result }
        ensures fits { IfOk result (λ t. all_fit (telling_view t) ≡ true) }
    {
        if let Err(failed) = self.end(out, turn) {
            discard(report);
            return Err(ClientFault::from(failed));
        }
        Ok(Telling {
            report,
            finished: true,
        })
    }

    /// The operation has ended with a refusal.
    fn refuse(
        &mut self,
        out: &mut Vec<u8>,
        turn: Turn,
        status: Status,
    ) -> Result<Telling, ClientFault>
        ensures takes { Takes (Ok (step.ended (state_of self.old) turn (step.refusal status ∷ []))) (state_of self.new) out.old.items out.new.items result }
        ensures fits { IfOk result (λ t. all_fit (telling_view t) ≡ true) }
    {
        if let Err(failed) = self.end(out, turn) {
            discard(status);
            return Err(ClientFault::from(failed));
        }
        Ok(Telling {
            report: Some(Report::Refused(status)),
            finished: false,
        })
    }

    /// An update has come: the last one, or it is acknowledged.
    fn update(
        &mut self,
        ask: &Ask,
        out: &mut Vec<u8>,
        turn: Turn,
        report: Option<Report>,
    ) -> Result<Telling, ClientFault>
        requires { all_fit (reports_view report) ≡ true }
        ensures takes { Takes (Ok (step.updated ask.now (state_of self.old) turn (reports_view report))) (state_of self.new) out.old.items out.new.items result }
        ensures fits { IfOk result (λ t. all_fit (telling_view t) ≡ true) }
    {
        if self.left <= 1 {
            return self.finish(out, turn, report);
        }
        self.left -= 1;
        if let Err(failed) = self.acknowledge(out, ask.operation.window()) {
            discard(report);
            return Err(ClientFault::from(failed));
        }
        Ok(Telling {
            report,
            finished: false,
        })
    }

    /// The present value of what is put has come: the words are read.
    fn put_next(
        &mut self,
        alloc: Global,
        ask: &Ask,
        out: &mut Vec<u8>,
        later: &'static [Turn],
        present: Option<Part>,
    ) -> Result<Telling, ClientFault>
        requires { part_fits (part_view present) ≡ true }
        ensures takes { Takes (step.put_next ask.now (state_of self.old) later.entry.now (step.read_words (step.words_of ask.now.operation) (part_view present))) (state_of self.new) out.old.items out.new.items result }
        ensures fits { IfOk result (λ t. all_fit (telling_view t) ≡ true) }
    {
        let part = read_words(alloc, ask.operation.words(), present)?;
        self.put = Some(part);
        self.go_on(alloc, ask, out, later)
    }

    /// Does what follows an answer.
    fn follow(
        &mut self,
        alloc: Global,
        ask: &Ask,
        out: &mut Vec<u8>,
        turn: Turn,
        later: &'static [Turn],
        answer: Answer,
    ) -> Result<Telling, ClientFault>
        requires { answer_fits (answer_view answer) ≡ true }
        ensures takes { Takes (step.after_answer ask.now (state_of self.old) turn later.entry.now (answer_view answer)) (state_of self.new) out.old.items out.new.items result }
        ensures fits { IfOk result (λ t. all_fit (telling_view t) ≡ true) }
    {
        match answer {
            Answer::Greeted(buffer) => {
                self.segment = segment_for(buffer);
                self.go_on(alloc, ask, out, later)
            }
            Answer::Accepted => self.go_on(alloc, ask, out, later),
            Answer::Created(sid) => {
                self.sid = sid;
                self.go_on(alloc, ask, out, later)
            }
            Answer::Begun(ty) => {
                self.ty = ty;
                self.go_on(alloc, ask, out, later)
            }
            Answer::Present(part) => self.put_next(alloc, ask, out, later, part),
            Answer::Value(part) => self.finish(out, turn, value_report(alloc, part)),
            Answer::Described(ty) => self.finish(out, turn, type_report(ty)),
            Answer::Outcome(value) => {
                let report = outcome_report(alloc, value)?;
                self.finish(out, turn, report)
            }
            Answer::Done => self.finish(out, turn, None),
            Answer::Update(update) => {
                let report = update_report(alloc, update)?;
                self.update(ask, out, turn, report)
            }
            Answer::Refused(status) => self.refuse(out, turn, status),
        }
    }

    /// An id of a reply that isn't the client's.
    fn foreign_id(&self, reply: &ToClient) -> Option<u32>
        ensures { result ≡ foreign_id (state_of self.now) (reply_view reply.now) }
    {
        match reply {
            ToClient::Created { cid, .. } => unless_own(self.cid, *cid),
            ToClient::Get { req, .. } => unless_own(self.req, *req),
            ToClient::Put { req, .. } => unless_own(self.req, *req),
            ToClient::PutGet { req, .. } => unless_own(self.req, *req),
            ToClient::MonitorBegun { req, .. } => unless_own(self.req, *req),
            ToClient::MonitorUpdate { req, .. } => unless_own(self.req, *req),
            ToClient::MonitorEnd { req, .. } => unless_own(self.req, *req),
            ToClient::GetField { req, .. } => unless_own(self.req, *req),
            ToClient::Rpc { req, .. } => unless_own(self.req, *req),
            ToClient::Validation { .. }
            | ToClient::Echo { .. }
            | ToClient::ChannelDestroyed { .. }
            | ToClient::Validated { .. }
            | ToClient::Message { .. }
            | ToClient::Skipped(_) => None,
        }
    }

    /// Does what follows a reply.
    fn reply(
        &mut self,
        alloc: Global,
        ask: &Ask,
        out: &mut Vec<u8>,
        turn: Turn,
        later: &'static [Turn],
        reply: ToClient,
    ) -> Result<Telling, ClientFault>
        requires { reply_fits (reply_view reply) ≡ true }
        ensures takes { Takes (step.heard_reply ask.now (state_of self.old) turn later.entry.now (reply_view reply)) (state_of self.new) out.old.items out.new.items result }
        ensures fits { IfOk result (λ t. all_fit (telling_view t) ≡ true) }
    {
        if let Some(id) = self.foreign_id(&reply) {
            discard(reply);
            return Err(ClientFault::UnknownReply(id));
        }
        match answer_of(turn, reply) {
            Ok(answer) => self.follow(alloc, ask, out, turn, later, answer),
            Err(fault) => Err(fault),
        }
    }

    /// Reads a reply. What its descriptions define is known from then on.
    fn read(&mut self, alloc: Global, whole: &Whole) -> Result<ToClient, ClientFault>
        ensures reads { Reads whole.now (state_of self.old) (state_of self.new) result }
        ensures fits { IfOk result (λ r. reply_fits (reply_view r) ≡ true) }
    {
        let known = type_for(self.req, &self.ty, request_of(whole));
        Ok(read_to_client(alloc, whole, &mut self.types, known)?)
    }

    /// Where the server has told to use another byte order, that of its next message is used.
    fn turn_order(&mut self, whole: &Whole)
        ensures { state_of self.new ≡ step.in_order (state_of self.old) whole.now }
    {
        if self.order_told {
            self.order = whole.order;
        }
        self.order_told = false;
    }

    /// Does what follows a message.
    fn hear_message(
        &mut self,
        alloc: Global,
        ask: &Ask,
        out: &mut Vec<u8>,
        turn: Turn,
        later: &'static [Turn],
        whole: &Whole,
    ) -> Result<Telling, ClientFault>
        ensures takes { Takes (step.heard_whole ask.now (step.in_order (state_of self.old) whole.now) turn later.entry.now whole.now) (state_of self.new) out.old.items out.new.items result }
        ensures fits { IfOk result (λ t. all_fit (telling_view t) ≡ true) }
    {
        self.turn_order(whole);
        if !is_reply(whole.command) {
            return Ok(untold());
        }
        let reply = self.read(alloc, whole)?;
        self.reply(alloc, ask, out, turn, later, reply)
    }

    /// Does what follows a control message.
    fn hear_control(
        &mut self,
        out: &mut Vec<u8>,
        command: u8,
        number: u32,
    ) -> Result<Telling, ClientFault>
        ensures takes { Takes (Ok (step.heard_control (state_of self.old) command number)) (state_of self.new) out.old.items out.new.items result }
        ensures fits { IfOk result (λ t. all_fit (telling_view t) ≡ true) }
    {
        if command == SET_BYTE_ORDER {
            self.order_told = true;
            return Ok(untold());
        }
        if command == ECHO_REQUEST {
            self.echo(out, number)?;
            return Ok(untold());
        }
        Ok(untold())
    }

    /// Does what follows an event, and says what it tells.
    pub(crate) fn hear(
        &mut self,
        alloc: Global,
        ask: &Ask,
        out: &mut Vec<u8>,
        event: &Event,
    ) -> Result<Telling, ClientFault>
        ensures takes { Takes (step.step ask.now (state_of self.old) event.now) (state_of self.new) out.old.items out.new.items result }
        ensures fits { IfOk result (λ t. all_fit (telling_view t) ≡ true) }
    {
        let Some((turn, later)) = self.turns.split_first() else {
            return Ok(untold());
        };
        match event {
            Event::Control { command, number } => self.hear_control(out, *command, *number),
            Event::Message(whole) => self.hear_message(alloc, ask, out, *turn, later, whole),
        }
    }
}
