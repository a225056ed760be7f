// Requests that begin and end (pvAccess Protocol Specification, "Application Messages").
use crate::asking::{is_call, root_for, type_on, unfit};
use crate::session::Session;
use crate::subcommand::ends;
use chan_table::{Ask, AskKind, TableAnswer};
use desk_api::{Channel, Desk};
use pvd_request::{Request, RequestFault, read_request};
use pvd_type::{BitSet, Name, NoMemory, PvType};
use pvd_value::PvValue;
use std::alloc::Global;

/// What a message needs to know of the request that it is about.
#[derive(Clone, Copy)]
pub(crate) struct Found {
    pub(crate) channel: Channel,
    pub(crate) atomic: Option<bool>,
}

impl Session {
    ghost use Rattle.std.specs.Prelude.{◌≡◌, ◌≢◌, ◌++◌, false, true, IfErr, IfNone, IfSome, IsTrue, None, OnOk, Some, codes, option_map};
    ghost use Rattle.std.specs.FinMap.{get as at};
    ghost use Rattle.chan_table.specs.Tables.{IsReady, Refuses};
    ghost use Rattle.std.specs.FinSet as set;
    ghost use Rattle.pvd_value.specs.Fits.{fits_of};
    ghost use Rattle.pvd_value.specs.View.{view};
    ghost use Rattle.pva_messages.specs.Subcommands.{begins};
    ghost use Rattle.pva_messages.specs.Views.{valued_view};
    ghost use Rattle.chan_table.specs.declared.ask.AskKind.TheVariants as kinds;
    ghost use Rattle.desk_api.specs.Sites.{is_channel, has_values};
    ghost use Rattle.desk_api.specs.Types.{type_of};
    ghost use Rattle.srv_session.specs.State.{channel_at, is_on};
    ghost use Rattle.srv_session.specs.Calls.{IsOf};
    ghost use Rattle.srv_session.specs.Replies.{answered, is_call, outcome, refused, said};
    ghost use Rattle.srv_session.specs.Rows.{behind};
    ghost use Rattle.srv_session.specs.Tasks as task;
    ghost use Rattle.srv_session.specs.Tasks.{beginning, beginning_as, beginning_on, nothing_wanted, unfit, wanted_for, found_for};
    ghost use Rattle.srv_session.specs.Views.{state_of, output_of, AnswersAlone, AnswersBeside, BeginsOn, BeginsCall, IsOkAlone, MayRefuse, RefusesFault, RefusesPlace, RepliesWith, IsFound};

    /// Says why a message about a request is refused.
    pub(crate) fn refuse(
        &mut self,
        kind: AskKind,
        req: u32,
        sub: u8,
        text: &str,
    ) -> Result<(), NoMemory>
        requires { MayRefuse kind sub }
        ensures { AnswersAlone self.old self.new (task.refuse (refused kind req sub text.now)) result }
    {
        self.say_answer(kind, req, sub, Some(text))
    }

    /// Begins a request on the channel that is open under this id.
    pub(crate) fn begin<D: Desk>(
        &mut self,
        alloc: Global,
        kind: AskKind,
        sid: u32,
        req: u32,
        sub: u8,
        request: &Option<(PvType, PvValue)>,
        desk: &D,
    ) -> Result<(), NoMemory>
        requires site { IsOf (D.seat desk.now).seen.base.site (state_of self.old) }
        requires begins { begins sub ≡ true }
        requires fits { IfSome request.now (λ r. fits_of 16 (view r.1) r.0 ≡ true) }
        ensures { AnswersBeside (D.seat desk.now) self.old self.new (beginning (D.seat desk.now).seen.base.site (state_of self.old) kind req sub sid (valued_view request.now) (channel_at (state_of self.old).channels sid)) result }
    {
        let Some(channel) = self.channel_at(sid) else {
            return self.refuse_channel(kind, req, sub);
        };
        match self.make_room(req) {
            Ok(()) => self.begin_on(alloc, kind, sid, channel, req, sub, request, desk),
            Err(answer) => self.refuse_place(kind, req, sub, answer),
        }
    }

    /// Takes the memory for a request of this id, or says why it can't begin.
    pub(crate) fn make_room(&mut self, req: u32) -> Result<(), TableAnswer>
        ensures state { state_of self.new ≡ state_of self.old }
        ensures output { output_of self.new ≡ output_of self.old }
        ensures ready { OnOk result (IsReady self.new.table req) }
        ensures refused { IfErr result (Refuses self.old.table req) }
    {
        self.table.reserve(req)
    }

    /// Says that the channel of a request that would begin isn't open, whatever else could be said.
    pub(crate) fn refuse_channel(
        &mut self,
        kind: AskKind,
        req: u32,
        sub: u8,
    ) -> Result<(), NoMemory>
        requires { MayRefuse kind sub }
        ensures { AnswersAlone self.old self.new (task.refuse (refused kind req sub (codes "unknown channel"))) result }
    {
        self.refuse(kind, req, sub, "unknown channel")
    }

    /// Says why there is no place for a request.
    pub(crate) fn refuse_place(
        &mut self,
        kind: AskKind,
        req: u32,
        sub: u8,
        answer: TableAnswer,
    ) -> Result<(), NoMemory>
        requires { MayRefuse kind sub }
        ensures { RefusesPlace self.old self.new kind req sub answer result }
    {
        match answer {
            TableAnswer::InUse => self.refuse(kind, req, sub, "request id in use"),
            TableAnswer::Full(_) => self.refuse(kind, req, sub, "too many requests"),
            TableAnswer::NoMemory => Err(NoMemory),
        }
    }

    /// Begins a request on this channel, for which there is room.
    fn begin_on<D: Desk>(
        &mut self,
        alloc: Global,
        kind: AskKind,
        sid: u32,
        channel: Channel,
        req: u32,
        sub: u8,
        request: &Option<(PvType, PvValue)>,
        desk: &D,
    ) -> Result<(), NoMemory>
        requires channel { IsTrue (is_channel (D.seat desk.now).seen.base.site channel) }
        requires room { IsReady self.old.table req }
        requires begins { begins sub ≡ true }
        requires fits { IfSome request.now (λ r. fits_of 16 (view r.1) r.0 ≡ true) }
        ensures { AnswersBeside (D.seat desk.now) self.old self.new (beginning_on (D.seat desk.now).seen.base.site kind req sub sid (valued_view request.now) channel (unfit kind channel)) result }
    {
        match unfit(kind, channel) {
            Some(text) => self.refuse(kind, req, sub, text),
            None => self.begin_fit(alloc, kind, sid, channel, req, sub, request, desk),
        }
    }

    /// Begins a request on a channel that is fit for it.
    fn begin_fit<D: Desk>(
        &mut self,
        alloc: Global,
        kind: AskKind,
        sid: u32,
        channel: Channel,
        req: u32,
        sub: u8,
        request: &Option<(PvType, PvValue)>,
        desk: &D,
    ) -> Result<(), NoMemory>
        requires channel { IsTrue (is_channel (D.seat desk.now).seen.base.site channel) }
        requires fit { unfit kind channel ≡ None }
        requires room { IsReady self.old.table req }
        requires begins { begins sub ≡ true }
        requires fits { IfSome request.now (λ r. fits_of 16 (view r.1) r.0 ≡ true) }
        ensures { AnswersBeside (D.seat desk.now) self.old self.new (beginning_as kind req sub sid channel (wanted_for kind (type_of (D.seat desk.now).seen.base.site channel) (valued_view request.now))) result }
    {
        if is_call(kind) {
            return self.begin_call(alloc, kind, sid, req, sub);
        }
        self.begin_valued(alloc, kind, sid, channel, req, sub, request, desk)
    }

    /// Begins a call of the service. It selects nothing.
    fn begin_call(
        &mut self,
        alloc: Global,
        kind: AskKind,
        sid: u32,
        req: u32,
        sub: u8,
    ) -> Result<(), NoMemory>
        requires room { IsReady self.old.table req }
        requires call { is_call kind ≡ true }
        requires begins { begins sub ≡ true }
        ensures { BeginsCall self.old self.new kind req sub sid result }
    {
        self.say_answer(kind, req, sub, None)?;
        let ask = Ask {
            sid,
            kind,
            mask: BitSet::new(alloc),
            atomic: None,
            sub: None,
            window: None,
            started: false,
        };
        self.table.add(req, ask);
        Ok(())
    }

    /// Begins a request for values on this channel, which has some, and for which there is room.
    fn begin_valued<D: Desk>(
        &mut self,
        alloc: Global,
        kind: AskKind,
        sid: u32,
        channel: Channel,
        req: u32,
        sub: u8,
        request: &Option<(PvType, PvValue)>,
        desk: &D,
    ) -> Result<(), NoMemory>
        requires channel { IsTrue (is_channel (D.seat desk.now).seen.base.site channel) }
        requires valued { IsTrue (has_values channel) }
        requires room { IsReady self.old.table req }
        requires call { is_call kind ≡ false }
        requires begins { begins sub ≡ true }
        requires fits { IfSome request.now (λ r. fits_of 16 (view r.1) r.0 ≡ true) }
        ensures { AnswersBeside (D.seat desk.now) self.old self.new (beginning_as kind req sub sid channel (wanted_for kind (type_of (D.seat desk.now).seen.base.site channel) (valued_view request.now))) result }
    {
        let ty = type_on(desk, channel);
        match read_request(alloc, ty, request.as_ref(), root_for(kind)) {
            Ok(wanted) => self.begin_as(kind, sid, req, sub, ty, wanted),
            Err(fault) => self.refuse_fault(alloc, kind, req, sub, &fault),
        }
    }

    /// Says why a request structure is refused.
    pub(crate) fn refuse_fault(
        &mut self,
        alloc: Global,
        kind: AskKind,
        req: u32,
        sub: u8,
        fault: &RequestFault,
    ) -> Result<(), NoMemory>
        requires { MayRefuse kind sub }
        ensures { RefusesFault self.old self.new kind req sub fault.now result }
    {
        match fault {
            RequestFault::NothingSelected => self.refuse(kind, req, sub, "nothing selected"),
            RequestFault::BadOption(option) => self.refuse_option(alloc, kind, req, sub, option),
            RequestFault::NoMemory => Err(NoMemory),
        }
    }

    fn refuse_option(
        &mut self,
        alloc: Global,
        kind: AskKind,
        req: u32,
        sub: u8,
        option: &Name,
    ) -> Result<(), NoMemory>
        requires { MayRefuse kind sub }
        ensures { AnswersAlone self.old self.new (task.refuse (refused kind req sub (codes "bad option " ++ option.now))) result }
    {
        let mut text = String::new(alloc);
        text.push_str("bad option ")?;
        text.push_str(option.as_str())?;
        self.refuse(kind, req, sub, &text)
    }

    /// Begins a request for this, on a channel of this type.
    fn begin_as(
        &mut self,
        kind: AskKind,
        sid: u32,
        req: u32,
        sub: u8,
        ty: &PvType,
        wanted: Request,
    ) -> Result<(), NoMemory>
        requires room { IsReady self.old.table req }
        requires call { is_call kind ≡ false }
        requires begins { begins sub ≡ true }
        ensures { BeginsOn self.old self.new kind req sub sid ty.now wanted result }
    {
        self.say_begun(kind, req, sub, ty)?;
        let ask = Ask {
            sid,
            kind,
            mask: wanted.mask,
            atomic: wanted.atomic,
            sub: None,
            window: None,
            started: false,
        };
        self.table.add(req, ask);
        Ok(())
    }

    /// The request that a message of this kind is about, where it began by one of this kind on the channel of this id; or why
    /// the message is refused.
    pub(crate) fn find(&self, kind: AskKind, sid: u32, req: u32) -> Result<Found, &'static str>
        ensures { IsFound result (found_for (state_of self.now) kind sid req) }
    {
        let Some(channel) = self.channel_at(sid) else {
            return Err("unknown request");
        };
        let Some(ask) = self.table.ask(req) else {
            return Err("unknown request");
        };
        if ask.sid != sid {
            return Err("unknown request");
        }
        if ask.kind != kind {
            return Err("wrong phase");
        }
        Ok(Found {
            channel,
            atomic: ask.atomic,
        })
    }

    /// Ends a request behind a message that asks for that.
    pub(crate) fn end_behind(&mut self, req: u32, sub: u8)
        ensures state { state_of self.new ≡ record (state_of self.old) { requests = behind req sub (state_of self.old).requests } }
        ensures output { output_of self.new ≡ output_of self.old }
    {
        if ends(sub) {
            self.table.remove(req);
        }
    }

    /// Answers a message about a request: OK, or the text of the problem, and nothing beside. Bit 10 then ends the request.
    pub(crate) fn say_outcome(
        &mut self,
        kind: AskKind,
        req: u32,
        sub: u8,
        problem: Option<&str>,
    ) -> Result<(), NoMemory>
        requires alone { IfNone problem (IsOkAlone kind sub) }
        requires refusal { MayRefuse kind sub }
        ensures { RepliesWith self.old self.new req sub (said (answered kind req sub (outcome (option_map (λ t. t.now) problem.entry)))) result }
    {
        self.say_answer(kind, req, sub, problem)?;
        self.end_behind(req, sub);
        Ok(())
    }

    /// Whether a request is on this channel.
    pub(crate) fn is_on(&self, sid: u32, req: u32) -> bool
        ensures { result ≡ is_on sid (at (state_of self.now).requests req) }
    {
        match self.table.ask(req) {
            Some(ask) => ask.sid == sid,
            None => false,
        }
    }
}
