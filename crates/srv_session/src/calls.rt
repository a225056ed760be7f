// Calls of the service (pvAccess Protocol Specification, "Channel RPC").
ghost use Rattle.std.specs.Prelude.{◌≡◌, ◌≤◌, ◌<◌, ◌+◌, if◌then◌else◌, IfOk, IfSome, length, map, pos, true};
ghost use Rattle.pvd_value.specs.Fits.{fits_of};
ghost use Rattle.pvd_value.specs.View.{view};
ghost use Rattle.pva_messages.specs.Views.{valued_view};
ghost use Rattle.rpc_services.specs.Answers.{channels_tree, channels_data, count_shown, info_tree, snapshot_tree};
ghost use Rattle.desk_api.specs.Sites.{names_of};
ghost use Rattle.srv_session.specs.Rows.{rows_data};
ghost use Rattle.srv_session.specs.Tasks.{call_refusal, info_of, operation_in};

use crate::session::{Session, discard};
use chan_table::AskKind;
use desk_api::{Desk, RecRow};
use pva_messages::begins;
use pvd_type::{Name, NoMemory, PvType};
use pvd_value::PvValue;
use rpc_services::{RpcOp, RpcRefusal, channels, info, operation, table};
use std::alloc::Global;

/// Why a call asks for nothing, in words.
fn call_refusal(refusal: RpcRefusal) -> &'static str
    ensures { result.now ≡ call_refusal refusal }
{
    match refusal {
        RpcRefusal::NotNturi => "not an NTURI",
        RpcRefusal::UnknownOperation => "unknown operation",
    }
}

/// What a call asks for; without an argument nothing.
fn operation_in(argument: &Option<(PvType, PvValue)>) -> Result<RpcOp, RpcRefusal>
    requires { IfSome argument.now (λ r. fits_of 16 (view r.1) r.0 ≡ true) }
    ensures { result ≡ operation_in (valued_view argument.now) }
{
    match argument {
        Some(argument) => operation(argument),
        None => Err(RpcRefusal::NotNturi),
    }
}

/// The same count, or the greatest one below it.
fn count_of(count: usize) -> u32
    ensures { count_shown result ≡ count_shown count }
{
    if count > i32::MAX as usize {
        return i32::MAX as u32;
    }
    count as u32
}

/// The names of the desk's channels.
fn channels_of<D: Desk>(alloc: Global, desk: &D) -> Result<(PvType, PvValue), NoMemory>
    ensures tree { IfOk result (λ r. r.0 ≡ channels_tree) }
    ensures value { IfOk result (λ r. view r.1 ≡ channels_data (names_of (D.seat desk.now).seen.base.site)) }
    ensures fits { IfOk result (λ r. fits_of 16 (view r.1) r.0 ≡ true) }
{
    let names = desk.names(alloc)?;
    channels(alloc, &names)
}

/// How many records and groups the desk has.
fn info_on<D: Desk>(alloc: Global, desk: &D) -> Result<(PvType, PvValue), NoMemory>
    ensures tree { IfOk result (λ r. r.0 ≡ info_tree) }
    ensures value { IfOk result (λ r. view r.1 ≡ info_of (D.seat desk.now).seen.base.site) }
    ensures fits { IfOk result (λ r. fits_of 16 (view r.1) r.0 ≡ true) }
{
    info(alloc, count_of(desk.records()), count_of(desk.groups()))
}

// The columns of a table of records.

fn names_in(alloc: Global, rows: &[RecRow]) -> Result<Vec<Name>, NoMemory>
    ensures { IfOk result (λ xs. xs.items ≡ map (λ r. r.name) rows.now) }
{
    let mut names = Vec::with_capacity(alloc, rows.len())?;
    for row in rows {
        names.push(row.name.clone_in(alloc)?)?;
    }
    Ok(names)
}

fn texts_in(alloc: Global, rows: &[RecRow]) -> Result<Vec<Name>, NoMemory>
    ensures { IfOk result (λ xs. xs.items ≡ map (λ r. r.text) rows.now) }
{
    let mut texts = Vec::with_capacity(alloc, rows.len())?;
    for row in rows {
        texts.push(row.text.clone_in(alloc)?)?;
    }
    Ok(texts)
}

fn severities_in(alloc: Global, rows: &[RecRow]) -> Result<Vec<i32>, NoMemory>
    ensures { IfOk result (λ xs. xs.items ≡ map (λ r. pos r.severity) rows.now) }
{
    let severities = rows.iter().map(|row| i32::from(row.severity));
    Ok(severities.collect(alloc)?)
}

fn seconds_in(alloc: Global, rows: &[RecRow]) -> Result<Vec<i64>, NoMemory>
    ensures { IfOk result (λ xs. xs.items ≡ map (λ r. r.moment.seconds) rows.now) }
{
    let seconds = rows.iter().map(|row| row.moment.seconds());
    Ok(seconds.collect(alloc)?)
}

fn nanoseconds_in(alloc: Global, rows: &[RecRow]) -> Result<Vec<i32>, NoMemory>
    ensures { IfOk result (λ xs. xs.items ≡ map (λ r. pos r.moment.nanoseconds) rows.now) }
{
    let nanoseconds = rows.iter().map(|row| row.moment.nanoseconds() as i32);
    Ok(nanoseconds.collect(alloc)?)
}

/// The table of these rows.
fn table_of(alloc: Global, rows: &[RecRow]) -> Result<(PvType, PvValue), NoMemory>
    ensures tree { IfOk result (λ r. r.0 ≡ snapshot_tree) }
    ensures value { IfOk result (λ r. view r.1 ≡ rows_data rows.now) }
    ensures fits { IfOk result (λ r. fits_of 16 (view r.1) r.0 ≡ true) }
{
    let names = names_in(alloc, rows)?;
    let texts = texts_in(alloc, rows)?;
    table_with(alloc, rows, &names, &texts)
}

/// The table of these rows, whose names and texts these are.
fn table_with(
    alloc: Global,
    rows: &[RecRow],
    names: &[Name],
    texts: &[Name],
) -> Result<(PvType, PvValue), NoMemory>
    requires names { names.now ≡ map (λ r. r.name) rows.now }
    requires texts { texts.now ≡ map (λ r. r.text) rows.now }
    ensures tree { IfOk result (λ r. r.0 ≡ snapshot_tree) }
    ensures value { IfOk result (λ r. view r.1 ≡ rows_data rows.now) }
    ensures fits { IfOk result (λ r. fits_of 16 (view r.1) r.0 ≡ true) }
{
    let severities = severities_in(alloc, rows)?;
    let seconds = seconds_in(alloc, rows)?;
    let nanoseconds = nanoseconds_in(alloc, rows)?;
    table(alloc, names, texts, &severities, &seconds, &nanoseconds)
}

impl Session {
    ghost use Rattle.std.specs.Prelude.{false, Ok};
    ghost use Rattle.pva_messages.specs.Subcommands.{begins};
    ghost use Rattle.srv_session.specs.Calls.{IsOf};
    ghost use Rattle.srv_session.specs.Replies.{called, said};
    ghost use Rattle.srv_session.specs.Tasks as task;
    ghost use Rattle.srv_session.specs.Tasks.{asked_call, called_for};
    ghost use Rattle.srv_session.specs.Views.{state_of, AnswersAnytime, AnswersBeside, RepliesWith};

    /// Answers a message of the command Rpc.
    pub(crate) fn answer_call<D: Desk>(
        &mut self,
        alloc: Global,
        sid: u32,
        req: u32,
        sub: u8,
        argument: &Option<(PvType, PvValue)>,
        desk: &mut D,
    ) -> Result<(), NoMemory>
        requires site { IsOf (D.seat desk.old).seen.base.site (state_of self.old) }
        requires fits { IfSome argument.now (λ r. fits_of 16 (view r.1) r.0 ≡ true) }
        ensures { AnswersAnytime (D.seat desk.old) (D.seat desk.new) self.old self.new (asked_call (D.seat desk.old).seen.base.site (state_of self.old) sid req sub (valued_view argument.now)) result }
    {
        desk.has_legal_history();
        if begins(sub) {
            return self.begin(alloc, AskKind::Rpc, sid, req, sub, argument, desk);
        }
        match self.find(AskKind::Rpc, sid, req) {
            Ok(_found) => self.call(alloc, req, sub, operation_in(argument), desk),
            Err(text) => self.refuse(AskKind::Rpc, req, sub, text),
        }
    }

    /// Answers a call that asks for this.
    fn call<D: Desk>(
        &mut self,
        alloc: Global,
        req: u32,
        sub: u8,
        asked: Result<RpcOp, RpcRefusal>,
        desk: &mut D,
    ) -> Result<(), NoMemory>
        requires { begins sub ≡ false }
        ensures { AnswersAnytime (D.seat desk.old) (D.seat desk.new) self.old self.new (called_for (D.seat desk.old).seen.base.site req sub asked) result }
    {
        desk.has_legal_history();
        match asked {
            Ok(op) => self.call_for(alloc, req, sub, op, desk),
            Err(refusal) => self.refuse_behind(AskKind::Rpc, req, sub, call_refusal(refusal)),
        }
    }

    /// Answers a call of this operation.
    fn call_for<D: Desk>(
        &mut self,
        alloc: Global,
        req: u32,
        sub: u8,
        op: RpcOp,
        desk: &mut D,
    ) -> Result<(), NoMemory>
        requires { begins sub ≡ false }
        ensures { AnswersAnytime (D.seat desk.old) (D.seat desk.new) self.old self.new (called_for (D.seat desk.old).seen.base.site req sub (Ok op)) result }
    {
        desk.has_legal_history();
        match op {
            RpcOp::Channels => self.tell_channels(alloc, req, sub, desk),
            RpcOp::Info => self.tell_info(alloc, req, sub, desk),
            RpcOp::Snapshot => self.tell_snapshot(alloc, req, sub, desk),
        }
    }

    fn tell_channels<D: Desk>(
        &mut self,
        alloc: Global,
        req: u32,
        sub: u8,
        desk: &D,
    ) -> Result<(), NoMemory>
        requires { begins sub ≡ false }
        ensures { AnswersBeside (D.seat desk.now) self.old self.new (task.respond req sub (called req sub channels_tree (channels_data (names_of (D.seat desk.now).seen.base.site)))) result }
    {
        let told = channels_of(alloc, desk)?;
        self.say_told(req, sub, told)
    }

    fn tell_info<D: Desk>(
        &mut self,
        alloc: Global,
        req: u32,
        sub: u8,
        desk: &D,
    ) -> Result<(), NoMemory>
        requires { begins sub ≡ false }
        ensures { AnswersBeside (D.seat desk.now) self.old self.new (task.respond req sub (called req sub info_tree (info_of (D.seat desk.now).seen.base.site))) result }
    {
        let told = info_on(alloc, desk)?;
        self.say_told(req, sub, told)
    }

    /// Answers a call with this value. Bit 10 then ends the request.
    fn say_told(&mut self, req: u32, sub: u8, told: (PvType, PvValue)) -> Result<(), NoMemory>
        requires sub { begins sub ≡ false }
        requires fits { fits_of 16 (view told.1) told.0 ≡ true }
        ensures { RepliesWith self.old self.new req sub (said (called req sub told.0 (view told.1))) result }
    {
        let written = self.say_result(req, sub, &told.0, &told.1);
        discard(told);
        written?;
        self.end_behind(req, sub);
        Ok(())
    }

    fn tell_snapshot<D: Desk>(
        &mut self,
        alloc: Global,
        req: u32,
        sub: u8,
        desk: &mut D,
    ) -> Result<(), NoMemory>
        requires { begins sub ≡ false }
        ensures { AnswersAnytime (D.seat desk.old) (D.seat desk.new) self.old self.new (task.snapshot req sub) result }
    {
        let rows = desk.snapshot(alloc)?;
        let told = table_of(alloc, &rows)?;
        self.say_told(req, sub, told)
    }
}
