// What a reply is to the turn that awaits one.
ghost use Rattle.std.specs.Prelude.{◌≡◌, true, IfOk};
ghost use Rattle.pva_messages.specs.Subcommands.{carries};
ghost use Rattle.pva_messages.specs.Views.{part_view, update_view, valued_view, reply_view};
ghost use Rattle.cli_session.specs.Answers as rows;
ghost use Rattle.cli_session.specs.Fitting.{part_fits, update_fits, result_fits, answer_fits, reply_fits};
ghost use Rattle.cli_session.specs.Seen.{answer_view, answered_view};

use crate::fault::ClientFault;
use crate::turn::Turn;
use pva_messages::{Command, Part, ToClient, begins};
use pva_wire::{Status, StatusKind};
use pvd_type::{BitSet, PvType};
use pvd_value::PvValue;

/// What a reply is.
#[derive(Drop)]
pub(crate) enum Answer {
    /// The server's greeting, with the size of its buffer in bytes.
    Greeted(u32),
    /// OK, and nothing more.
    Accepted,
    /// The channel, with the server's id.
    Created(u32),
    /// A request, with the type of its channel.
    Begun(Option<PvType>),
    /// The present value of what is put.
    Present(Option<Part>),
    /// The last reply of a get or a put-get.
    Value(Option<Part>),
    /// The type that was asked for.
    Described(Option<PvType>),
    /// The result of a call.
    Outcome(Option<(PvType, PvValue)>),
    /// A last reply that brings nothing.
    Done,
    /// An update of a monitor, and the set of what changed more than once.
    Update(Option<(Part, BitSet)>),
    /// The status ERROR or FATAL.
    Refused(Status),
}

/// Lets a value go in a function of its own, since its many variants would else be let go one by one in the caller's proof.
pub(crate) fn discard<T: Drop>(_value: T) {}

/// Whether the status is OK or WARNING.
fn carries(status: &Status) -> bool
    ensures { result ≡ carries status.now }
{
    match status.kind {
        StatusKind::Good | StatusKind::Warning => true,
        StatusKind::Error | StatusKind::Fatal => false,
    }
}

/// An answer, where its status is OK or WARNING.
fn unless_refused(status: Status, answer: Answer) -> Result<Answer, ClientFault>
    requires { carries status ≡ true → answer_fits (answer_view answer) ≡ true }
    ensures answer { answered_view result ≡ rows.unless_refused status (answer_view answer) }
    ensures fits { IfOk result (λ a. answer_fits (answer_view a) ≡ true) }
{
    if carries(&status) {
        return Ok(answer);
    }
    discard(answer);
    Ok(Answer::Refused(status))
}

/// A reply to a beginning, which has bit 08.
fn at_beginning(command: u8, sub: u8, status: Status, answer: Answer) -> Result<Answer, ClientFault>
    requires { answer_fits (answer_view answer) ≡ true }
    ensures answer { answered_view result ≡ rows.at_beginning command sub status (answer_view answer) }
    ensures fits { IfOk result (λ a. answer_fits (answer_view a) ≡ true) }
{
    if begins(sub) {
        return unless_refused(status, answer);
    }
    discard(answer);
    Err(ClientFault::WrongPhase(command))
}

/// A reply that has to have this subcommand.
fn at_sub(
    command: u8,
    wanted: u8,
    sub: u8,
    status: Status,
    answer: Answer,
) -> Result<Answer, ClientFault>
    requires { sub ≡ wanted → carries status ≡ true → answer_fits (answer_view answer) ≡ true }
    ensures answer { answered_view result ≡ rows.at_sub command wanted sub status (answer_view answer) }
    ensures fits { IfOk result (λ a. answer_fits (answer_view a) ≡ true) }
{
    if sub == wanted {
        return unless_refused(status, answer);
    }
    discard(answer);
    Err(ClientFault::WrongPhase(command))
}

/// A reply to another message than the one that awaits it.
fn wrong(turn: Turn, command: u8) -> Result<Answer, ClientFault>
    ensures answer { answered_view result ≡ rows.wrong turn command }
    ensures fits { IfOk result (λ a. answer_fits (answer_view a) ≡ true) }
{
    Err(ClientFault::WrongCommand(turn.awaited(), command))
}

fn validation_answer(turn: Turn, buffer: u32) -> Result<Answer, ClientFault>
    ensures answer { answered_view result ≡ rows.validation_answer turn buffer }
    ensures fits { IfOk result (λ a. answer_fits (answer_view a) ≡ true) }
{
    match turn {
        Turn::Greeting => Ok(Answer::Greeted(buffer)),
        _ => wrong(turn, Command::Validation.byte()),
    }
}

/// A reply without a subcommand, whose command one turn alone awaits.
fn at_command(
    turn: Turn,
    command: u8,
    status: Status,
    answer: Answer,
) -> Result<Answer, ClientFault>
    requires { answer_fits (answer_view answer) ≡ true }
    ensures answer { answered_view result ≡ rows.at_command turn command status (answer_view answer) }
    ensures fits { IfOk result (λ a. answer_fits (answer_view a) ≡ true) }
{
    if turn.awaited() == command {
        return unless_refused(status, answer);
    }
    discard(answer);
    wrong(turn, command)
}

fn get_answer(
    turn: Turn,
    sub: u8,
    status: Status,
    ty: Option<PvType>,
    part: Option<Part>,
) -> Result<Answer, ClientFault>
    requires { part_fits (part_view part) ≡ true }
    ensures answer { answered_view result ≡ rows.get_answer turn sub status ty (part_view part) }
    ensures fits { IfOk result (λ a. answer_fits (answer_view a) ≡ true) }
{
    let command = Command::Get.byte();
    match turn {
        Turn::BeginGet => {
            discard(part);
            at_beginning(command, sub, status, Answer::Begun(ty))
        }
        Turn::Get => {
            discard(ty);
            at_sub(command, 0x00, sub, status, Answer::Value(part))
        }
        _ => {
            discard((status, ty, part));
            wrong(turn, command)
        }
    }
}

fn put_answer(
    turn: Turn,
    sub: u8,
    status: Status,
    ty: Option<PvType>,
    part: Option<Part>,
) -> Result<Answer, ClientFault>
    requires { part_fits (part_view part) ≡ true }
    ensures answer { answered_view result ≡ rows.put_answer turn sub status ty (part_view part) }
    ensures fits { IfOk result (λ a. answer_fits (answer_view a) ≡ true) }
{
    let command = Command::Put.byte();
    match turn {
        Turn::BeginPut => {
            discard(part);
            at_beginning(command, sub, status, Answer::Begun(ty))
        }
        Turn::ReadBack => {
            discard(ty);
            at_sub(command, 0x40, sub, status, Answer::Present(part))
        }
        Turn::Put => {
            discard((ty, part));
            at_sub(command, 0x00, sub, status, Answer::Done)
        }
        _ => {
            discard((status, ty, part));
            wrong(turn, command)
        }
    }
}

fn put_get_answer(
    turn: Turn,
    sub: u8,
    status: Status,
    got: Option<PvType>,
    part: Option<Part>,
) -> Result<Answer, ClientFault>
    requires { part_fits (part_view part) ≡ true }
    ensures answer { answered_view result ≡ rows.put_get_answer turn sub status got (part_view part) }
    ensures fits { IfOk result (λ a. answer_fits (answer_view a) ≡ true) }
{
    let command = Command::PutGet.byte();
    match turn {
        Turn::BeginPutGet => {
            discard(part);
            at_beginning(command, sub, status, Answer::Begun(got))
        }
        Turn::PutGet => {
            discard(got);
            at_sub(command, 0x00, sub, status, Answer::Value(part))
        }
        _ => {
            discard((status, got, part));
            wrong(turn, command)
        }
    }
}

fn monitor_begun_answer(
    turn: Turn,
    sub: u8,
    status: Status,
    ty: Option<PvType>,
) -> Result<Answer, ClientFault>
    ensures answer { answered_view result ≡ rows.monitor_begun_answer turn sub status ty }
    ensures fits { IfOk result (λ a. answer_fits (answer_view a) ≡ true) }
{
    let command = Command::Monitor.byte();
    match turn {
        Turn::BeginMonitor => at_beginning(command, sub, status, Answer::Begun(ty)),
        Turn::Updates => Err(ClientFault::WrongPhase(command)),
        _ => wrong(turn, command),
    }
}

fn monitor_update_answer(
    turn: Turn,
    sub: u8,
    update: Option<(Part, BitSet)>,
) -> Result<Answer, ClientFault>
    requires { update_fits (update_view update) ≡ true }
    ensures answer { answered_view result ≡ rows.monitor_update_answer turn sub (update_view update) }
    ensures fits { IfOk result (λ a. answer_fits (answer_view a) ≡ true) }
{
    let command = Command::Monitor.byte();
    match turn {
        Turn::BeginMonitor => {
            discard(update);
            Err(ClientFault::WrongPhase(command))
        }
        Turn::Updates if sub == 0x00 => Ok(Answer::Update(update)),
        Turn::Updates => {
            discard(update);
            Err(ClientFault::WrongPhase(command))
        }
        _ => {
            discard(update);
            wrong(turn, command)
        }
    }
}

fn monitor_end_answer(turn: Turn, sub: u8, status: Status) -> Result<Answer, ClientFault>
    ensures answer { answered_view result ≡ rows.monitor_end_answer turn sub status }
    ensures fits { IfOk result (λ a. answer_fits (answer_view a) ≡ true) }
{
    let command = Command::Monitor.byte();
    match turn {
        Turn::BeginMonitor => Err(ClientFault::WrongPhase(command)),
        Turn::Updates => at_sub(command, 0x10, sub, status, Answer::Done),
        _ => wrong(turn, command),
    }
}

fn call_answer(
    turn: Turn,
    sub: u8,
    status: Status,
    value: Option<(PvType, PvValue)>,
) -> Result<Answer, ClientFault>
    requires { result_fits sub status (valued_view value) ≡ true }
    ensures answer { answered_view result ≡ rows.call_answer turn sub status (valued_view value) }
    ensures fits { IfOk result (λ a. answer_fits (answer_view a) ≡ true) }
{
    let command = Command::Rpc.byte();
    match turn {
        Turn::BeginCall => at_beginning(command, sub, status, Answer::Accepted),
        Turn::Call => at_sub(command, 0x00, sub, status, Answer::Outcome(value)),
        _ => wrong(turn, command),
    }
}

/// What a reply is to this turn.
pub(crate) fn answer_of(turn: Turn, reply: ToClient) -> Result<Answer, ClientFault>
    requires { reply_fits (reply_view reply) ≡ true }
    ensures answer { answered_view result ≡ rows.answer_of turn (reply_view reply) }
    ensures fits { IfOk result (λ a. answer_fits (answer_view a) ≡ true) }
{
    match reply {
        ToClient::Validation { buffer, .. } => validation_answer(turn, buffer),
        ToClient::Validated { status } => {
            at_command(turn, Command::Validated.byte(), status, Answer::Accepted)
        }
        ToClient::Created { sid, status, .. } => at_command(
            turn,
            Command::CreateChannel.byte(),
            status,
            Answer::Created(sid),
        ),
        ToClient::Get {
            sub,
            status,
            ty,
            part,
            ..
        } => get_answer(turn, sub, status, ty, part),
        ToClient::Put {
            sub,
            status,
            ty,
            part,
            ..
        } => put_answer(turn, sub, status, ty, part),
        ToClient::PutGet {
            sub,
            status,
            get_ty,
            part,
            ..
        } => put_get_answer(turn, sub, status, get_ty, part),
        ToClient::MonitorBegun {
            sub,
            status,
            ty,
            ..
        } => monitor_begun_answer(turn, sub, status, ty),
        ToClient::MonitorUpdate { sub, update, .. } => monitor_update_answer(turn, sub, update),
        ToClient::MonitorEnd { sub, status, .. } => monitor_end_answer(turn, sub, status),
        ToClient::GetField { status, ty, .. } => at_command(
            turn,
            Command::GetField.byte(),
            status,
            Answer::Described(ty),
        ),
        ToClient::Rpc {
            sub,
            status,
            result,
            ..
        } => call_answer(turn, sub, status, result),
        ToClient::Echo { .. } => wrong(turn, Command::Echo.byte()),
        ToClient::ChannelDestroyed { .. } => wrong(turn, Command::DestroyChannel.byte()),
        ToClient::Message { .. } => wrong(turn, Command::Message.byte()),
        ToClient::Skipped(command) => wrong(turn, command),
    }
}
