// The replies that an operation awaits.
ghost use Rattle.std.specs.Prelude.{◌≡◌};
ghost use Rattle.cli_session.specs.Turns.{turns_of, awaited};

use crate::ask::Operation;
use pva_messages::Command;

/// A reply that is awaited, named for the message that asked for it.
#[derive(Clone, Copy, Debug, PartialEq, Eq)]
pub(crate) enum Turn {
    /// The server's validation, which nothing asks for.
    Greeting,
    Validation,
    Creation,
    BeginGet,
    Get,
    BeginPut,
    /// The present value of what is put.
    ReadBack,
    Put,
    BeginPutGet,
    PutGet,
    BeginMonitor,
    /// The updates of a monitor, and its end.
    Updates,
    /// The type of a field.
    Field,
    BeginCall,
    Call,
}

const GET: [Turn; 5] = [
    Turn::Greeting,
    Turn::Validation,
    Turn::Creation,
    Turn::BeginGet,
    Turn::Get,
];

const PUT: [Turn; 6] = [
    Turn::Greeting,
    Turn::Validation,
    Turn::Creation,
    Turn::BeginPut,
    Turn::ReadBack,
    Turn::Put,
];

const PUT_GET: [Turn; 7] = [
    Turn::Greeting,
    Turn::Validation,
    Turn::Creation,
    Turn::BeginPut,
    Turn::ReadBack,
    Turn::BeginPutGet,
    Turn::PutGet,
];

const MONITOR: [Turn; 5] = [
    Turn::Greeting,
    Turn::Validation,
    Turn::Creation,
    Turn::BeginMonitor,
    Turn::Updates,
];

const INFO: [Turn; 4] = [
    Turn::Greeting,
    Turn::Validation,
    Turn::Creation,
    Turn::Field,
];

const CALL: [Turn; 5] = [
    Turn::Greeting,
    Turn::Validation,
    Turn::Creation,
    Turn::BeginCall,
    Turn::Call,
];

/// The replies that an operation awaits, one after another.
pub(crate) fn turns_of(operation: &Operation) -> &'static [Turn]
    ensures { result.now ≡ turns_of operation.now }
{
    match operation {
        Operation::Get => &GET,
        Operation::Put(_) => &PUT,
        Operation::PutGet(_) => &PUT_GET,
        Operation::Monitor { .. } => &MONITOR,
        Operation::Info => &INFO,
        Operation::Call(_) => &CALL,
    }
}

impl Turn {
    /// The command of the reply.
    pub(crate) fn awaited(self) -> u8
        ensures { result ≡ awaited self }
    {
        match self {
            Turn::Greeting => Command::Validation.byte(),
            Turn::Validation => Command::Validated.byte(),
            Turn::Creation => Command::CreateChannel.byte(),
            Turn::BeginGet | Turn::Get => Command::Get.byte(),
            Turn::BeginPut | Turn::ReadBack | Turn::Put => Command::Put.byte(),
            Turn::BeginPutGet | Turn::PutGet => Command::PutGet.byte(),
            Turn::BeginMonitor | Turn::Updates => Command::Monitor.byte(),
            Turn::Field => Command::GetField.byte(),
            Turn::BeginCall | Turn::Call => Command::Rpc.byte(),
        }
    }
}
