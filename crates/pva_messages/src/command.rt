ghost use Rattle.std.specs.Prelude.{◌≡◌};
ghost use Rattle.pva_messages.specs.Rows.{byte_of, command_of};

/// The command of an application message (pvAccess Protocol Specification, "Application Messages").
#[derive(Clone, Copy, Debug, PartialEq, Eq)]
pub enum Command {
    /// What a connection begins with.
    Validation = 0x01,
    /// Bytes that are sent back.
    Echo = 0x02,
    /// Channels by their names.
    CreateChannel = 0x07,
    /// The end of a channel.
    DestroyChannel = 0x08,
    /// The answer to a client's validation.
    Validated = 0x09,
    /// A value of a channel.
    Get = 0x0A,
    /// A new value for a channel.
    Put = 0x0B,
    /// A new value, and the one that came of it.
    PutGet = 0x0C,
    /// Values as they change.
    Monitor = 0x0D,
    /// The end of a request.
    DestroyRequest = 0x0F,
    /// The type of a field.
    GetField = 0x11,
    /// A text for people.
    Message = 0x12,
    /// A call of a service.
    Rpc = 0x14,
    /// A request is given up.
    Cancel = 0x15,
}

// The bytes as patterns.
const VALIDATION: u8 = Command::Validation as u8;

const ECHO: u8 = Command::Echo as u8;

const CREATE_CHANNEL: u8 = Command::CreateChannel as u8;

const DESTROY_CHANNEL: u8 = Command::DestroyChannel as u8;

const VALIDATED: u8 = Command::Validated as u8;

const GET: u8 = Command::Get as u8;

const PUT: u8 = Command::Put as u8;

const PUT_GET: u8 = Command::PutGet as u8;

const MONITOR: u8 = Command::Monitor as u8;

const DESTROY_REQUEST: u8 = Command::DestroyRequest as u8;

const GET_FIELD: u8 = Command::GetField as u8;

const MESSAGE: u8 = Command::Message as u8;

const RPC: u8 = Command::Rpc as u8;

const CANCEL: u8 = Command::Cancel as u8;

impl Command {
    /// The byte that names it in the header of a message.
    pub fn byte(self) -> u8
        ensures { result ≡ byte_of self }
    {
        self as u8
    }
}

/// The command of a byte; None for all others, whose messages are passed over.
#[tactic(auto, unfolding(crate::specs::Rows::command_of))]
pub(crate) fn command_of(byte: u8) -> Option<Command>
    ensures { result ≡ command_of byte }
{
    match byte {
        VALIDATION => Some(Command::Validation),
        ECHO => Some(Command::Echo),
        CREATE_CHANNEL => Some(Command::CreateChannel),
        DESTROY_CHANNEL => Some(Command::DestroyChannel),
        VALIDATED => Some(Command::Validated),
        GET => Some(Command::Get),
        PUT => Some(Command::Put),
        PUT_GET => Some(Command::PutGet),
        MONITOR => Some(Command::Monitor),
        DESTROY_REQUEST => Some(Command::DestroyRequest),
        GET_FIELD => Some(Command::GetField),
        MESSAGE => Some(Command::Message),
        RPC => Some(Command::Rpc),
        CANCEL => Some(Command::Cancel),
        _ => None,
    }
}
