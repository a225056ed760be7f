// Why a client stops.
use cli_text::PutText;
use pva_messages::MessageFault;
use pvd_codec::ValueFault;
use pvd_type::NoMemory;

/// Why a client stops at an event. It has then failed for good.
#[derive(Clone, Copy, Debug, PartialEq, Eq)]
pub enum ClientFault {
    /// A reply names this id of a channel that the client didn't ask for, or of a request that it hasn't
    /// begun, or has ended.
    UnknownReply(u32),
    /// The reply of the first command is awaited, and one of the second came.
    WrongCommand(u8, u8),
    /// A reply of this command has another subcommand than the message that asked for it.
    WrongPhase(u8),
    /// A message can't be read.
    Message(MessageFault),
    /// The words of a put give no value of the channel.
    Words(PutText),
    /// The memory that the client needed couldn't be had.
    NoMemory,
}

impl From<NoMemory> for ClientFault {
    ghost use Rattle.std.specs.Prelude.{◌≡◌};
    ghost use Rattle.cli_session.specs.declared.fault.ClientFault.TheVariants as fails;

    ghost from_gives = { λ _ e. e ≡ fails.NoMemory };

    fn from(_: NoMemory) -> Self {
        ClientFault::NoMemory
    }
}

impl From<MessageFault> for ClientFault {
    ghost use Rattle.std.specs.Prelude.{◌≡◌};
    ghost use Rattle.cli_session.specs.Calls.{message_fault};

    ghost from_gives = { λ fault e. e ≡ message_fault fault };

    fn from(fault: MessageFault) -> Self {
        match fault.cause {
            ValueFault::NoMemory => ClientFault::NoMemory,
            _ => ClientFault::Message(fault),
        }
    }
}

impl From<PutText> for ClientFault {
    ghost use Rattle.std.specs.Prelude.{◌≡◌};
    ghost use Rattle.cli_session.specs.Calls.{words_fault};

    ghost from_gives = { λ fault e. e ≡ words_fault fault };

    fn from(fault: PutText) -> Self {
        match fault {
            PutText::NoMemory => ClientFault::NoMemory,
            _ => ClientFault::Words(fault),
        }
    }
}
