// Why a session stops.
use mon_window::WindowFault;
use pva_messages::MessageFault;
use pvd_codec::ValueFault;
use pvd_type::NoMemory;

/// Why a session stops at an event. It has then ended.
#[derive(Clone, Copy, Debug, PartialEq, Eq)]
pub enum SessionStop {
    /// The message can't be read (pvAccess Protocol Specification, "Application Messages").
    Message(MessageFault),
    /// A pipelined monitor might be sent more than 2,147,483,647 updates before its client acknowledges some: its first count, or
    /// what is free with the acknowledged updates, is above that (pvAccess Protocol Specification, "Channel Monitor").
    Window(WindowFault),
    /// Memory ran out.
    NoMemory,
}

impl From<NoMemory> for SessionStop {
    ghost use Rattle.std.specs.Prelude.{◌≡◌};
    ghost use Rattle.srv_session.specs.declared.stop.SessionStop.TheVariants as stops;

    ghost from_gives = { λ _ e. e ≡ stops.NoMemory };

    fn from(_: NoMemory) -> Self {
        SessionStop::NoMemory
    }
}

impl From<MessageFault> for SessionStop {
    ghost use Rattle.std.specs.Prelude.{◌≡◌};
    ghost use Rattle.srv_session.specs.Views.{stop_by};

    ghost from_gives = { λ fault e. e ≡ stop_by fault };

    fn from(fault: MessageFault) -> Self {
        match fault.cause {
            ValueFault::NoMemory => SessionStop::NoMemory,
            _ => SessionStop::Message(fault),
        }
    }
}
