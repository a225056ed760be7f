// What an error of the system is to the call that met it.
ghost use Rattle.std.specs.Prelude.{◌≡◌};
ghost use Rattle.std.specs.IoError.{error_kind};
ghost use Rattle.pva_outside.specs.Refusal.{refusal_of_kind};

use std::io;
use std::io::ErrorKind;

/// What an error of the system means to the call that met it.
#[derive(Clone, Copy, Debug, PartialEq, Eq)]
pub enum Refusal {
    /// Nothing is ready now, and a later call may be answered: the call would block, or was interrupted.
    Idle,
    /// Memory ran out inside the call.
    NoMemory,
    /// Every other error.
    Fault,
}

/// What this error means, by its kind alone.
pub fn refusal_of(error: &io::Error) -> Refusal
    ensures { result ≡ refusal_of_kind (error_kind error.now) }
{
    match error.kind() {
        ErrorKind::WouldBlock | ErrorKind::Interrupted => Refusal::Idle,
        ErrorKind::OutOfMemory => Refusal::NoMemory,
        _ => Refusal::Fault,
    }
}
