// What an error means to the accept that met it.
ghost use Rattle.std.specs.Prelude.{◌≡◌};
ghost use Rattle.std.specs.IoError.{error_kind, raw_os_error};
ghost use Rattle.pva_net.specs.Refusals.{has_passed, is_of_connection, is_of_network, is_want, refusal_at_accept};

use pva_outside::{Refusal, refusal_of};
use std::io;
use std::io::ErrorKind;

/// Whether an error of this kind is that of one connection, which came and went.
fn is_of_connection(kind: ErrorKind) -> bool
    ensures { result ≡ is_of_connection kind }
{
    match kind {
        ErrorKind::ConnectionAborted
        | ErrorKind::ConnectionReset
        | ErrorKind::TimedOut
        | ErrorKind::PermissionDenied
        | ErrorKind::NetworkDown
        | ErrorKind::NetworkUnreachable
        | ErrorKind::HostUnreachable => true,
        _ => false,
    }
}

/// Whether Linux tells by this number that descriptors or buffers are wanting: ENFILE, EMFILE, ENOBUFS.
fn is_want(number: u32) -> bool
    ensures { result ≡ is_want number }
{
    number == 23 || number == 24 || number == 105
}

/// Whether Linux tells by this number what was wrong with a connection's network (accept(2), "Error handling"): ENONET, EPROTO,
/// ENOPROTOOPT, EOPNOTSUPP, EHOSTDOWN.
fn is_of_network(number: u32) -> bool
    ensures { result ≡ is_of_network number }
{
    number == 64 || number == 71 || number == 92 || number == 95 || number == 112
}

/// Whether the system's number of an error tells one of these.
fn has_passed(code: Option<i32>) -> bool
    ensures { result ≡ has_passed code }
{
    let Some(code) = code else {
        return false;
    };
    let number = code.unsigned_abs();
    if is_want(number) {
        return true;
    }
    is_of_network(number)
}

/// What an error means at an accept: a client who has gone again is nobody, and a want that passes is no fault of the listener.
pub(crate) fn refusal_at_accept(error: &io::Error) -> Refusal
    ensures { result ≡ refusal_at_accept (error_kind error.now) (raw_os_error error.now) }
{
    if is_of_connection(error.kind()) {
        return Refusal::Idle;
    }
    if has_passed(error.raw_os_error()) {
        return Refusal::Idle;
    }
    refusal_of(error)
}
