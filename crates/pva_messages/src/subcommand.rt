ghost use Rattle.std.specs.Prelude.{◌≡◌, ◌<◌};
ghost use Rattle.pvd_type.specs.Sets.{bit};
ghost use Rattle.pva_messages.specs.Subcommands.{begins, ends, asks_back, counts, carries};

use pva_wire::{Status, StatusKind};

/// Whether a subcommand has the bit of this place.
fn has(sub: u8, place: u32) -> bool
    requires { place < 8 }
    ensures { result ≡ bit sub place }
{
    (sub >> place) & 1 == 1
}

/// Whether the subcommand of a request, or of a reply to it, begins the request: its bit 08, whatever
/// its other bits are (pvAccess Protocol Specification, "Application Messages").
pub fn begins(sub: u8) -> bool
    ensures { result ≡ begins sub }
{
    has(sub, 3)
}

/// Bit 10: a request is ended.
pub(crate) fn ends(sub: u8) -> bool
    ensures { result ≡ ends sub }
{
    has(sub, 4)
}

/// Bit 40: the present value is asked for.
pub(crate) fn asks_back(sub: u8) -> bool
    ensures { result ≡ asks_back sub }
{
    has(sub, 6)
}

/// Bit 80: a count of updates follows.
pub(crate) fn counts(sub: u8) -> bool
    ensures { result ≡ counts sub }
{
    has(sub, 7)
}

/// Whether a reply with this status brings a description, a part or a value.
pub(crate) fn carries(status: &Status) -> bool
    ensures { result ≡ carries status.now }
{
    match status.kind {
        StatusKind::Good | StatusKind::Warning => true,
        StatusKind::Error | StatusKind::Fatal => false,
    }
}
