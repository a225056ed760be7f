// The bits of a subcommand (pvAccess Protocol Specification, "Application Messages").
ghost use Rattle.std.specs.Prelude.{◌≡◌, ◌<◌};
ghost use Rattle.pvd_type.specs.Sets.{bit};
ghost use Rattle.pva_messages.specs.Subcommands.{ends, asks_back, counts};
ghost use Rattle.srv_session.specs.Tasks.{started_by};

/// Whether a subcommand has the bit of this place.
fn has(sub: u8, place: u32) -> bool
    requires { place < 8 }
    ensures { result ≡ bit sub place }
{
    (sub >> place) & 1 == 1
}

/// Bit 10: the request ends.
pub(crate) fn ends(sub: u8) -> bool
    ensures { result ≡ ends sub }
{
    has(sub, 4)
}

/// Bit 40: the present value is asked for.
pub(crate) fn asks_back(sub: u8) -> bool
    ensures { result ≡ asks_back sub }
{
    has(sub, 6)
}

/// Bit 80: a count of updates follows.
pub(crate) fn counts(sub: u8) -> bool
    ensures { result ≡ counts sub }
{
    has(sub, 7)
}

/// Whether a monitor is started behind this subcommand. Bit 04 starts it where bit 40 stands too, and else stops it.
pub(crate) fn started_by(sub: u8, was: bool) -> bool
    ensures { result ≡ started_by sub was }
{
    if has(sub, 2) {
        return asks_back(sub);
    }
    was
}
