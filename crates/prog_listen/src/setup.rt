// What a server of many clients tells of itself.
ghost use Rattle.std.specs.Prelude.{◌≡◌};
ghost use Rattle.prog_listen.specs.Setups.{IsGuid, IsSetup};
ghost use Rattle.prog_listen.specs.Setups as specs;

use crate::asked::Listening;
use pva_outside::Clock;
use pva_search::Setup;

/// The GUID that is made of a moment.
fn guid_at(seconds: i64, nanoseconds: u32) -> [u8; 12]
    ensures { result ≡ specs.guid_at (seconds, nanoseconds) }
{
    let [a, b, c, d, e, f, g, h] = seconds.to_be_bytes();
    let [i, j, k, l] = nanoseconds.to_be_bytes();
    [a, b, c, d, e, f, g, h, i, j, k, l]
}

/// The GUID that was asked for, or else that of the moment at which the clock stands.
fn guid_of<C: Clock>(asked: Option<[u8; 12]>, clock: &C) -> [u8; 12]
    ensures { IsGuid asked (C.moment clock.now) result }
{
    let Some(guid) = asked else {
        let (seconds, nanoseconds) = clock.now();
        return guid_at(seconds, nanoseconds);
    };
    guid
}

/// What a server tells of itself whose listener is bound at this port.
pub(crate) fn setup_of<C: Clock>(asked: &Listening, clock: &C, port: u16) -> Setup
    ensures { IsSetup asked.now (C.moment clock.now) port result }
{
    Setup {
        guid: guid_of(asked.guid, clock),
        port,
        order: asked.order,
    }
}
