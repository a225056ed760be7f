// Single calls of a link in an exchange.
ghost use Rattle.std.specs.Prelude.{◌<◌, length};
ghost use Rattle.cli_futures.specs.LinkCalls.{Calls, ReadsSome, WritesSome};
ghost use Rattle.cli_futures.specs.Taking.{client_view};

use crate::due::has_more;
use crate::end::ExchangeEnd;
use crate::stream_client::StreamClient;
use pva_outside::{Link, ReadStep, WriteStep};

/// Writes some of what the client says, in one call of the link, and says whether a byte moved.
fn write_some<L: Link>(client: &mut StreamClient, link: &mut L) -> Result<bool, ExchangeEnd>
    requires { 0 < length (client_view client.old).client.output }
    ensures { WritesSome (L.wire link.old) (L.wire link.new) (client_view client.old) (client_view client.new) result }
{
    match link.write(client.output()) {
        WriteStep::Took(count) => {
            client.took(count);
            Ok(true)
        }
        WriteStep::Idle => Ok(false),
        WriteStep::Failed => Err(ExchangeEnd::LinkFault),
        WriteStep::NoMemory => Err(ExchangeEnd::NoMemory),
    }
}

/// Reads up to 4,096 bytes, in one call of the link, hands them to the client, and says whether a byte
/// moved.
fn read_some<L: Link>(client: &mut StreamClient, link: &mut L) -> Result<bool, ExchangeEnd>
    ensures { ReadsSome (L.wire link.old) (L.wire link.new) (client_view client.old) (client_view client.new) result }
{
    let mut buffer = [0u8; 4096];
    match link.read(&mut buffer) {
        ReadStep::Got(count) => match client.feed(&buffer[..count]) {
            Ok(()) => Ok(true),
            Err(_) => Err(ExchangeEnd::NoMemory),
        },
        ReadStep::End => Err(ExchangeEnd::EarlyEnd),
        ReadStep::Idle => Ok(false),
        ReadStep::Failed => Err(ExchangeEnd::LinkFault),
        ReadStep::NoMemory => Err(ExchangeEnd::NoMemory),
    }
}

/// One call of the link: writes what the client says, or else reads. It says whether a byte moved.
pub(crate) fn call<L: Link>(client: &mut StreamClient, link: &mut L) -> Result<bool, ExchangeEnd>
    ensures { Calls (L.wire link.old) (L.wire link.new) (client_view client.old) (client_view client.new) result }
{
    let more = has_more(client);
    if more {
        return write_some(client, link);
    }
    read_some(client, link)
}
