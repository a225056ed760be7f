// What is due in an exchange.
ghost use Rattle.std.specs.Prelude.{◌≡◌, ◌<◌, [], true, false, length};
ghost use Rattle.cli_futures.specs.LinkCalls.{IsDue, IsDueWithin, idles_after};
ghost use Rattle.cli_futures.specs.Taking.{client_view};

use crate::end::{ExchangeEnd, Patience};
use crate::stream_client::StreamClient;

/// What is due on a link.
#[derive(Clone, Copy)]
pub(crate) enum Due {
    /// A call of the link: to write what the client says, or else to read.
    Call,
    /// Nothing: the exchange has ended so.
    End(ExchangeEnd),
}

/// Whether the client has something to say.
pub(crate) fn has_more(client: &StreamClient) -> bool
    ensures more { result ≡ true → 0 < length (client_view client.now).client.output }
    ensures none { result ≡ false → (client_view client.now).client.output ≡ [] }
{
    !client.output().is_empty()
}

/// What is due on an open link, where so often in a row no byte moved, behind so many calls.
fn due_within(idles: u32, calls: u64, patience: Patience) -> Due
    ensures { IsDueWithin idles calls patience result }
{
    if patience.idle <= idles {
        return Due::End(ExchangeEnd::IdleLimit(patience.idle));
    }
    if patience.turns <= calls {
        return Due::End(ExchangeEnd::Spent(patience.turns));
    }
    Due::Call
}

/// What is due where so often in a row no byte moved, behind so many calls of the link.
pub(crate) fn next_due(client: &StreamClient, idles: u32, calls: u64, patience: Patience) -> Due
    ensures { IsDue (client_view client.now) idles calls patience result }
{
    let more = has_more(client);
    if more {
        return due_within(idles, calls, patience);
    }
    let over = client.is_over();
    if over {
        return Due::End(ExchangeEnd::Done);
    }
    due_within(idles, calls, patience)
}

/// How often in a row no byte moved, behind a further call. It was less often than so before.
pub(crate) fn idles_after(idles: u32, moved: bool, most: u32) -> u32
    requires { idles < most }
    ensures { result ≡ idles_after idles moved }
{
    if moved { 0 } else { idles + 1 }
}
