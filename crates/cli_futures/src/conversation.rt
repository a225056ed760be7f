// A client and its link, from call to call.
ghost use Rattle.std.specs.Prelude.{◌≡◌, ◌≤◌, ◌+◌, IfOk};

use crate::due::{Due, idles_after, next_due};
use crate::end::{ExchangeEnd, Patience, Step};
use crate::link_calls::call;
use crate::stream_client::StreamClient;
use cli_session::Ask;
use pva_outside::Link;
use std::alloc::Global;

/// A client and its link.
#[derive(Drop)]
pub(crate) struct Conversation<L> {
    pub(crate) client: StreamClient,
    pub(crate) link: L,
    pub(crate) patience: Patience,
    /// The calls of the link.
    pub(crate) calls: u64,
    /// How often in a row no byte moved.
    pub(crate) idles: u32,
    ghost counted: { calls ≤ patience.turns },
    ghost patient: { idles ≤ patience.idle },
    ghost some: { 1 ≤ patience.idle },
}

impl<L: Link> Conversation<L> {
    ghost use Rattle.std.specs.Prelude.{[]};
    ghost use Rattle.cli_futures.specs.Taking.{StepFits};
    ghost use Rattle.cli_futures.specs.Turning.{Advances, CountsBy, IsGoing, StepsBy, Turns};

    /// Nothing was done yet. It takes no memory.
    pub(crate) fn start(alloc: Global, ask: Ask, link: L, patience: Patience) -> Conversation<L>
        requires { 1 ≤ patience.idle }
        ensures going { IsGoing L.wire ask (L.wire link) [] result }
        ensures patience { result.patience ≡ patience }
        ensures idles { result.idles ≡ 0 }
    {
        Conversation {
            client: StreamClient::start(alloc, ask),
            link,
            patience,
            calls: 0,
            idles: 0,
        }
    }

    /// Makes the next call of the link, where one is due, and says whether a byte moved. All that the
    /// client told was handed out.
    fn turn(&mut self) -> Result<bool, ExchangeEnd>
        ensures turns { Turns L.wire self.old self.new result }
        ensures idles { CountsBy (L.wire self.old.link) (L.wire self.new.link) self.old.idles self.new.idles result }
        ensures calls { IfOk result (λ moved. self.new.calls ≡ self.old.calls + 1) }
        ensures patience { self.new.patience ≡ self.old.patience }
    {
        match next_due(&self.client, self.idles, self.calls, self.patience) {
            Due::Call => match call(&mut self.client, &mut self.link) {
                Ok(moved) => {
                    self.calls += 1;
                    self.idles = idles_after(self.idles, moved, self.patience.idle);
                    Ok(moved)
                }
                Err(end) => Err(end),
            },
            Due::End(end) => Err(end),
        }
    }

    /// Writes and reads until the client tells something, the exchange ends, or the link is idle.
    pub(crate) fn advance(&mut self) -> Step
        ensures advances { Advances L.wire self.old self.new result }
        ensures idles { StepsBy (L.wire self.old.link) (L.wire self.new.link) self.old.idles self.new.idles result }
        ensures patience { self.new.patience ≡ self.old.patience }
        ensures fits { StepFits result }
    {
        'turns: loop {
            match self.client.next_told() {
                Step::Told(report) => return Step::Told(report),
                Step::Ended(end) => return Step::Ended(end),
                Step::Waits => match self.turn() {
                    Ok(moved) => {
                        if moved {
                            continue 'turns;
                        }
                        return Step::Waits;
                    }
                    Err(end) => return Step::Ended(end),
                },
            }
        }
    }
}
