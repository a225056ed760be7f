// The reports of an operation, as a stream.
ghost use Rattle.std.specs.Prelude.{◌≡◌, ◌≤◌, ⊤, ℕ, List, [], IfSome, OnSome, true};
ghost use Rattle.futures.specs.Poll.{IfReady, OnPending};
ghost use Rattle.futures.specs.Runs.{After, Within};
ghost use Rattle.futures.specs.Task.{Covers, Hears, Keeps};
ghost use Rattle.pva_outside.specs.Wire.{Wire};
ghost use Rattle.cli_session.specs.Fitting.{told_fits};
ghost use Rattle.cli_session.specs.Seen.{report_view};
ghost use Rattle.cli_session.specs.Steps.{Told};
ghost use Rattle.cli_session.specs.declared.ask.Ask.{Ask as AskSaid};

use crate::conversation::Conversation;
use crate::end::{ExchangeEnd, Patience, Step};
use crate::pending::ask_again;
use cli_session::{Ask, Report};
use futures::Stream;
use futures::task::{Context, Poll};
use pva_outside::Link;
use std::alloc::Global;

/// The reports of an operation over a link to a server, as a stream: the updates of a monitor as they
/// come, for example. It gives None once the exchange has ended and all its reports were given.
///
/// A poll writes and reads until the client tells something, the operation ends or can't go on, or the
/// link answers that it is idle. Then the poll is pending, and has yielded: its task is to be polled
/// again. No poll is pending for another cause.
#[derive(Drop)]
pub struct Updates<L> {
    pub(crate) conversation: Conversation<L>,
    pub(crate) end: Option<ExchangeEnd>,
}

impl<L: Link> Updates<L> {
    ghost use Rattle.cli_futures.specs.Exchanging.{HasExchanged};
    ghost use Rattle.cli_futures.specs.Updating.{HasEnded, HasGiven};

    /// An exchange of which nothing was done: the operation, the link to its server, how often in a row
    /// no byte may move in a call of the link, and how many calls of the link may be made. Both are at
    /// least 1. It takes no memory.
    pub fn start(alloc: Global, ask: Ask, link: L, idle: u32, turns: u64) -> Updates<L>
        requires idle { 1 ≤ idle }
        requires turns { 1 ≤ turns }
        ensures { HasGiven L.wire ask idle turns (L.wire link) [] result }
    {
        let patience = Patience { idle, turns };
        Updates {
            conversation: Conversation::start(alloc, ask, link, patience),
            end: None,
        }
    }

    /// Why the exchange ended, and the link, handed back. The stream has given None.
    pub fn end(self) -> (ExchangeEnd, L)
        requires { HasEnded self }
        ensures { (ask : AskSaid) (idle turns : ℕ) (begin : Wire) (told : List Told) → HasGiven L.wire ask idle turns begin told self → HasExchanged ask (record { idle = idle; turns = turns }) begin (L.wire result.1) told result.0 }
    {
        let Some(end) = self.end else { unreachable!() };
        (end, self.conversation.link)
    }
}

impl<L: Link + Drop> Stream for Updates<L> {
    ghost use Rattle.cli_futures.specs.Updating.{GivesNext, HasWaited, Yields};

    type Item = Report;

    ghost yields = { Yields L.wire };

    fn poll_next(&mut self, cx: &mut Context<'_>) -> Poll<Option<Report>>
        ensures value { IfReady result (Yields L.wire self.old []) }
        ensures rest { IfReady result (λ o. IfSome o (λ x. After (Yields L.wire self.old) x (Yields L.wire self.new))) }
        ensures goes { IfReady result (λ o. OnSome o ⊤) }
        ensures again { OnPending result ⊤ }
        ensures same { OnPending result (Within (Yields L.wire self.old) (Yields L.wire self.new)) }
        ensures registered { OnPending result (Covers cx.new (λ s. ⊥)) }
        ensures kept { Keeps cx.old cx.new }
        ensures gives { IfReady result (GivesNext L.wire self.old self.new) }
        ensures fits { IfReady result (λ o. IfSome o (λ r. told_fits (report_view r) ≡ true)) }
        ensures waits { OnPending result (HasWaited L.wire self.old self.new) }
        ensures yielded { OnPending result ((s : ℕ) → Hears cx.new s) }
        ensures woken { OnPending result (cx.new.is_woken ≡ true) }
    {
        match self.end {
            Some(_) => Poll::Ready(None),
            None => match self.conversation.advance() {
                Step::Told(report) => Poll::Ready(Some(report)),
                Step::Waits => ask_again(cx),
                Step::Ended(end) => {
                    self.end = Some(end);
                    Poll::Ready(None)
                }
            },
        }
    }
}
