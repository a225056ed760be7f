// An operation over a link, as a future.
ghost use Rattle.std.specs.Prelude.{◌≡◌, ◌≤◌, ℕ, [], true, map};
ghost use Rattle.futures.specs.Poll.{IfReady, OnPending};
ghost use Rattle.futures.specs.Task.{Covers, Hears, Keeps};
ghost use Rattle.cli_session.specs.Fitting.{all_fit};
ghost use Rattle.cli_session.specs.Seen.{report_view};

use crate::conversation::Conversation;
use crate::end::{ExchangeEnd, Outcome, Patience, Step};
use crate::pending::ask_again;
use cli_session::{Ask, Report};
use futures::Future;
use futures::task::{Context, Poll};
use pva_outside::Link;
use std::alloc::Global;

/// An exchange that hasn't ended, and its reports.
#[derive(Drop)]
pub(crate) struct Collecting<L> {
    pub(crate) conversation: Conversation<L>,
    pub(crate) reports: Vec<Report>,
    ghost fit: { all_fit (map report_view reports.items) ≡ true },
}

/// One operation of a client over a link to a server (pvAccess Protocol Specification, "Application
/// Messages"), as a future.
///
/// A poll writes what the client says and reads what the server sends until the operation ends, or can't
/// go on, or the link answers that it is idle. Then the poll is pending, and has yielded: its task is to
/// be polled again. No poll is pending for another cause.
#[derive(Drop)]
pub struct Exchange<L> {
    going: Option<Collecting<L>>,
}

impl<L: Link> Collecting<L> {
    ghost use Rattle.cli_futures.specs.Exchanges.{Collects, IdlesBy};

    /// Goes on until the operation ends or the link is idle.
    fn collect(&mut self) -> Option<ExchangeEnd>
        ensures collects { Collects L.wire self.old self.new result }
        ensures idles { IdlesBy L.wire self.old self.new result }
        ensures patience { self.new.conversation.patience ≡ self.old.conversation.patience }
    {
        'reports: loop {
            match self.conversation.advance() {
                Step::Told(report) => match self.reports.push(report) {
                    Ok(()) => continue 'reports,
                    Err(_) => return Some(ExchangeEnd::NoMemory),
                },
                Step::Waits => return None,
                Step::Ended(end) => return Some(end),
            }
        }
    }
}

impl<L: Link> Exchange<L> {
    ghost use Rattle.cli_futures.specs.declared.end.Outcome.{Outcome as Given};
    ghost use Rattle.cli_futures.specs.Exchanges.{CanPoll, ComesTo, Gives};

    /// An exchange of which nothing was done: the operation, the link to its server, how often in a row
    /// no byte may move in a call of the link, and how many calls of the link may be made. Both are at
    /// least 1. It takes no memory.
    pub fn start(alloc: Global, ask: Ask, link: L, idle: u32, turns: u64) -> Exchange<L>
        requires idle { 1 ≤ idle }
        requires turns { 1 ≤ turns }
        ensures can { CanPoll result }
        ensures gives { (x : Given L) → Gives L.wire result x → ComesTo L.wire ask idle turns (L.wire link) x }
    {
        let patience = Patience { idle, turns };
        Exchange {
            going: Some(Collecting {
                conversation: Conversation::start(alloc, ask, link, patience),
                reports: Vec::new(alloc),
            }),
        }
    }
}

impl<L: Link + Drop> Future for Exchange<L> {
    ghost use Rattle.cli_futures.specs.Exchanges.{CanPoll as CanBePolled, Gives as MayGive, HasEndedBy, HasRested};

    type Output = Outcome<L>;

    ghost can_poll = { λ e. CanBePolled e };

    ghost gives = { MayGive L.wire };

    fn poll(&mut self, cx: &mut Context<'_>) -> Poll<Outcome<L>>
        requires { CanBePolled self.old }
        ensures value { IfReady result (MayGive L.wire self.old) }
        ensures again { OnPending result (CanBePolled self.new) }
        ensures same { OnPending result ((x : _) → MayGive L.wire self.new x → MayGive L.wire self.old x) }
        ensures registered { OnPending result (Covers cx.new (λ s. ⊥)) }
        ensures kept { Keeps cx.old cx.new }
        ensures yielded { OnPending result ((s : ℕ) → Hears cx.new s) }
        ensures woken { OnPending result (cx.new.is_woken ≡ true) }
        ensures rested { OnPending result (HasRested L.wire self.old self.new) }
        ensures limit { IfReady result (HasEndedBy L.wire self.old) }
    {
        let Some(mut going) = self.going.take() else {
            unreachable!()
        };
        match going.collect() {
            Some(end) => Poll::Ready(Outcome {
                reports: going.reports,
                end,
                link: going.conversation.link,
            }),
            None => {
                self.going = Some(going);
                ask_again(cx)
            }
        }
    }
}
