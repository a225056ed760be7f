// The next report, with the stream handed back.
ghost use Rattle.cli_futures.specs.Following.{IsNextOf};

use crate::Updates;
use cli_session::Report;
use futures::task::{Context, Poll};
use futures::{Future, Stream};
use pva_outside::Link;

/// The next report of a stream, or None at its end, and the stream, handed back: what an executor runs
/// where the stream is to be asked for its end, and the link.
#[derive(Drop)]
pub struct NextUpdate<L> {
    updates: Option<Updates<L>>,
}

/// The next report of a stream, or None at its end.
pub fn next_update<L>(updates: Updates<L>) -> NextUpdate<L>
    ensures { IsNextOf updates result }
{
    NextUpdate {
        updates: Some(updates),
    }
}

impl<L: Link + Drop> Future for NextUpdate<L> {
    ghost use Rattle.cli_futures.specs.Following.{CanNext, NextGives};

    type Output = (Option<Report>, Updates<L>);

    ghost can_poll = { λ n. CanNext n };

    ghost gives = { NextGives L.wire };

    fn poll(&mut self, cx: &mut Context<'_>) -> Poll<(Option<Report>, Updates<L>)> {
        let Some(mut updates) = self.updates.take() else {
            unreachable!()
        };
        match updates.poll_next(cx) {
            Poll::Ready(report) => Poll::Ready((report, updates)),
            Poll::Pending => {
                self.updates = Some(updates);
                Poll::Pending
            }
        }
    }
}
