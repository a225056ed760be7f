// The server's end of an exchange.
ghost use Rattle.std.specs.Prelude.{◌≡◌, ◌≤◌, ◌++◌, [], ℕ, List, None, Option, drop, is_some, length, take, IfOk, OnOk};
ghost use Rattle.desk_api.specs.declared.mark.Seat.{Seat};
ghost use Rattle.journal_core.specs.Moments.{Moment as MomentTold};
ghost use Rattle.pva_wire.specs.declared.order.Order.TheVariants.{Little};
ghost use Rattle.srv_session.specs.Calls.{Finished};
ghost use Rattle.srv_stream.specs.Streams.{Feeds, moment_told, shown_in};
ghost use Rattle.srv_stream.specs.Views.{first_view, view_of};
ghost use Rattle.cli_within.specs.Serving.{IsLiving, IsReady};

use desk_api::{Desk, Moment};
use pva_outside::Clock;
use pva_wire::Order;
use pvd_type::NoMemory;
use srv_stream::{Ended, Serving};
use std::alloc::Global;

/// A serving, and how its connection ends once all that it says is taken, if it does.
#[derive(Drop)]
pub struct ServerEnd {
    serving: Serving,
    over: Option<Ended>,
}

/// Answers the events that a piece brings, at the moment that the clock then tells.
fn feed<D: Desk, C: Clock>(
    alloc: Global,
    serving: &mut Serving,
    desk: &mut D,
    clock: &C,
    piece: &[u8],
) -> Result<(), Ended>
    requires ready { IsReady (D.seat desk.old) (view_of serving.old) }
    ensures living { IsLiving (D.seat desk.new) (view_of serving.new) }
    ensures ready { OnOk result (IsReady (D.seat desk.new) (view_of serving.new)) }
    ensures feeds { Feeds (D.seat desk.old) (D.seat desk.new) (moment_told (C.moment clock.now)) (view_of serving.old) (view_of serving.new) piece.now result }
{
    let (seconds, nanoseconds) = clock.now();
    serving.feed(alloc, desk, piece, Moment::new(seconds, nanoseconds))
}

impl ServerEnd {
    ghost use Rattle.cli_within.specs.Serving.{Closes, Fills, HasServed, IsLiving, IsReady, Serves, over_of, served_view};

    /// A serving that has said its greeting.
    pub fn start(alloc: Global) -> Result<ServerEnd, NoMemory>
        ensures view { IfOk result (λ s. served_view s ≡ first_view Little) }
        ensures over { IfOk result (λ s. over_of s ≡ None) }
    {
        Ok(ServerEnd {
            serving: Serving::start(alloc, Order::Little)?,
            over: None,
        })
    }

    /// Whether it takes no more bytes.
    pub fn is_over(&self) -> bool
        ensures { result ≡ is_some (over_of self.now) }
    {
        self.over.is_some()
    }

    /// What is to be given to the client.
    pub fn output(&self) -> &[u8]
        ensures { result.now ≡ (served_view self.now).pending }
    {
        self.serving.output()
    }

    /// So much of it was given. It takes no memory.
    pub fn took(&mut self, count: usize)
        requires { count ≤ length (served_view self.old).pending }
        ensures view { served_view self.new ≡ record (served_view self.old) { pending = drop count (served_view self.old).pending } }
        ensures over { over_of self.new ≡ over_of self.old }
    {
        self.serving.took(count);
    }

    /// Takes the next bytes of the client and answers their events, at the moment that the clock tells.
    pub fn hear<D: Desk, C: Clock>(
        &mut self,
        alloc: Global,
        desk: &mut D,
        clock: &C,
        bytes: &[u8],
    ) -> Result<(), NoMemory>
        requires open { over_of self.old ≡ None }
        requires ready { IsReady (D.seat desk.old) (served_view self.old) }
        ensures living { IsLiving (D.seat desk.new) (served_view self.new) }
        ensures ready { OnOk result (over_of self.new ≡ None → IsReady (D.seat desk.new) (served_view self.new)) }
        ensures serves { (first : Seat) (heard given : List ℕ) → HasServed first (D.seat desk.old) (moment_told (C.moment clock.now)) heard given (served_view self.old) None → Serves first (D.seat desk.new) (moment_told (C.moment clock.now)) (heard ++ bytes.now) given (served_view self.new) (over_of self.new) result }
    {
        match feed(alloc, &mut self.serving, desk, clock, bytes) {
            Ok(()) => Ok(()),
            Err(ended) => self.close(ended),
        }
    }

    /// Closes at a fault of what was heard. Where memory ran out it can't.
    fn close(&mut self, ended: Ended) -> Result<(), NoMemory>
        ensures view { served_view self.new ≡ served_view self.old }
        ensures closes { Closes ended (over_of self.new) result }
    {
        match ended {
            Ended::NoMemory => Err(NoMemory),
            ended => {
                self.over = Some(ended);
                Ok(())
            }
        }
    }

    /// Pops the monitors that may be sent an update, where all that was said is taken.
    pub fn fill<D: Desk>(&mut self, desk: &mut D) -> Result<(), NoMemory>
        requires living { IsLiving (D.seat desk.old) (served_view self.old) }
        requires ready { over_of self.old ≡ None → IsReady (D.seat desk.old) (served_view self.old) }
        ensures over { over_of self.new ≡ over_of self.old }
        ensures living { IsLiving (D.seat desk.new) (served_view self.new) }
        ensures ready { OnOk result (over_of self.new ≡ None → IsReady (D.seat desk.new) (served_view self.new)) }
        ensures fills { (first : Seat) (told : Option MomentTold) (heard given : List ℕ) → HasServed first (D.seat desk.old) told heard given (served_view self.old) (over_of self.old) → Fills first (D.seat desk.new) told heard given (served_view self.new) (over_of self.new) result }
    {
        if self.over.is_some() {
            return Ok(());
        }
        if !self.serving.output().is_empty() {
            return Ok(());
        }
        match self.serving.pump(desk) {
            Ok(_) => Ok(()),
            Err(no_memory) => Err(no_memory),
        }
    }

    /// Ends the session and its subscriptions. It takes no memory.
    pub fn finish<D: Desk>(self, desk: &mut D)
        requires { IsLiving (D.seat desk.old) (served_view self) }
        ensures { Finished (shown_in (D.seat desk.old) (served_view self)) (D.seat desk.new) }
    {
        self.serving.finish(desk);
    }
}
