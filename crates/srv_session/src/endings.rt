// Requests and channels that end, with their subscriptions (pvAccess Protocol Specification, "Destroy request" and "Channel
// Life-cycle").
ghost use Rattle.std.specs.Prelude.{◌≡◌};

use crate::handling::stopping;
use crate::listing::unlist;
use crate::session::Session;
use crate::stop::SessionStop;
use chan_table::Ask;
use desk_api::{Desk, Sub};

/// The subscription of a request, if it is a monitor.
fn subscription_of(ask: Ask<Sub>) -> Option<Sub>
    ensures { result ≡ ask.sub }
{
    ask.sub
}

impl Session {
    ghost use Rattle.std.specs.Prelude.{None};
    ghost use Rattle.std.specs.FinMap.{get as at, remove};
    ghost use Rattle.desk_api.specs.Calls.{Calls};
    ghost use Rattle.srv_session.specs.State.{on_only, slot_of, slot_of_sub, slots_of, without_channel};
    ghost use Rattle.srv_session.specs.Calls.{AreLiving, Finished, Holds};
    ghost use Rattle.srv_session.specs.Rows.{AreEndingsOf};
    ghost use Rattle.srv_session.specs.Tasks.{asks, asked_end, asked_request_end};
    ghost use Rattle.srv_session.specs.Views.{state_of, output_of, show};
    ghost use Rattle.srv_session.specs.Watching.{HeedsAnytime};

    /// Ends the subscription of a request that was taken out of the table, if it has one. It takes no memory.
    fn end_taken<D: Desk>(&mut self, req: u32, ask: Ask<Sub>, desk: &mut D)
        requires gone { at (state_of self.old).requests req ≡ None }
        requires living { AreLiving (D.seat desk.old).log (slot_of_sub ask.sub) }
        ensures calls { Calls (D.seat desk.old) (D.seat desk.new) (AreEndingsOf (slot_of_sub ask.sub)) }
        ensures base { (D.seat desk.new).seen.base ≡ (D.seat desk.old).seen.base }
        ensures state { state_of self.new ≡ state_of self.old }
        ensures output { output_of self.new ≡ output_of self.old }
    {
        desk.has_legal_history();
        let Some(sub) = subscription_of(ask) else {
            return;
        };
        unlist(&mut self.monitors, req);
        desk.unsubscribe(sub);
    }

    /// Ends the request of this id, if there is one, and its subscription with it. It takes no memory.
    pub(crate) fn end_request<D: Desk>(&mut self, req: u32, desk: &mut D)
        requires { AreLiving (D.seat desk.old).log (slot_of (at (state_of self.old).requests req)) }
        ensures calls { Calls (D.seat desk.old) (D.seat desk.new) (AreEndingsOf (slot_of (at (state_of self.old).requests req))) }
        ensures base { (D.seat desk.new).seen.base ≡ (D.seat desk.old).seen.base }
        ensures state { state_of self.new ≡ record (state_of self.old) { requests = remove (state_of self.old).requests req } }
        ensures output { output_of self.new ≡ output_of self.old }
    {
        desk.has_legal_history();
        let Some(ask) = self.table.remove(req) else {
            return;
        };
        self.end_taken(req, ask, desk);
    }

    /// Ends a request, where it is on this channel, and its subscription with it.
    pub(crate) fn destroy_request<D: Desk>(
        &mut self,
        sid: u32,
        req: u32,
        desk: &mut D,
    ) -> Result<(), SessionStop>
        requires { Holds (D.seat desk.old).log (state_of self.old) }
        ensures { HeedsAnytime (D.seat desk.old) (D.seat desk.new) self.old self.new (asks (asked_request_end (state_of self.old) sid req) (state_of self.old).types) result }
    {
        desk.has_legal_history();
        if self.is_on(sid, req) {
            self.end_request(req, desk);
        }
        Ok(())
    }

    /// Ends the requests on a channel by their rising ids, and their subscriptions with them. It takes no memory.
    fn end_requests_on<D: Desk>(&mut self, sid: u32, desk: &mut D)
        requires { AreLiving (D.seat desk.old).log (slots_of (on_only sid (state_of self.old).requests)) }
        ensures calls { Calls (D.seat desk.old) (D.seat desk.new) (AreEndingsOf (slots_of (on_only sid (state_of self.old).requests))) }
        ensures base { (D.seat desk.new).seen.base ≡ (D.seat desk.old).seen.base }
        ensures state { state_of self.new ≡ record (state_of self.old) { requests = without_channel sid (state_of self.old).requests } }
        ensures output { output_of self.new ≡ output_of self.old }
    {
        desk.has_legal_history();
        while let Some(taken) = self.table.take_of(sid) {
            self.end_taken(taken.0, taken.1, desk);
        }
    }

    /// Ends a channel and its requests, where it is open under both ids. Its subscriptions end before the reply is written.
    pub(crate) fn destroy_channel<D: Desk>(
        &mut self,
        sid: u32,
        cid: u32,
        desk: &mut D,
    ) -> Result<(), SessionStop>
        requires { Holds (D.seat desk.old).log (state_of self.old) }
        ensures { HeedsAnytime (D.seat desk.old) (D.seat desk.new) self.old self.new (asks (asked_end (state_of self.old) sid cid) (state_of self.old).types) result }
    {
        desk.has_legal_history();
        if !self.table.has_channel(sid, cid) {
            return Ok(());
        }
        self.end_requests_on(sid, desk);
        self.table.remove_channel(sid, cid);
        stopping(self.say_destroyed(sid, cid))
    }

    /// Ends all requests by their rising ids, and their subscriptions with them. It takes no memory.
    fn end_all<D: Desk>(&mut self, desk: &mut D)
        requires { AreLiving (D.seat desk.old).log (slots_of (state_of self.old).requests) }
        ensures { Finished (show (D.seat desk.old) self.old) (D.seat desk.new) }
    {
        desk.has_legal_history();
        while let Some(req) = self.table.next_id(0) {
            self.end_request(req, desk);
        }
    }

    /// Ends the session and its subscriptions, by the rising ids of their requests. What is still to be written goes with it. It may
    /// be called behind every answer of the other calls, and takes no memory.
    pub fn finish<D: Desk>(self, desk: &mut D)
        requires { AreLiving (D.seat desk.old).log (slots_of (state_of self).requests) }
        ensures { Finished (show (D.seat desk.old) self) (D.seat desk.new) }
    {
        let mut session = self;
        session.end_all(desk);
    }
}
