ghost use Rattle.std.specs.Prelude.{◌≡◌, ◌≤◌, ◌<◌, ◌+◌, ◌++◌, [], true, map, length, take, drop, List, ℕ, None, Some, Err, IfSome};
ghost use Rattle.std.specs.VecDeque.{deque_len, deque_capacity};
ghost use Rattle.pva_frames.specs.declared.event.Event.{Event};
ghost use Rattle.cli_session.specs.Fitting.{all_fit, told_fits};
ghost use Rattle.cli_session.specs.Seen.{report_view, reports_view, telling_view};
ghost use Rattle.cli_session.specs.Steps.{Told};

use crate::answer::discard;
use crate::ask::Ask;
use crate::fault::ClientFault;
use crate::report::{Report, Telling};
use crate::session::Session;
use pva_frames::Event;
use std::alloc::Global;
use std::collections::VecDeque;

/// One operation of a pvAccess client, as a machine over what its connection brings (pvAccess Protocol
/// Specification, "Application Messages"): events in, bytes and reports out. It awaits one reply at a time
/// and answers it with the next message of its operation. Messages that are no replies are passed over, and
/// so is everything once the operation has ended.
#[derive(Drop)]
pub struct Client {
    ask: Ask,
    session: Session,
    /// What was told and is not yet handed out.
    reports: VecDeque<Report>,
    output: Vec<u8>,
    /// So many bytes of the output were taken.
    sent: usize,
    fault: Option<ClientFault>,
    ghost within: { sent ≤ length output.items },
    ghost fit: { all_fit (map report_view reports.items) ≡ true },
}

/// Puts what was told behind the reports, which have room for it.
fn put_reports(reports: &mut VecDeque<Report>, telling: Telling)
    requires { deque_len reports.old + 2 ≤ deque_capacity reports.old }
    ensures { map report_view reports.new.items ≡ map report_view reports.old.items ++ telling_view telling }
{
    let Telling { report, finished } = telling;
    put_report(reports, report);
    if finished {
        reports.push_back_reserved(Report::Finished);
    }
}

/// Puts a report behind the others, which leave room for one more.
fn put_report(reports: &mut VecDeque<Report>, report: Option<Report>)
    requires { deque_len reports.old + 2 ≤ deque_capacity reports.old }
    ensures told { map report_view reports.new.items ≡ map report_view reports.old.items ++ reports_view report }
    ensures room { deque_len reports.new < deque_capacity reports.new }
{
    if let Some(report) = report {
        reports.push_back_reserved(report);
    }
}

impl Client {
    ghost use Rattle.cli_session.specs.Calls.{Handles, Keeps, Stands, Continues, Accounts, Stays, Gives};
    ghost use Rattle.cli_session.specs.State.{opening};
    ghost use Rattle.cli_session.specs.Views.{view_of, ask_of};

    /// A client that has heard nothing yet. It takes no memory.
    pub fn start(alloc: Global, ask: Ask) -> Client
        ensures ask { ask_of result ≡ ask }
        ensures view { view_of result ≡ record { state = opening ask; told = []; output = []; fault = None } }
        ensures stands { Stands ask [] [] [] (view_of result) }
    {
        let session = Session::start(alloc, &ask);
        Client {
            ask,
            session,
            reports: VecDeque::new(alloc),
            output: Vec::new(alloc),
            sent: 0,
            fault: None,
        }
    }

    /// Takes the next event of the connection. What it tells is then to be asked for by `next_report`, and
    /// what the client says by `output`.
    ///
    /// A fault is the first that the event has: a message that can't be read; an id that isn't the client's;
    /// a reply of another command than is awaited; one of another subcommand; words that give no value; or
    /// want of memory. The client has then failed for good, and answers the same to every further event;
    /// nothing is told or said for this one or a later one.
    pub fn handle(&mut self, alloc: Global, event: Event) -> Result<(), ClientFault>
        ensures handles { Handles (ask_of self.old) (view_of self.old) (view_of self.new) event result }
        ensures ask { ask_of self.new ≡ ask_of self.old }
        ensures stands { (events : List Event) (given : List Told) (taken : List ℕ) → Stands (ask_of self.old) events given taken (view_of self.old) → Continues (ask_of self.old) events given taken (view_of self.new) event result }
        ensures stays { Stays (view_of self.old) (view_of self.new) result }
    {
        if let Some(fault) = self.fault {
            return Err(fault);
        }
        let mut out = Vec::new(alloc);
        match self.session.hear(alloc, &self.ask, &mut out, &event) {
            Ok(telling) => self.keep(&out, telling),
            Err(fault) => self.fail(fault),
        }
    }

    /// Keeps what an event brought about.
    fn keep(&mut self, out: &[u8], telling: Telling) -> Result<(), ClientFault>
        requires { all_fit (telling_view telling) ≡ true }
        ensures keeps { Keeps (view_of self.old) (view_of self.new) out.now (telling_view telling) result }
        ensures ask { ask_of self.new ≡ ask_of self.old }
    {
        if let Err(_) = self.reports.reserve(2) {
            discard(telling);
            return self.fail(ClientFault::NoMemory);
        }
        if let Err(_) = self.output.extend_from_slice(out) {
            discard(telling);
            return self.fail(ClientFault::NoMemory);
        }
        put_reports(&mut self.reports, telling);
        Ok(())
    }

    /// The client has failed.
    fn fail(&mut self, fault: ClientFault) -> Result<(), ClientFault>
        ensures result { result ≡ Err fault }
        ensures view { view_of self.new ≡ record (view_of self.old) { fault = Some fault } }
        ensures ask { ask_of self.new ≡ ask_of self.old }
    {
        self.fault = Some(fault);
        Err(fault)
    }

    /// The next of what the client has told and wasn't asked for yet; None exactly where that is all. It
    /// takes no memory.
    pub fn next_report(&mut self) -> Option<Report>
        ensures gives { Gives (view_of self.old) (view_of self.new) (reports_view result) }
        ensures fits { IfSome result (λ r. told_fits (report_view r) ≡ true) }
        ensures ask { ask_of self.new ≡ ask_of self.old }
        ensures accounts { (events : List Event) (given : List Told) (taken : List ℕ) → Accounts (ask_of self.old) events given taken (view_of self.old) → Accounts (ask_of self.old) events (given ++ reports_view result) taken (view_of self.new) }
        ensures stands { (events : List Event) (given : List Told) (taken : List ℕ) → Stands (ask_of self.old) events given taken (view_of self.old) → Stands (ask_of self.old) events (given ++ reports_view result) taken (view_of self.new) }
    {
        self.reports.pop_front()
    }

    /// What is still to be written.
    pub fn output(&self) -> &[u8]
        ensures { result.now ≡ (view_of self.now).output }
    {
        &self.output[self.sent..]
    }

    /// So many bytes of the output were written, at most as many as it has. It takes no memory.
    pub fn took(&mut self, count: usize)
        requires { count ≤ length (view_of self.old).output }
        ensures view { view_of self.new ≡ record (view_of self.old) { output = drop count (view_of self.old).output } }
        ensures ask { ask_of self.new ≡ ask_of self.old }
        ensures accounts { (events : List Event) (given : List Told) (taken : List ℕ) → Accounts (ask_of self.old) events given taken (view_of self.old) → Accounts (ask_of self.old) events given (taken ++ take count (view_of self.old).output) (view_of self.new) }
        ensures stands { (events : List Event) (given : List Told) (taken : List ℕ) → Stands (ask_of self.old) events given taken (view_of self.old) → Stands (ask_of self.old) events given (taken ++ take count (view_of self.old).output) (view_of self.new) }
    {
        self.sent += count;
        if self.sent == self.output.len() {
            self.output.clear();
            self.sent = 0;
        }
    }
}
