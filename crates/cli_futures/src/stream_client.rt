// A client behind the bytes of its stream.
ghost use Rattle.std.specs.Prelude.{◌≡◌, ◌≤◌, ◌++◌, ◌||◌, [], ℕ, List, length, take, true, IfSome, OnOk, OnErr};
ghost use Rattle.pva_frames.specs.Assembled.{fed};
ghost use Rattle.cli_session.specs.declared.ask.Ask.{Ask as AskSaid};
ghost use Rattle.cli_session.specs.Fitting.{told_fits};
ghost use Rattle.cli_session.specs.Seen.{report_view, reports_view};
ghost use Rattle.cli_session.specs.Steps.{Told};
ghost use Rattle.cli_futures.specs.Taking.{ends_it, end_for};

use crate::end::{ExchangeEnd, Step};
use cli_session::{Ask, Client, ClientFault, Report};
use pva_frames::{Assembler, FrameFault, Next, NoMemory};
use std::alloc::Global;

/// A client behind the bytes of its stream.
#[derive(Drop)]
pub(crate) struct StreamClient {
    alloc: Global,
    client: Client,
    stream: Assembler,
    /// Whether the operation has ended in what was handed out.
    over: bool,
}

/// Whether an operation has ended that tells this.
fn ends_it(report: &Report) -> bool
    ensures { result ≡ ends_it (report_view report.now) }
{
    match report {
        Report::Part { .. } | Report::Kind(_) => false,
        Report::Refused(_) | Report::Finished => true,
    }
}

/// Whether an operation has ended that had ended or not, and then tells this.
fn ends_by(over: bool, report: &Report) -> bool
    ensures { result ≡ over || ends_it (report_view report.now) }
{
    if over {
        return true;
    }
    ends_it(report)
}

/// How an exchange ends whose client has failed so.
fn end_of(fault: ClientFault) -> ExchangeEnd
    ensures { result ≡ end_for fault }
{
    match fault {
        ClientFault::NoMemory => ExchangeEnd::NoMemory,
        fault => ExchangeEnd::Client(fault),
    }
}

impl StreamClient {
    ghost use Rattle.cli_futures.specs.Taking.{HandsOut, Hears, HearsNext, HasTaken, Refuses, StepFits, StopsSo, client_view};

    /// A client that has heard nothing yet. It takes no memory.
    pub(crate) fn start(alloc: Global, ask: Ask) -> StreamClient
        ensures { HasTaken ask [] [] [] (client_view result) }
    {
        StreamClient {
            alloc,
            client: Client::start(alloc, ask),
            stream: Assembler::new(alloc),
            over: false,
        }
    }

    /// Whether the operation has ended in what was handed out.
    pub(crate) fn is_over(&self) -> bool
        ensures { result ≡ (client_view self.now).over }
    {
        self.over
    }

    /// What is to be written to the server.
    pub(crate) fn output(&self) -> &[u8]
        ensures { result.now ≡ (client_view self.now).client.output }
    {
        self.client.output()
    }

    /// So many bytes of it were written. It takes no memory.
    pub(crate) fn took(&mut self, count: usize)
        requires { count ≤ length (client_view self.old).client.output }
        ensures { (ask : AskSaid) (read written : List ℕ) (told : List Told) → HasTaken ask read written told (client_view self.old) → HasTaken ask read (written ++ take count (client_view self.old).client.output) told (client_view self.new) }
    {
        self.client.took(count);
    }

    /// Takes the next bytes of the server. Without memory nothing changes.
    pub(crate) fn feed(&mut self, bytes: &[u8]) -> Result<(), NoMemory>
        ensures fed { OnOk result (client_view self.new ≡ record (client_view self.old) { stream = fed (client_view self.old).stream bytes.now }) }
        ensures short { OnErr result (client_view self.new ≡ client_view self.old) }
    {
        self.stream.feed(bytes)
    }

    /// The next of what the client has told and wasn't handed out yet, if there is more.
    fn next_report(&mut self) -> Option<Report>
        ensures hands { HandsOut (client_view self.old) (client_view self.new) (reports_view result) }
        ensures fits { IfSome result (λ r. told_fits (report_view r) ≡ true) }
    {
        let Some(report) = self.client.next_report() else {
            return None;
        };
        self.over = ends_by(self.over, &report);
        Some(report)
    }

    /// Hears the next event that the stream has brought, and says whether there was one.
    fn hear_next(&mut self) -> Result<bool, ExchangeEnd>
        ensures { HearsNext (client_view self.old) (client_view self.new) result }
    {
        match self.stream.next() {
            Ok(next) => match next {
                Next::Event(event) => match self.client.handle(self.alloc, event) {
                    Ok(()) => Ok(true),
                    Err(fault) => Err(end_of(fault)),
                },
                Next::Fault(fault) => self.refuse(fault),
                Next::More => Ok(false),
            },
            Err(_) => Err(ExchangeEnd::NoMemory),
        }
    }

    /// A header was refused. What stands behind the end of the operation isn't judged.
    fn refuse(&self, fault: FrameFault) -> Result<bool, ExchangeEnd>
        ensures { Refuses (client_view self.now).over fault result }
    {
        if self.over {
            return Ok(false);
        }
        Err(ExchangeEnd::Frame(fault))
    }

    /// Hears the events that the stream has brought until the client tells something. It waits where all
    /// of them were heard.
    pub(crate) fn next_told(&mut self) -> Step
        ensures hears { Hears (client_view self.old) (client_view self.new) result }
        ensures stops { StopsSo result }
        ensures fits { StepFits result }
    {
        'events: loop {
            if let Some(report) = self.next_report() {
                return Step::Told(report);
            }
            match self.hear_next() {
                Ok(heard) => {
                    if heard {
                        continue 'events;
                    }
                    return Step::Waits;
                }
                Err(end) => return Step::Ended(end),
            }
        }
    }
}
