// The client's end of an exchange.
ghost use Rattle.std.specs.Prelude.{◌≡◌, ◌≤◌, ◌++◌, ◌∷◌, [], ℕ, List, Option, length, take, true, IfOk};
ghost use Rattle.pva_frames.specs.declared.event.Event.{Event};
ghost use Rattle.cli_session.specs.declared.ask.Ask.{Ask as AskSaid};
ghost use Rattle.cli_session.specs.Fitting.{told_fits};
ghost use Rattle.cli_session.specs.Seen.{report_view};
ghost use Rattle.cli_session.specs.Text.{client_text, told_text};
ghost use Rattle.cli_within.specs.Ends.{ending_of};
ghost use Rattle.cli_within.specs.Telling.{Puts, first_ending, stop_for};

use crate::stop::{Ending, Stop};
use cli_session::{Ask, Client, ClientFault, Report};
use cli_text::{print_part, print_type};
use prog_source::{Printed, print};
use pva_frames::{Assembler, Event, Next};
use pva_outside::Sink;
use pvd_type::NoMemory;
use std::alloc::Global;

/// A client behind the bytes of its stream, which prints what it tells.
#[derive(Drop)]
pub struct ClientEnd {
    client: Client,
    stream: Assembler,
    /// How the operation ended, if it did.
    ended: Option<Ending>,
}

/// Lets a value go in a function of its own, since its variants would else be let go one by one in the caller's proof.
pub fn discard<T: Drop>(_value: T) {}

/// The text of a report: the lines of a value or of a type. The end of an operation has none.
fn text_of(alloc: Global, report: &Report) -> Result<Vec<u8>, NoMemory>
    requires { told_fits (report_view report.now) ≡ true }
    ensures { IfOk result (λ text. text.items ≡ told_text (report_view report.now)) }
{
    let mut text = Vec::new(alloc);
    match report {
        Report::Part {
            ty,
            mask,
            overrun,
            value,
        } => print_part(alloc, &mut text, ty, mask, overrun, value)?,
        Report::Kind(ty) => print_type(alloc, &mut text, ty)?,
        Report::Refused(_) | Report::Finished => {}
    }
    Ok(text)
}

/// How an operation ended that tells this.
fn ending_in(report: &Report) -> Option<Ending>
    ensures { result ≡ ending_of (report_view report.now ∷ []) }
{
    match report {
        Report::Part { .. } | Report::Kind(_) => None,
        Report::Refused(_) => Some(Ending::Refused),
        Report::Finished => Some(Ending::Finished),
    }
}

/// Prints a text.
fn print_all<S: Sink>(sink: &mut S, text: &[u8]) -> Result<(), Stop>
    ensures { Puts (S.written sink.old) (S.written sink.new) (S.faults sink.old) (S.faults sink.new) text.now result }
{
    match print(sink, text) {
        Printed::Whole => Ok(()),
        Printed::Failed => Err(Stop::Sink),
        Printed::NoMemory => Err(Stop::NoMemory),
    }
}

/// Prints a report.
fn print_report<S: Sink>(alloc: Global, report: Report, sink: &mut S) -> Result<(), Stop>
    requires { told_fits (report_view report) ≡ true }
    ensures { Puts (S.written sink.old) (S.written sink.new) (S.faults sink.old) (S.faults sink.new) (told_text (report_view report)) result }
{
    let text = text_of(alloc, &report);
    discard(report);
    match text {
        Ok(text) => print_all(sink, &text),
        Err(_) => Err(Stop::NoMemory),
    }
}

/// How an operation ended that tells this, where it had ended so, or not.
fn first_ending(ended: Option<Ending>, report: &Report) -> Option<Ending>
    ensures { result ≡ first_ending ended (ending_of (report_view report.now ∷ [])) }
{
    match ended {
        Some(ending) => Some(ending),
        None => ending_in(report),
    }
}

/// Prints the name of the operation's channel and a line feed.
pub fn print_name<S: Sink>(alloc: Global, ask: &Ask, sink: &mut S) -> Result<(), Stop>
    ensures { Puts (S.written sink.old) (S.written sink.new) (S.faults sink.old) (S.faults sink.new) (ask.now.name ++ 10 ∷ []) result }
{
    match line_of(alloc, ask.name.as_str()) {
        Ok(line) => print_all(sink, &line),
        Err(_) => Err(Stop::NoMemory),
    }
}

/// A text and a line feed.
fn line_of(alloc: Global, text: &str) -> Result<Vec<u8>, NoMemory>
    ensures { IfOk result (λ line. line.items ≡ text.now ++ 10 ∷ []) }
{
    let mut line = Vec::new(alloc);
    line.extend_from_slice(text.as_bytes())?;
    line.push(b'\n')?;
    Ok(line)
}

/// Why a client that failed stops its end.
fn stop_of(fault: ClientFault) -> Stop
    ensures { result ≡ stop_for fault }
{
    match fault {
        ClientFault::NoMemory => Stop::NoMemory,
        fault => Stop::Client(fault),
    }
}

impl ClientEnd {
    ghost use Rattle.cli_within.specs.Ends.{client_view, HasHeard, HasPrinted, HasTaken, Hears, text_for};
    ghost use Rattle.cli_within.specs.Telling.{HearsEvent, HearsEvents, IsEmptied, IsUnframed, Refuses, Tells};

    /// A client that has heard nothing yet. It takes no memory.
    pub fn start(alloc: Global, ask: Ask) -> ClientEnd
        ensures { HasTaken ask [] [] (client_view result) }
    {
        ClientEnd {
            client: Client::start(alloc, ask),
            stream: Assembler::new(alloc),
            ended: None,
        }
    }

    /// How the operation ended, if it did.
    pub fn ended(&self) -> Option<Ending>
        ensures { result ≡ (client_view self.now).ended }
    {
        self.ended
    }

    /// What is to be given to the server.
    pub fn output(&self) -> &[u8]
        ensures { result.now ≡ (client_view self.now).client.output }
    {
        self.client.output()
    }

    /// So much of it was given. It takes no memory.
    pub fn took(&mut self, count: usize)
        requires { count ≤ length (client_view self.old).client.output }
        ensures { (ask : AskSaid) (taken given : List ℕ) → HasTaken ask taken given (client_view self.old) → HasTaken ask taken (given ++ take count (client_view self.old).client.output) (client_view self.new) }
    {
        self.client.took(count);
    }

    /// Prints all that the client tells.
    fn print_told<S: Sink>(&mut self, alloc: Global, sink: &mut S) -> Result<(), Stop>
        ensures ask { (client_view self.new).ask ≡ (client_view self.old).ask }
        ensures stream { (client_view self.new).stream ≡ (client_view self.old).stream }
        ensures tells { Tells (client_view self.old) (client_view self.new) (S.written sink.old) (S.written sink.new) (S.faults sink.old) (S.faults sink.new) result }
    {
        'reports: loop {
            let Some(report) = self.client.next_report() else {
                return Ok(());
            };
            self.ended = first_ending(self.ended, &report);
            match print_report(alloc, report, sink) {
                Ok(()) => continue 'reports,
                Err(stop) => return Err(stop),
            }
        }
    }

    /// Hears an event, and prints what the client then tells.
    fn hear_event<S: Sink>(&mut self, alloc: Global, sink: &mut S, event: Event) -> Result<(), Stop>
        ensures stream { (client_view self.new).stream ≡ (client_view self.old).stream }
        ensures unframed { IsUnframed result }
        ensures hears { (ask : AskSaid) (start : Option (List ℕ)) (before : ℕ) (events : List Event) (given : List ℕ) → HasHeard ask events given (client_view self.old) → HasPrinted start (S.written sink.old) before (S.faults sink.old) (client_text ask events) → HearsEvent ask events event given (client_view self.new) start (S.written sink.new) before (S.faults sink.new) result }
    {
        match self.client.handle(alloc, event) {
            Ok(()) => self.print_told(alloc, sink),
            Err(fault) => Err(stop_of(fault)),
        }
    }

    /// Hears the events that the stream has brought.
    fn hear_ready<S: Sink>(&mut self, alloc: Global, sink: &mut S) -> Result<(), Stop>
        ensures left { (client_view self.new).stream.left ≡ (client_view self.old).stream.left }
        ensures emptied { IsEmptied (client_view self.new) result }
        ensures refuses { Refuses (client_view self.new) result }
        ensures hears { (ask : AskSaid) (start : Option (List ℕ)) (before : ℕ) (events : List Event) (given : List ℕ) → HasHeard ask events given (client_view self.old) → HasPrinted start (S.written sink.old) before (S.faults sink.old) (client_text ask events) → HearsEvents ask (events ++ (client_view self.old).stream.events) given (client_view self.new) start (S.written sink.new) before (S.faults sink.new) result }
    {
        'events: loop {
            match self.stream.next() {
                Ok(next) => match next {
                    Next::Event(event) => match self.hear_event(alloc, sink, event) {
                        Ok(()) => continue 'events,
                        Err(stop) => return Err(stop),
                    },
                    Next::Fault(fault) => match self.ended {
                        // What stands behind the end of the operation isn't judged.
                        Some(_) => return Ok(()),
                        None => return Err(Stop::Frame(fault)),
                    },
                    Next::More => return Ok(()),
                },
                Err(_) => return Err(Stop::NoMemory),
            }
        }
    }

    /// Takes the next bytes of the server, hears the events that they bring, and prints what the client tells. A header that is
    /// refused behind the operation's end is passed over, as all that comes then.
    pub fn hear<S: Sink>(&mut self, alloc: Global, sink: &mut S, bytes: &[u8]) -> Result<(), Stop>
        ensures { (ask : AskSaid) (start : Option (List ℕ)) (before : ℕ) (taken given : List ℕ) → HasTaken ask taken given (client_view self.old) → HasPrinted start (S.written sink.old) before (S.faults sink.old) (text_for ask taken) → Hears ask (taken ++ bytes.now) given (client_view self.new) start (S.written sink.new) before (S.faults sink.new) result }
    {
        let Ok(()) = self.stream.feed(bytes) else {
            return Err(Stop::NoMemory);
        };
        self.hear_ready(alloc, sink)
    }
}
