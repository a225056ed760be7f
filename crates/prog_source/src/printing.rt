// What becomes of a text that is printed.
ghost use Rattle.prog_source.specs.Printing.{IsPrinted};

use pva_outside::{Sink, SinkStep};

/// What a print came to.
#[derive(Clone, Copy, Debug, PartialEq, Eq)]
pub enum Printed {
    /// All bytes were taken.
    Whole,
    /// The sink failed.
    Failed,
    /// Memory ran out in the sink.
    NoMemory,
}

/// Prints a text, in as many writes as the sink wants.
pub fn print<S: Sink>(sink: &mut S, text: &[u8]) -> Printed
    ensures { IsPrinted (S.written sink.old) (S.written sink.new) (S.faults sink.old) (S.faults sink.new) text.now result }
{
    let mut rest = text;
    while !rest.is_empty() {
        match sink.write(rest) {
            SinkStep::Took(count) => rest = &rest[count..],
            SinkStep::Failed => return Printed::Failed,
            SinkStep::NoMemory => return Printed::NoMemory,
        }
    }
    Printed::Whole
}
