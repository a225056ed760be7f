// Where a program prints: the trait, the sink over a writer, and the sink in memory.
ghost use Rattle.std.specs.Prelude.{◌≡◌, ◌<◌, ◌↔◌, ℕ, List, [], Option, Some, Contains, length};
ghost use Rattle.pva_outside.specs.Count.{RoseByOne};
ghost use Rattle.pva_outside.specs.Sinks.{Sinks};

use crate::count::raise;
use crate::refusal::{Refusal, refusal_of};
use std::alloc::Global;
use std::io::Write;

/// What one call of `Sink::write` came to.
#[derive(Clone, Copy, Debug, PartialEq, Eq)]
pub enum SinkStep {
    /// So many of the first bytes were taken: at least 1, and at most all.
    Took(usize),
    /// The sink failed, and its count of faults rose. No byte was taken.
    Failed,
    /// Memory ran out. No byte was taken and no count rose.
    NoMemory,
}

/// Bytes that go out, with nothing that comes back.
pub trait Sink {
    /// The bytes written, where they are told.
    ghost written: { Self → Option (List ℕ) };

    /// How often the sink failed. The count never falls, and stands still at 2^64 - 1.
    ghost faults: { Self → ℕ };

    /// Takes some of the first bytes. The slice isn't empty.
    fn write(&mut self, bytes: &[u8]) -> SinkStep
        requires { 0 < length bytes.now }
        ensures { Sinks (written self.old) (written self.new) (faults self.old) (faults self.new) result bytes.now };
}

/// A sink over a writer of std, as standard output (`StreamSink::new(rt.stdout())`).
///
/// Each call is one call of the writer, and nothing is flushed, so the writer has to be one that keeps
/// nothing back. An error of kind `OutOfMemory` is `NoMemory`. Every other one is a fault, and so is a
/// write of no bytes.
#[derive(Drop)]
pub struct StreamSink<W: Write + Drop> {
    writer: W,
    faults: u64,
}

impl<W: Write + Drop> StreamSink<W> {
    ghost use Rattle.pva_outside.specs.StreamSink.{stream_bytes, stream_faults};

    /// A sink that writes to `writer`, with a count of 0.
    pub fn new(writer: W) -> Self
        ensures written { stream_bytes W.contents result ≡ W.contents writer }
        ensures faults { stream_faults result ≡ 0 }
    {
        StreamSink { writer, faults: 0 }
    }
}

impl<W: Write + Drop> Sink for StreamSink<W> {
    ghost written = { λ s. W.contents s.writer };

    ghost faults = { λ s. s.faults };

    fn write(&mut self, bytes: &[u8]) -> SinkStep {
        match self.writer.write(bytes) {
            Ok(0) => {
                raise(&mut self.faults);
                SinkStep::Failed
            }
            Ok(count) => SinkStep::Took(count),
            Err(error) => match refusal_of(&error) {
                Refusal::NoMemory => SinkStep::NoMemory,
                Refusal::Idle | Refusal::Fault => {
                    raise(&mut self.faults);
                    SinkStep::Failed
                }
            },
        }
    }
}

/// A sink in memory that takes all it is given, but at the calls that are to fail.
#[derive(Drop)]
pub struct MemorySink {
    bytes: Vec<u8>,
    calls: u64,
    failing: Vec<u64>,
    faults: u64,
}

impl MemorySink {
    ghost use Rattle.pva_outside.specs.MemorySink.{sink_bytes, sink_calls, sink_faults, failing_calls};

    /// A sink with nothing written and counts of 0. The calls with the numbers in `failing`, counted
    /// from 1, fail.
    pub fn new(alloc: Global, failing: Vec<u64>) -> Self
        ensures bytes { sink_bytes result ≡ [] }
        ensures calls { sink_calls result ≡ 0 }
        ensures faults { sink_faults result ≡ 0 }
        ensures failing { failing_calls result ≡ failing.items }
    {
        MemorySink {
            bytes: Vec::new(alloc),
            calls: 0,
            failing,
            faults: 0,
        }
    }

    /// The bytes written.
    pub fn written(&self) -> &[u8]
        ensures { result.now ≡ sink_bytes self.now }
    {
        &self.bytes
    }
}

impl Sink for MemorySink {
    ghost use Rattle.pva_outside.specs.MemorySink.{sink_bytes, sink_calls, sink_faults, failing_calls};

    ghost written = { λ s. Some (sink_bytes s) };

    ghost faults = { λ s. s.faults };

    fn write(&mut self, bytes: &[u8]) -> SinkStep
        requires { 0 < length bytes.now }
        ensures step { Sinks (Some (sink_bytes self.old)) (Some (sink_bytes self.new)) (sink_faults self.old) (sink_faults self.new) result bytes.now }
        ensures counted { RoseByOne (sink_calls self.old) (sink_calls self.new) }
        ensures failing { failing_calls self.new ≡ failing_calls self.old }
        ensures fails { (result ≡ SinkStep.Failed) ↔ Contains (failing_calls self.old) (sink_calls self.new) }
        ensures all { (n : ℕ) → result ≡ SinkStep.Took n → n ≡ length bytes.now }
    {
        raise(&mut self.calls);
        if self.failing.contains(&self.calls) {
            raise(&mut self.faults);
            return SinkStep::Failed;
        }
        match self.bytes.extend_from_slice(bytes) {
            Ok(()) => SinkStep::Took(bytes.len()),
            Err(_) => SinkStep::NoMemory,
        }
    }
}
