// A link in memory that is always ready.
ghost use Rattle.std.specs.Prelude.{◌≡◌, ◌≤◌, ◌<◌, Some, length, min, vec_len};
ghost use Rattle.pva_outside.specs.Wire.{Reads, Writes, Steadily};
ghost use Rattle.pva_outside.specs.Turns.{Gives, Takes};

use crate::count::raise;
use crate::{Link, ReadStep, WriteStep};
use std::alloc::Global;

/// A link in memory that gives and takes all that it can at each call. It is steady: it is never idle
/// and never fails, and its end comes where all its input was given. Closing it changes nothing.
#[derive(Drop)]
pub struct PlainLink {
    input: Vec<u8>,
    at: usize,
    written: Vec<u8>,
    ends: u64,
    ghost within: { at ≤ vec_len input },
}

impl PlainLink {
    ghost use Rattle.pva_outside.specs.PlainLink.{plain_wire, plain_start};

    /// A link with this input, nothing written, and counts of 0.
    pub fn new(alloc: Global, input: Vec<u8>) -> Self
        ensures { plain_wire result ≡ plain_start input.items }
    {
        PlainLink {
            input,
            at: 0,
            written: Vec::new(alloc),
            ends: 0,
        }
    }

    /// The bytes written.
    pub fn written(&self) -> &[u8]
        ensures { (plain_wire self.now).written ≡ Some result.now }
    {
        &self.written
    }
}

impl Link for PlainLink {
    ghost use Rattle.pva_outside.specs.PlainLink.{plain_wire, plain_left};

    ghost wire = { plain_wire };

    fn read(&mut self, buffer: &mut [u8]) -> ReadStep
        requires { 0 < length buffer.old }
        ensures step { Reads (plain_wire self.old) (plain_wire self.new) result buffer.new }
        ensures steady { Steadily (plain_wire self.old) (plain_wire self.new) }
        ensures all { Gives (min (length buffer.old) (length (plain_left self.old))) result }
    {
        let n = buffer.len().min(self.input.len() - self.at);
        if n == 0 {
            raise(&mut self.ends);
            return ReadStep::End;
        }
        buffer[..n].copy_from_slice(&self.input[self.at..self.at + n]);
        self.at += n;
        ReadStep::Got(n)
    }

    fn write(&mut self, bytes: &[u8]) -> WriteStep
        requires { 0 < length bytes.now }
        ensures step { Writes (plain_wire self.old) (plain_wire self.new) result bytes.now }
        ensures steady { Steadily (plain_wire self.old) (plain_wire self.new) }
        ensures all { Takes (length bytes.now) result }
    {
        match self.written.extend_from_slice(bytes) {
            Ok(()) => WriteStep::Took(bytes.len()),
            Err(_) => WriteStep::NoMemory,
        }
    }

    fn close(&mut self) {}
}
