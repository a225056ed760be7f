// A link in memory that follows a script.
ghost use Rattle.std.specs.Prelude.{◌≡◌, ◌≤◌, ◌<◌, Some, drop, length, min, vec_len};
ghost use Rattle.pva_outside.specs.Wire.{Reads, Writes, Steadily};
ghost use Rattle.pva_outside.specs.Turns.{Gives, Takes, ReadsBy, WritesBy};

use crate::count::raise;
use crate::{Link, ReadStep, WriteStep};
use std::alloc::Global;

/// What one call of a `MemoryLink` meets.
#[derive(Clone, Copy, Debug, PartialEq, Eq)]
pub enum Turn {
    /// At most so many bytes move. 0 counts as 1.
    Give(usize),
    /// No byte moves: the call answers `Idle`.
    Idle,
    /// The call fails.
    Fail,
}

/// A link in memory that follows its script, one turn for each call of `read` or `write`. After the
/// script each call gives or takes all that it can. Closing it changes nothing.
#[derive(Drop)]
pub struct MemoryLink {
    input: Vec<u8>,
    at: usize,
    written: Vec<u8>,
    script: Vec<Turn>,
    next: usize,
    faults: u64,
    idles: u64,
    ends: u64,
    ghost within: { at ≤ vec_len input },
}

impl MemoryLink {
    ghost use Rattle.pva_outside.specs.MemoryLink.{memory_wire, memory_start, memory_left, turns_left, first_turn};

    /// A link with this input and this script, nothing written, and counts of 0.
    pub fn new(alloc: Global, input: Vec<u8>, script: Vec<Turn>) -> Self
        ensures wire { memory_wire result ≡ memory_start input.items }
        ensures script { turns_left result ≡ script.items }
    {
        MemoryLink {
            input,
            at: 0,
            written: Vec::new(alloc),
            script,
            next: 0,
            faults: 0,
            idles: 0,
            ends: 0,
        }
    }

    /// The bytes written.
    pub fn written(&self) -> &[u8]
        ensures { (memory_wire self.now).written ≡ Some result.now }
    {
        &self.written
    }

    /// How often it failed.
    pub fn faults(&self) -> u64
        ensures { result ≡ (memory_wire self.now).faults }
    {
        self.faults
    }

    /// How often it was idle.
    pub fn idles(&self) -> u64
        ensures { result ≡ (memory_wire self.now).idles }
    {
        self.idles
    }

    /// How often its input ended.
    pub fn ends(&self) -> u64
        ensures { result ≡ (memory_wire self.now).ends }
    {
        self.ends
    }

    // The turn of this call.
    fn turn(&mut self) -> Turn
        ensures wire { memory_wire self.new ≡ memory_wire self.old }
        ensures turn { result ≡ first_turn (turns_left self.old) }
        ensures others { turns_left self.new ≡ drop 1 (turns_left self.old) }
    {
        let Some(turn) = self.script.get(self.next) else {
            return Turn::Give(usize::MAX);
        };
        self.next += 1;
        *turn
    }

    // Gives at most this many bytes, or ends.
    fn give(&mut self, most: usize, buffer: &mut [u8]) -> ReadStep
        requires some { 0 < most }
        requires room { 0 < length buffer.old }
        ensures step { Reads (memory_wire self.old) (memory_wire self.new) result buffer.new }
        ensures all { Gives (min most (min (length buffer.old) (length (memory_left self.old)))) result }
        ensures script { turns_left self.new ≡ turns_left self.old }
    {
        let n = most.min(buffer.len()).min(self.input.len() - self.at);
        if n == 0 {
            raise(&mut self.ends);
            return ReadStep::End;
        }
        buffer[..n].copy_from_slice(&self.input[self.at..self.at + n]);
        self.at += n;
        ReadStep::Got(n)
    }

    // Takes at most this many bytes.
    fn take(&mut self, most: usize, bytes: &[u8]) -> WriteStep
        requires some { 0 < most }
        requires given { 0 < length bytes.now }
        ensures step { Writes (memory_wire self.old) (memory_wire self.new) result bytes.now }
        ensures all { Takes (min most (length bytes.now)) result }
        ensures script { turns_left self.new ≡ turns_left self.old }
    {
        let n = most.min(bytes.len());
        match self.written.extend_from_slice(&bytes[..n]) {
            Ok(()) => WriteStep::Took(n),
            Err(_) => WriteStep::NoMemory,
        }
    }
}

impl Link for MemoryLink {
    ghost use Rattle.pva_outside.specs.MemoryLink.{memory_wire, memory_left, turns_left, first_turn};

    ghost wire = { memory_wire };

    fn read(&mut self, buffer: &mut [u8]) -> ReadStep
        requires { 0 < length buffer.old }
        ensures step { Reads (memory_wire self.old) (memory_wire self.new) result buffer.new }
        ensures steady { Steadily (memory_wire self.old) (memory_wire self.new) }
        ensures turn { ReadsBy (first_turn (turns_left self.old)) (min (length buffer.old) (length (memory_left self.old))) result }
        ensures script { turns_left self.new ≡ drop 1 (turns_left self.old) }
    {
        match self.turn() {
            Turn::Give(most) => self.give(most.max(1), buffer),
            Turn::Idle => {
                raise(&mut self.idles);
                ReadStep::Idle
            }
            Turn::Fail => {
                raise(&mut self.faults);
                ReadStep::Failed
            }
        }
    }

    fn write(&mut self, bytes: &[u8]) -> WriteStep
        requires { 0 < length bytes.now }
        ensures step { Writes (memory_wire self.old) (memory_wire self.new) result bytes.now }
        ensures steady { Steadily (memory_wire self.old) (memory_wire self.new) }
        ensures turn { WritesBy (first_turn (turns_left self.old)) (length bytes.now) result }
        ensures script { turns_left self.new ≡ drop 1 (turns_left self.old) }
    {
        match self.turn() {
            Turn::Give(most) => self.take(most.max(1), bytes),
            Turn::Idle => {
                raise(&mut self.idles);
                WriteStep::Idle
            }
            Turn::Fail => {
                raise(&mut self.faults);
                WriteStep::Failed
            }
        }
    }

    fn close(&mut self) {}
}
