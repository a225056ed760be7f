// Where the values of output records go: the trait, the port in memory and the port over a writer.
ghost use Rattle.std.specs.Prelude.{◌≡◌, ◌≤◌, ◌<◌, ◌↔◌, Contains, OnOk, Some, option_map, length, take};
ghost use Rattle.std.specs.Io.KnownBytes.{Appends};
ghost use Rattle.pva_outside.specs.Count.{RoseByOne};
ghost use Rattle.pva_outside.specs.Ports.{PortView, IsDriven};
ghost use Rattle.pva_outside.specs.WriterPort.{line};

use crate::count::raise;
use std::io;
use std::io::Write;

/// What one drive of a port came to.
#[derive(Clone, Copy, Debug, PartialEq, Eq)]
pub enum DriveStep {
    /// The text was taken.
    Drove,
    /// The port failed, and its count of faults rose.
    Failed,
}

/// The place that an output record writes its value to (EPICS record reference, "OUT").
pub trait Port {
    /// What contracts see of it. It takes no bytes.
    ghost port: { Self → PortView };

    /// Writes a record's new value, as text. It takes no memory of its own.
    fn drive(&mut self, text: &[u8]) -> DriveStep
        ensures { IsDriven (port self.old) (port self.new) result text.now };
}

/// How many bytes of the last text a port in memory keeps.
const KEPT: usize = 64;

/// A port in memory that takes every text, but at the drives that are to fail. It counts its drives, failed ones too, and
/// keeps the first 64 bytes of the last text.
#[derive(Drop)]
pub struct MemoryPort {
    drives: u64,
    last: [u8; 64],
    len: usize,
    failing: Vec<u64>,
    faults: u64,
    ghost within: { len ≤ 64 },
}

impl MemoryPort {
    ghost use Rattle.pva_outside.specs.MemoryPort.{memory_port, new_port, failing_drives};

    /// A port that wasn't driven so far. The drives with the numbers in `failing`, counted from 1, fail.
    pub fn new(failing: Vec<u64>) -> MemoryPort
        ensures port { memory_port result ≡ new_port }
        ensures failing { failing_drives result ≡ failing.items }
    {
        MemoryPort {
            drives: 0,
            last: [0; 64],
            len: 0,
            failing,
            faults: 0,
        }
    }

    /// The number of drives, failed ones too. It stands still at 2^64 - 1.
    pub fn drives(&self) -> u64
        ensures { option_map (λ d. d.count) (memory_port self.now).drives ≡ Some result }
    {
        self.drives
    }

    /// The first 64 bytes of the last text; none before the first drive.
    pub fn last(&self) -> &[u8]
        ensures { option_map (λ d. d.last) (memory_port self.now).drives ≡ Some result.now }
    {
        &self.last[..self.len]
    }
}

/// The first bytes of a text, as many as a port in memory keeps, and their number.
fn front_of(text: &[u8]) -> ([u8; 64], usize)
    ensures most { result.1 ≤ 64 }
    ensures front { take result.1 result.0 ≡ take 64 text.now }
{
    let len = KEPT.min(text.len());
    let mut front = [0; 64];
    front[..len].copy_from_slice(&text[..len]);
    (front, len)
}

impl Port for MemoryPort {
    ghost use Rattle.pva_outside.specs.MemoryPort.{memory_port, failing_drives};

    ghost port = { memory_port };

    fn drive(&mut self, text: &[u8]) -> DriveStep
        ensures step { IsDriven (memory_port self.old) (memory_port self.new) result text.now }
        ensures failing { failing_drives self.new ≡ failing_drives self.old }
        ensures counted { RoseByOne self.old.drives self.new.drives }
        ensures fails { (result ≡ DriveStep.Failed) ↔ Contains (failing_drives self.old) self.new.drives }
    {
        raise(&mut self.drives);
        let (last, len) = front_of(text);
        self.last = last;
        self.len = len;
        if self.failing.contains(&self.drives) {
            raise(&mut self.faults);
            return DriveStep::Failed;
        }
        DriveStep::Drove
    }
}

/// How many bytes a line may have that is handed to the writer as one.
const LINE: usize = 128;

/// A text of at most 127 bytes and a line feed behind it, and their number.
fn line_of(text: &[u8]) -> ([u8; 128], usize)
    requires { length text.now < 128 }
    ensures most { result.1 ≤ 128 }
    ensures line { take result.1 result.0 ≡ line text.now }
{
    let mut line = [b'\n'; 128];
    line[..text.len()].copy_from_slice(text);
    (line, text.len() + 1)
}

/// A port over a writer of std, as a file that was opened for appending. Each drive writes the text and a line feed behind it,
/// and an error of the writer is a fault. A text of up to 127 bytes and its line feed are one `write`, so that the lines of
/// several processes with one file stay whole, unless the writer takes a part alone; a longer text is followed by a write of
/// the line feed. It tells no drives.
#[derive(Drop)]
pub struct WriterPort<W: Write + Drop> {
    writer: W,
    faults: u64,
}

impl<W: Write + Drop> WriterPort<W> {
    ghost use Rattle.pva_outside.specs.WriterPort.{writer_port, new_writer_port, lines_told, line};

    /// A port that writes to `writer`, with a count of 0.
    pub fn new(writer: W) -> WriterPort<W>
        ensures port { writer_port result ≡ new_writer_port }
        ensures told { lines_told W.contents result ≡ W.contents writer }
    {
        WriterPort { writer, faults: 0 }
    }

    /// Writes a text and a line feed.
    fn put(&mut self, text: &[u8]) -> io::Result<()>
        ensures port { writer_port self.new ≡ writer_port self.old }
        ensures line { OnOk result (Appends (lines_told W.contents self.old) (lines_told W.contents self.new) (line text.now)) }
    {
        if text.len() < LINE {
            let (line, len) = line_of(text);
            return self.writer.write_all(&line[..len]);
        }
        self.writer.write_all(text)?;
        self.writer.write_all(b"\n")
    }
}

impl<W: Write + Drop> Port for WriterPort<W> {
    ghost use Rattle.pva_outside.specs.WriterPort.{writer_port, lines_told, line};

    ghost port = { writer_port };

    fn drive(&mut self, text: &[u8]) -> DriveStep
        ensures step { IsDriven (writer_port self.old) (writer_port self.new) result text.now }
        ensures line { result ≡ DriveStep.Drove → Appends (lines_told W.contents self.old) (lines_told W.contents self.new) (line text.now) }
    {
        if self.put(text).is_err() {
            raise(&mut self.faults);
            return DriveStep::Failed;
        }
        DriveStep::Drove
    }
}
