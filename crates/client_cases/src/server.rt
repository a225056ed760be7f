// The server of a case, which is dialed over links in memory.
ghost use Rattle.std.specs.Prelude.{◌≤◌, ◌-◌, vec_len};

use case_files::{Case, CaseFault, Entry};
use pva_outside::{
    DialStep, Dialer, Link, NoMemory, Peer, ReadStep, Turn, WriteStep, raise, raise_by,
};
use std::alloc::{AllocError, Global};

/// A part of what a server says.
#[derive(Clone, Copy, Debug)]
pub struct Part {
    /// Where it ends in all that the server says.
    end: usize,
    /// How many bytes of the client the server awaits before it.
    awaits: usize,
}

/// What a server says, in parts, and what each call of the link to it meets.
#[derive(Drop)]
pub struct Server {
    says: Vec<u8>,
    parts: Vec<Part>,
    script: Vec<Turn>,
}

impl Server {
    /// Another one that says the same.
    fn clone_in(&self, alloc: Global) -> Result<Server, AllocError> {
        Ok(Server {
            says: Vec::from_slice(alloc, &self.says)?,
            parts: Vec::from_slice(alloc, &self.parts)?,
            script: Vec::from_slice(alloc, &self.script)?,
        })
    }
}

/// The size of the frame that begins here, by its header: 8 bytes, and the payload of a message (pvAccess Protocol Specification,
/// "Message Structure"). Where there is no header, of all that is left.
fn frame_size(bytes: &[u8]) -> usize {
    let [_, _, flags, _, a, b, c, d, ..] = *bytes else {
        return bytes.len();
    };
    if flags & 1 == 1 {
        return 8;
    }
    let size = match flags & 0x80 {
        0 => u32::from_le_bytes([a, b, c, d]),
        _ => u32::from_be_bytes([a, b, c, d]),
    };
    (size as usize).saturating_add(8)
}

/// Appends the parts of these bytes, which stand behind so many others: each of their frames is one, and awaits nothing.
fn push_frames(bytes: &[u8], before: usize, parts: &mut Vec<Part>) -> Result<(), AllocError> {
    let mut rest = bytes;
    let mut end = before;
    for _ in 0..bytes.len() {
        if rest.is_empty() {
            return Ok(());
        }
        let size = frame_size(rest).min(rest.len());
        rest = &rest[size..];
        end = end.saturating_add(size);
        parts.push(Part { end, awaits: 0 })?;
    }
    Ok(())
}

/// How what a server says comes.
#[derive(Clone, Copy, Debug, PartialEq, Eq)]
enum Manner {
    /// At once.
    Whole,
    /// A frame at a time.
    Messages,
    /// What stands under one key `server` at a time, once what the client is to write before it was written.
    InTurn,
}

/// What a server says in a case, and its parts.
#[derive(Drop)]
struct Said {
    bytes: Vec<u8>,
    parts: Vec<Part>,
}

impl Said {
    /// Appends what a server says in an entry, which awaits so many bytes of the client.
    fn push(
        &mut self,
        alloc: Global,
        case: &Case<'_>,
        entry: Entry<'_>,
        manner: Manner,
        awaits: usize,
    ) -> Result<(), CaseFault> {
        let bytes = case.bytes(alloc, entry)?;
        let before = self.bytes.len();
        self.bytes.extend_from_slice(&bytes)?;
        let end = self.bytes.len();
        match manner {
            Manner::Whole => self.parts.push(Part { end, awaits: 0 })?,
            Manner::Messages => push_frames(&bytes, before, &mut self.parts)?,
            Manner::InTurn => self.parts.push(Part { end, awaits })?,
        }
        Ok(())
    }
}

/// What a server says in a case.
fn said_in(alloc: Global, case: &Case<'_>, manner: Manner) -> Result<Said, CaseFault> {
    let mut said = Said {
        bytes: Vec::new(alloc),
        parts: Vec::new(alloc),
    };
    let mut awaits = 0usize;
    for entry in &case.entries {
        match entry.key {
            "client" => awaits = awaits.saturating_add(case.content(alloc, *entry)?.len()),
            "server" => said.push(alloc, case, *entry, manner, awaits)?,
            _ => {}
        }
    }
    Ok(said)
}

/// How a server's bytes come by what stands behind `link`, and what each call of the link meets.
fn link_in(alloc: Global, link: Option<Entry<'_>>) -> Result<(Manner, Vec<Turn>), CaseFault> {
    let Some(entry) = link else {
        return Ok((Manner::Whole, Vec::new(alloc)));
    };
    match entry.rest {
        "messages" => Ok((Manner::Messages, Vec::new(alloc))),
        "in turn" => Ok((Manner::InTurn, Vec::new(alloc))),
        _ => Ok((Manner::Whole, entry.script(alloc)?)),
    }
}

/// The server of a case, by what each call of the link meets.
pub fn server_of(
    alloc: Global,
    case: &Case<'_>,
    link: Option<Entry<'_>>,
) -> Result<Server, CaseFault> {
    let (manner, script) = link_in(alloc, link)?;
    let Said { bytes, parts } = said_in(alloc, case, manner)?;
    Ok(Server {
        says: bytes,
        parts,
        script,
    })
}

/// A link to a server. It tells no bytes to contracts.
#[derive(Drop)]
pub struct ServerLink {
    server: Server,
    at: usize,
    next: usize,
    written: Vec<u8>,
    faults: u64,
    idles: u64,
    ends: u64,
    ghost within: { at ≤ vec_len server.says },
}

impl ServerLink {
    /// What the next call meets.
    fn turn(&self) -> Turn {
        let turn = self.server.script.get(self.next).copied();
        turn.unwrap_or(Turn::Give(usize::MAX))
    }

    /// How many bytes can be read now, of at most so many.
    fn ready(&self, most: usize) -> usize
        ensures most { result ≤ most }
        ensures there { result ≤ vec_len self.now.server.says - self.now.at }
    {
        let part = self.server.parts.iter().find(|part| self.at < part.end);
        let left = self.server.says.len() - self.at;
        match part {
            Some(part) if part.awaits <= self.written.len() => {
                (part.end.saturating_sub(self.at)).min(left).min(most)
            }
            _ => 0,
        }
    }
}

impl Link for ServerLink {
    ghost use Rattle.std.specs.Prelude.{None, false};

    ghost wire = { λ l. record { left = None; written = None; faults = l.faults; idles = l.idles; ends = l.ends; steady = false } };

    fn read(&mut self, buffer: &mut [u8]) -> ReadStep {
        let turn = self.turn();
        self.next = self.next.saturating_add(1);
        match turn {
            Turn::Give(most) => {
                if self.at == self.server.says.len() {
                    raise(&mut self.ends);
                    return ReadStep::End;
                }
                let count = self.ready(most.max(1).min(buffer.len()));
                if count == 0 {
                    raise(&mut self.idles);
                    return ReadStep::Idle;
                }
                buffer[..count].copy_from_slice(&self.server.says[self.at..self.at + count]);
                self.at += count;
                ReadStep::Got(count)
            }
            Turn::Idle => {
                raise(&mut self.idles);
                ReadStep::Idle
            }
            Turn::Fail => {
                raise(&mut self.faults);
                ReadStep::Failed
            }
        }
    }

    fn write(&mut self, bytes: &[u8]) -> WriteStep {
        let turn = self.turn();
        self.next = self.next.saturating_add(1);
        match turn {
            Turn::Give(most) => {
                let count = most.max(1).min(bytes.len());
                match self.written.extend_from_slice(&bytes[..count]) {
                    Ok(()) => WriteStep::Took(count),
                    Err(_) => WriteStep::NoMemory,
                }
            }
            Turn::Idle => {
                raise(&mut self.idles);
                WriteStep::Idle
            }
            Turn::Fail => {
                raise(&mut self.faults);
                WriteStep::Failed
            }
        }
    }

    fn close(&mut self) {}
}

/// What dials a server, whatever the address. It keeps whom it dialed, and what was written to the links taken back.
#[derive(Drop)]
pub struct ServerDialer {
    alloc: Global,
    server: Server,
    failing: Vec<u64>,
    calls: u64,
    dials: Vec<Peer>,
    /// How many links were given and not taken back.
    out: u64,
    written: Vec<u8>,
    faults: u64,
    link_faults: u64,
    link_idles: u64,
    link_ends: u64,
}

impl ServerDialer {
    /// What dials this server. The dials with the numbers in `failing`, counted from 1, fail.
    pub fn new(alloc: Global, server: Server, failing: Vec<u64>) -> ServerDialer {
        ServerDialer {
            alloc,
            server,
            failing,
            calls: 0,
            dials: Vec::new(alloc),
            out: 0,
            written: Vec::new(alloc),
            faults: 0,
            link_faults: 0,
            link_idles: 0,
            link_ends: 0,
        }
    }

    /// Who was dialed, in order.
    pub fn dials(&self) -> &[Peer] {
        &self.dials
    }

    /// How many links were given and not taken back.
    pub fn out(&self) -> u64 {
        self.out
    }

    /// What was written to the links taken back.
    pub fn written(&self) -> &[u8] {
        &self.written
    }
}

impl Dialer for ServerDialer {
    ghost use Rattle.std.specs.Prelude.{None};

    type Link = ServerLink;

    ghost dialer = { λ d. record { faults = d.faults; link_faults = d.link_faults; link_idles = d.link_idles; link_ends = d.link_ends; dials = None; inputs = None; back = None } };

    fn dial(&mut self, to: Peer) -> DialStep<ServerLink> {
        raise(&mut self.calls);
        if self.dials.push(to).is_err() {
            return DialStep::NoMemory;
        }
        if self.failing.contains(&self.calls) {
            raise(&mut self.faults);
            return DialStep::Failed;
        }
        match self.server.clone_in(self.alloc) {
            Ok(server) => {
                raise(&mut self.out);
                DialStep::Link(ServerLink {
                    server,
                    at: 0,
                    next: 0,
                    written: Vec::new(self.alloc),
                    faults: 0,
                    idles: 0,
                    ends: 0,
                })
            }
            Err(_) => DialStep::NoMemory,
        }
    }

    fn retire(&mut self, link: ServerLink) -> Result<(), NoMemory> {
        self.written.extend_from_slice(&link.written)?;
        self.out = self.out.saturating_sub(1);
        raise_by(&mut self.link_faults, link.faults);
        raise_by(&mut self.link_idles, link.idles);
        raise_by(&mut self.link_ends, link.ends);
        Ok(())
    }
}
