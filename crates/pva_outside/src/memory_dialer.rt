// A dialer in memory.
ghost use Rattle.std.specs.Prelude.{◌≡◌, ◌≤◌, ◌<◌, ◌⊎◌, [], Some, IfOk, map, vec_capacity, vec_len};
ghost use Rattle.pva_outside.specs.Dials.{Dials, DialFailed, TakesBack};
ghost use Rattle.pva_outside.specs.MemoryCalls.{IsOneMore, IsToFail};
ghost use Rattle.pva_outside.specs.MemoryLink.{memory_wire, memory_start, turns_left};

use crate::count::raise;
use crate::counted::raise_by;
use crate::memory_calls::MemoryCalls;
use crate::{DialStep, Dialer, MemoryLink, NoMemory, Peer, Turn};
use std::alloc::{AllocError, Global};

/// A server in memory: what it sends, and the script of the link to it.
#[derive(Drop)]
pub struct MemoryServer {
    /// What its link brings.
    pub input: Vec<u8>,
    /// What the calls of its link meet.
    pub script: Vec<Turn>,
}

impl MemoryServer {
    /// A link to this server.
    fn link(&self, alloc: Global) -> Result<MemoryLink, AllocError>
        ensures wire { IfOk result (λ link. memory_wire link ≡ memory_start self.now.input.items) }
        ensures script { IfOk result (λ link. turns_left link ≡ self.now.script.items) }
    {
        let input = Vec::from_slice(alloc, &self.input)?;
        let script = Vec::from_slice(alloc, &self.script)?;
        Ok(MemoryLink::new(alloc, input, script))
    }
}

/// One dial of a `MemoryDialer`.
#[derive(Clone, Copy, Debug, PartialEq, Eq)]
pub struct MemoryDial {
    /// Where to.
    pub to: Peer,
    /// Whether it gave a link.
    pub linked: bool,
}

/// A dialer in memory, whose dials reach the given servers one after another, whatever address is dialed. After them each dial
/// fails. It keeps its dials and the links taken back.
#[derive(Drop)]
pub struct MemoryDialer {
    alloc: Global,
    servers: Vec<MemoryServer>,
    reached: usize,
    calls: MemoryCalls,
    dials: Vec<MemoryDial>,
    back: Vec<MemoryLink>,
    link_faults: u64,
    link_idles: u64,
    link_ends: u64,
    faults: u64,
    ghost within: { reached ≤ vec_len servers },
}

impl MemoryDialer {
    ghost use Rattle.pva_outside.specs.MemoryDialer.{memory_dialer, new_dialer, dial_of, servers_left, dialer_calls, link_back};

    /// A dialer that reaches these servers, with counts of 0. The dials with the numbers in `failing`, counted from 1, fail.
    pub fn new(alloc: Global, servers: Vec<MemoryServer>, failing: Vec<u64>) -> MemoryDialer
        ensures dialer { memory_dialer result ≡ new_dialer }
        ensures servers { servers_left result ≡ servers.items }
        ensures made { (dialer_calls result).made ≡ 0 }
        ensures failing { (dialer_calls result).failing.items ≡ failing.items }
    {
        MemoryDialer {
            alloc,
            servers,
            reached: 0,
            calls: MemoryCalls::new(failing),
            dials: Vec::new(alloc),
            back: Vec::new(alloc),
            link_faults: 0,
            link_idles: 0,
            link_ends: 0,
            faults: 0,
        }
    }

    /// The dials made, in order.
    pub fn dials(&self) -> &[MemoryDial]
        ensures { (memory_dialer self.now).dials ≡ Some (map dial_of result.now) }
    {
        &self.dials
    }

    /// The links taken back, in order.
    pub fn back(&self) -> &[MemoryLink]
        ensures { (memory_dialer self.now).back ≡ Some (map link_back result.now) }
    {
        &self.back
    }

    /// A dial that gives no link. There is room to keep it.
    fn refuse(&mut self, to: Peer) -> DialStep<MemoryLink>
        requires { vec_len self.old.dials < vec_capacity self.old.dials }
        ensures result { result ≡ DialStep.Failed }
        ensures dialer { DialFailed (memory_dialer self.old) (memory_dialer self.new) to }
        ensures servers { servers_left self.new ≡ servers_left self.old }
        ensures calls { dialer_calls self.new ≡ dialer_calls self.old }
    {
        self.dials.push_reserved(MemoryDial { to, linked: false });
        raise(&mut self.faults);
        DialStep::Failed
    }
}

impl Dialer for MemoryDialer {
    ghost use Rattle.pva_outside.specs.MemoryDialer.{memory_dialer, servers_left, dialer_calls, IsMet};

    type Link = MemoryLink;

    ghost dialer = { memory_dialer };

    fn dial(&mut self, to: Peer) -> DialStep<MemoryLink>
        ensures step { Dials memory_wire (memory_dialer self.old) (memory_dialer self.new) result to }
        ensures meets { IsMet (servers_left self.old) (servers_left self.new) result }
        ensures call { IsOneMore (dialer_calls self.old) (dialer_calls self.new) }
        ensures failed { result ≡ DialStep.Failed → IsToFail (dialer_calls self.new) ⊎ (servers_left self.old ≡ []) }
        ensures linked { (link : _) → result ≡ DialStep.Link link → ¬ (IsToFail (dialer_calls self.new)) }
    {
        let fails = self.calls.next_fails();
        let Ok(()) = self.dials.try_reserve(1) else {
            return DialStep::NoMemory;
        };
        if fails {
            return self.refuse(to);
        }
        let Some(server) = self.servers.get(self.reached) else {
            return self.refuse(to);
        };
        let Ok(link) = server.link(self.alloc) else {
            return DialStep::NoMemory;
        };
        self.reached += 1;
        self.dials.push_reserved(MemoryDial { to, linked: true });
        DialStep::Link(link)
    }

    fn retire(&mut self, link: MemoryLink) -> Result<(), NoMemory>
        ensures step { TakesBack (memory_dialer self.old) (memory_dialer self.new) (memory_wire link) result }
        ensures servers { servers_left self.new ≡ servers_left self.old }
        ensures calls { dialer_calls self.new ≡ dialer_calls self.old }
    {
        let (faults, idles, ends) = (link.faults(), link.idles(), link.ends());
        self.back.push(link)?;
        raise_by(&mut self.link_faults, faults);
        raise_by(&mut self.link_idles, idles);
        raise_by(&mut self.link_ends, ends);
        Ok(())
    }
}
