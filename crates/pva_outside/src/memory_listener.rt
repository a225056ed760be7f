// A listener in memory.
ghost use Rattle.std.specs.Prelude.{◌≡◌, ◌↔◌, Some, map, option_map};
ghost use Rattle.pva_outside.specs.ClientLink.{client_wire};
ghost use Rattle.pva_outside.specs.Doors.{BindsDoor, Accepts, Retires};
ghost use Rattle.pva_outside.specs.MemoryCalls.{IsOneMore, IsToFail};

use crate::binding::MemoryBindings;
use crate::count::raise;
use crate::memory_calls::MemoryCalls;
use crate::{AcceptStep, BindStep, ClientLink, Listener, MemoryClient, NoMemory, Peer};
use std::alloc::Global;
use std::collections::VecDeque;

/// A listener in memory, to which the given clients come, one at each accept. Where None stands in their place nobody comes, and
/// the accept is idle. After them each accept is the end. It keeps the links taken back. Port 0 is bound as 5075.
#[derive(Drop)]
pub struct MemoryListener {
    alloc: Global,
    coming: VecDeque<Option<MemoryClient>>,
    calls: MemoryCalls,
    bindings: MemoryBindings,
    accepts: u64,
    links: u64,
    at_end: bool,
    idles: u64,
    faults: u64,
    back: Vec<ClientLink>,
}

impl MemoryListener {
    ghost use Rattle.pva_outside.specs.MemoryListener.{memory_door, new_door, clients_coming, listener_calls};

    /// A listener to which these come, with nothing bound and counts of 0. Of the calls of `bind` and `accept`, counted together
    /// from 1, those with the numbers in `failing` fail.
    pub fn new(
        alloc: Global,
        coming: VecDeque<Option<MemoryClient>>,
        failing: Vec<u64>,
    ) -> MemoryListener
        ensures door { memory_door result ≡ new_door coming.items }
        ensures coming { clients_coming result ≡ coming.items }
        ensures made { (listener_calls result).made ≡ 0 }
        ensures failing { (listener_calls result).failing.items ≡ failing.items }
    {
        MemoryListener {
            alloc,
            coming,
            calls: MemoryCalls::new(failing),
            bindings: MemoryBindings::new(alloc),
            accepts: 0,
            links: 0,
            at_end: false,
            idles: 0,
            faults: 0,
            back: Vec::new(alloc),
        }
    }

    /// The addresses that `bind` was asked for, in order.
    pub fn asked(&self) -> &[Peer]
        ensures { option_map (λ b. b.asked) (memory_door self.now).bindings ≡ Some result.now }
    {
        self.bindings.asked()
    }

    /// The links taken back, in order.
    pub fn back(&self) -> &[ClientLink]
        ensures { (memory_door self.now).back ≡ Some (map (λ link. (client_wire link).written) result.now) }
    {
        &self.back
    }
}

impl Listener for MemoryListener {
    ghost use Rattle.pva_outside.specs.MemoryListener.{memory_door, clients_coming, listener_calls, IsMet};

    type Link = ClientLink;

    ghost door = { memory_door };

    fn bind(&mut self, at: Peer) -> BindStep
        ensures step { BindsDoor (memory_door self.old) (memory_door self.new) result at }
        ensures coming { clients_coming self.new ≡ clients_coming self.old }
        ensures call { IsOneMore (listener_calls self.old) (listener_calls self.new) }
        ensures failed { result ≡ BindStep.Failed → IsToFail (listener_calls self.new) }
        ensures bound { (port : _) → result ≡ BindStep.Bound port → ¬ (IsToFail (listener_calls self.new)) }
    {
        let fails = self.calls.next_fails();
        self.bindings.bind(at, fails, &mut self.faults)
    }

    fn accept(&mut self) -> AcceptStep<ClientLink>
        ensures step { Accepts client_wire (memory_door self.old) (memory_door self.new) result }
        ensures meets { IsMet (clients_coming self.old) (clients_coming self.new) result }
        ensures call { IsOneMore (listener_calls self.old) (listener_calls self.new) }
        ensures fails { (result ≡ AcceptStep.Failed) ↔ IsToFail (listener_calls self.new) }
    {
        raise(&mut self.accepts);
        self.at_end = false;
        if self.calls.next_fails() {
            raise(&mut self.faults);
            return AcceptStep::Failed;
        }
        let Some(next) = self.coming.pop_front() else {
            self.at_end = true;
            return AcceptStep::End;
        };
        let Some(client) = next else {
            raise(&mut self.idles);
            return AcceptStep::Idle;
        };
        raise(&mut self.links);
        AcceptStep::Link(client.into_link(self.alloc))
    }

    fn retire(&mut self, link: ClientLink) -> Result<(), NoMemory>
        ensures step { Retires (memory_door self.old) (memory_door self.new) (client_wire link) result }
        ensures coming { clients_coming self.new ≡ clients_coming self.old }
        ensures calls { listener_calls self.new ≡ listener_calls self.old }
    {
        self.back.push(link)?;
        Ok(())
    }
}
