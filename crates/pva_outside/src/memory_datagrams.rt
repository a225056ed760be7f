// Datagrams in memory.
ghost use Rattle.std.specs.Prelude.{◌≡◌, Some, OnErr, OnOk, length, map, min, option_map, take, vec_len};
ghost use Rattle.pva_outside.specs.MemoryCalls.{IsOneMore, IsToFail};
ghost use Rattle.pva_outside.specs.Traffic.{BindsDatagrams, Receives, Sends, Tried};

use crate::binding::MemoryBindings;
use crate::count::raise;
use crate::memory_calls::MemoryCalls;
use crate::{BindStep, DatagramStep, Datagrams, Peer, SendStep};
use std::alloc::{AllocError, Global};
use std::collections::VecDeque;

/// A datagram in memory.
#[derive(Drop)]
pub struct Datagram {
    /// What it holds.
    pub bytes: Vec<u8>,
    /// Who sent it.
    pub from: Peer,
}

/// What one receive or send of a `MemoryDatagrams` came to.
#[derive(Drop)]
pub enum MemoryTraffic {
    /// These bytes came from this peer.
    Got(Vec<u8>, Peer),
    /// Nothing was received.
    Nothing,
    /// These bytes were to go to this peer, whether they could be sent or not.
    Tried(Vec<u8>, Peer),
}

/// Datagrams in memory, of which each receive gets one. Where None stands in its place nothing comes, and the receive is idle, as
/// is each after them. Everything can be sent. They keep what was received and sent. Port 0 is bound as 5075.
#[derive(Drop)]
pub struct MemoryDatagrams {
    alloc: Global,
    coming: VecDeque<Option<Datagram>>,
    calls: MemoryCalls,
    bindings: MemoryBindings,
    traffic: Vec<MemoryTraffic>,
    idles: u64,
    faults: u64,
}

/// Puts the bytes at the front of the buffer, and gives back those that it holds.
fn put(bytes: Vec<u8>, buffer: &mut [u8]) -> Vec<u8>
    ensures count { vec_len result ≡ min (length bytes.items) (length buffer.new) }
    ensures bytes { result.items ≡ take (vec_len result) bytes.items }
    ensures front { take (vec_len result) buffer.new ≡ result.items }
{
    let mut bytes = bytes;
    let count = bytes.len().min(buffer.len());
    bytes.truncate(count);
    buffer[..count].copy_from_slice(&bytes);
    bytes
}

impl MemoryDatagrams {
    ghost use Rattle.pva_outside.specs.MemoryDatagrams.{memory_datagrams, new_datagrams, traffic_of, and_traffic, datagrams_coming, datagrams_calls};

    /// Datagrams of which these come, with nothing bound and counts of 0. Of all calls, counted from 1, those with the numbers in
    /// `failing` fail.
    pub fn new(
        alloc: Global,
        coming: VecDeque<Option<Datagram>>,
        failing: Vec<u64>,
    ) -> MemoryDatagrams
        ensures datagrams { memory_datagrams result ≡ new_datagrams }
        ensures coming { datagrams_coming result ≡ coming.items }
        ensures made { (datagrams_calls result).made ≡ 0 }
        ensures failing { (datagrams_calls result).failing.items ≡ failing.items }
    {
        MemoryDatagrams {
            alloc,
            coming,
            calls: MemoryCalls::new(failing),
            bindings: MemoryBindings::new(alloc),
            traffic: Vec::new(alloc),
            idles: 0,
            faults: 0,
        }
    }

    /// The addresses that `bind` was asked for, in order.
    pub fn asked(&self) -> &[Peer]
        ensures { option_map (λ b. b.asked) (memory_datagrams self.now).bindings ≡ Some result.now }
    {
        self.bindings.asked()
    }

    /// What was received and sent, in order.
    pub fn traffic(&self) -> &[MemoryTraffic]
        ensures { (memory_datagrams self.now).traffic ≡ Some (map traffic_of result.now) }
    {
        &self.traffic
    }

    /// Notes that these bytes were to go to this peer.
    fn try_to(&mut self, bytes: &[u8], to: Peer) -> Result<(), AllocError>
        ensures ok { OnOk result (memory_datagrams self.new ≡ and_traffic (memory_datagrams self.old) (Tried bytes.now to)) }
        ensures err { OnErr result (memory_datagrams self.new ≡ memory_datagrams self.old) }
        ensures coming { datagrams_coming self.new ≡ datagrams_coming self.old }
        ensures calls { datagrams_calls self.new ≡ datagrams_calls self.old }
    {
        let bytes = Vec::from_slice(self.alloc, bytes)?;
        self.traffic.push(MemoryTraffic::Tried(bytes, to))?;
        Ok(())
    }
}

impl Datagrams for MemoryDatagrams {
    ghost use Rattle.pva_outside.specs.MemoryDatagrams.{memory_datagrams, datagrams_coming, datagrams_calls, IsMet};

    ghost datagrams = { memory_datagrams };

    fn bind(&mut self, at: Peer) -> BindStep
        ensures step { BindsDatagrams (memory_datagrams self.old) (memory_datagrams self.new) result at }
        ensures coming { datagrams_coming self.new ≡ datagrams_coming self.old }
        ensures call { IsOneMore (datagrams_calls self.old) (datagrams_calls self.new) }
        ensures failed { result ≡ BindStep.Failed → IsToFail (datagrams_calls self.new) }
        ensures bound { (port : _) → result ≡ BindStep.Bound port → ¬ (IsToFail (datagrams_calls self.new)) }
    {
        let fails = self.calls.next_fails();
        self.bindings.bind(at, fails, &mut self.faults)
    }

    fn receive(&mut self, buffer: &mut [u8]) -> DatagramStep
        ensures step { Receives (memory_datagrams self.old) (memory_datagrams self.new) result buffer.new }
        ensures meets { IsMet (datagrams_coming self.old) (datagrams_coming self.new) result buffer.new }
        ensures call { IsOneMore (datagrams_calls self.old) (datagrams_calls self.new) }
        ensures failed { result ≡ DatagramStep.Failed → IsToFail (datagrams_calls self.new) }
        ensures got { (n : _) (from : _) → result ≡ DatagramStep.Got n from → ¬ (IsToFail (datagrams_calls self.new)) }
    {
        let fails = self.calls.next_fails();
        let Ok(()) = self.traffic.try_reserve(1) else {
            return DatagramStep::NoMemory;
        };
        if fails {
            raise(&mut self.faults);
            self.traffic.push_reserved(MemoryTraffic::Nothing);
            return DatagramStep::Failed;
        }
        let Some(datagram) = self.coming.pop_front().flatten() else {
            raise(&mut self.idles);
            self.traffic.push_reserved(MemoryTraffic::Nothing);
            return DatagramStep::Idle;
        };
        let Datagram { bytes, from } = datagram;
        let got = put(bytes, buffer);
        let count = got.len();
        self.traffic.push_reserved(MemoryTraffic::Got(got, from));
        DatagramStep::Got(count, from)
    }

    fn send(&mut self, bytes: &[u8], to: Peer) -> SendStep
        ensures step { Sends (memory_datagrams self.old) (memory_datagrams self.new) result bytes.now to }
        ensures coming { datagrams_coming self.new ≡ datagrams_coming self.old }
        ensures call { IsOneMore (datagrams_calls self.old) (datagrams_calls self.new) }
        ensures failed { result ≡ SendStep.Failed → IsToFail (datagrams_calls self.new) }
        ensures sent { result ≡ SendStep.Sent → ¬ (IsToFail (datagrams_calls self.new)) }
    {
        let fails = self.calls.next_fails();
        let Ok(()) = self.try_to(bytes, to) else {
            return SendStep::NoMemory;
        };
        if fails {
            raise(&mut self.faults);
            return SendStep::Failed;
        }
        SendStep::Sent
    }
}
