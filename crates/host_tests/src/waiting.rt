// Links that wait for one another, served side by side.
ghost use Rattle.std.specs.Prelude.{◌≡◌};

use crate::hosted::{
    DESCRIPTION, FIRST, GET, GET_BEGUN, GOT, OPEN, OPENED, PUT, PUT_BEGUN, PUT_DONE, SECOND, WATCH,
    WATCH_BEGUN, host_x, joined, silence,
};
use desk_api::NoMemory;
use pva_outside::{AcceptStep, BindStep, Link, Listener, Peer, ReadStep, WriteStep, raise};
use srv_host::Hosted;
use std::alloc::Global;
use std::sync::Wait;
use std::sync::atomic::{AtomicU64, Ordering};
use std::test::Fail;
use std::thread::Threads;

/// The most looks of a link for what it waits for. Where it never comes, the link goes on behind them.
const LOOKS: u64 = 1_000_000;

/// One look whether a count has come to this, and some time.
fn has_come_to(count: &AtomicU64, wanted: u64) -> bool {
    for _ in 0..500u32 {
        let _ = count.load(Ordering::SeqCst);
    }
    count.load(Ordering::SeqCst) >= wanted
}

/// A client that opens X, holds what it asks, and then holds its end.
#[derive(Clone, Copy)]
struct Client<'a> {
    /// It comes at the first accept behind so many.
    comes: u64,
    /// What it asks, once so many bytes were written to the other client.
    asks: &'a [u8],
    after: u64,
    /// What is to be written to it, after which it ends.
    answers: &'a [u8],
    /// How many bytes were written to it, and to the other client.
    own: &'a AtomicU64,
    other: &'a AtomicU64,
}

/// The link to such a client. It owns nothing: what is written to it is compared with what is to be written, and counted.
#[derive(Drop)]
struct Gate<'a> {
    client: Client<'a>,
    /// What is sent now, and what is held until the other client was answered.
    ready: &'a [u8],
    held: &'a [u8],
    /// What is still to be written to it, and whether all so far was as it is to be.
    missing: &'a [u8],
    is_right: bool,
    looks: u64,
    idles: u64,
    ends: u64,
}

impl<'a> Gate<'a> {
    fn new(client: Client<'a>) -> Gate<'a>
        ensures idles { result.idles ≡ 0 }
        ensures ends { result.ends ≡ 0 }
    {
        Gate {
            client,
            ready: OPEN,
            held: client.asks,
            missing: client.answers,
            is_right: true,
            looks: 0,
            idles: 0,
            ends: 0,
        }
    }

    /// Whether it waits: before what it asks for the other's answers, and before its end for its own.
    fn waits(&self) -> bool {
        if self.looks >= LOOKS {
            return false;
        }
        let client = &self.client;
        if self.held.is_empty() {
            !has_come_to(client.own, client.answers.len() as u64)
        } else {
            !has_come_to(client.other, client.after)
        }
    }

    /// Whether all that was to be written to it was, and nothing else, before its looks were used up.
    fn is_served(&self) -> bool {
        self.is_right && self.missing.is_empty() && self.looks < LOOKS
    }
}

impl Link for Gate<'_> {
    ghost use Rattle.std.specs.Prelude.{None, false};

    ghost wire = { λ g. record { left = None; written = None; faults = 0; idles = g.idles; ends = g.ends; steady = false } };

    fn read(&mut self, buffer: &mut [u8]) -> ReadStep {
        if self.ready.is_empty() {
            if self.waits() {
                raise(&mut self.looks);
                raise(&mut self.idles);
                return ReadStep::Idle;
            }
            self.ready = self.held;
            self.held = &[];
        }
        let ready = self.ready;
        let count = buffer.len().min(ready.len());
        if count == 0 {
            raise(&mut self.ends);
            return ReadStep::End;
        }
        buffer[..count].copy_from_slice(&ready[..count]);
        self.ready = &ready[count..];
        ReadStep::Got(count)
    }

    fn write(&mut self, bytes: &[u8]) -> WriteStep {
        let missing = self.missing;
        match missing.strip_prefix(bytes) {
            Some(rest) => self.missing = rest,
            None => self.is_right = false,
        }
        self.client
            .own
            .fetch_add(bytes.len() as u64, Ordering::SeqCst);
        WriteStep::Took(bytes.len())
    }

    fn close(&mut self) {}
}

/// A listener to which such clients come. It keeps no link, and counts those taken back that were served.
#[derive(Drop)]
struct Gates<'a> {
    clients: &'a [Client<'a>],
    accepts: u64,
    idles: u64,
    links: u64,
    at_end: bool,
    served: u64,
}

impl<'a> Listener for Gates<'a> {
    type Link = Gate<'a>;

    ghost use Rattle.std.specs.Prelude.{None};

    ghost door = { λ g. record { faults = 0; idles = g.idles; accepts = g.accepts; links = g.links; at_end = g.at_end; bindings = None; ahead = None; back = None } };

    fn bind(&mut self, at: Peer) -> BindStep {
        BindStep::Bound(at.port)
    }

    fn accept(&mut self) -> AcceptStep<Gate<'a>> {
        let before = self.accepts;
        raise(&mut self.accepts);
        let Some(client) = self.clients.get(self.links as usize) else {
            self.at_end = true;
            return AcceptStep::End;
        };
        self.at_end = false;
        if before < client.comes {
            raise(&mut self.idles);
            return AcceptStep::Idle;
        }
        raise(&mut self.links);
        AcceptStep::Link(Gate::new(*client))
    }

    fn retire(&mut self, link: Gate<'a>) -> Result<(), pva_outside::NoMemory> {
        if link.is_served() {
            raise(&mut self.served);
        }
        Ok(())
    }
}

/// Hosts X for these clients: what it came to, and how many of them were served.
fn hosted_for<'a, R: Threads + Wait + Sync>(
    rt: &R,
    alloc: Global,
    clients: &'a [Client<'a>],
) -> Result<(Hosted, u64), NoMemory> {
    let mut listener = Gates {
        clients,
        accepts: 0,
        idles: 0,
        links: 0,
        at_end: false,
        served: 0,
    };
    let hosted = host_x(rt, alloc, &mut listener, &mut silence(alloc), None, 2_000)?;
    Ok((hosted, listener.served))
}

#[test]
fn links_are_served_side_by_side(rt: HostRuntime) -> Result<(), Fail> {
    let alloc: Global = rt.alloc();
    let answers = joined(alloc, &[OPENED, GET_BEGUN, DESCRIPTION, GOT])?;
    let (one, two) = (AtomicU64::new(0), AtomicU64::new(0));
    // the first to come asks only once the second was answered, and the second only once X is open for the first
    let first = Client {
        comes: 0,
        asks: GET,
        after: answers.len() as u64,
        answers: &answers,
        own: &one,
        other: &two,
    };
    let second = Client {
        comes: 0,
        asks: GET,
        after: OPENED.len() as u64,
        answers: &answers,
        own: &two,
        other: &one,
    };
    let hosted = hosted_for(&rt, alloc, &[first, second])?;
    assert_eq!(rt; hosted, (Hosted::Finished(2), 2));
    Ok(())
}

#[test]
fn an_idle_session_sends_what_another_put(rt: HostRuntime) -> Result<(), Fail> {
    let alloc: Global = rt.alloc();
    let shown = joined(alloc, &[OPENED, WATCH_BEGUN, DESCRIPTION, FIRST])?;
    let updates = joined(alloc, &[&shown, SECOND])?;
    let answers = joined(alloc, &[OPENED, PUT_BEGUN, DESCRIPTION, PUT_DONE])?;
    let (one, two) = (AtomicU64::new(0), AtomicU64::new(0));
    // the first to come ends only once its second update has come, and the second puts only once the first update has
    let first = Client {
        comes: 0,
        asks: WATCH,
        after: 0,
        answers: &updates,
        own: &one,
        other: &two,
    };
    let second = Client {
        comes: 0,
        asks: PUT,
        after: shown.len() as u64,
        answers: &answers,
        own: &two,
        other: &one,
    };
    let hosted = hosted_for(&rt, alloc, &[first, second])?;
    assert_eq!(rt; hosted, (Hosted::Finished(2), 2));
    Ok(())
}

#[test]
fn a_session_that_has_ended_is_joined_while_another_runs(rt: HostRuntime) -> Result<(), Fail> {
    let alloc: Global = rt.alloc();
    let answers = joined(alloc, &[OPENED, GET_BEGUN, DESCRIPTION, GOT])?;
    let (one, two, three) = (AtomicU64::new(0), AtomicU64::new(0), AtomicU64::new(0));
    // the first to come asks only once the third was answered, who comes long after the second has gone: a host that waited for the
    // first by mistake, as it joins the second, would keep the third away
    let first = Client {
        comes: 0,
        asks: GET,
        after: answers.len() as u64,
        answers: &answers,
        own: &one,
        other: &three,
    };
    let second = Client {
        comes: 0,
        asks: GET,
        after: 0,
        answers: &answers,
        own: &two,
        other: &one,
    };
    let third = Client {
        comes: 1_000,
        asks: GET,
        after: 0,
        answers: &answers,
        own: &three,
        other: &one,
    };
    let hosted = hosted_for(&rt, alloc, &[first, second, third])?;
    assert_eq!(rt; hosted, (Hosted::Finished(3), 3));
    Ok(())
}
