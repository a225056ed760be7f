// A port that waits holds up no other record.

use crate::halls::{Making, in_threads, ports_by, site};
use crate::scenes::{Answer, Doing, entered, int, put_and_get, put_number};
use desk_api::{Desk, NoMemory, PvValue};
use desk_core::discard;
use desk_shared::open_hall;
use pva_outside::{DriveStep, Port};
use std::alloc::Global;
use std::sync::atomic::{AtomicBool, Ordering};
use std::sync::{Arc, Wait};
use std::test::Fail;
use std::thread::Threads;

/// One look at a flag, and some time.
fn look(flag: &AtomicBool) -> bool {
    for _ in 0..500u32 {
        let _ = flag.load(Ordering::SeqCst);
    }
    flag.load(Ordering::SeqCst)
}

/// Whether a flag is set within 1,000,000 looks.
fn is_set_in_time(flag: &AtomicBool) -> bool {
    for _ in 0..1_000_000u32 {
        if look(flag) {
            return true;
        }
    }
    false
}

/// Two flags that threads share: that a port is driven, and that it may go on.
#[derive(Drop)]
struct Gates {
    begun: Arc<AtomicBool>,
    open: Arc<AtomicBool>,
}

impl Gates {
    fn new(alloc: Global) -> Result<Gates, NoMemory> {
        Ok(Gates {
            begun: Arc::new(alloc, AtomicBool::new(false))?,
            open: Arc::new(alloc, AtomicBool::new(false))?,
        })
    }

    /// The same flags.
    fn again(&self) -> Result<Gates, NoMemory> {
        Ok(Gates {
            begun: Arc::try_clone(&self.begun)?,
            open: Arc::try_clone(&self.open)?,
        })
    }
}

/// A port that tells that it is driven, and takes the text only once its gate is open, for which it looks at most 1,000,000 times.
#[derive(Drop)]
struct GatedPort {
    gates: Gates,
    faults: u64,
}

impl Port for GatedPort {
    ghost use Rattle.std.specs.Prelude.{None};

    ghost port = { λ p. record { faults = p.faults; drives = None } };

    fn drive(&mut self, _text: &[u8]) -> DriveStep {
        self.gates.begun.store(true, Ordering::SeqCst);
        if is_set_in_time(&self.gates.open) {
            return DriveStep::Drove;
        }
        self.faults = self.faults.saturating_add(1);
        DriveStep::Failed
    }
}

impl Making for Gates {
    type Port = GatedPort;

    fn make(&self, _alloc: Global) -> Result<GatedPort, NoMemory> {
        Ok(GatedPort {
            gates: self.again()?,
            faults: 0,
        })
    }
}

/// The severity in a record's structure, where it is shown.
fn severity(shown: Option<PvValue>) -> Option<i32> {
    let Some(value) = shown else {
        return None;
    };
    let alarm = value.members().get(1);
    let severity = match alarm {
        Some(alarm) => int(alarm.members().get(0)),
        None => None,
    };
    discard(value);
    severity
}

/// A put's answer, and the severity that A shows behind it.
type Put = (Answer, Option<i32>);

/// Puts 7 and then 8 to A, and gets A each time, by the same call or by another.
#[derive(Drop)]
struct PutGated {
    at_once: bool,
}

impl PutGated {
    /// Puts one number.
    fn put<D: Desk>(&self, alloc: Global, desk: &mut D, number: i32) -> Put {
        let (answer, shown) = put_and_get(alloc, desk, number, self.at_once);
        (answer, severity(shown))
    }
}

impl Doing for PutGated {
    type Told = (Put, Put);

    fn with<D: Desk>(&self, alloc: Global, desk: &mut D) -> Self::Told {
        let seven = self.put(alloc, desk, 7);
        (seven, self.put(alloc, desk, 8))
    }
}

/// Waits until the port of A is driven, puts 7 to B, and then opens the gate. Whether the port was driven in time, and the put done.
#[derive(Drop)]
struct PutAndOpen {
    gates: Gates,
}

impl Doing for PutAndOpen {
    type Told = (bool, bool);

    fn with<D: Desk>(&self, alloc: Global, desk: &mut D) -> Self::Told {
        let begun = is_set_in_time(&self.gates.begun);
        let answer = put_number(alloc, desk, "B", 7);
        self.gates.open.store(true, Ordering::SeqCst);
        (begun, matches!(answer, Some(Ok(_))))
    }
}

/// What the puts to both records tell, and whether their passes met.
type Told = (Option<(Put, Put)>, Option<(bool, bool)>, bool);

/// The port of A waits until a put to B was answered, which begins once A's port is driven. A is got by the call that puts, or by another.
fn gated_puts<R: Threads + Wait + Sync>(rt: &R, alloc: Global, at_once: bool) -> Option<Told> {
    let Ok(gates) = Gates::new(alloc) else {
        return None;
    };
    let Ok(site) = site(alloc) else {
        return None;
    };
    let Ok(ports) = ports_by(alloc, &site, &gates) else {
        return None;
    };
    let Ok((hall, mut keep)) = open_hall(alloc, &site, ports, 1_000_000) else {
        return None;
    };
    let (Ok(one), Ok(two)) = (hall.split(&mut keep), hall.split(&mut keep)) else {
        return None;
    };
    let ((mut one, waited), (mut two, other)) = in_threads(
        rt,
        alloc,
        &hall,
        &site,
        (one, two),
        (&PutGated { at_once }, &PutAndOpen { gates }),
    );
    let met = hall.meet(&mut one, &mut two).is_ok();
    Some((waited, other, met))
}

/// What they are to tell: B's put was added first, and the port took both numbers.
fn both_gated() -> Option<Told> {
    let waited = ((entered(1), Some(0)), (entered(2), Some(0)));
    Some((Some(waited), Some((true, true)), true))
}

#[test]
fn a_port_that_waits_holds_up_no_other_record(rt: HostRuntime) -> Result<(), Fail> {
    assert_eq!(rt; gated_puts(&rt, rt.alloc(), false), both_gated());
    Ok(())
}

#[test]
fn a_port_that_waits_in_a_put_get_holds_up_no_other_record(rt: HostRuntime) -> Result<(), Fail> {
    assert_eq!(rt; gated_puts(&rt, rt.alloc(), true), both_gated());
    Ok(())
}
