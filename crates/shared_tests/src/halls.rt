// Halls of two records and a group, and desks on their passes.
ghost use Rattle.std.specs.Prelude.{◌≡◌, [], IfOk, IfSome, is_some, length};
ghost use Rattle.desk_core.specs.Ports.{ports_there, ports_wanted};

use crate::scenes::{Doing, DoingBeside};
use desk_api::{NoMemory, Site};
use desk_core::discard;
use desk_shared::{Hall, Home, Pass, Records, SharedDesk, open_hall};
use pva_outside::{MemoryPort, Port};
use std::alloc::Global;
use std::marker::Brand;
use std::sync::Wait;
use std::thread::{self, Threads};

/// A record with a port, and two that are the members of a group.
const RECORDS: &str = "\
record(longout, \"A\") { field(VAL, \"42\") field(DTYP, \"File\") field(OUT, \"@file a\") }
record(longout, \"B\") {
  field(VAL, \"1\")
  info(Q:group, {\"G\": {\"b\": {+channel:\"VAL\", +type:\"plain\", +putorder:0, +trigger:\"*\"}}})
}
record(longout, \"C\") {
  field(VAL, \"2\")
  info(Q:group, {\"G\": {\"c\": {+channel:\"VAL\", +type:\"plain\", +putorder:1, +trigger:\"*\"}}})
}
";

/// The site of these records.
pub(crate) fn site(alloc: Global) -> Result<Site, NoMemory> {
    site_of(alloc, RECORDS)
}

/// The site of a database text.
fn site_of(alloc: Global, text: &str) -> Result<Site, NoMemory> {
    match Site::build(alloc, text, &[]) {
        Ok(site) => Ok(site),
        Err(fault) => {
            discard(fault);
            Err(NoMemory)
        }
    }
}

/// What makes the ports of a hall.
pub(crate) trait Making {
    /// The ports.
    type Port: Port + Drop;

    /// A port.
    fn make(&self, alloc: Global) -> Result<Self::Port, NoMemory>;
}

/// A port where one is wanted.
fn port_if<M: Making>(alloc: Global, making: &M, wanted: bool) -> Result<Option<M::Port>, NoMemory>
    ensures { IfOk result (λ port. is_some port ≡ wanted) }
{
    if !wanted {
        return Ok(None);
    }
    Ok(Some(making.make(alloc)?))
}

/// A port for each record whose configuration says that it has one.
pub(crate) fn ports_by<M: Making>(
    alloc: Global,
    site: &Site,
    making: &M,
) -> Result<Vec<Option<M::Port>>, NoMemory>
    ensures { IfOk result (λ ports. ports_there ports.items ≡ ports_wanted site.now.configs) }
{
    let count = site.records();
    let mut ports = Vec::with_capacity(alloc, count)?;
    for rec in 0..count {
        let place = port_if(alloc, making, site.port(rec).is_some())?;
        ports.push(place)?;
    }
    Ok(ports)
}

/// Ports in memory, whose first drive fails.
struct FailingOnce;

impl Making for FailingOnce {
    type Port = MemoryPort;

    fn make(&self, alloc: Global) -> Result<MemoryPort, NoMemory> {
        Ok(MemoryPort::new(vec![in alloc; 1u64]?))
    }
}

/// Ports in memory that take each text.
pub(crate) struct Taking;

impl Making for Taking {
    type Port = MemoryPort;

    fn make(&self, alloc: Global) -> Result<MemoryPort, NoMemory> {
        Ok(MemoryPort::new(Vec::new(alloc)))
    }
}

/// A site with its hall and first pass.
pub(crate) type Opened<P> = (Site, Hall<Records<P>>, Pass<Records<P>>);

/// A hall with ports in memory, whose first drive fails. The entries may weigh so much together.
pub(crate) fn opened(alloc: Global, limit: u64) -> Option<Opened<MemoryPort>>
    ensures own { IfSome result (λ r. r.2.seat.table_id ≡ r.1.table.shared.table_id) }
    ensures count { IfSome result (λ r. r.1.count ≡ length r.0.names) }
    ensures site { IfSome result (λ r. r.2.seat.me.0.seen.base.site ≡ r.0) }
    ensures others { IfSome result (λ r. r.2.seat.me.0.others ≡ []) }
{
    opened_of(alloc, RECORDS, &FailingOnce, limit)
}

/// A hall of the records of a text, with these ports.
pub(crate) fn opened_of<M: Making>(
    alloc: Global,
    text: &str,
    making: &M,
    limit: u64,
) -> Option<Opened<M::Port>>
    ensures own { IfSome result (λ r. r.2.seat.table_id ≡ r.1.table.shared.table_id) }
    ensures count { IfSome result (λ r. r.1.count ≡ length r.0.names) }
    ensures site { IfSome result (λ r. r.2.seat.me.0.seen.base.site ≡ r.0) }
    ensures others { IfSome result (λ r. r.2.seat.me.0.others ≡ []) }
{
    let Ok(site) = site_of(alloc, text) else {
        return None;
    };
    let Ok(ports) = ports_by(alloc, &site, making) else {
        return None;
    };
    match open_hall(alloc, &site, ports, limit) {
        Ok((hall, pass)) => Some((site, hall, pass)),
        Err(_) => None,
    }
}

/// The pass that a desk stood on, and what was told of it.
pub(crate) type Done<P, T> = (Pass<Records<P>>, Option<T>);

/// Does this with a desk on the pass, which comes back. Nothing is told where memory ran out before.
fn with_desk<R: Wait, P: Port + Drop, S: Doing, K: Home>(
    rt: &R,
    alloc: Global,
    hall: &Hall<Records<P>>,
    site: &Site,
    pass: Pass<Records<P>>,
    doing: &S,
) -> (Pass<Records<P>>, Option<S::Told>)
    requires hall { hall.now.table.shared.table_id ≡ K.table }
    requires site { site.now ≡ K.base.site }
    requires count { hall.now.count ≡ length site.now.names }
    requires own { pass.seat.table_id ≡ hall.now.table.shared.table_id }
    requires base { pass.seat.me.0.seen.base ≡ K.base }
    requires others { pass.seat.me.0.others ≡ K.others }
    ensures own { result.0.seat.table_id ≡ K.table }
    ensures base { result.0.seat.me.0.seen.base ≡ K.base }
    ensures others { result.0.seat.me.0.others ≡ K.others }
{
    match SharedDesk::<'_, R, P, Records<P>, K>::new(rt, alloc, hall, site, pass) {
        Ok(mut desk) => {
            let told = doing.with(alloc, &mut desk);
            (desk.into_pass(), Some(told))
        }
        Err((pass, _)) => (pass, None),
    }
}

/// The same, of a pass of this hall.
pub(crate) fn with_desk_here<R: Wait, P: Port + Drop, S: Doing>(
    rt: &R,
    alloc: Global,
    hall: &Hall<Records<P>>,
    site: &Site,
    pass: Pass<Records<P>>,
    doing: &S,
) -> (Pass<Records<P>>, Option<S::Told>)
    requires site { pass.seat.me.0.seen.base.site ≡ site.now }
    requires count { hall.now.count ≡ length site.now.names }
    requires own { pass.seat.table_id ≡ hall.now.table.shared.table_id }
    ensures own { result.0.seat.table_id ≡ hall.now.table.shared.table_id }
    ensures base { result.0.seat.me.0.seen.base ≡ pass.seat.me.0.seen.base }
    ensures others { result.0.seat.me.0.others ≡ pass.seat.me.0.others }
{
    with_desk::<R, P, S, Brand>(rt, alloc, hall, site, pass, doing)
}

/// Does two things beside each other, each in a thread of its own with a desk on a pass of its own. Both passes come back.
pub(crate) fn in_threads<
    R: Threads + Wait + Sync,
    P: Port + Drop + Send,
    A: Doing + Sync,
    B: Doing + Sync,
>(
    rt: &R,
    alloc: Global,
    hall: &Hall<Records<P>>,
    site: &Site,
    passes: (Pass<Records<P>>, Pass<Records<P>>),
    doings: (&A, &B),
) -> (Done<P, A::Told>, Done<P, B::Told>)
    requires count { hall.now.count ≡ length site.now.names }
    requires one { passes.0.seat.table_id ≡ hall.now.table.shared.table_id }
    requires two { passes.1.seat.table_id ≡ hall.now.table.shared.table_id }
    requires one_site { passes.0.seat.me.0.seen.base.site ≡ site.now }
    requires two_site { passes.1.seat.me.0.seen.base.site ≡ site.now }
    ensures one { result.0.0.seat.table_id ≡ hall.now.table.shared.table_id }
    ensures two { result.1.0.seat.table_id ≡ hall.now.table.shared.table_id }
{
    let (one, two) = passes;
    let (first, second) = doings;
    thread::join(
        rt,
        move || -> Done<P, A::Told>
            requires { (hall.now.count ≡ length site.now.names) × (one.seat.table_id ≡ hall.now.table.shared.table_id) × (one.seat.me.0.seen.base.site ≡ site.now) }
            ensures { result.0.seat.table_id ≡ hall.entry.now.table.shared.table_id }
        { with_desk_here(rt, alloc, hall, site, one, first) },
        move || -> Done<P, B::Told>
            requires { (hall.now.count ≡ length site.now.names) × (two.seat.table_id ≡ hall.now.table.shared.table_id) × (two.seat.me.0.seen.base.site ≡ site.now) }
            ensures { result.0.seat.table_id ≡ hall.entry.now.table.shared.table_id }
        { with_desk_here(rt, alloc, hall, site, two, second) },
    )
}

/// Does this with two desks beside each other, which then meet. None where memory ran out before.
fn with_two<R: Wait, P: Port + Drop, S: DoingBeside, K: Home>(
    rt: &R,
    alloc: Global,
    hall: &Hall<Records<P>>,
    site: &Site,
    one: Pass<Records<P>>,
    two: Pass<Records<P>>,
    doing: &S,
) -> Option<S::Told>
    requires hall { hall.now.table.shared.table_id ≡ K.table }
    requires site { site.now ≡ K.base.site }
    requires count { hall.now.count ≡ length site.now.names }
    requires one { one.seat.table_id ≡ hall.now.table.shared.table_id }
    requires two { two.seat.table_id ≡ hall.now.table.shared.table_id }
    requires one_base { one.seat.me.0.seen.base ≡ K.base }
    requires two_base { two.seat.me.0.seen.base ≡ K.base }
    requires one_others { one.seat.me.0.others ≡ K.others }
    requires two_others { two.seat.me.0.others ≡ K.others }
{
    let Ok(mut one) = SharedDesk::<'_, R, P, Records<P>, K>::new(rt, alloc, hall, site, one) else {
        return None;
    };
    let Ok(mut two) = SharedDesk::<'_, R, P, Records<P>, K>::new(rt, alloc, hall, site, two) else {
        return None;
    };
    let told = doing.with(alloc, &mut one, &mut two);
    one.meet(&mut two);
    Some(told)
}

/// The same, of two passes of this hall that took nothing in.
fn with_two_here<R: Wait, P: Port + Drop, S: DoingBeside>(
    rt: &R,
    alloc: Global,
    hall: &Hall<Records<P>>,
    site: &Site,
    one: Pass<Records<P>>,
    two: Pass<Records<P>>,
    doing: &S,
) -> Option<S::Told>
    requires site { one.seat.me.0.seen.base.site ≡ site.now }
    requires base { two.seat.me.0.seen.base ≡ one.seat.me.0.seen.base }
    requires others { two.seat.me.0.others ≡ one.seat.me.0.others }
    requires count { hall.now.count ≡ length site.now.names }
    requires one { one.seat.table_id ≡ hall.now.table.shared.table_id }
    requires two { two.seat.table_id ≡ hall.now.table.shared.table_id }
{
    with_two::<R, P, S, Brand>(rt, alloc, hall, site, one, two, doing)
}

/// Does this with a desk in a hall of its own, whose entries may weigh so much together.
pub(crate) fn alone<R: Wait, S: Doing>(
    rt: &R,
    alloc: Global,
    limit: u64,
    doing: &S,
) -> Option<S::Told> {
    let Some((site, hall, pass)) = opened(alloc, limit) else {
        return None;
    };
    let (_pass, told) = with_desk_here(rt, alloc, &hall, &site, pass, doing);
    told
}

/// The same in a hall of the records of a text, whose ports take each text.
pub(crate) fn alone_of<R: Wait, S: Doing>(
    rt: &R,
    alloc: Global,
    text: &str,
    doing: &S,
) -> Option<S::Told> {
    let Some((site, hall, pass)) = opened_of(alloc, text, &Taking, 1_000_000) else {
        return None;
    };
    let (_pass, told) = with_desk_here(rt, alloc, &hall, &site, pass, doing);
    told
}

/// Does this with two desks in a hall of their own.
pub(crate) fn beside<R: Wait, S: DoingBeside>(rt: &R, alloc: Global, doing: &S) -> Option<S::Told> {
    let Some((site, hall, pass)) = opened(alloc, 1_000_000) else {
        return None;
    };
    let mut one = pass;
    let Ok(two) = hall.split(&mut one) else {
        return None;
    };
    with_two_here(rt, alloc, &hall, &site, one, two, doing)
}
