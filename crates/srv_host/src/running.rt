// A session that runs, in a thread of its own or in the caller's.
ghost use Rattle.std.specs.Prelude.{◌≡◌, [], IfOk, length};
ghost use Rattle.desk_api.specs.Calls.{first_seat};
ghost use Rattle.hall_locks.specs.Passes.{hall_id, pass_hall, pass_view};
ghost use Rattle.desk_shared.specs.Desks.{shown_of};
ghost use Rattle.desk_shared.specs.Records.{seat_of};
ghost use Rattle.srv_host.specs.Running.{HasCome, IsBegun, IsKept, IsRunning, IsServed, serves_of};
ghost use Rattle.srv_stream.specs.Streams.{moment_told};

use crate::endings::Endings;
use crate::session::{Means, serve_desk};
use desk_api::{Base, Channel, Mark, NoMemory, Site};
use desk_shared::{Hall, Home, Pass, Records, SharedDesk};
use hall_core::Law;
use journal_core::Entry;
use mon_shown::RollItem;
use pva_outside::{Clock, Link, Port};
use pva_wire::Order;
use srv_stream::Ended;
use std::mem;
use std::snapshot::Snapshot;
use std::sync::Wait;
use std::thread::{Promise, PromisedHandle, Scope, Threads};

/// What the thread of a session promises of it: the pass as it was split, the link as it came, the clock and the byte order.
#[derive(Drop)]
pub(crate) struct Serves<
    T: Law<Base = Base, Entry = Entry, RollItem = RollItem<Channel>, Mark = Mark>,
    L,
    C,
> {
    start: Snapshot<Pass<T>>,
    link: Snapshot<L>,
    clock: Snapshot<C>,
    order: Order,
}

impl<
    T: Law<Base = Base, Entry = Entry, RollItem = RollItem<Channel>, Mark = Mark>,
    L: Link,
    C: Clock,
> Promise<(Pass<T>, L, Ended)> for Serves<T, L, C> {
    ghost use Rattle.srv_host.specs.Running.{IsKept};

    ghost kept_by = { IsKept L.wire C.moment };
}

/// How far a session has come.
#[derive(Drop)]
pub(crate) enum Stage<
    T: Law<Base = Base, Entry = Entry, RollItem = RollItem<Channel>, Mark = Mark>,
    L: Link + Send + Drop,
    C: Clock,
> {
    /// It has a thread of its own, which wasn't joined yet.
    Apart(PromisedHandle<(Pass<T>, L, Ended), Serves<T, L, C>>),
    /// Its thread is being joined.
    Joining,
    /// It has ended. Its thread was joined, or none could be started and it was served in the caller's.
    Over(Pass<T>, L, Ended),
}

/// Lets a value go.
fn discard<T: Drop>(_value: T) {}

impl<
    T: Law<Base = Base, Entry = Entry, RollItem = RollItem<Channel>, Mark = Mark>,
    L: Link + Send + Drop,
    C: Clock,
> Stage<T, L, C> {
    /// Joins the thread, where there is one.
    fn joined<R: Threads>(self, rt: &R, _serves: &Serves<T, L, C>) -> Stage<T, L, C>
        requires { HasCome L.wire C.moment _serves.now self }
        ensures { HasCome L.wire C.moment _serves.now result }
    {
        match self {
            Stage::Apart(handle) => {
                let (pass, link, ended) = handle.join(rt);
                Stage::Over(pass, link, ended)
            }
            Stage::Joining => unreachable!(),
            Stage::Over(pass, link, ended) => Stage::Over(pass, link, ended),
        }
    }
}

/// A session that was begun.
#[derive(Drop)]
pub(crate) struct Running<
    T: Law<Base = Base, Entry = Entry, RollItem = RollItem<Channel>, Mark = Mark>,
    L: Link + Send + Drop,
    C: Clock,
> {
    serves: Serves<T, L, C>,
    stage: Stage<T, L, C>,
}

impl<
    T: Law<Base = Base, Entry = Entry, RollItem = RollItem<Channel>, Mark = Mark>,
    L: Link + Send + Drop,
    C: Clock,
> Running<T, L, C> {
    /// Joins its thread, where that wasn't done yet.
    pub(crate) fn join_early<R: Threads>(&mut self, rt: &R)
        requires { IsRunning L.wire C.moment self.old }
        ensures runs { IsRunning L.wire C.moment self.new }
        ensures serves { self.new.serves ≡ self.old.serves }
    {
        let stage = mem::replace(&mut self.stage, Stage::Joining).joined(rt, &self.serves);
        discard(mem::replace(&mut self.stage, stage));
    }

    /// Waits for its end.
    pub(crate) fn join<R: Threads>(self, rt: &R) -> (Pass<T>, L, Ended)
        requires { IsRunning L.wire C.moment self }
        ensures { IsKept L.wire C.moment (serves_of self) result }
    {
        let Running { stage, .. } = self;
        match stage {
            Stage::Apart(handle) => handle.join(rt),
            Stage::Joining => unreachable!(),
            Stage::Over(pass, link, ended) => (pass, link, ended),
        }
    }
}

/// Begins to serve a link on a pass: in a thread of its own, or here where none can be started. The session tells its end under its
/// number. Without memory for its desk the link isn't served.
pub(crate) fn begin<
    's,
    E,
    K: Home + Send + 's,
    R: Threads + Wait + Sync,
    P: Port + Send + Drop + 's,
    L: Link + Send + Drop + 's,
    C: Clock + Sync,
>(
    scope: &Scope<'s, E>,
    rt: &'s R,
    hall: &'s Hall<Records<P>>,
    site: &'s Site,
    pass: Pass<Records<P>>,
    link: L,
    clock: &'s C,
    means: Means,
    endings: &'s Endings,
    number: usize,
) -> Result<Running<Records<P>, L, C>, NoMemory>
    requires hall { hall_id hall.now ≡ K.table }
    requires site { site.now ≡ K.base.site }
    requires count { hall.now.count ≡ length site.now.names }
    requires own { pass_hall pass ≡ hall_id hall.now }
    requires base { (pass_view pass).seen.base ≡ K.base }
    requires log { (pass_view pass).log ≡ [] }
    requires others { (pass_view pass).others ≡ K.others }
    requires none { K.others ≡ [] }
    ensures begun { IfOk result (λ session. IsBegun L.wire C.moment (hall_id hall.now) (pass_view pass).seen (C.moment clock.now) means.order session) }
    ensures link { IfOk result (λ session. L.wire (serves_of session).link.value ≡ L.wire link) }
{
    let promise = Serves {
        start: Snapshot::of(&pass),
        link: Snapshot::of(&link),
        clock: Snapshot::of(clock),
        order: means.order,
    };
    let again = Serves {
        start: Snapshot::of(&pass),
        link: Snapshot::of(&link),
        clock: Snapshot::of(clock),
        order: means.order,
    };
    let Ok(desk) = SharedDesk::<'s, R, P, Records<P>, K>::new(rt, means.alloc, hall, site, pass)
    else {
        return Err(NoMemory);
    };
    match scope.spawn_with(
        promise,
        move || -> (Pass<Records<P>>, L, Ended)
            requires { K.others ≡ [] }
            ensures own { pass_hall result.0 ≡ K.table }
            ensures served { IsServed (shown_of desk.entry.pass (first_seat K.base) (λ p. seat_of p.seat.me.0)) (pass_view result.0) (L.wire link) (L.wire result.1) (moment_told (C.moment clock.entry.now)) means.order result.2 }
        {
            let served = serve_desk(desk, link, clock, means);
            endings.tell(rt, number);
            served
        },
    ) {
        Ok(handle) => Ok(Running {
            serves: again,
            stage: Stage::Apart(handle),
        }),
        Err(refused) => {
            let (pass, link, ended) = (refused.value)();
            Ok(Running {
                serves: again,
                stage: Stage::Over(pass, link, ended),
            })
        }
    }
}
