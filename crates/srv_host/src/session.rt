// One session: a connection on a desk of its own.
ghost use Rattle.std.specs.Prelude.{◌≡◌, []};
ghost use Rattle.hall_locks.specs.Passes.{pass_hall, pass_view};
ghost use Rattle.pva_outside.specs.Wire.{Steadily, Unchanged};
ghost use Rattle.desk_api.specs.Calls.{first_seat};
ghost use Rattle.desk_shared.specs.Desks.{shown_of};
ghost use Rattle.desk_shared.specs.Records.{seat_of};
ghost use Rattle.srv_host.specs.Running.{IsServed};
ghost use Rattle.srv_host.specs.Sessions.{most_calls};
ghost use Rattle.srv_stream.specs.Served.{Served};
ghost use Rattle.srv_stream.specs.Streams.{moment_told};

use crate::lasting::{Lasting, Start};
use desk_api::Desk;
use desk_shared::{Home, Pass, Records, SharedDesk};
use pva_outside::{Clock, Link, Port};
use pva_wire::Order;
use srv_stream::{Ended, serve_connection};
use std::alloc::Global;
use std::marker::Brand;
use std::sync::Wait;

/// The most calls of a link's read and write.
const CALLS: u64 = 1 << 62;

/// What the sessions of a host are served with.
#[derive(Clone, Copy)]
pub(crate) struct Means {
    pub(crate) alloc: Global,
    /// The byte order of the server's messages.
    pub(crate) order: Order,
}

/// Serves one connection on a desk.
fn serve<D: Desk, S: Start, L: Link, C: Clock>(
    desk: &mut D,
    link: L,
    clock: &C,
    means: Means,
) -> (L, Ended)
    requires { L.wire link ≡ S.start }
    ensures served { Served (D.seat desk.old) (D.seat desk.new) (L.wire link) (L.wire result.0) (moment_told (C.moment clock.now)) means.order most_calls result.1 }
    ensures steady { Steadily (L.wire link) (L.wire result.0) }
{
    let mut link: Lasting<L, S> = Lasting::new(link);
    let ended = serve_connection(means.alloc, desk, &mut link, clock, means.order, CALLS);
    (link.into_link(), ended)
}

/// Serves one connection on this desk, and closes its link.
pub(crate) fn serve_desk<K: Home, R: Wait, P: Port + Drop, L: Link, C: Clock>(
    desk: SharedDesk<'_, R, P, Records<P>, K>,
    link: L,
    clock: &C,
    means: Means,
) -> (Pass<Records<P>>, L, Ended)
    requires { K.others ≡ [] }
    ensures own { pass_hall result.0 ≡ K.table }
    ensures served { IsServed (shown_of desk.entry.pass (first_seat K.base) (λ p. seat_of p.seat.me.0)) (pass_view result.0) (L.wire link) (L.wire result.1) (moment_told (C.moment clock.now)) means.order result.2 }
{
    let mut desk = desk;
    let (mut link, ended) = serve::<_, Brand, L, C>(&mut desk, link, clock, means);
    link.close();
    (desk.into_pass(), link, ended)
}
