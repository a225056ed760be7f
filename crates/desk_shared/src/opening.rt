// A hall of records is opened.
ghost use Rattle.std.specs.Prelude.{◌≡◌, IfOk, length, map};
ghost use Rattle.desk_core.specs.Ports.{ports_there, ports_wanted};
ghost use Rattle.desk_shared.specs.Hands.{places_of, states_of};
ghost use Rattle.desk_shared.specs.Lent.{place_of};
ghost use Rattle.hall_locks.specs.Hall.{first_view};

use crate::books::Books;
use crate::lent::LentPort;
use crate::records::{RecCell, Records};
use desk_api::{NoMemory, RecState, Site};
use desk_core::{Port, names_and_configs, opening_of};
use desk_hub::{Subscriptions, a_new_desk_keeps};
use hall_locks::{Hall, Pass};
use journal_core::History;
use std::alloc::Global;
use std::snapshot::Snapshot;

/// The place of a port that a record may have.
fn lent<P>(port: Option<P>) -> LentPort<P>
    ensures { result ≡ place_of port }
{
    match port {
        Some(port) => LentPort::Here(port),
        None => LentPort::Away,
    }
}

/// Cells with these states, each with the port at its place, where there is one.
fn cells_of<P: Drop>(
    alloc: Global,
    states: Vec<RecState>,
    ports: Vec<Option<P>>,
) -> Result<Vec<RecCell<P>>, NoMemory>
    requires { length ports.items ≡ length states.items }
    ensures states { IfOk result (λ cells. states_of cells.items ≡ states.items) }
    ensures ports { IfOk result (λ cells. places_of cells.items ≡ map place_of ports.items) }
{
    let mut cells = Vec::with_capacity(alloc, states.len())?;
    for (state, port) in states.into_iter().zip(ports) {
        cells.push(RecCell {
            state,
            port: lent(port),
        })?;
    }
    Ok(cells)
}

/// A hall of this site's records, with a port for each whose configuration says that it has one, each at its record's place (EPICS
/// record reference, "DTYP", "OUT"); and its first pass. The entries may weigh no more than the limit together. The history is the
/// site's opening states with no entry, no subscription lives, and the log is empty. No port is driven.
pub fn open_hall<P: Port + Drop>(
    alloc: Global,
    site: &Site,
    ports: Vec<Option<P>>,
    limit: u64,
) -> Result<(Hall<Records<P>>, Pass<Records<P>>), NoMemory>
    requires { ports_there ports.items ≡ ports_wanted site.now.configs }
    ensures own { IfOk result (λ r. r.1.seat.table_id ≡ r.0.table.shared.table_id) }
    ensures count { IfOk result (λ r. r.0.count ≡ length site.now.names) }
    ensures first { IfOk result (λ r. r.1.seat.me.0 ≡ first_view (record { site = site.now; limit = limit })) }
{
    names_and_configs(site);
    a_new_desk_keeps();
    let states = opening_of(alloc, site)?;
    let cells = cells_of(alloc, states, ports)?;
    let opening = opening_of(alloc, site)?;
    let history = History::new(alloc, opening);
    let subs = Subscriptions::new(alloc);
    let books = Books {
        about: Snapshot::of(site),
        limit,
        history,
        subs,
    };
    match Hall::new(alloc, cells, books) {
        Ok(opened) => Ok(opened),
        Err(_) => Err(NoMemory),
    }
}
