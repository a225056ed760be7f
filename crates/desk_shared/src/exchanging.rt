// The states and the ports of the records in hand, at their places among all.
ghost use Rattle.std.specs.Prelude.{◌≡◌, ◌<◌, Some, length, set, slice_get};
ghost use Rattle.std.specs.List.{AllByRecursion};
ghost use Rattle.std.specs.List.Sorted.{IsStrictlyIncreasing};
ghost use Rattle.desk_core.specs.Ports.{ports_there};
ghost use Rattle.desk_shared.specs.Exchanges.{AreExchanged, IsExchanged, IsPortExchanged};
ghost use Rattle.desk_shared.specs.Hands.{places_of, states_of};
ghost use Rattle.desk_shared.specs.declared.lent.LentPort.{LentPort};

use crate::lent::LentPort;
use crate::records::RecCell;
use desk_api::RecState;
use desk_core::Cells;

/// Exchanges two states.
fn exchange_states(mine: &mut RecState, theirs: &mut RecState)
    ensures mine { mine.new ≡ theirs.old }
    ensures theirs { theirs.new ≡ mine.old }
{
    std::mem::swap(mine, theirs);
}

/// Exchanges a port in hand with that of a record, where it has one.
fn exchange_ports<P>(mine: &mut LentPort<P>, ports: &mut Vec<Option<LentPort<P>>>, rec: usize)
    requires { rec < length ports.old.items }
    ensures there { ports_there ports.new.items ≡ ports_there ports.old.items }
    ensures mine { (place : LentPort P) → slice_get ports.old.items rec ≡ Some (Some place) → mine.new ≡ place }
    ensures theirs { (place : LentPort P) → slice_get ports.old.items rec ≡ Some (Some place) → ports.new.items ≡ set ports.old.items rec (Some mine.old) }
{
    if let Some(theirs) = &mut ports[rec] {
        std::mem::swap(mine, theirs);
    }
}

/// Exchanges the cell at this place in hand with the state and the port that stand at a record's place.
fn exchange_at<P>(hand: &mut Vec<RecCell<P>>, at: usize, cells: &mut Cells<LentPort<P>>, rec: usize)
    requires at { at < length hand.old.items }
    requires state { rec < length cells.old.states.items }
    requires port { rec < length cells.old.ports.items }
    ensures states { IsExchanged at rec (states_of hand.old.items) (states_of hand.new.items) cells.old.states.items cells.new.states.items }
    ensures port { IsPortExchanged at rec (places_of hand.old.items) (places_of hand.new.items) cells.old.ports.items cells.new.ports.items }
    ensures many { length hand.new.items ≡ length hand.old.items }
    ensures ports { ports_there cells.new.ports.items ≡ ports_there cells.old.ports.items }
    ensures before { cells.new.before ≡ cells.old.before }
{
    let cell = &mut hand[at];
    exchange_states(&mut cell.state, &mut cells.states[rec]);
    exchange_ports(&mut cell.port, &mut cells.ports, rec);
}

/// Exchanges the cells in hand, which are of these records, with the states and ports that stand at the records' places. It takes no
/// memory, and done a second time it puts all back.
pub(crate) fn exchange<P>(hand: &mut Vec<RecCell<P>>, recs: &[u32], cells: &mut Cells<LentPort<P>>)
    requires many { length hand.old.items ≡ length recs.now }
    requires rises { IsStrictlyIncreasing recs.now }
    requires states { AllByRecursion (λ rec. rec < length cells.old.states.items) recs.now }
    requires ports { length cells.old.ports.items ≡ length cells.old.states.items }
    ensures exchanged { AreExchanged recs.now (states_of hand.old.items) (states_of hand.new.items) cells.old.states.items cells.new.states.items }
    ensures many { length hand.new.items ≡ length hand.old.items }
    ensures ports { ports_there cells.new.ports.items ≡ ports_there cells.old.ports.items }
    ensures before { cells.new.before ≡ cells.old.before }
{
    for at in 0..recs.len() {
        exchange_at(hand, at, cells, recs[at] as usize);
    }
}
