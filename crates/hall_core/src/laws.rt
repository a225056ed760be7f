//! What holds of a floor after every list of events.
ghost use Rattle.hall_core.specs.Floor.{StaysSound, JournalGrows, HeldCellStays};

use crate::law::Law;

/// What holds of a floor after every list of events, each of which was stepped.
///
/// From a floor whose cells show what the law gives after its journal, which is legal, as `Floor::new`
/// opens one, each list of events leads to such a floor. Its journal has grown by the entries of the
/// commits that were enabled, in order, each made by the actor of its event, and the base stays. A
/// cell that an actor holds keeps its value up to the actor's next commit or look.
pub fn floor_law<T: Law>()
    ensures sound { StaysSound T.meaning }
    ensures journal { JournalGrows T.meaning }
    ensures held { HeldCellStays T.meaning }
{}
