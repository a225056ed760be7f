// What was seen is brought up to date.
ghost use Rattle.std.specs.Prelude.{◌≡◌, [], ◌∷◌};
ghost use Rattle.histories.specs.History.{Every, deeds_by};
ghost use Rattle.hall_core.specs.Meanings.{AreDistinct};
ghost use Rattle.hall_locks.specs.Hall.{numbers_of};
ghost use Rattle.hall_locks.specs.Passes.{hall_id, pass_hall, pass_log, pass_number, pass_others, pass_seen, pass_view};
ghost use Rattle.desk_api.specs.Calls.{Adds};
ghost use Rattle.desk_api.specs.Marks.{deeds_of};
ghost use Rattle.desk_shared.specs.Records.{seat_of};

use desk_shared::{Hall, Pass, Records};
use hall_locks::NoMark;
use pva_outside::Port;
use std::alloc::Global;
use std::sync::Wait;

/// Sees the history to its present end. It tells what the seats did whose logs the pass holds. It may wait, and takes no memory.
pub(crate) fn settle<R: Wait, P: Port + Drop>(
    rt: &R,
    alloc: Global,
    hall: &Hall<Records<P>>,
    pass: Pass<Records<P>>,
) -> Pass<Records<P>>
    requires own { pass_hall pass ≡ hall_id hall.now }
    ensures own { pass_hall result ≡ pass_hall pass }
    ensures adds { Adds (seat_of (pass_view pass)) (seat_of (pass_view result)) [] }
    ensures others { pass_others result ≡ pass_others pass }
    ensures distinct { AreDistinct (pass_number result ∷ numbers_of (pass_others result)) }
    ensures did { Every (λ log. deeds_by log.0 (pass_seen result).deeds ≡ deeds_of log.1) ((pass_number result, pass_log result) ∷ pass_others result) }
{
    let Ok(visit) = hall.visit(rt, alloc, pass, Vec::new(alloc)) else {
        unreachable!()
    };
    let held = hall.hub(rt, visit);
    hall.look::<NoMark>(held)
}
