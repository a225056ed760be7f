//! The law of two cells, to both of which every entry adds 1.
use hall_core::Law;

pub(crate) struct TwoCells;

impl Law for TwoCells {
    type Cell = u64;

    type Hub = u64;

    type Entry = ();

    type Base = ();

    type Shown = u64;

    type Mark = ();

    type RollItem = ();

    ghost use Rattle.hall_tests.specs.TwoCells.{two_cells};

    ghost meaning = { two_cells };
}
