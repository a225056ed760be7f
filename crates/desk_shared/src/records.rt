// The law of a hall of records, and the marks that its steps add.
use crate::books::Books;
use crate::lent::LentPort;
use desk_api::{Base, Channel, Mark, RecState};
use hall_core::Law;
use hall_locks::MarkOf;
use journal_core::Entry;
use mon_shown::RollItem;
use std::marker::{Brand, PhantomData};

/// A record in a hall. What it shows is its state.
#[derive(Drop)]
pub struct RecCell<P> {
    /// The state.
    pub state: RecState,
    /// Its port.
    pub port: LentPort<P>,
}

/// The law of a hall whose cells are the records of a site with their ports, and whose hub is their history with the subscriptions of
/// all seats. No value of it is made.
pub struct Records<P> {
    of: PhantomData<P>,
}

impl<P: Drop> Law for Records<P> {
    type Cell = RecCell<P>;

    type Hub = Books;

    type Entry = Entry;

    type Base = Base;

    type Shown = Option<RecState>;

    type Mark = Mark;

    type RollItem = RollItem<Channel>;

    ghost use Rattle.desk_shared.specs.Records.{records};

    ghost meaning = { records };
}

/// The mark of a step. Each call picks it.
pub(crate) trait Notes {
    ghost use Rattle.desk_api.specs.declared.mark.Mark.{Mark};

    ghost mark: { Mark };
}

impl Notes for Brand {
    ghost use Rattle.desk_api.specs.declared.mark.Mark.TheVariants.{Crowded};

    ghost mark = { Crowded 0 0 0 };
}

/// The mark that was picked, as a hall asks for it.
pub(crate) struct Noted<B> {
    of: PhantomData<B>,
}

impl<P: Drop, B: Notes> MarkOf<Records<P>> for Noted<B> {
    ghost use Rattle.std.specs.Prelude.{Some};

    ghost mark = { Some B.mark };
}
