// A log that takes no bytes: the view of the only seat of a table with one word. Each mark is one load of that word.
ghost use Rattle.std.specs.Prelude.{◌≡◌, IfOk};
ghost use Rattle.desk_api.specs.Calls.{first_seat, with_mark};
ghost use Rattle.desk_api.specs.Views.{found_in};
ghost use Rattle.desk_api.specs.declared.mark.Mark.TheVariants as marks;
ghost use Rattle.desk_core.specs.Looking.{look_of, looked};
ghost use Rattle.desk_core.specs.Standing.{base_of};
ghost use Rattle.desk_core.specs.Subscribing.{begun_in, crowded, dropped, popped};

use atomic_table::{Play, Table, TableRule};
use desk_api::{Channel, NoMemory, RecState, Seat, Site};
use journal_core::Entry;
use mon_queue::Update;
use pvd_type::BitSet;
use std::alloc::Global;
use std::marker::{Brand, Model, PhantomData};

/// What a desk stands on.
#[derive(Drop)]
pub struct Terms {
    /// The records.
    pub site: Site,
    /// What the entries of its history may weigh together.
    pub limit: u64,
}

/// The rule of the table: since there is one seat, its view may be anything. At first it is that of a history without an entry.
pub struct OneSeat;

impl TableRule<(), Seat, Terms> for OneSeat {
    ghost use Rattle.desk_api.specs.Calls.{first_seat};
    ghost use Rattle.desk_core.specs.Standing.{base_of};

    ghost holds = { λ _ _. Unit {0} };

    ghost first = { λ terms. first_seat (base_of terms) };
}

/// The mark that a step adds, as a function of its place. Each call picks it.
pub trait Picks {
    ghost use Rattle.std.specs.Prelude.{ℕ};
    ghost use Rattle.desk_api.specs.declared.mark.Mark.{Mark};

    ghost mark: { ℕ → Mark };
}

impl Picks for Brand {
    ghost use Rattle.std.specs.Prelude.{[]};
    ghost use Rattle.desk_api.specs.declared.channel.ChannelKind.TheVariants.{Rec};
    ghost use Rattle.desk_api.specs.declared.mark.Mark.TheVariants.{Read};

    ghost mark = { λ at. Read at (record { kind = Rec; number = 0 }) [] [] };
}

/// The step that adds the mark.
struct AddMark<B> {
    of: PhantomData<B>,
}

impl<B: Picks> Play<(), Seat> for AddMark<B> {
    ghost use Rattle.std.specs.Prelude.{◌≡◌};
    ghost use Rattle.desk_api.specs.Calls.{with_mark};

    ghost then = { λ _ before _ after. after.0 ≡ with_mark before.0 B.mark };
}

/// The history and the marks of a desk that nobody shares. Contracts see it as a seat.
#[derive(Drop)]
pub struct Log {
    table: Table<(), Seat, Terms, OneSeat, Global>,
    seat: atomic_table::Seat<(), Seat>,
}

impl Model for Log {
    ghost use Rattle.std.specs.Prelude.{◌≡◌};
    ghost use Rattle.std.specs.Coded.{codes};
    ghost use Rattle.pvd_type.specs.contracts.set.BitSet as bits;
    ghost use Rattle.pvd_value.specs.contracts.value.PvValue as values;
    ghost use Rattle.desk_api.specs.declared.mark.Seat.{Seat};

    ghost Value = { Seat };

    ghost coded = { Prim.hlevel (codes, bits.the_row.coded, values.the_row.coded) };

    ghost view = { λ log. log.seat.me.0 };

    ghost invariant = { λ log. (log.seat.table_id ≡ log.table.shared.table_id) × (log.table.shared.table_id.words ≡ 1) };
}

impl Log {
    /// The log of a desk on these terms before any call.
    pub(crate) fn new(alloc: Global, terms: &Terms) -> Result<Log, NoMemory>
        ensures { IfOk result (λ log. log ≡ first_seat (base_of terms.now)) }
    {
        match Table::of_words(alloc, &[0], terms) {
            Ok((table, seat)) => Ok(Log { table, seat }),
            Err(_) => Err(NoMemory),
        }
    }

    /// Adds the mark that was picked, at the present place.
    fn add<B: Picks>(&mut self)
        ensures { self.new ≡ with_mark self.old B.mark }
    {
        let table = &self.table;
        table.shared.load::<AddMark<B>>(&mut self.seat, 0);
    }
}

// One helper for each kind of mark. Its arguments are the parts of the mark, from which the caller picks it.

/// Notes that a get of the channel found these records as they are now.
pub(crate) fn note_read<B: Picks>(
    log: &mut Log,
    _channel: Channel,
    _recs: &[u32],
    _cells: &[RecState],
)
    requires { B.mark ≡ look_of _channel _cells.now _recs.now }
    ensures { log.new ≡ looked _channel _cells.now log.old _recs.now }
{
    log.add::<B>();
}

/// Notes that a put added this entry, and that these records were then found as they are now.
pub(crate) fn note_entered<B: Picks>(
    log: &mut Log,
    _entry: &Entry,
    _looked: &[u32],
    _cells: &[RecState],
)
    requires { B.mark ≡ (λ at. marks.Entered at _entry.now _looked.now (found_in _cells.now _looked.now)) }
    ensures { log.new ≡ with_mark log.old (λ at. marks.Entered at _entry.now _looked.now (found_in _cells.now _looked.now)) }
{
    log.add::<B>();
}

/// Notes that this entry would have been too heavy: what is kept, what it weighs, and the limit.
pub(crate) fn note_overweight<B: Picks>(
    log: &mut Log,
    _entry: &Entry,
    _kept: u64,
    _weight: u64,
    _limit: u64,
)
    requires { B.mark ≡ (λ at. marks.Overweight at _entry.now.footprint _entry.now.actions _kept _weight _limit) }
    ensures { log.new ≡ with_mark log.old (λ at. marks.Overweight at _entry.now.footprint _entry.now.actions _kept _weight _limit) }
{
    log.add::<B>();
}

/// Notes that a subscription to these leaves of a channel began in this slot.
pub(crate) fn note_begun<B: Picks>(
    log: &mut Log,
    _slot: u32,
    _channel: Channel,
    _mask: &BitSet,
    _size: u32,
)
    requires { B.mark ≡ begun_in log.old _slot _channel _mask.now _size }
    ensures { log.new ≡ with_mark log.old (begun_in log.old _slot _channel _mask.now _size) }
{
    log.add::<B>();
}

/// Notes that no subscription began, since so many live.
pub(crate) fn note_crowded<B: Picks>(log: &mut Log, _count: u32)
    requires { B.mark ≡ crowded log.old _count }
    ensures { log.new ≡ with_mark log.old (crowded log.old _count) }
{
    log.add::<B>();
}

/// Notes that a pop of this slot took this update, or found none.
pub(crate) fn note_popped<B: Picks>(log: &mut Log, _slot: u32, _update: &Option<Update>)
    requires { B.mark ≡ popped _slot _update.now }
    ensures { log.new ≡ with_mark log.old (popped _slot _update.now) }
{
    log.add::<B>();
}

/// Notes that the subscription of this slot ended.
pub(crate) fn note_dropped<B: Picks>(log: &mut Log, _slot: u32)
    requires { B.mark ≡ dropped log.old _slot }
    ensures { log.new ≡ with_mark log.old (dropped log.old _slot) }
{
    log.add::<B>();
}
