// The drill: one session on records and groups of them, in memory.
ghost use Rattle.std.specs.Prelude.{◌≡◌, ◌≤◌, ℕ, IfOk, IfSome, List, OnOk, [], length};
ghost use Rattle.std.specs.String.{string_bytes};
ghost use Rattle.prog_drill.specs.Drilling.{TellsDrill, number_in, pieces_in, sum_of};
ghost use Rattle.prog_drill.specs.Drives.{AllFed, AreTotals, IsBehind, IsDrillDesk, Piece, Played, Round, Rounds, SeatTotals, lines_of};
ghost use Rattle.rec_kinds.specs.declared.datum.Datum.TheVariants.{Num};
ghost use Rattle.srv_session.specs.Calls.{Holds, IsOf};
ghost use Rattle.srv_stream.specs.Views.{view_of};

use crate::client::{MESSAGES, TEXT, input};
use crate::counting::Counting;
use desk_api::{Desk, Moment, NoMemory, Site};
use desk_core::SoloDesk;
use prog_source::make_ports;
use pva_outside::MemoryPorts;
use pva_wire::Order;
use rec_kinds::{Datum, RecState};
use srv_stream::Serving;
use std::alloc::{AllocError, Global};

/// How many bytes are fed at a time.
const PIECE: usize = 4096;

/// What the entries of its history may weigh together.
const JOURNAL: u64 = 268_435_456;

/// How many rounds of pops find all that is unread, and that nothing is: no queue holds more than 64 updates.
const ROUNDS: u32 = 65;

/// Takes all output.
#[tactic(auto, using(crate::proofs::Pumping::taken_all))]
fn take_output(serving: &mut Serving)
    ensures { view_of serving.new ≡ record (view_of serving.old) { pending = [] } }
{
    let count = serving.output().len();
    serving.took(count);
}

/// Pops each monitor that is due once, and tells whether an update was found.
#[tactic(auto, using(crate::proofs::Pumping::round_of))]
fn pump_round<D: Desk>(serving: &mut Serving, desk: &mut D) -> Result<bool, NoMemory>
    requires site { IsOf (D.seat desk.old).seen.base.site (view_of serving.old).state }
    requires holds { Holds (D.seat desk.old).log (view_of serving.old).state }
    ensures round { IfOk result (λ more. Round (D.seat desk.old) (D.seat desk.new) (view_of serving.old) (view_of serving.new) more) }
    ensures site { OnOk result (IsOf (D.seat desk.new).seen.base.site (view_of serving.new).state) }
    ensures holds { OnOk result (Holds (D.seat desk.new).log (view_of serving.new).state) }
{
    let Ok(more) = serving.pump(desk) else {
        return Err(NoMemory);
    };
    take_output(serving);
    Ok(more)
}

/// Pops the monitors in so many rounds at most, until nothing is unread.
#[tactic(auto, using(crate::proofs::Pumping::last_round, crate::proofs::Pumping::on_more))]
fn pump_out<D: Desk>(serving: &mut Serving, desk: &mut D, rounds: u32) -> Result<(), NoMemory>
    requires site { IsOf (D.seat desk.old).seen.base.site (view_of serving.old).state }
    requires holds { Holds (D.seat desk.old).log (view_of serving.old).state }
    ensures rounds { OnOk result (Rounds (D.seat desk.old) (D.seat desk.new) (view_of serving.old) (view_of serving.new)) }
    ensures site { OnOk result (IsOf (D.seat desk.new).seen.base.site (view_of serving.new).state) }
    ensures holds { OnOk result (Holds (D.seat desk.new).log (view_of serving.new).state) }
{
    if rounds == 0 {
        return Err(NoMemory);
    }
    let Ok(more) = pump_round(serving, desk) else {
        return Err(NoMemory);
    };
    if more {
        return pump_out(serving, desk, rounds - 1);
    }
    Ok(())
}

/// Answers the events that a piece completes, and takes all output.
#[tactic(auto, using(crate::proofs::Pumping::on_piece))]
fn feed_piece<D: Desk>(
    alloc: Global,
    serving: &mut Serving,
    desk: &mut D,
    piece: &[u8],
    moment: Moment,
) -> Result<(), NoMemory>
    requires site { IsOf (D.seat desk.old).seen.base.site (view_of serving.old).state }
    requires holds { Holds (D.seat desk.old).log (view_of serving.old).state }
    ensures piece { OnOk result (Piece (D.seat desk.old) (D.seat desk.new) (view_of serving.old) (view_of serving.new) piece.now) }
    ensures site { OnOk result (IsOf (D.seat desk.new).seen.base.site (view_of serving.new).state) }
    ensures holds { OnOk result (Holds (D.seat desk.new).log (view_of serving.new).state) }
{
    let Ok(()) = serving.feed(alloc, desk, piece, moment) else {
        return Err(NoMemory);
    };
    take_output(serving);
    pump_out(serving, desk, ROUNDS)
}

/// Feeds what is left of the input, piece by piece.
#[tactic(auto, using(crate::proofs::Pumping::on_last))]
fn feed_all<D: Desk>(
    alloc: Global,
    serving: &mut Serving,
    desk: &mut D,
    rest: &[u8],
    moment: Moment,
) -> Result<(), NoMemory>
    requires site { IsOf (D.seat desk.old).seen.base.site (view_of serving.old).state }
    requires holds { Holds (D.seat desk.old).log (view_of serving.old).state }
    ensures { (before : List ℕ) (n : ℕ) → IsBehind before (view_of serving.old).stream → length rest.now ≤ n → OnOk result (AllFed (D.seat desk.old) (D.seat desk.new) (view_of serving.old) before (pieces_in n rest.now)) }
{
    desk.has_legal_history();
    if rest.is_empty() {
        return Ok(());
    }
    if rest.len() <= PIECE {
        return feed_piece(alloc, serving, desk, rest, moment);
    }
    let (piece, later) = rest.split_at(PIECE);
    let Ok(()) = feed_piece(alloc, serving, desk, piece, moment) else {
        return Err(NoMemory);
    };
    feed_all(alloc, serving, desk, later, moment)
}

/// What a drill comes to.
#[derive(Clone, Copy, Debug, PartialEq, Eq)]
pub(crate) struct Totals {
    /// How many entries its history has.
    pub(crate) commits: u64,
    /// The values of all records together.
    pub(crate) sum: u64,
    /// How many updates were taken.
    pub(crate) updates: u64,
}

/// A number that isn't negative, and else 0.
fn number_of(value: i64) -> u64
    ensures { result ≡ number_in (Num value) }
{
    if value.is_negative() {
        return 0;
    }
    value.unsigned_abs()
}

/// The number that a record holds, and 0 where it is negative or no number.
fn number_in(state: &RecState) -> u64
    ensures { result ≡ number_in state.now.datum }
{
    match &state.datum {
        Datum::Num(value) => number_of(*value),
        Datum::Index(_) => 0,
        Datum::Text(_) => 0,
        Datum::Nums(_) => 0,
        Datum::Texts(_) => 0,
    }
}

/// These numbers together. None where they are too many.
#[tactic(auto, using(crate::proofs::Summing::sum_of_none, crate::proofs::Summing::sum_of_more))]
fn sum_of(states: &[RecState]) -> Option<u64>
    ensures { IfSome result (λ sum. sum ≡ sum_of states.now) }
{
    let Some((first, rest)) = states.split_first() else {
        return Some(0);
    };
    let Some(sum) = sum_of(rest) else {
        return None;
    };
    sum.checked_add(number_in(first))
}

/// The desk of the drill.
fn desk_of(alloc: Global) -> Result<Counting, NoMemory>
    ensures { IfOk result (λ counting. IsDrillDesk counting.desk.log) }
{
    let Ok(site) = Site::build(alloc, TEXT, &[]) else {
        return Err(NoMemory);
    };
    let mut maker = MemoryPorts::new(alloc, Vec::new(alloc), Vec::new(alloc));
    let Ok(ports) = make_ports(alloc, &site, &mut maker) else {
        return Err(NoMemory);
    };
    let Ok(desk) = SoloDesk::new(alloc, site, ports, JOURNAL) else {
        return Err(NoMemory);
    };
    Ok(Counting::new(desk))
}

/// What a desk comes to.
fn totals_of(counting: &Counting) -> Result<Totals, NoMemory>
    ensures { IfOk result (SeatTotals counting.now.desk.log) }
{
    let Some(sum) = sum_of(counting.desk.states()) else {
        return Err(NoMemory);
    };
    let Some(updates) = counting.updates() else {
        return Err(NoMemory);
    };
    Ok(Totals {
        commits: counting.desk.entries(),
        sum,
        updates,
    })
}

/// Feeds the whole input to a serving of its own.
fn play<D: Desk>(alloc: Global, desk: &mut D, bytes: &[u8], moment: Moment) -> Result<(), NoMemory>
    ensures { OnOk result (Played (D.seat desk.old) (D.seat desk.new) bytes.now) }
{
    let Ok(mut serving) = Serving::start(alloc, Order::Little) else {
        return Err(NoMemory);
    };
    feed_all(alloc, &mut serving, desk, bytes, moment)
}

/// Runs the drill of this number on its desk. Its puts have one moment. `NoMemory` stands for every answer of the serving but `Ok`.
fn run_on(
    alloc: Global,
    number: u64,
    counting: &mut Counting,
    moment: Moment,
) -> Result<Totals, NoMemory>
    requires { IsDrillDesk counting.old.desk.log }
    ensures { IfOk result (AreTotals number) }
{
    let Ok(bytes) = input(alloc, number) else {
        return Err(NoMemory);
    };
    let Ok(()) = play(alloc, counting, bytes.as_slice(), moment) else {
        return Err(NoMemory);
    };
    totals_of(counting)
}

/// What the drill of this number comes to.
fn run_drill(alloc: Global, number: u64, moment: Moment) -> Result<Totals, NoMemory>
    ensures { IfOk result (AreTotals number) }
{
    let Ok(mut counting) = desk_of(alloc) else {
        return Err(NoMemory);
    };
    let totals = run_on(alloc, number, &mut counting, moment);
    // the program ends behind the drill, so that its history isn't let go entry by entry
    std::mem::forget(counting);
    totals
}

/// The lines that tell them.
fn lines_of(alloc: Global, totals: Totals) -> Result<String, AllocError>
    ensures { IfOk result (λ lines. string_bytes lines ≡ lines_of totals) }
{
    format!(in alloc;
        "messages {}\ncommits {}\nsum {}\nupdates {}\nclosed\n",
        MESSAGES, totals.commits, totals.sum, totals.updates
    )
}

/// Runs the drill of this number, whose puts have this moment, and answers the lines that tell what it comes to: how many messages its
/// client sent, how many entries the history has, the values of all records together, how many updates were taken, and `closed`.
///
/// # Errors
///
/// `NoMemory` where memory ran out.
pub fn drill(alloc: Global, number: u64, moment: Moment) -> Result<String, NoMemory>
    ensures { IfOk result (λ lines. TellsDrill number (string_bytes lines)) }
{
    let Ok(totals) = run_drill(alloc, number, moment) else {
        return Err(NoMemory);
    };
    let Ok(lines) = lines_of(alloc, totals) else {
        return Err(NoMemory);
    };
    Ok(lines)
}
