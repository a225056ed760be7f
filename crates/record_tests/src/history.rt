ghost use Rattle.std.specs.Prelude.{◌≡◌, ◌<◌, length, IfOk};
ghost use Rattle.rec_kinds.specs.declared.datum.Action.TheVariants.{Put};
ghost use Rattle.journal_core.specs.Histories.{WritesWithin};
ghost use Rattle.journal_core.specs.Weights.{payload, weight as weight_of};

use journal_core::{Action, Datum, Entry, Few, History, Moment, RecState, weight};
use pvd_type::Name;
use rec_kinds::{SharedItems, SharedText, longout, process};
use std::alloc::Global;
use std::test::Fail;

/// An entry of one action on record 0, whose payload is 8, and that left it in this state.
fn entry_of(alloc: Global, action: Action, state: RecState) -> Result<Entry, Fail>
    requires { payload action ≡ 8 }
    ensures weight { IfOk result (λ entry. weight_of entry ≡ 136) }
    ensures within { IfOk result (λ entry. WritesWithin 1 entry.writes) }
{
    let moment = state.moment;
    let footprint = [0].to_vec(alloc)?;
    let drove = [true].to_vec(alloc)?;
    let mut actions = Vec::new(alloc);
    actions.push((0, action))?;
    let mut writes = Vec::new(alloc);
    writes.push((0, state))?;
    Ok(Entry {
        footprint: Few::from_vec(footprint),
        actions: Few::from_vec(actions),
        moment,
        drove: Few::from_vec(drove),
        writes: Few::from_vec(writes),
    })
}

/// An entry that puts a number to record 0.
fn put_entry(alloc: Global, number: i32, moment: Moment) -> Result<Entry, Fail>
    ensures weight { IfOk result (λ entry. weight_of entry ≡ 136) }
    ensures within { IfOk result (λ entry. WritesWithin 1 entry.writes) }
{
    let (config, old) = longout(alloc, 0)?;
    let action = Action::Put(Datum::Num(i64::from(number)));
    let state = process(alloc, &config, &old, &action, moment, true)?;
    entry_of(alloc, action, state)
}

/// Commits a put to the only record, unless the history is long.
fn put(alloc: Global, history: &mut History, number: i32, moment: Moment) -> Result<(), Fail>
    requires { length history.old.opening ≡ 1 }
    ensures { history.new.opening ≡ history.old.opening }
{
    if history.kept() > 1000 {
        return Ok(());
    }
    let entry = put_entry(alloc, number, moment)?;
    history.reserve()?;
    history.push(entry);
    Ok(())
}

/// The number that the only record holds at this place, and its moment.
fn held_at(alloc: Global, history: &History, place: u64) -> Result<Option<(i64, Moment)>, Fail> {
    if place > history.len() {
        return Ok(None);
    }
    let states = history.state_at(alloc, place)?;
    match states.as_slice() {
        [state] => match &state.datum {
            Datum::Num(number) => Ok(Some((*number, state.moment))),
            _ => Ok(None),
        },
        _ => Ok(None),
    }
}

#[test]
fn three_puts_are_replayed_one_by_one(rt: HostRuntime) -> Result<(), Fail> {
    let mut states = Vec::new(rt.alloc());
    states.push(longout(rt.alloc(), 42)?.1)?;
    let mut history = History::new(rt.alloc(), states);
    put(rt.alloc(), &mut history, 1, Moment::new(1, 5))?;
    put(rt.alloc(), &mut history, 2, Moment::new(2, 5))?;
    put(rt.alloc(), &mut history, 3, Moment::new(3, 5))?;
    assert_eq!(rt; history.len(), 3);
    assert_eq!(rt; history.kept(), 408);
    let at_zero = Some((42, Moment::zero()));
    assert_eq!(rt; held_at(rt.alloc(), &history, 0)?, at_zero);
    for place in 1..4u32 {
        let seconds = i64::from(place);
        let held = held_at(rt.alloc(), &history, u64::from(place))?;
        assert_eq!(rt; held, Some((seconds, Moment::new(seconds, 5))));
    }
    Ok(())
}

#[test]
fn an_entry_of_one_put_of_a_number_weighs_136(rt: HostRuntime) -> Result<(), Fail> {
    let entry = put_entry(rt.alloc(), 7, Moment::new(100, 5))?;
    assert_eq!(rt; weight(&entry), 136);
    Ok(())
}

/// What an entry weighs that puts this datum to one of two records and processes the other.
fn weight_with(alloc: Global, datum: Datum) -> Result<u64, Fail>
    requires { payload (Put datum) < 1000 }
{
    let mut actions = Vec::new(alloc);
    actions.push((4, Action::Put(datum)))?;
    actions.push((7, Action::Process))?;
    Ok(weight(&Entry {
        footprint: Few::from_vec([4, 7].to_vec(alloc)?),
        actions: Few::from_vec(actions),
        moment: Moment::zero(),
        drove: Few::from_vec([true, true].to_vec(alloc)?),
        writes: Few::from_vec(Vec::new(alloc)),
    }))
}

#[test]
fn a_payload_goes_by_the_datum(rt: HostRuntime) -> Result<(), Fail> {
    assert_eq!(rt; weight_with(rt.alloc(), Datum::Index(3))?, 200);
    let text = SharedText::of(rt.alloc(), "abc")?;
    assert_eq!(rt; weight_with(rt.alloc(), Datum::Text(text))?, 195);
    let numbers = SharedItems::of(rt.alloc(), [-1, 0, 1].to_vec(rt.alloc())?)?;
    assert_eq!(rt; weight_with(rt.alloc(), Datum::Nums(numbers))?, 216);
    let mut texts = Vec::new(rt.alloc());
    texts.push(Name::of(rt.alloc(), "ab")?)?;
    texts.push(Name::of(rt.alloc(), "cde")?)?;
    let texts = SharedItems::of(rt.alloc(), texts)?;
    assert_eq!(rt; weight_with(rt.alloc(), Datum::Texts(texts))?, 229);
    Ok(())
}
