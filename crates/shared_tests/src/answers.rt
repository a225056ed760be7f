// What calls of a desk on a pass answer: put-gets, looks at all records, gets of one record after another, and a full history.
use crate::halls::alone;
use crate::scenes::{
    Answer, Doing, both_shown, entered, pair_in, pair_with, put_both, put_get, put_number,
};
use desk_api::{Desk, Done, PutAnswer, RecRow};
use desk_core::discard;
use std::alloc::Global;
use std::test::Fail;

/// What a put-get answers of its put, and the numbers that the group then shows.
type PutGot = (Answer, Option<[i32; 2]>);

/// Puts a number to both members of the group, and gets it.
fn put_get_both<D: Desk>(alloc: Global, desk: &mut D, number: i32, atomic: Option<bool>) -> PutGot {
    let Ok(value) = pair_with(alloc, [number, number]) else {
        return (None, None);
    };
    let (answer, shown) = put_get(alloc, desk, "G", &value, &[1, 2], atomic);
    discard(value);
    (answer, pair_in(shown))
}

/// Put-gets of the group as one entry and as one for each member, and then gets of it in one place and of one record after another.
struct PutGets;

impl Doing for PutGets {
    type Told = ([PutGot; 2], [Option<[i32; 2]>; 2]);

    fn with<D: Desk>(&self, alloc: Global, desk: &mut D) -> Self::Told {
        let whole = put_get_both(alloc, desk, 5, None);
        let apart = put_get_both(alloc, desk, 6, Some(false));
        let shown = [
            both_shown(alloc, desk, None),
            both_shown(alloc, desk, Some(false)),
        ];
        ([whole, apart], shown)
    }
}

#[test]
fn a_put_get_shows_the_group_right_behind_its_entries(rt: HostRuntime) -> Result<(), Fail> {
    let told = alone(&rt, rt.alloc(), 1_000_000, &PutGets);
    let two = Some(Ok(Done { first: 1, count: 2 }));
    let puts = [(entered(0), Some([5, 5])), (two, Some([6, 6]))];
    assert_eq!(rt; told, Some((puts, [Some([6, 6]); 2])));
    Ok(())
}

/// Whether a row is of a record with this name, text and severity.
fn is_row(row: Option<&RecRow>, name: &str, text: &str, severity: u8) -> bool {
    match row {
        Some(row) => {
            row.name.as_str() == name && row.text.as_str() == text && row.severity == severity
        }
        None => false,
    }
}

/// Puts 7 to A, whose port fails once, and looks at all records. Whether each has its row, and how many there are.
struct Snapshot;

impl Doing for Snapshot {
    type Told = (Answer, Option<([bool; 3], usize)>);

    fn with<D: Desk>(&self, alloc: Global, desk: &mut D) -> Self::Told {
        let answer = put_number(alloc, desk, "A", 7);
        let Ok(rows) = desk.snapshot(alloc) else {
            return (answer, None);
        };
        let told = [
            is_row(rows.get(0), "A", "7", 3),
            is_row(rows.get(1), "B", "1", 0),
            is_row(rows.get(2), "C", "2", 0),
        ];
        let count = rows.len();
        discard(rows);
        (answer, Some((told, count)))
    }
}

#[test]
fn a_snapshot_has_a_row_for_each_record(rt: HostRuntime) -> Result<(), Fail> {
    let told = alone(&rt, rt.alloc(), 1_000_000, &Snapshot);
    assert_eq!(rt; told, Some((entered(0), Some(([true; 3], 3)))));
    Ok(())
}

/// Puts 5 and 6 to both members of the group, and tells what it shows behind each.
struct Fill;

impl Doing for Fill {
    type Told = [PutGot; 2];

    fn with<D: Desk>(&self, alloc: Global, desk: &mut D) -> Self::Told {
        let first = put_both(alloc, desk, 5);
        let shown = both_shown(alloc, desk, None);
        let second = put_both(alloc, desk, 6);
        [(first, shown), (second, both_shown(alloc, desk, None))]
    }
}

#[test]
fn a_put_above_the_limit_is_refused_and_changes_nothing(rt: HostRuntime) -> Result<(), Fail> {
    let told = alone(&rt, rt.alloc(), 208, &Fill);
    let full = PutAnswer::JournalFull {
        kept: 208,
        entry: 208,
        limit: 208,
        done: 0,
    };
    let shown = Some([5, 5]);
    assert_eq!(rt; told, Some([(entered(0), shown), (Some(Err(full)), shown)]));
    Ok(())
}
