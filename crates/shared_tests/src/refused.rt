// Puts that a channel refuses, descriptions, and names, of a desk on a pass.
use crate::halls::alone_of;
use crate::scenes::{Answer, Doing, entered, got, int, put, put_number};
use desk_api::{Desk, PutAnswer, PutRefusal, PvValue};
use desk_core::discard;
use pvd_type::Name;
use std::alloc::Global;
use std::test::Fail;

/// A record that takes no put, the member of a group, and one that takes each.
const RESTING: &str = "\
record(longout, \"D\") {
  field(VAL, \"3\") field(DISP, \"1\") field(DESC, \"takes no put\")
  info(Q:group, {\"H\": {\"d\": {+channel:\"VAL\", +type:\"plain\", +putorder:0}}})
}
record(longout, \"E\") {}
";

/// Puts to a channel what it shows.
fn put_back<D: Desk>(alloc: Global, desk: &mut D, name: &str) -> Answer {
    let Some(value) = got(alloc, desk, name, None) else {
        return None;
    };
    let answer = put(alloc, desk, name, &value, &[1]);
    discard(value);
    answer
}

/// The number that a record shows.
fn number_of<D: Desk>(alloc: Global, desk: &mut D, name: &str) -> Option<i32> {
    let Some(value) = got(alloc, desk, name, None) else {
        return None;
    };
    let number = int(value.members().get(0));
    discard(value);
    number
}

/// Puts 7 to D, to the group what it shows, and to D's description what it is; then 4 to E. The answers, and what D and E show then.
struct Refused;

impl Doing for Refused {
    type Told = ([Answer; 4], [Option<i32>; 2]);

    fn with<D: Desk>(&self, alloc: Global, desk: &mut D) -> Self::Told {
        let answers = [
            put_number(alloc, desk, "D", 7),
            put_back(alloc, desk, "H"),
            put_back(alloc, desk, "D.DESC"),
            put_number(alloc, desk, "E", 4),
        ];
        let shown = [number_of(alloc, desk, "D"), number_of(alloc, desk, "E")];
        (answers, shown)
    }
}

#[test]
fn a_put_that_is_refused_changes_nothing(rt: HostRuntime) -> Result<(), Fail> {
    let told = alone_of(&rt, rt.alloc(), RESTING, &Refused);
    let disabled = Some(Err(PutAnswer::Refused(PutRefusal::Disabled)));
    let described = Some(Err(PutAnswer::Refused(PutRefusal::NothingWritable)));
    let answers = [disabled, disabled, described, entered(0)];
    assert_eq!(rt; told, Some((answers, [Some(3), Some(4)])));
    Ok(())
}

/// Whether the value of a record's description is this text.
fn is_described<D: Desk>(alloc: Global, desk: &mut D, name: &str, text: &str) -> bool {
    let Some(value) = got(alloc, desk, name, None) else {
        return false;
    };
    let same = match value.members().get(0) {
        Some(PvValue::Text(shown)) => shown.as_str() == text,
        _ => false,
    };
    discard(value);
    same
}

/// Whether there is a name at this place, and this one.
fn is_name(names: &[Name], at: usize, text: &str) -> bool {
    match names.get(at) {
        Some(name) => name.as_str() == text,
        None => false,
    }
}

/// Whether these are a desk's names, in this order and no further.
fn are_names<D: Desk>(alloc: Global, desk: &D, first: &str, second: &str, third: &str) -> bool {
    let Ok(names) = desk.names(alloc) else {
        return false;
    };
    let list = names.as_slice();
    let same = list.len() == 3
        && is_name(list, 0, first)
        && is_name(list, 1, second)
        && is_name(list, 2, third);
    discard(names);
    same
}

/// Whether the descriptions of both records are told, and the names of all channels; and how many records and groups there are.
struct Described;

impl Doing for Described {
    type Told = ([bool; 3], [usize; 2]);

    fn with<D: Desk>(&self, alloc: Global, desk: &mut D) -> Self::Told {
        let told = [
            is_described(alloc, desk, "D.DESC", "takes no put"),
            is_described(alloc, desk, "E.DESC", ""),
            are_names(alloc, desk, "D", "E", "H"),
        ];
        (told, [desk.records(), desk.groups()])
    }
}

#[test]
fn descriptions_and_names_are_those_of_the_text(rt: HostRuntime) -> Result<(), Fail> {
    let told = alone_of(&rt, rt.alloc(), RESTING, &Described);
    assert_eq!(rt; told, Some(([true; 3], [2, 1])));
    Ok(())
}
