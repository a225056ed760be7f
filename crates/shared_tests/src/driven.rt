// A port is driven by the desk that puts to its record.
ghost use Rattle.std.specs.Prelude.{◌≡◌, ◌<◌};

use crate::halls::{Taking, opened, opened_of, with_desk_here};
use crate::scenes::{Answer, Doing, entered, int, put_and_get, put_pair};
use desk_api::{Desk, PvValue};
use desk_core::discard;
use desk_shared::{Hall, LentPort, Pass, Records};
use pva_outside::MemoryPort;
use std::alloc::Global;
use std::sync::Wait;
use std::test::Fail;

/// A number, and the severity and status of its alarm.
type Row = [i32; 3];

/// What a record's structure shows.
fn row(value: &PvValue) -> Option<Row> {
    let members = value.members();
    let alarm = members.get(1)?.members();
    Some([int(members.get(0))?, int(alarm.get(0))?, int(alarm.get(1))?])
}

/// Whether the alarm of a record's structure has this message.
fn has_message(value: &PvValue, message: &str) -> bool {
    let Some(alarm) = value.members().get(1) else {
        return false;
    };
    match alarm.members().get(2) {
        Some(PvValue::Text(text)) => text.as_str() == message,
        _ => false,
    }
}

/// What a record's structure shows, and whether its alarm has this message.
fn alarmed(shown: Option<PvValue>, message: &str) -> Option<(Row, bool)> {
    let Some(value) = shown else {
        return None;
    };
    let told = row(&value);
    let has = has_message(&value, message);
    discard(value);
    match told {
        Some(row) => Some((row, has)),
        None => None,
    }
}

/// Puts this number to A, and gets A, by one call or by two. A's alarm is to have this message.
#[derive(Drop)]
struct PutAndGet {
    number: i32,
    message: &'static str,
    at_once: bool,
}

impl Doing for PutAndGet {
    type Told = (Answer, Option<(Row, bool)>);

    fn with<D: Desk>(&self, alloc: Global, desk: &mut D) -> Self::Told {
        let (answer, shown) = put_and_get(alloc, desk, self.number, self.at_once);
        (answer, alarmed(shown, self.message))
    }
}

/// How often the port of a record was driven, and whether this was the last text. The pass comes back, but where memory ran out.
fn driven<R: Wait>(
    rt: &R,
    alloc: Global,
    hall: &Hall<Records<MemoryPort>>,
    pass: Pass<Records<MemoryPort>>,
    rec: u32,
    text: &str,
) -> (Pass<Records<MemoryPort>>, Option<(u64, bool)>)
    requires own { pass.seat.table_id ≡ hall.now.table.shared.table_id }
    requires there { rec < hall.now.count }
    ensures own { result.0.seat.table_id ≡ pass.seat.table_id }
    ensures base { result.0.seat.me.0.seen.base ≡ pass.seat.me.0.seen.base }
{
    let Ok(first) = vec![in alloc; rec] else {
        return (pass, None);
    };
    let visit = match hall.visit(rt, alloc, pass, first) {
        Ok(visit) => visit,
        Err((pass, _)) => return (pass, None),
    };
    let told = match &visit.cell(0).port {
        LentPort::Here(port) => Some((port.drives(), port.last() == text.as_bytes())),
        LentPort::Away => None,
    };
    (hall.leave(visit), told)
}

/// What a put to a record with a port comes to: its answer, what the record shows, whether its alarm has the message; how often its port
/// was driven, and whether with the number last.
type Put = (Option<(Answer, Option<(Row, bool)>)>, Option<(u64, bool)>);

/// Puts 7 and 8 to A, whose port fails once, and gets A each time, by the same call or by another.
fn put_twice<R: Wait>(rt: &R, alloc: Global, at_once: bool) -> Option<[Put; 2]> {
    let Some((site, hall, pass)) = opened(alloc, 1_000_000) else {
        return None;
    };
    if site.records() == 0 {
        return None;
    }
    let first = PutAndGet {
        number: 7,
        message: "WRITE",
        at_once,
    };
    let (pass, seven) = with_desk_here(rt, alloc, &hall, &site, pass, &first);
    let (pass, once) = driven(rt, alloc, &hall, pass, 0, "7");
    let second = PutAndGet {
        number: 8,
        message: "",
        at_once,
    };
    let (pass, eight) = with_desk_here(rt, alloc, &hall, &site, pass, &second);
    let (_pass, twice) = driven(rt, alloc, &hall, pass, 0, "8");
    Some([(seven, once), (eight, twice)])
}

/// What both puts are to come to.
fn seven_and_eight() -> Option<[Put; 2]> {
    let seven = Some((entered(0), Some(([7, 3, 2], true))));
    let eight = Some((entered(1), Some(([8, 0, 0], true))));
    Some([(seven, Some((1, true))), (eight, Some((2, true)))])
}

#[test]
fn a_port_is_driven_with_each_put_and_its_fault_is_an_alarm(rt: HostRuntime) -> Result<(), Fail> {
    assert_eq!(rt; put_twice(&rt, rt.alloc(), false), seven_and_eight());
    Ok(())
}

#[test]
fn a_put_get_drives_the_port_and_shows_what_it_answered(rt: HostRuntime) -> Result<(), Fail> {
    assert_eq!(rt; put_twice(&rt, rt.alloc(), true), seven_and_eight());
    Ok(())
}

/// Two records with a port each, the members of a group.
const PORTED: &str = "\
record(longout, \"B\") {
  field(VAL, \"1\") field(DTYP, \"File\") field(OUT, \"@file b\")
  info(Q:group, {\"G\": {\"b\": {+channel:\"VAL\", +type:\"plain\", +putorder:1}}})
}
record(longout, \"C\") {
  field(VAL, \"2\") field(DTYP, \"File\") field(OUT, \"@file c\")
  info(Q:group, {\"G\": {\"c\": {+channel:\"VAL\", +type:\"plain\", +putorder:0}}})
}
";

/// Puts 7 to the first member of the group, and 8 to the second.
struct PutPair;

impl Doing for PutPair {
    type Told = Answer;

    fn with<D: Desk>(&self, alloc: Global, desk: &mut D) -> Answer {
        put_pair(alloc, desk, [7, 8])
    }
}

/// What the put is answered, and what each port tells.
fn put_to_two<R: Wait>(
    rt: &R,
    alloc: Global,
) -> Option<(Option<Answer>, [Option<(u64, bool)>; 2])> {
    let Some((site, hall, pass)) = opened_of(alloc, PORTED, &Taking, 1_000_000) else {
        return None;
    };
    if site.records() < 2 {
        return None;
    }
    let (pass, answer) = with_desk_here(rt, alloc, &hall, &site, pass, &PutPair);
    let (pass, first) = driven(rt, alloc, &hall, pass, 0, "7");
    let (_pass, second) = driven(rt, alloc, &hall, pass, 1, "8");
    Some((answer, [first, second]))
}

#[test]
fn each_port_is_driven_with_the_number_of_its_record(rt: HostRuntime) -> Result<(), Fail> {
    let told = put_to_two(&rt, rt.alloc());
    assert_eq!(rt; told, Some((Some(entered(0)), [Some((1, true)); 2])));
    Ok(())
}
