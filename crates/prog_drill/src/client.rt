// The client of the drill: the records that it is served, and what it sends.
ghost use Rattle.std.specs.Prelude.{◌≡◌, ◌<◌, ◌++◌, ◌%◌, ◌^◌, IfOk, OnOk};
ghost use Rattle.prog_drill.specs.Drilling.{drill_messages, drill_text, frame_of, input_of, next_number, put, puts};

use pva_wire::{Order, write_u32};
use pvd_type::NoMemory;
use std::alloc::Global;

/// The database text: the longouts `drill:0` to `drill:15`, four after another being the members `a` to `d` of the groups `drill:g0`
/// to `drill:g3`.
pub(crate) const TEXT: &str = "\
record(longout, \"drill:0\") { info(Q:group, {\"drill:g0\": {\"a\": {+channel:\"VAL\", +type:\"plain\"}}}) }\n\
record(longout, \"drill:1\") { info(Q:group, {\"drill:g0\": {\"b\": {+channel:\"VAL\", +type:\"plain\"}}}) }\n\
record(longout, \"drill:2\") { info(Q:group, {\"drill:g0\": {\"c\": {+channel:\"VAL\", +type:\"plain\"}}}) }\n\
record(longout, \"drill:3\") { info(Q:group, {\"drill:g0\": {\"d\": {+channel:\"VAL\", +type:\"plain\"}}}) }\n\
record(longout, \"drill:4\") { info(Q:group, {\"drill:g1\": {\"a\": {+channel:\"VAL\", +type:\"plain\"}}}) }\n\
record(longout, \"drill:5\") { info(Q:group, {\"drill:g1\": {\"b\": {+channel:\"VAL\", +type:\"plain\"}}}) }\n\
record(longout, \"drill:6\") { info(Q:group, {\"drill:g1\": {\"c\": {+channel:\"VAL\", +type:\"plain\"}}}) }\n\
record(longout, \"drill:7\") { info(Q:group, {\"drill:g1\": {\"d\": {+channel:\"VAL\", +type:\"plain\"}}}) }\n\
record(longout, \"drill:8\") { info(Q:group, {\"drill:g2\": {\"a\": {+channel:\"VAL\", +type:\"plain\"}}}) }\n\
record(longout, \"drill:9\") { info(Q:group, {\"drill:g2\": {\"b\": {+channel:\"VAL\", +type:\"plain\"}}}) }\n\
record(longout, \"drill:10\") { info(Q:group, {\"drill:g2\": {\"c\": {+channel:\"VAL\", +type:\"plain\"}}}) }\n\
record(longout, \"drill:11\") { info(Q:group, {\"drill:g2\": {\"d\": {+channel:\"VAL\", +type:\"plain\"}}}) }\n\
record(longout, \"drill:12\") { info(Q:group, {\"drill:g3\": {\"a\": {+channel:\"VAL\", +type:\"plain\"}}}) }\n\
record(longout, \"drill:13\") { info(Q:group, {\"drill:g3\": {\"b\": {+channel:\"VAL\", +type:\"plain\"}}}) }\n\
record(longout, \"drill:14\") { info(Q:group, {\"drill:g3\": {\"c\": {+channel:\"VAL\", +type:\"plain\"}}}) }\n\
record(longout, \"drill:15\") { info(Q:group, {\"drill:g3\": {\"d\": {+channel:\"VAL\", +type:\"plain\"}}}) }\n\
";

/// How many messages the client sends.
pub(crate) const MESSAGES: u32 = 10_026;

/// How many of them are puts.
const PUTS: u32 = 10_000;

/// Room for all of their bytes, of which a put has 23.
const ROOM: usize = 240_000;

/// The others come first: a validation, the creation of a channel of each name, the beginning of puts to each record and of a monitor of
/// each group, and the starts of the monitors.
const OPENING: &[u8] = b"\
    \xCA\x02\x00\x01\x13\x00\x00\x00\x00\x00\x01\x00\x00\x00\x00\x00\x09anonymous\xFF\
    \xCA\x02\x00\x07\xFC\x00\x00\x00\x14\x00\x00\x00\x00\x00\x07drill:0\x01\x00\x00\x00\x07drill:1\x02\x00\
    \x00\x00\x07drill:2\x03\x00\x00\x00\x07drill:3\x04\x00\x00\x00\x07drill:4\x05\x00\x00\x00\x07drill:5\
    \x06\x00\x00\x00\x07drill:6\x07\x00\x00\x00\x07drill:7\x08\x00\x00\x00\x07drill:8\x09\x00\x00\x00\
    \x07drill:9\x0A\x00\x00\x00\x08drill:10\x0B\x00\x00\x00\x08drill:11\x0C\x00\x00\x00\x08drill:12\x0D\
    \x00\x00\x00\x08drill:13\x0E\x00\x00\x00\x08drill:14\x0F\x00\x00\x00\x08drill:15\x10\x00\x00\x00\
    \x08drill:g0\x11\x00\x00\x00\x08drill:g1\x12\x00\x00\x00\x08drill:g2\x13\x00\x00\x00\x08drill:g3\
    \xCA\x02\x00\x0B\x0C\x00\x00\x00\x00\x00\x00\x00\x00\x00\x00\x00\x08\x80\x00\x00\
    \xCA\x02\x00\x0B\x0C\x00\x00\x00\x01\x00\x00\x00\x01\x00\x00\x00\x08\x80\x00\x00\
    \xCA\x02\x00\x0B\x0C\x00\x00\x00\x02\x00\x00\x00\x02\x00\x00\x00\x08\x80\x00\x00\
    \xCA\x02\x00\x0B\x0C\x00\x00\x00\x03\x00\x00\x00\x03\x00\x00\x00\x08\x80\x00\x00\
    \xCA\x02\x00\x0B\x0C\x00\x00\x00\x04\x00\x00\x00\x04\x00\x00\x00\x08\x80\x00\x00\
    \xCA\x02\x00\x0B\x0C\x00\x00\x00\x05\x00\x00\x00\x05\x00\x00\x00\x08\x80\x00\x00\
    \xCA\x02\x00\x0B\x0C\x00\x00\x00\x06\x00\x00\x00\x06\x00\x00\x00\x08\x80\x00\x00\
    \xCA\x02\x00\x0B\x0C\x00\x00\x00\x07\x00\x00\x00\x07\x00\x00\x00\x08\x80\x00\x00\
    \xCA\x02\x00\x0B\x0C\x00\x00\x00\x08\x00\x00\x00\x08\x00\x00\x00\x08\x80\x00\x00\
    \xCA\x02\x00\x0B\x0C\x00\x00\x00\x09\x00\x00\x00\x09\x00\x00\x00\x08\x80\x00\x00\
    \xCA\x02\x00\x0B\x0C\x00\x00\x00\x0A\x00\x00\x00\x0A\x00\x00\x00\x08\x80\x00\x00\
    \xCA\x02\x00\x0B\x0C\x00\x00\x00\x0B\x00\x00\x00\x0B\x00\x00\x00\x08\x80\x00\x00\
    \xCA\x02\x00\x0B\x0C\x00\x00\x00\x0C\x00\x00\x00\x0C\x00\x00\x00\x08\x80\x00\x00\
    \xCA\x02\x00\x0B\x0C\x00\x00\x00\x0D\x00\x00\x00\x0D\x00\x00\x00\x08\x80\x00\x00\
    \xCA\x02\x00\x0B\x0C\x00\x00\x00\x0E\x00\x00\x00\x0E\x00\x00\x00\x08\x80\x00\x00\
    \xCA\x02\x00\x0B\x0C\x00\x00\x00\x0F\x00\x00\x00\x0F\x00\x00\x00\x08\x80\x00\x00\
    \xCA\x02\x00\x0D\x0C\x00\x00\x00\x10\x00\x00\x00\x10\x00\x00\x00\x08\x80\x00\x00\
    \xCA\x02\x00\x0D\x0C\x00\x00\x00\x11\x00\x00\x00\x11\x00\x00\x00\x08\x80\x00\x00\
    \xCA\x02\x00\x0D\x0C\x00\x00\x00\x12\x00\x00\x00\x12\x00\x00\x00\x08\x80\x00\x00\
    \xCA\x02\x00\x0D\x0C\x00\x00\x00\x13\x00\x00\x00\x13\x00\x00\x00\x08\x80\x00\x00\
    \xCA\x02\x00\x0D\x09\x00\x00\x00\x10\x00\x00\x00\x10\x00\x00\x00D\
    \xCA\x02\x00\x0D\x09\x00\x00\x00\x11\x00\x00\x00\x11\x00\x00\x00D\
    \xCA\x02\x00\x0D\x09\x00\x00\x00\x12\x00\x00\x00\x12\x00\x00\x00D\
    \xCA\x02\x00\x0D\x09\x00\x00\x00\x13\x00\x00\x00\x13\x00\x00\x00D\
";

/// The number behind this one: a linear congruence.
fn next_number(x: u32) -> u32
    requires { x < 2 ^ 31 }
    ensures number { result ≡ next_number x }
    ensures small { result < 2 ^ 31 }
{
    ((1_103_515_245 * u64::from(x) + 12_345) % 2_147_483_648) as u32
}

/// The number that the drill of this one begins with.
fn first_number(number: u64) -> u32
    ensures value { result ≡ number % 2 ^ 31 }
    ensures small { result < 2 ^ 31 }
{
    (number % 2_147_483_648) as u32
}

/// Adds a put of a value to a record. It marks the record's leaf `value`.
fn add_put(out: &mut Vec<u8>, number: u32, value: u32) -> Result<(), NoMemory>
    ensures { OnOk result (out.new.items ≡ out.old.items ++ frame_of (put number value)) }
{
    out.extend_from_slice(&[0xCA, 2, 0, 0x0B, 15, 0, 0, 0])?;
    write_u32(out, Order::Little, number)?;
    write_u32(out, Order::Little, number)?;
    out.extend_from_slice(&[0, 1, 2])?;
    write_u32(out, Order::Little, value)
}

/// Adds the puts. Each takes two numbers behind this one: the first chooses its record, the second is its value.
fn add_puts(out: &mut Vec<u8>, start: u32) -> Result<(), NoMemory>
    requires { start < 2 ^ 31 }
    ensures { IfOk result (λ _. out.new.items ≡ out.old.items ++ input_of (puts 10000 start)) }
{
    let mut x = start;
    for _ in 0..PUTS {
        let first = next_number(x);
        let second = next_number(first);
        add_put(out, first / 256 % 16, second % 1000)?;
        x = second;
    }
    Ok(())
}

/// All that the client of the drill of this number sends.
pub(crate) fn input(alloc: Global, number: u64) -> Result<Vec<u8>, NoMemory>
    ensures { IfOk result (λ bytes. bytes.items ≡ input_of (drill_messages number)) }
{
    let mut out = Vec::with_capacity(alloc, ROOM)?;
    out.extend_from_slice(OPENING)?;
    add_puts(&mut out, first_number(number))?;
    Ok(out)
}
