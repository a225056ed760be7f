// What each call of a link does in turn.
use crate::CaseFault;
use crate::numbers::number_in;
use pva_outside::Turn;
use std::alloc::Global;

/// The turn that a text names: `idle`, `fail`, `give all`, or `give N` for at most so many bytes; `write` is another word for `give all`, and
/// `read N` for `give N`.
fn turn(text: &str, line: u32) -> Result<Turn, CaseFault> {
    match text {
        "idle" => return Ok(Turn::Idle),
        "fail" => return Ok(Turn::Fail),
        "give all" | "write" => return Ok(Turn::Give(usize::MAX)),
        _ => {}
    }
    match text.strip_prefix("give ").or(text.strip_prefix("read ")) {
        Some(count) => Ok(Turn::Give(number_in(count, line)? as usize)),
        None => Err(CaseFault::At(line, "this is no turn of a link")),
    }
}

/// Appends a turn, as often as the number behind a `*` says.
fn push_turns(text: &str, line: u32, turns: &mut Vec<Turn>) -> Result<(), CaseFault> {
    let (text, count) = match text.split_once('*') {
        Some((text, count)) => (text, number_in(count, line)?),
        None => (text, 1),
    };
    let turn = turn(text.trim(), line)?;
    for _ in 0..count {
        turns.push(turn)?;
    }
    Ok(())
}

/// All that is there, so often in place of once.
fn again(alloc: Global, turns: &[Turn], count: u64) -> Result<Vec<Turn>, CaseFault> {
    let mut all = Vec::new(alloc);
    for _ in 0..count {
        all.extend_from_slice(turns)?;
    }
    Ok(all)
}

/// Appends the turns of an item, or has all that is there so often in place of once.
fn push_item(alloc: Global, item: &str, line: u32, turns: &mut Vec<Turn>) -> Result<(), CaseFault> {
    match item.strip_prefix("again ") {
        Some(count) => {
            let count = number_in(count, line)?;
            *turns = again(alloc, turns, count)?;
            Ok(())
        }
        None => push_turns(item, line, turns),
    }
}

/// Appends the turns that a text names between commas.
fn push_items(
    alloc: Global,
    text: &str,
    line: u32,
    turns: &mut Vec<Turn>,
) -> Result<(), CaseFault> {
    for item in text.split(',') {
        push_item(alloc, item.trim(), line, turns)?;
    }
    Ok(())
}

/// The turns that a text names between commas. `again N` has all before it N times.
pub(crate) fn turns_of(alloc: Global, text: &str, line: u32) -> Result<Vec<Turn>, CaseFault> {
    let mut turns = Vec::new(alloc);
    push_items(alloc, text, line, &mut turns)?;
    Ok(turns)
}
