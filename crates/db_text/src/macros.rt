ghost use Rattle.std.specs.Prelude.{◌≡◌, ◌<◌, ◌≤◌, ◌+◌, [], length, IfOk, OnOk, IfSome, Some, option_map};
ghost use Rattle.std.specs.List.{position};
ghost use Rattle.db_text.specs.Macros.{front, opening, ends_name, name_at, behind_default, value_of, chosen_of, chosen};
ghost use Rattle.db_text.specs.Stops.{Gives};

use crate::fault::MacroStop;
use pvd_type::{Name, NoMemory};
use std::alloc::Global;

/// The first byte, and what follows.
pub fn front(bytes: &[u8]) -> Option<(u8, &[u8])>
    ensures value { option_map (λ x. (x.0, x.1.now)) result ≡ front bytes.now }
    ensures shorter { IfSome result (λ x. length x.1.now < length bytes.now) }
{
    match bytes {
        [byte, rest @ ..] => Some((*byte, rest)),
        [] => None,
    }
}

/// The closing bracket of a macro that begins here, and what follows its opening bracket.
#[tactic(auto, unfolding(crate::specs::Macros::opening))]
pub fn opening(bytes: &[u8]) -> Option<(u8, &[u8])>
    ensures value { option_map (λ o. (o.0, o.1.now)) result ≡ opening bytes.now }
    ensures shorter { IfSome result (λ o. length o.1.now + 1 < length bytes.now) }
{
    match bytes {
        [b'$', b'(', rest @ ..] => Some((b')', rest)),
        [b'$', b'{', rest @ ..] => Some((b'}', rest)),
        _ => None,
    }
}

/// Where the first byte stands that ends a macro's name, whose closing bracket is given.
fn name_end(closer: u8, bytes: &[u8]) -> Option<usize>
    ensures value { result ≡ position (ends_name closer) bytes.now }
    ensures within { IfSome result (λ i. i < length bytes.now) }
{
    bytes
        .iter()
        .position(|byte| *byte == closer || *byte == b'=' || *byte == b'\n')
}

/// A macro's name, the byte that ends it and what follows, unless the line ends in it.
#[tactic(auto, unfolding(crate::specs::Macros::name_at))]
pub fn name_at(closer: u8, bytes: &[u8]) -> Option<(&[u8], u8, &[u8])>
    ensures value { option_map (λ x. (x.0.now, x.1, x.2.now)) result ≡ name_at closer bytes.now }
    ensures shorter { IfSome result (λ x. length x.2.now < length bytes.now) }
{
    let end = name_end(closer, bytes)?;
    let name = &bytes[..end];
    match &bytes[end..] {
        [] => None,
        [b'\n', ..] => None,
        [byte, rest @ ..] => Some((name, *byte, rest)),
    }
}

/// What follows the closing bracket of a default, where it is closed on its line.
pub fn behind_default(alloc: Global, closer: u8, bytes: &[u8]) -> Result<Option<&[u8]>, NoMemory>
    ensures value { IfOk result (λ r. option_map (λ rest. rest.now) r ≡ behind_default (length bytes.now) closer [] bytes.now) }
    ensures shorter { IfOk result (λ r. IfSome r (λ rest. length rest.now < length bytes.now)) }
{
    let mut outer = Vec::new(alloc);
    let mut awaited = closer;
    let mut rest = bytes;
    while let Some((byte, after)) = front(rest) {
        if byte == b'\n' {
            return Ok(None);
        }
        if byte == awaited {
            let Some(next) = outer.pop() else {
                return Ok(Some(after));
            };
            awaited = next;
            rest = after;
            continue;
        }
        let Some((inner, after_opening)) = opening(rest) else {
            rest = after;
            continue;
        };
        let Some((_, end, after_name)) = name_at(inner, after_opening) else {
            return Ok(None);
        };
        if end != inner {
            outer.push(awaited)?;
            awaited = inner;
        }
        rest = after_name;
    }
    Ok(None)
}

/// The value of a macro.
fn value_of<'a>(macros: &'a [(Name, Name)], name: &[u8]) -> Option<&'a Name>
    ensures { option_map (λ v. v.now) result ≡ value_of macros.now name.now }
{
    let mut found = None;
    for (known, value) in macros {
        if known.as_str().as_bytes() == name {
            found = Some(value);
        }
    }
    found
}

/// The text that stands for a macro of this name, and what follows the macro.
fn standing_for<'a>(
    macros: &'a [(Name, Name)],
    room: u32,
    name: &'a [u8],
    default: Option<&'a [u8]>,
    rest: &'a [u8],
) -> Result<(&'a [u8], &'a [u8]), MacroStop<'a>>
    ensures value { Gives (λ x. (x.0.now, x.1.now)) result (chosen_of macros.now room (Some (record { name = name.now; default = option_map (λ d. d.now) default.entry; rest = rest.now }))) }
    ensures room { OnOk result (0 < room) }
    ensures rest { IfOk result (λ x. x.1.now ≡ rest.now) }
{
    if room == 0 {
        return Err(MacroStop::TooDeep);
    }
    if let Some(value) = value_of(macros, name) {
        return Ok((value.as_str().as_bytes(), rest));
    }
    match default {
        Some(text) => Ok((text, rest)),
        None => Err(MacroStop::Unknown(name)),
    }
}

/// The text that stands for a macro, whose opening bracket stood before these bytes, and what follows
/// the macro. So many levels of macros may still be opened.
#[tactic(auto, unfolding(crate::specs::Macros::chosen, crate::specs::Macros::macro_at))]
pub fn chosen<'a>(
    alloc: Global,
    macros: &'a [(Name, Name)],
    room: u32,
    closer: u8,
    bytes: &'a [u8],
) -> Result<(&'a [u8], &'a [u8]), MacroStop<'a>>
    ensures value { Gives (λ x. (x.0.now, x.1.now)) result (chosen macros.now room closer bytes.now) }
    ensures room { OnOk result (0 < room) }
    ensures shorter { IfOk result (λ x. length x.1.now < length bytes.now) }
{
    let Some((name, end, after)) = name_at(closer, bytes) else {
        return Err(MacroStop::Unclosed);
    };
    if end == closer {
        return standing_for(macros, room, name, None, after);
    }
    let Some(rest) = behind_default(alloc, closer, after)? else {
        return Err(MacroStop::Unclosed);
    };
    let default = &after[..after.len() - rest.len() - 1];
    standing_for(macros, room, name, Some(default), rest)
}
