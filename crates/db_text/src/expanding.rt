ghost use Rattle.std.specs.Prelude.{◌≡◌, ◌==◌, ◌<◌, ◌≤◌, ◌^◌, [], ◌∷◌, false, OnOk, IfOk, IfSome, Ok, option_map, length, ◌+◌, vec_len};
ghost use Rattle.std.specs.List.{position};
ghost use Rattle.db_text.specs.Macros.{made_inside};
ghost use Rattle.db_text.specs.Macros.{before_first};
ghost use Rattle.db_text.specs.Expanding.{behind_comment, escaped, quoted_after, line_after, replaced, expanded_from};
ghost use Rattle.db_text.specs.Faults.{Expands, IsFaultOf};
ghost use Rattle.db_text.specs.Stops.{Adds, AddsTo, AddsPlaced};

use crate::fault::{MacroStop, Stopped, TextFault};
use crate::macros::{chosen, front, opening};
use pvd_type::Name;
use std::alloc::Global;

/// Adds a byte. A text of 2^32 bytes is never made.
fn push_byte(out: &mut Vec<u8>, byte: u8) -> Result<(), MacroStop<'static>>
    ensures value { Adds out.old.items out.new.items result (Ok (byte ∷ [])) }
    ensures small { OnOk result (vec_len out.new < 2 ^ 32) }
{
    if out.len() >= u32::MAX as usize {
        return Err(MacroStop::Memory);
    }
    out.push(byte)?;
    Ok(())
}

/// Adds what stands for a macro, of which `room` levels may be opened with it.
fn made_inside<'a>(
    alloc: Global,
    macros: &'a [(Name, Name)],
    room: u32,
    text: &'a [u8],
    out: &mut Vec<u8>,
) -> Result<(), MacroStop<'a>>
    requires room { 0 < room }
    requires small { vec_len out.old < 2 ^ 32 }
    ensures value { Adds out.old.items out.new.items result (made_inside macros.now room text.now) }
    ensures small { OnOk result (vec_len out.new < 2 ^ 32) }
{
    let mut rest = text;
    while let Some((byte, after)) = front(rest) {
        let Some((closer, inside)) = opening(rest) else {
            push_byte(out, byte)?;
            rest = after;
            continue;
        };
        let (text, after) = chosen(alloc, macros, room - 1, closer, inside)?;
        made_inside(alloc, macros, room - 1, text, out)?;
        rest = after;
    }
    Ok(())
}

/// Where the line ends, if it does.
fn line_end(bytes: &[u8]) -> Option<usize>
    ensures value { result ≡ position (λ b. b == 10) bytes.now }
    ensures within { IfSome result (λ i. i < length bytes.now) }
{
    bytes.iter().position(|byte| *byte == b'\n')
}

/// How many bytes stand before the end of the line.
fn line_len(bytes: &[u8]) -> usize
    ensures value { result ≡ before_first (λ b. b == 10) bytes.now }
    ensures within { result ≤ length bytes.now }
{
    match line_end(bytes) {
        Some(len) => len,
        None => bytes.len(),
    }
}

/// What follows a comment that begins here, outside of quotes.
#[tactic(auto, unfolding(crate::specs::Expanding::behind_comment))]
fn behind_comment(quoted: bool, bytes: &[u8]) -> Option<&[u8]>
    ensures value { option_map (λ r. r.now) result ≡ behind_comment quoted bytes.now }
    ensures shorter { IfSome result (λ r. length r.now < length bytes.now) }
{
    match bytes {
        [b'#', rest @ ..] => {
            if quoted {
                return None;
            }
            Some(&rest[line_len(rest)..])
        }
        _ => None,
    }
}

/// In quotes, a backslash and the quote or backslash that it keeps: that byte, and what follows.
#[tactic(auto, unfolding(crate::specs::Expanding::escaped))]
fn escaped(quoted: bool, bytes: &[u8]) -> Option<(u8, &[u8])>
    ensures value { option_map (λ x. (x.0, x.1.now)) result ≡ escaped quoted bytes.now }
    ensures shorter { IfSome result (λ x. length x.1.now < length bytes.now) }
{
    match bytes {
        [b'\\', b'"', rest @ ..] => {
            if quoted {
                return Some((b'"', rest));
            }
            None
        }
        [b'\\', b'\\', rest @ ..] => {
            if quoted {
                return Some((b'\\', rest));
            }
            None
        }
        _ => None,
    }
}

/// Whether quotes are open behind a byte.
fn quoted_after(quoted: bool, byte: u8) -> bool
    ensures { result ≡ quoted_after quoted byte }
{
    match byte {
        b'\n' => false,
        b'"' => !quoted,
        _ => quoted,
    }
}

/// Adds what a macro of the text makes, and gives what follows it.
#[tactic(auto, unfolding(crate::specs::Expanding::replaced))]
fn replaced<'a>(
    alloc: Global,
    macros: &'a [(Name, Name)],
    closer: u8,
    bytes: &'a [u8],
    out: &mut Vec<u8>,
) -> Result<&'a [u8], MacroStop<'a>>
    requires { vec_len out.old < 2 ^ 32 }
    ensures value { AddsTo (λ r. r.now) out.old.items out.new.items result (replaced macros.now closer bytes.now) }
    ensures small { OnOk result (vec_len out.new < 2 ^ 32) }
    ensures shorter { IfOk result (λ r. length r.now < length bytes.now) }
{
    let (text, rest) = chosen(alloc, macros, 16, closer, bytes)?;
    made_inside(alloc, macros, 16, text, out)?;
    Ok(rest)
}

/// Adds what a text makes.
pub fn expanded_into<'a>(
    alloc: Global,
    macros: &'a [(Name, Name)],
    text: &'a [u8],
    out: &mut Vec<u8>,
) -> Result<(), Stopped<'a>>
    requires text { length text.now < 2 ^ 32 }
    requires small { vec_len out.old < 2 ^ 32 }
    ensures value { AddsPlaced out.old.items out.new.items result (expanded_from macros.now (length text.now) false 1 text.now) }
    ensures small { OnOk result (vec_len out.new < 2 ^ 32) }
{
    let mut rest = text;
    let mut quoted = false;
    let mut line = 1usize;
    while let Some((byte, after)) = front(rest) {
        if let Some(next) = behind_comment(quoted, rest) {
            rest = next;
            continue;
        }
        if let Some((closer, inside)) = opening(rest) {
            match replaced(alloc, macros, closer, inside, out) {
                Ok(next) => rest = next,
                Err(stop) => return Err(Stopped {
                    stop,
                    line: line as u32,
                }),
            }
            continue;
        }
        if let Some((second, next)) = escaped(quoted, rest) {
            if let Err(stop) = push_pair(out, byte, second) {
                return Err(Stopped {
                    stop,
                    line: line as u32,
                });
            }
            rest = next;
            continue;
        }
        if let Err(stop) = push_byte(out, byte) {
            return Err(Stopped {
                stop,
                line: line as u32,
            });
        }
        quoted = quoted_after(quoted, byte);
        if byte == b'\n' {
            line += 1;
        }
        rest = after;
    }
    Ok(())
}

/// Adds two bytes.
fn push_pair(out: &mut Vec<u8>, first: u8, second: u8) -> Result<(), MacroStop<'static>>
    ensures value { Adds out.old.items out.new.items result (Ok (first ∷ second ∷ [])) }
    ensures small { OnOk result (vec_len out.new < 2 ^ 32) }
{
    push_byte(out, first)?;
    push_byte(out, second)
}

/// The text with its macros replaced and its comments dropped (EPICS IOC Application Developer's Guide,
/// "Database Definition", "Macro Substitution"). Of two values of one macro the later counts. Values hold
/// no line feed: else lines of what is made aren't those of the text as given. The first fault is told, on
/// the line of its macro in the text: BadToken where a macro isn't closed on its line, UnknownMacro where it
/// has neither a value nor a default, MacroDepth where it stands inside sixteen others, since sixteen levels
/// may be opened. NoMemory where memory runs out, or a text has 2^32 bytes or more, as given or as made.
pub fn expand(alloc: Global, text: &str, macros: &[(Name, Name)]) -> Result<Name, TextFault>
    ensures exact { Expands macros.now text.now result }
{
    let bytes = text.as_bytes();
    if bytes.len() > u32::MAX as usize {
        return Err(TextFault::NoMemory);
    }
    let mut out = Vec::new(alloc);
    if let Err(stopped) = expanded_into(alloc, macros, bytes, &mut out) {
        return Err(fault_of(alloc, stopped));
    }
    match str::from_utf8(out.as_slice()) {
        Ok(plain) => Ok(Name::of(alloc, plain)?),
        // It doesn't come: every piece begins and ends at an ASCII byte of a text.
        Err(_) => Err(TextFault::NoMemory),
    }
}

/// The fault of a text whose expansion stopped.
fn fault_of(alloc: Global, stopped: Stopped) -> TextFault
    ensures { IsFaultOf stopped.entry.stop stopped.entry.line result }
{
    match stopped.stop {
        MacroStop::Unclosed => TextFault::BadToken(stopped.line),
        MacroStop::TooDeep => TextFault::MacroDepth(stopped.line),
        MacroStop::Memory => TextFault::NoMemory,
        MacroStop::Unknown(name) => match str::from_utf8(name) {
            Err(_) => TextFault::NoMemory,
            Ok(name) => match Name::of(alloc, name) {
                Ok(name) => TextFault::UnknownMacro(name, stopped.line),
                Err(_) => TextFault::NoMemory,
            },
        },
    }
}
