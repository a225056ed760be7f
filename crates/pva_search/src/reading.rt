ghost use Rattle.std.specs.Prelude.{◌≡◌, ◌||◌};
ghost use Rattle.std.specs.Str.{bytes_eq};
ghost use Rattle.pva_search.specs.Messages.{tcp};
ghost use Rattle.pva_wire.specs.Reading.{Gives, TakesNone, text_at};
ghost use Rattle.pva_search.specs.Reading.{bytes_at, each_at, texts_at, channel_at, flag_at};
ghost use Rattle.pva_search.specs.Answers.{names_tcp, speaks_tcp};
ghost use Rattle.pva_search.specs.Parts.{mapped};

use pva_wire::{Cause, Order, Stop, count_at, str_at, u8_at, u32_at};

/// So many bytes, and what follows them.
#[tactic(auto, unfolding(crate::specs::Reading::bytes_at))]
pub(crate) fn bytes_at(count: usize, bytes: &[u8]) -> Result<(&[u8], &[u8]), Stop>
    ensures value { Gives (λ x. (x.0.now, x.1.now)) result (bytes_at count bytes.now) }
    ensures memory { TakesNone result }
{
    if bytes.len() < count {
        return Err(Stop::Fault(Cause::Short, bytes.len()));
    }
    Ok(bytes.split_at(count))
}

/// The 16 bytes of an address, and what follows them.
#[tactic(auto, unfolding(crate::specs::Reading::bytes_at))]
pub(crate) fn address_at(bytes: &[u8]) -> Result<([u8; 16], &[u8]), Stop>
    ensures value { Gives (λ x. (x.0, x.1.now)) result (bytes_at 16 bytes.now) }
    ensures memory { TakesNone result }
{
    if bytes.len() < 16 {
        return Err(Stop::Fault(Cause::Short, bytes.len()));
    }
    let mut address = [0; 16];
    address.copy_from_slice(&bytes[..16]);
    Ok((address, &bytes[16..]))
}

/// A boolean, and what follows it.
#[tactic(auto, unfolding(crate::specs::Reading::flag_at))]
pub(crate) fn flag_at(order: Order, bytes: &[u8]) -> Result<(bool, &[u8]), Stop>
    ensures value { Gives (λ x. (x.0, x.1.now)) result (flag_at order bytes.now) }
    ensures memory { TakesNone result }
{
    let (flag, rest) = u8_at(order, bytes)?;
    match flag {
        0 => Ok((false, rest)),
        1 => Ok((true, rest)),
        _ => Err(Stop::Fault(Cause::Range, bytes.len())),
    }
}

/// Whether TCP was named before, or is named by this text.
fn named_tcp(before: bool, text: &str) -> bool
    ensures { result ≡ (before || bytes_eq text.now tcp) }
{
    before || text == "tcp"
}

/// Whether so many texts name TCP, and what follows them.
fn names_tcp_at(order: Order, count: u32, bytes: &[u8]) -> Result<(bool, &[u8]), Stop>
    ensures value { Gives (λ x. (x.0, x.1.now)) result (mapped names_tcp (each_at (text_at order) count bytes.now)) }
    ensures memory { TakesNone result }
{
    let mut named = false;
    let mut rest = bytes;
    for _ in 0..count {
        let (text, after) = str_at(order, rest)?;
        named = named_tcp(named, text);
        rest = after;
    }
    Ok((named, rest))
}

/// Whether a list of protocols is empty or names TCP, and what follows it.
#[tactic(auto, unfolding(crate::specs::Reading::texts_at))]
pub(crate) fn speaks_tcp_at(order: Order, bytes: &[u8]) -> Result<(bool, &[u8]), Stop>
    ensures value { Gives (λ x. (x.0, x.1.now)) result (mapped speaks_tcp (texts_at order bytes.now)) }
    ensures memory { TakesNone result }
{
    let (count, rest) = count_at(order, bytes)?;
    if count == 0 {
        return Ok((true, rest));
    }
    names_tcp_at(order, count, rest)
}

/// A channel's number and its name, and what follows them.
#[tactic(auto, unfolding(crate::specs::Reading::channel_at))]
pub(crate) fn channel_at(order: Order, bytes: &[u8]) -> Result<(u32, &str, &[u8]), Stop>
    ensures value { Gives (λ x. ((x.0, x.1.now), x.2.now)) result (channel_at order bytes.now) }
    ensures memory { TakesNone result }
{
    let (instance, rest) = u32_at(order, bytes)?;
    let (name, rest) = str_at(order, rest)?;
    Ok((instance, name, rest))
}

/// Reads over so many channels, and tells what follows them.
pub(crate) fn pass_channels(order: Order, count: u16, bytes: &[u8]) -> Result<&[u8], Stop>
    ensures value { Gives (λ x. (tt {0}, x.now)) result
        (mapped (λ _. tt {0}) (each_at (channel_at order) count bytes.now)) }
    ensures memory { TakesNone result }
{
    let mut rest = bytes;
    for _ in 0..count {
        let (_, _, after) = channel_at(order, rest)?;
        rest = after;
    }
    Ok(rest)
}
