ghost use Rattle.std.specs.Prelude.{◌≡◌, ◌∷◌, []};
ghost use Rattle.pvd_desc.specs.Types.{Types, laid};
ghost use Rattle.pvd_codec.specs.Reading.{Gives, items_at, lifted};
ghost use Rattle.pva_wire.specs.Reading.{text_at};
ghost use Rattle.pva_messages.specs.Items as item;
ghost use Rattle.pva_messages.specs.Fields as field;
ghost use Rattle.pva_messages.specs.Reading.{texts_at, channel_at, channels_at, type_at, valued_at, last_valued_at, item_at, all_at};
ghost use Rattle.pva_messages.specs.Views.{valued_view, part_data};

use crate::part::Part;
use pva_wire::{Order, Status, count_at, status_at, text_at, u8_at, u16_at, u32_at};
use pvd_codec::{ValueStop, full_at, part_at};
use pvd_desc::{Definitions, READ_ROOM, Registry, desc_at};
use pvd_type::{Budget, Name, PvType};
use pvd_value::PvValue;
use std::alloc::Global;

/// A text.
fn name_at(alloc: Global, order: Order, bytes: &[u8]) -> Result<(Name, &[u8]), ValueStop>
    ensures { Gives (λ x. (x.0, x.1.now)) result (lifted (text_at order bytes.now)) }
{
    let (text, rest) = text_at(alloc, order, bytes)?;
    Ok((text, rest))
}

/// So many texts. `room` of them are made room for at once.
fn times_text(
    alloc: Global,
    order: Order,
    count: u32,
    room: usize,
    bytes: &[u8],
) -> Result<(Vec<Name>, &[u8]), ValueStop>
    ensures { Gives (λ x. (x.0.items, x.1.now)) result (items_at (λ b. lifted (text_at order b)) count bytes.now) }
{
    let mut texts = Vec::with_capacity(alloc, room)?;
    let mut rest = bytes;
    for _ in 0..count {
        let (text, after) = name_at(alloc, order, rest)?;
        texts.push(text)?;
        rest = after;
    }
    Ok((texts, rest))
}

/// How many bytes of memory texts may take for each byte from which they are read, beside the 16 MiB that any read may take.
const TIMES: u64 = 15;

/// How many bytes of memory a text counts for: its place, and what it takes beside its letters.
const TEXT: u64 = 72;

/// A size that counts, and so many texts. An empty text is one byte, so the memory that all may take is bounded, as that
/// of a value is: above it the answer is NoMemory. A count that lies counts for no more texts than bytes are left.
#[tactic(auto, unfolding(crate::specs::Reading::texts_at))]
pub(crate) fn texts_at(
    alloc: Global,
    order: Order,
    bytes: &[u8],
) -> Result<(Vec<Name>, &[u8]), ValueStop>
    ensures { Gives (λ x. (x.0.items, x.1.now)) result (texts_at order bytes.now) }
{
    let (count, rest) = count_at(order, bytes)?;
    let most = rest.len().min(count as usize);
    let mut budget = Budget::of(READ_ROOM.saturating_add(
        (rest.len() as u64).saturating_mul(TIMES),
    ));
    budget.spend((most as u64).saturating_mul(TEXT))?;
    let (texts, rest) = times_text(alloc, order, count, most, rest)?;
    Ok((texts, rest))
}

/// The id of a channel, and its name.
#[tactic(auto, unfolding(crate::specs::Reading::channel_at))]
fn channel_at(alloc: Global, order: Order, bytes: &[u8]) -> Result<((u32, Name), &[u8]), ValueStop>
    ensures { Gives (λ x. (x.0, x.1.now)) result (channel_at order bytes.now) }
{
    let (id, rest) = u32_at(order, bytes)?;
    let (name, rest) = text_at(alloc, order, rest)?;
    Ok(((id, name), rest))
}

/// So many channels.
fn times_channel(
    alloc: Global,
    order: Order,
    count: u16,
    bytes: &[u8],
) -> Result<(Vec<(u32, Name)>, &[u8]), ValueStop>
    ensures { Gives (λ x. (x.0.items, x.1.now)) result (items_at (channel_at order) count bytes.now) }
{
    let mut channels = Vec::new(alloc);
    let mut rest = bytes;
    for _ in 0..count {
        let (channel, after) = channel_at(alloc, order, rest)?;
        channels.push(channel)?;
        rest = after;
    }
    Ok((channels, rest))
}

/// A count of two bytes, and so many channels.
#[tactic(auto, unfolding(crate::specs::Reading::channels_at))]
pub(crate) fn channels_at(
    alloc: Global,
    order: Order,
    bytes: &[u8],
) -> Result<(Vec<(u32, Name)>, &[u8]), ValueStop>
    ensures { Gives (λ x. (x.0.items, x.1.now)) result (channels_at order bytes.now) }
{
    let (count, rest) = u16_at(order, bytes)?;
    let (channels, rest) = times_channel(alloc, order, count, rest)?;
    Ok((channels, rest))
}

/// A description, or null.
#[tactic(auto, unfolding(crate::specs::Reading::type_at))]
pub(crate) fn type_at<'a>(
    alloc: Global,
    order: Order,
    base: &Registry,
    changed: &mut Definitions,
    bytes: &'a [u8],
) -> Result<(Option<PvType>, &'a [u8]), ValueStop>
    ensures { Gives (λ x. (x.0, (x.1.now, laid base.now changed.new))) result (type_at order (bytes.now, laid base.now changed.old)) }
{
    let (ty, rest) = desc_at(alloc, order, base, changed, bytes)?;
    Ok((ty, rest))
}

/// A description and, unless it is null, a value of the type.
#[tactic(auto, unfolding(crate::specs::Reading::valued_at))]
pub(crate) fn valued_at<'a>(
    alloc: Global,
    order: Order,
    base: &Registry,
    changed: &mut Definitions,
    bytes: &'a [u8],
) -> Result<(Option<(PvType, PvValue)>, &'a [u8]), ValueStop>
    ensures { Gives (λ x. (valued_view x.0, (x.1.now, laid base.now changed.new))) result (valued_at order (bytes.now, laid base.now changed.old)) }
{
    let (ty, rest) = type_at(alloc, order, base, changed, bytes)?;
    let Some(ty) = ty else {
        return Ok((None, rest));
    };
    let (value, rest) = full_at(alloc, order, base, changed, &ty, rest)?;
    Ok((Some((ty, value)), rest))
}

/// The same, or null where no bytes are left.
#[tactic(auto, unfolding(crate::specs::Reading::last_valued_at))]
pub(crate) fn last_valued_at<'a>(
    alloc: Global,
    order: Order,
    base: &Registry,
    changed: &mut Definitions,
    bytes: &'a [u8],
) -> Result<(Option<(PvType, PvValue)>, &'a [u8]), ValueStop>
    ensures { Gives (λ x. (valued_view x.0, (x.1.now, laid base.now changed.new))) result (last_valued_at order (bytes.now, laid base.now changed.old)) }
{
    if bytes.is_empty() {
        return Ok((None, bytes));
    }
    valued_at(alloc, order, base, changed, bytes)
}

/// A part of a value of a type that is known.
#[tactic(auto, unfolding(crate::specs::Reading::item_at))]
pub(crate) fn known_part_at<'a>(
    alloc: Global,
    order: Order,
    base: &Registry,
    changed: &mut Definitions,
    ty: &PvType,
    bytes: &'a [u8],
) -> Result<(Part, &'a [u8]), ValueStop>
    ensures { Gives (λ x. (field.part (part_data x.0), (x.1.now, laid base.now changed.new))) result (item_at order (item.part ty.now) (bytes.now, laid base.now changed.old)) }
{
    let (mask, value, rest) = part_at(alloc, order, base, changed, ty, bytes)?;
    let ty = ty.clone_in(alloc)?;
    Ok((Part { ty, mask, value }, rest))
}

/// The ids of a channel and a request, and the subcommand.
#[tactic(auto, unfolding(crate::specs::Reading::all_at, crate::specs::Reading::item_at))]
pub(crate) fn request_head_at(
    order: Order,
    bytes: &[u8],
) -> Result<(u32, u32, u8, &[u8]), ValueStop>
    ensures { (types : Types) → Gives (λ x. (field.word x.0 ∷ field.word x.1 ∷ field.byte x.2 ∷ [], (x.3.now, types))) result (all_at order (item.word ∷ item.word ∷ item.byte ∷ []) (bytes.now, types)) }
{
    let (sid, rest) = u32_at(order, bytes)?;
    let (req, rest) = u32_at(order, rest)?;
    let (sub, rest) = u8_at(order, rest)?;
    Ok((sid, req, sub, rest))
}

/// The id of a request, the subcommand and the status of a reply.
#[tactic(auto, unfolding(crate::specs::Reading::all_at, crate::specs::Reading::item_at))]
pub(crate) fn reply_head_at(
    alloc: Global,
    order: Order,
    bytes: &[u8],
) -> Result<(u32, u8, Status, &[u8]), ValueStop>
    ensures { (types : Types) → Gives (λ x. (field.word x.0 ∷ field.byte x.1 ∷ field.status x.2 ∷ [], (x.3.now, types))) result (all_at order (item.word ∷ item.byte ∷ item.status ∷ []) (bytes.now, types)) }
{
    let (req, rest) = u32_at(order, bytes)?;
    let (sub, rest) = u8_at(order, rest)?;
    let (status, rest) = status_at(alloc, order, rest)?;
    Ok((req, sub, status, rest))
}

/// The id of a request and the status of a reply.
#[tactic(auto, unfolding(crate::specs::Reading::all_at, crate::specs::Reading::item_at))]
pub(crate) fn field_head_at(
    alloc: Global,
    order: Order,
    bytes: &[u8],
) -> Result<(u32, Status, &[u8]), ValueStop>
    ensures { (types : Types) → Gives (λ x. (field.word x.0 ∷ field.status x.1 ∷ [], (x.2.now, types))) result (all_at order (item.word ∷ item.status ∷ []) (bytes.now, types)) }
{
    let (req, rest) = u32_at(order, bytes)?;
    let (status, rest) = status_at(alloc, order, rest)?;
    Ok((req, status, rest))
}

/// The id of a request and the subcommand.
#[tactic(auto, unfolding(crate::specs::Reading::all_at, crate::specs::Reading::item_at))]
pub(crate) fn monitor_head_at(order: Order, bytes: &[u8]) -> Result<(u32, u8, &[u8]), ValueStop>
    ensures { (types : Types) → Gives (λ x. (field.word x.0 ∷ field.byte x.1 ∷ [], (x.2.now, types))) result (all_at order (item.word ∷ item.byte ∷ []) (bytes.now, types)) }
{
    let (req, rest) = u32_at(order, bytes)?;
    let (sub, rest) = u8_at(order, rest)?;
    Ok((req, sub, rest))
}

/// A status.
#[tactic(auto, unfolding(crate::specs::Reading::all_at, crate::specs::Reading::item_at))]
pub(crate) fn one_status_at(
    alloc: Global,
    order: Order,
    bytes: &[u8],
) -> Result<(Status, &[u8]), ValueStop>
    ensures { (types : Types) → Gives (λ x. (field.status x.0 ∷ [], (x.1.now, types))) result (all_at order (item.status ∷ []) (bytes.now, types)) }
{
    let (status, rest) = status_at(alloc, order, bytes)?;
    Ok((status, rest))
}
