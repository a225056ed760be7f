ghost use Rattle.std.specs.Prelude.{◌≡◌, ◌∷◌, [], Ok, None, Option, if◌then◌else◌};
ghost use Rattle.std.specs.Option.{option_copied};
ghost use Rattle.pvd_desc.specs.Types.{Types, laid};
ghost use Rattle.pvd_type.specs.Tree.{Tree};
ghost use Rattle.pvd_codec.specs.Reading.{Gives};
ghost use Rattle.pva_messages.specs.declared.command.Command.TheVariants as command;
ghost use Rattle.pva_messages.specs.Fields.{Field};
ghost use Rattle.pva_messages.specs.Fields as field;
ghost use Rattle.pva_messages.specs.Items as item;
ghost use Rattle.pva_messages.specs.Replies.{type_in, get_in, put_get_in, valued_in, part_field, update_field};
ghost use Rattle.pva_messages.specs.Rows.{parts, get_reply, put_reply, put_get_reply, rpc_reply, updates};
ghost use Rattle.pva_messages.specs.Reading.{picked, all_at, reply_row_at, reply_at};
ghost use Rattle.pva_messages.specs.Views.{valued_view, part_view, update_view, reply_view};

use crate::command::{Command, command_of};
use crate::items::{
    field_head_at, known_part_at, monitor_head_at, one_status_at, reply_head_at, texts_at, type_at,
    valued_at,
};
use crate::part::Part;
use crate::subcommand::{asks_back, begins, carries, ends};
use crate::to_client::ToClient;
use pva_wire::{Order, bits_at, status_at, text_at, u8_at, u16_at, u32_at};
use pvd_codec::ValueStop;
use pvd_desc::{Definitions, Registry};
use pvd_type::{BitSet, PvType};
use pvd_value::PvValue;
use std::alloc::Global;

/// A message to the client, and what follows it. What it defines goes into `changed`, which hides the
/// types of `base`; after a refusal `changed` may hold a part of that.
#[tactic(auto, unfolding(crate::specs::Reading::reply_at))]
pub(crate) fn reply_at<'a>(
    alloc: Global,
    order: Order,
    base: &Registry,
    changed: &mut Definitions,
    known: Option<&PvType>,
    byte: u8,
    bytes: &'a [u8],
) -> Result<(ToClient, &'a [u8]), ValueStop>
    ensures { Gives (λ x. (reply_view x.0, (x.1.now, laid base.now changed.new))) result (reply_at order (option_copied known.entry) byte (bytes.now, laid base.now changed.old)) }
{
    let Some(command) = command_of(byte) else {
        return Ok((ToClient::Skipped(byte), bytes));
    };
    match command {
        Command::Validation => validation_at(alloc, order, base, changed, bytes),
        Command::Echo => echo_at(alloc, bytes),
        Command::CreateChannel => created_at(alloc, order, bytes),
        Command::DestroyChannel => channel_destroyed_at(order, bytes),
        Command::Validated => validated_at(alloc, order, bytes),
        Command::Get => get_at(alloc, order, base, changed, known, bytes),
        Command::Put => put_at(alloc, order, base, changed, known, bytes),
        Command::PutGet => put_get_at(alloc, order, base, changed, known, bytes),
        Command::Monitor => monitor_at(alloc, order, base, changed, known, bytes),
        Command::GetField => get_field_at(alloc, order, base, changed, bytes),
        Command::Message => message_at(alloc, order, bytes),
        Command::Rpc => rpc_at(alloc, order, base, changed, bytes),
        Command::DestroyRequest | Command::Cancel => Ok((ToClient::Skipped(byte), bytes)),
    }
}

#[tactic(auto, unfolding(crate::specs::Reading::stages_at, crate::specs::Reading::all_at, crate::specs::Reading::item_at))]
fn validation_at<'a>(
    alloc: Global,
    order: Order,
    base: &Registry,
    changed: &mut Definitions,
    bytes: &'a [u8],
) -> Result<(ToClient, &'a [u8]), ValueStop>
    ensures { Gives (λ x. (reply_view x.0, (x.1.now, laid base.now changed.new))) result (reply_row_at order None command.Validation (bytes.now, laid base.now changed.old)) }
{
    let (buffer, rest) = u32_at(order, bytes)?;
    let (registry, rest) = u16_at(order, rest)?;
    let (methods, rest) = texts_at(alloc, order, rest)?;
    let message = ToClient::Validation {
        buffer,
        registry,
        methods,
    };
    Ok((message, rest))
}

#[tactic(auto, unfolding(crate::specs::Reading::stages_at, crate::specs::Reading::all_at, crate::specs::Reading::item_at))]
fn echo_at(alloc: Global, bytes: &[u8]) -> Result<(ToClient, &[u8]), ValueStop>
    ensures { (order : Order) (types : Types) → Gives (λ x. (reply_view x.0, (x.1.now, types))) result (reply_row_at order None command.Echo (bytes.now, types)) }
{
    let bytes_again = Vec::from_slice(alloc, bytes)?;
    Ok((ToClient::Echo { bytes: bytes_again }, &bytes[bytes.len()..]))
}

#[tactic(auto, unfolding(crate::specs::Reading::stages_at, crate::specs::Reading::all_at, crate::specs::Reading::item_at))]
fn created_at(alloc: Global, order: Order, bytes: &[u8]) -> Result<(ToClient, &[u8]), ValueStop>
    ensures { (types : Types) → Gives (λ x. (reply_view x.0, (x.1.now, types))) result (reply_row_at order None command.CreateChannel (bytes.now, types)) }
{
    let (cid, rest) = u32_at(order, bytes)?;
    let (sid, rest) = u32_at(order, rest)?;
    let (status, rest) = status_at(alloc, order, rest)?;
    Ok((ToClient::Created { cid, sid, status }, rest))
}

#[tactic(auto, unfolding(crate::specs::Reading::stages_at, crate::specs::Reading::all_at, crate::specs::Reading::item_at))]
fn channel_destroyed_at(order: Order, bytes: &[u8]) -> Result<(ToClient, &[u8]), ValueStop>
    ensures { (types : Types) → Gives (λ x. (reply_view x.0, (x.1.now, types))) result (reply_row_at order None command.DestroyChannel (bytes.now, types)) }
{
    let (sid, rest) = u32_at(order, bytes)?;
    let (cid, rest) = u32_at(order, rest)?;
    Ok((ToClient::ChannelDestroyed { sid, cid }, rest))
}

#[tactic(auto, unfolding(crate::specs::Reading::stages_at, crate::specs::Reading::all_at, crate::specs::Reading::item_at))]
fn validated_at(alloc: Global, order: Order, bytes: &[u8]) -> Result<(ToClient, &[u8]), ValueStop>
    ensures { (types : Types) → Gives (λ x. (reply_view x.0, (x.1.now, types))) result (reply_row_at order None command.Validated (bytes.now, types)) }
{
    let (status, rest) = status_at(alloc, order, bytes)?;
    Ok((ToClient::Validated { status }, rest))
}

/// A part, where its type is known.
#[tactic(auto, unfolding(crate::specs::Reading::all_at, crate::specs::Reading::item_at))]
fn parts_at<'a>(
    alloc: Global,
    order: Order,
    base: &Registry,
    changed: &mut Definitions,
    known: Option<&PvType>,
    bytes: &'a [u8],
) -> Result<(Option<Part>, &'a [u8]), ValueStop>
    ensures { Gives (λ x. (part_field (part_view x.0), (x.1.now, laid base.now changed.new))) result (all_at order (parts (option_copied known.entry)) (bytes.now, laid base.now changed.old)) }
{
    let Some(ty) = known else {
        return Ok((None, bytes));
    };
    let (part, rest) = known_part_at(alloc, order, base, changed, ty, bytes)?;
    Ok((Some(part), rest))
}

/// The type of a request that is begun, or else the part, where the reply brings one.
#[tactic(auto, unfolding(crate::specs::Reading::all_at, crate::specs::Reading::item_at))]
fn get_next_at<'a>(
    alloc: Global,
    order: Order,
    base: &Registry,
    changed: &mut Definitions,
    known: Option<&PvType>,
    brings: bool,
    sub: u8,
    bytes: &'a [u8],
) -> Result<(Option<PvType>, Option<Part>, &'a [u8]), ValueStop>
    ensures { Gives (λ x. ((x.0, part_view x.1), (x.2.now, laid base.now changed.new))) result (picked get_in (all_at order (if brings then get_reply (option_copied known.entry) sub else []) (bytes.now, laid base.now changed.old))) }
{
    if !brings {
        return Ok((None, None, bytes));
    }
    if begins(sub) {
        let (ty, rest) = type_at(alloc, order, base, changed, bytes)?;
        return Ok((ty, None, rest));
    }
    let (part, rest) = parts_at(alloc, order, base, changed, known, bytes)?;
    Ok((None, part, rest))
}

fn get_at<'a>(
    alloc: Global,
    order: Order,
    base: &Registry,
    changed: &mut Definitions,
    known: Option<&PvType>,
    bytes: &'a [u8],
) -> Result<(ToClient, &'a [u8]), ValueStop>
    ensures { Gives (λ x. (reply_view x.0, (x.1.now, laid base.now changed.new))) result (reply_row_at order (option_copied known.entry) command.Get (bytes.now, laid base.now changed.old)) }
{
    let (req, sub, status, rest) = reply_head_at(alloc, order, bytes)?;
    let brings = carries(&status);
    let (ty, part, rest) = get_next_at(alloc, order, base, changed, known, brings, sub, rest)?;
    let message = ToClient::Get {
        req,
        sub,
        status,
        ty,
        part,
    };
    Ok((message, rest))
}

/// The type of a put that is begun, or the present value that was asked for.
#[tactic(auto, unfolding(crate::specs::Reading::all_at, crate::specs::Reading::item_at))]
fn put_next_at<'a>(
    alloc: Global,
    order: Order,
    base: &Registry,
    changed: &mut Definitions,
    known: Option<&PvType>,
    brings: bool,
    sub: u8,
    bytes: &'a [u8],
) -> Result<(Option<PvType>, Option<Part>, &'a [u8]), ValueStop>
    ensures { Gives (λ x. ((x.0, part_view x.1), (x.2.now, laid base.now changed.new))) result (picked get_in (all_at order (if brings then put_reply (option_copied known.entry) sub else []) (bytes.now, laid base.now changed.old))) }
{
    if !brings {
        return Ok((None, None, bytes));
    }
    if begins(sub) {
        let (ty, rest) = type_at(alloc, order, base, changed, bytes)?;
        return Ok((ty, None, rest));
    }
    if !asks_back(sub) {
        return Ok((None, None, bytes));
    }
    let (part, rest) = parts_at(alloc, order, base, changed, known, bytes)?;
    Ok((None, part, rest))
}

fn put_at<'a>(
    alloc: Global,
    order: Order,
    base: &Registry,
    changed: &mut Definitions,
    known: Option<&PvType>,
    bytes: &'a [u8],
) -> Result<(ToClient, &'a [u8]), ValueStop>
    ensures { Gives (λ x. (reply_view x.0, (x.1.now, laid base.now changed.new))) result (reply_row_at order (option_copied known.entry) command.Put (bytes.now, laid base.now changed.old)) }
{
    let (req, sub, status, rest) = reply_head_at(alloc, order, bytes)?;
    let brings = carries(&status);
    let (ty, part, rest) = put_next_at(alloc, order, base, changed, known, brings, sub, rest)?;
    let message = ToClient::Put {
        req,
        sub,
        status,
        ty,
        part,
    };
    Ok((message, rest))
}

/// The types of a put-get that is begun, or else its value.
#[tactic(auto, unfolding(crate::specs::Reading::all_at, crate::specs::Reading::item_at))]
fn put_get_next_at<'a>(
    alloc: Global,
    order: Order,
    base: &Registry,
    changed: &mut Definitions,
    known: Option<&PvType>,
    brings: bool,
    sub: u8,
    bytes: &'a [u8],
) -> Result<(Option<PvType>, Option<PvType>, Option<Part>, &'a [u8]), ValueStop>
    ensures { Gives (λ x. ((x.0, x.1, part_view x.2), (x.3.now, laid base.now changed.new))) result (picked put_get_in (all_at order (if brings then put_get_reply (option_copied known.entry) sub else []) (bytes.now, laid base.now changed.old))) }
{
    if !brings {
        return Ok((None, None, None, bytes));
    }
    if begins(sub) {
        let (put_ty, rest) = type_at(alloc, order, base, changed, bytes)?;
        let (get_ty, rest) = type_at(alloc, order, base, changed, rest)?;
        return Ok((put_ty, get_ty, None, rest));
    }
    let (part, rest) = parts_at(alloc, order, base, changed, known, bytes)?;
    Ok((None, None, part, rest))
}

fn put_get_at<'a>(
    alloc: Global,
    order: Order,
    base: &Registry,
    changed: &mut Definitions,
    known: Option<&PvType>,
    bytes: &'a [u8],
) -> Result<(ToClient, &'a [u8]), ValueStop>
    ensures { Gives (λ x. (reply_view x.0, (x.1.now, laid base.now changed.new))) result (reply_row_at order (option_copied known.entry) command.PutGet (bytes.now, laid base.now changed.old)) }
{
    let (req, sub, status, rest) = reply_head_at(alloc, order, bytes)?;
    let brings = carries(&status);
    let (put_ty, get_ty, part, rest) = put_get_next_at(
        alloc, order, base, changed, known, brings, sub, rest,
    )?;
    let message = ToClient::PutGet {
        req,
        sub,
        status,
        put_ty,
        get_ty,
        part,
    };
    Ok((message, rest))
}

/// The result of a call that was made.
#[tactic(auto, unfolding(crate::specs::Reading::all_at, crate::specs::Reading::item_at))]
fn rpc_next_at<'a>(
    alloc: Global,
    order: Order,
    base: &Registry,
    changed: &mut Definitions,
    brings: bool,
    sub: u8,
    bytes: &'a [u8],
) -> Result<(Option<(PvType, PvValue)>, &'a [u8]), ValueStop>
    ensures { Gives (λ x. (valued_view x.0, (x.1.now, laid base.now changed.new))) result (picked valued_in (all_at order (if brings then rpc_reply sub else []) (bytes.now, laid base.now changed.old))) }
{
    if !brings || begins(sub) {
        return Ok((None, bytes));
    }
    valued_at(alloc, order, base, changed, bytes)
}

fn rpc_at<'a>(
    alloc: Global,
    order: Order,
    base: &Registry,
    changed: &mut Definitions,
    bytes: &'a [u8],
) -> Result<(ToClient, &'a [u8]), ValueStop>
    ensures { Gives (λ x. (reply_view x.0, (x.1.now, laid base.now changed.new))) result (reply_row_at order None command.Rpc (bytes.now, laid base.now changed.old)) }
{
    let (req, sub, status, rest) = reply_head_at(alloc, order, bytes)?;
    let brings = carries(&status);
    let (result, rest) = rpc_next_at(alloc, order, base, changed, brings, sub, rest)?;
    let message = ToClient::Rpc {
        req,
        sub,
        status,
        result,
    };
    Ok((message, rest))
}

/// The type of a field, or of a monitor that is begun.
#[tactic(auto, unfolding(crate::specs::Reading::all_at, crate::specs::Reading::item_at))]
fn brought_type_at<'a>(
    alloc: Global,
    order: Order,
    base: &Registry,
    changed: &mut Definitions,
    brings: bool,
    bytes: &'a [u8],
) -> Result<(Option<PvType>, &'a [u8]), ValueStop>
    ensures { Gives (λ x. (x.0, (x.1.now, laid base.now changed.new))) result (picked type_in (all_at order (if brings then item.description ∷ [] else []) (bytes.now, laid base.now changed.old))) }
{
    if !brings {
        return Ok((None, bytes));
    }
    type_at(alloc, order, base, changed, bytes)
}

fn get_field_at<'a>(
    alloc: Global,
    order: Order,
    base: &Registry,
    changed: &mut Definitions,
    bytes: &'a [u8],
) -> Result<(ToClient, &'a [u8]), ValueStop>
    ensures { Gives (λ x. (reply_view x.0, (x.1.now, laid base.now changed.new))) result (reply_row_at order None command.GetField (bytes.now, laid base.now changed.old)) }
{
    let (req, status, rest) = field_head_at(alloc, order, bytes)?;
    let brings = carries(&status);
    let (ty, rest) = brought_type_at(alloc, order, base, changed, brings, rest)?;
    Ok((ToClient::GetField { req, status, ty }, rest))
}

/// What changed, and what did so more than once, where the type is known.
#[tactic(auto, unfolding(crate::specs::Reading::all_at, crate::specs::Reading::item_at))]
fn update_at<'a>(
    alloc: Global,
    order: Order,
    base: &Registry,
    changed: &mut Definitions,
    known: Option<&PvType>,
    bytes: &'a [u8],
) -> Result<(Option<(Part, BitSet)>, &'a [u8]), ValueStop>
    ensures { Gives (λ x. (update_field (update_view x.0), (x.1.now, laid base.now changed.new))) result (all_at order (updates (option_copied known.entry)) (bytes.now, laid base.now changed.old)) }
{
    let Some(ty) = known else {
        return Ok((None, bytes));
    };
    let (part, rest) = known_part_at(alloc, order, base, changed, ty, bytes)?;
    let (overrun, rest) = bits_at(alloc, order, rest)?;
    Ok((Some((part, overrun)), rest))
}

fn monitor_at<'a>(
    alloc: Global,
    order: Order,
    base: &Registry,
    changed: &mut Definitions,
    known: Option<&PvType>,
    bytes: &'a [u8],
) -> Result<(ToClient, &'a [u8]), ValueStop>
    ensures { Gives (λ x. (reply_view x.0, (x.1.now, laid base.now changed.new))) result (reply_row_at order (option_copied known.entry) command.Monitor (bytes.now, laid base.now changed.old)) }
{
    let (req, sub, rest) = monitor_head_at(order, bytes)?;
    if begins(sub) {
        let (status, rest) = one_status_at(alloc, order, rest)?;
        let brings = carries(&status);
        let (ty, rest) = brought_type_at(alloc, order, base, changed, brings, rest)?;
        let message = ToClient::MonitorBegun {
            req,
            sub,
            status,
            ty,
        };
        return Ok((message, rest));
    }
    if ends(sub) {
        let (status, rest) = one_status_at(alloc, order, rest)?;
        return Ok((ToClient::MonitorEnd { req, sub, status }, rest));
    }
    let (update, rest) = update_at(alloc, order, base, changed, known, rest)?;
    Ok((ToClient::MonitorUpdate { req, sub, update }, rest))
}

#[tactic(auto, unfolding(crate::specs::Reading::stages_at, crate::specs::Reading::all_at, crate::specs::Reading::item_at))]
fn message_at(alloc: Global, order: Order, bytes: &[u8]) -> Result<(ToClient, &[u8]), ValueStop>
    ensures { (types : Types) → Gives (λ x. (reply_view x.0, (x.1.now, types))) result (reply_row_at order None command.Message (bytes.now, types)) }
{
    let (req, rest) = u32_at(order, bytes)?;
    let (kind, rest) = u8_at(order, rest)?;
    let (text, rest) = text_at(alloc, order, rest)?;
    Ok((ToClient::Message { req, kind, text }, rest))
}
