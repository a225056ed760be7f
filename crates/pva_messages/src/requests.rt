ghost use Rattle.std.specs.Prelude.{◌≡◌, ◌++◌, Ok, None};
ghost use Rattle.pvd_desc.specs.Types.{Types, laid};
ghost use Rattle.pvd_codec.specs.Reading.{Gives};
ghost use Rattle.pva_messages.specs.declared.command.Command.TheVariants as command;
ghost use Rattle.pva_messages.specs.Requests.{valued_in, put_in, monitor_in, count_field};
ghost use Rattle.pva_messages.specs.Rows.{begun_next, put_next, count_next};
ghost use Rattle.pva_messages.specs.Reading.{picked, all_at, request_row_at, request_at};
ghost use Rattle.pva_messages.specs.Views.{valued_view, put_part_view, request_view};

use crate::command::{Command, command_of};
use crate::items::{channels_at, last_valued_at, request_head_at, valued_at};
use crate::part::PutPart;
use crate::subcommand::{asks_back, begins, counts};
use crate::to_server::ToServer;
use pva_wire::{Order, text_at, u8_at, u16_at, u32_at};
use pvd_codec::ValueStop;
use pvd_desc::{Definitions, Registry};
use pvd_type::PvType;
use pvd_value::PvValue;
use std::alloc::Global;

/// The place where the part of a put begins: behind two ids and the subcommand.
const PART_PLACE: usize = 9;

/// A message to the server, and what follows it. What it defines goes into `changed`, which hides the
/// types of `base`; after a refusal `changed` may hold a part of that.
#[tactic(auto, unfolding(crate::specs::Reading::request_at))]
pub(crate) fn request_at<'a>(
    alloc: Global,
    order: Order,
    base: &Registry,
    changed: &mut Definitions,
    byte: u8,
    bytes: &'a [u8],
) -> Result<(ToServer, &'a [u8]), ValueStop>
    ensures { Gives (λ x. (request_view x.0, (x.1.now, laid base.now changed.new))) result (request_at order None byte (bytes.now, laid base.now changed.old)) }
{
    let Some(known) = command_of(byte) else {
        return Ok((ToServer::Skipped(byte), bytes));
    };
    match known {
        Command::Validation => validation_at(alloc, order, base, changed, bytes),
        Command::Echo => echo_at(alloc, bytes),
        Command::CreateChannel => create_at(alloc, order, bytes),
        Command::DestroyChannel => destroy_channel_at(order, bytes),
        Command::Validated => Ok((ToServer::Skipped(byte), bytes)),
        Command::Get => get_at(alloc, order, base, changed, bytes),
        Command::Put => put_at(alloc, order, base, changed, bytes),
        Command::PutGet => put_get_at(alloc, order, base, changed, bytes),
        Command::Monitor => monitor_at(alloc, order, base, changed, bytes),
        Command::DestroyRequest => destroy_request_at(order, bytes),
        Command::GetField => get_field_at(alloc, order, bytes),
        Command::Message => message_at(alloc, order, bytes),
        Command::Rpc => rpc_at(alloc, order, base, changed, bytes),
        Command::Cancel => cancel_at(order, bytes),
    }
}

#[tactic(auto, unfolding(crate::specs::Reading::stages_at, crate::specs::Reading::all_at, crate::specs::Reading::item_at))]
fn validation_at<'a>(
    alloc: Global,
    order: Order,
    base: &Registry,
    changed: &mut Definitions,
    bytes: &'a [u8],
) -> Result<(ToServer, &'a [u8]), ValueStop>
    ensures { Gives (λ x. (request_view x.0, (x.1.now, laid base.now changed.new))) result (request_row_at order command.Validation (bytes.now, laid base.now changed.old)) }
{
    let (buffer, rest) = u32_at(order, bytes)?;
    let (registry, rest) = u16_at(order, rest)?;
    let (qos, rest) = u16_at(order, rest)?;
    let (method, rest) = text_at(alloc, order, rest)?;
    let (argument, rest) = last_valued_at(alloc, order, base, changed, rest)?;
    let message = ToServer::Validation {
        buffer,
        registry,
        qos,
        method,
        argument,
    };
    Ok((message, rest))
}

#[tactic(auto, unfolding(crate::specs::Reading::stages_at, crate::specs::Reading::all_at, crate::specs::Reading::item_at))]
fn echo_at(alloc: Global, bytes: &[u8]) -> Result<(ToServer, &[u8]), ValueStop>
    ensures { (order : Order) (types : Types) → Gives (λ x. (request_view x.0, (x.1.now, types))) result (request_row_at order command.Echo (bytes.now, types)) }
{
    let bytes_again = Vec::from_slice(alloc, bytes)?;
    Ok((ToServer::Echo { bytes: bytes_again }, &bytes[bytes.len()..]))
}

#[tactic(auto, unfolding(crate::specs::Reading::stages_at, crate::specs::Reading::all_at, crate::specs::Reading::item_at))]
fn create_at(alloc: Global, order: Order, bytes: &[u8]) -> Result<(ToServer, &[u8]), ValueStop>
    ensures { (types : Types) → Gives (λ x. (request_view x.0, (x.1.now, types))) result (request_row_at order command.CreateChannel (bytes.now, types)) }
{
    let (channels, rest) = channels_at(alloc, order, bytes)?;
    Ok((ToServer::Create { channels }, rest))
}

#[tactic(auto, unfolding(crate::specs::Reading::stages_at, crate::specs::Reading::all_at, crate::specs::Reading::item_at))]
fn destroy_channel_at(order: Order, bytes: &[u8]) -> Result<(ToServer, &[u8]), ValueStop>
    ensures { (types : Types) → Gives (λ x. (request_view x.0, (x.1.now, types))) result (request_row_at order command.DestroyChannel (bytes.now, types)) }
{
    let (sid, rest) = u32_at(order, bytes)?;
    let (cid, rest) = u32_at(order, rest)?;
    Ok((ToServer::DestroyChannel { sid, cid }, rest))
}

/// The request structure, where the subcommand begins a request.
#[tactic(auto, unfolding(crate::specs::Reading::all_at, crate::specs::Reading::item_at))]
fn begun_at<'a>(
    alloc: Global,
    order: Order,
    base: &Registry,
    changed: &mut Definitions,
    sub: u8,
    bytes: &'a [u8],
) -> Result<(Option<(PvType, PvValue)>, &'a [u8]), ValueStop>
    ensures { Gives (λ x. (valued_view x.0, (x.1.now, laid base.now changed.new))) result (picked valued_in (all_at order (begun_next sub) (bytes.now, laid base.now changed.old))) }
{
    if begins(sub) {
        return valued_at(alloc, order, base, changed, bytes);
    }
    Ok((None, bytes))
}

fn get_at<'a>(
    alloc: Global,
    order: Order,
    base: &Registry,
    changed: &mut Definitions,
    bytes: &'a [u8],
) -> Result<(ToServer, &'a [u8]), ValueStop>
    ensures { Gives (λ x. (request_view x.0, (x.1.now, laid base.now changed.new))) result (request_row_at order command.Get (bytes.now, laid base.now changed.old)) }
{
    let (sid, req, sub, rest) = request_head_at(order, bytes)?;
    let (request, rest) = begun_at(alloc, order, base, changed, sub, rest)?;
    let message = ToServer::Get {
        sid,
        req,
        sub,
        request,
    };
    Ok((message, rest))
}

/// The request structure of a put that is begun, or where its part is left unread.
#[tactic(auto, unfolding(crate::specs::Reading::all_at, crate::specs::Reading::item_at))]
fn put_next_at<'a>(
    alloc: Global,
    order: Order,
    base: &Registry,
    changed: &mut Definitions,
    sub: u8,
    bytes: &'a [u8],
) -> Result<(Option<(PvType, PvValue)>, PutPart, &'a [u8]), ValueStop>
    ensures { Gives (λ x. ((valued_view x.0, put_part_view x.1), (x.2.now, laid base.now changed.new))) result (picked (put_in sub) (all_at order (put_next None sub) (bytes.now, laid base.now changed.old))) }
{
    if begins(sub) {
        let (request, rest) = valued_at(alloc, order, base, changed, bytes)?;
        return Ok((request, PutPart::Absent, rest));
    }
    if asks_back(sub) {
        return Ok((None, PutPart::Absent, bytes));
    }
    Ok((None, PutPart::Unread(PART_PLACE), bytes))
}

fn put_at<'a>(
    alloc: Global,
    order: Order,
    base: &Registry,
    changed: &mut Definitions,
    bytes: &'a [u8],
) -> Result<(ToServer, &'a [u8]), ValueStop>
    ensures { Gives (λ x. (request_view x.0, (x.1.now, laid base.now changed.new))) result (request_row_at order command.Put (bytes.now, laid base.now changed.old)) }
{
    let (sid, req, sub, rest) = request_head_at(order, bytes)?;
    let (request, part, rest) = put_next_at(alloc, order, base, changed, sub, rest)?;
    let message = ToServer::Put {
        sid,
        req,
        sub,
        request,
        part,
    };
    Ok((message, rest))
}

fn put_get_at<'a>(
    alloc: Global,
    order: Order,
    base: &Registry,
    changed: &mut Definitions,
    bytes: &'a [u8],
) -> Result<(ToServer, &'a [u8]), ValueStop>
    ensures { Gives (λ x. (request_view x.0, (x.1.now, laid base.now changed.new))) result (request_row_at order command.PutGet (bytes.now, laid base.now changed.old)) }
{
    let (sid, req, sub, rest) = request_head_at(order, bytes)?;
    let (request, part, rest) = put_next_at(alloc, order, base, changed, sub, rest)?;
    let message = ToServer::PutGet {
        sid,
        req,
        sub,
        request,
        part,
    };
    Ok((message, rest))
}

/// The count of updates, where the subcommand says that there is one.
#[tactic(auto, unfolding(crate::specs::Reading::all_at, crate::specs::Reading::item_at))]
fn count_at(order: Order, sub: u8, bytes: &[u8]) -> Result<(Option<u32>, &[u8]), ValueStop>
    ensures { (types : Types) → Gives (λ x. (count_field x.0, (x.1.now, types))) result (all_at order (count_next sub) (bytes.now, types)) }
{
    if counts(sub) {
        let (count, rest) = u32_at(order, bytes)?;
        return Ok((Some(count), rest));
    }
    Ok((None, bytes))
}

/// The request structure and the count of a monitor.
#[tactic(auto, unfolding(crate::specs::Reading::all_at, crate::specs::Reading::item_at))]
fn monitor_next_at<'a>(
    alloc: Global,
    order: Order,
    base: &Registry,
    changed: &mut Definitions,
    sub: u8,
    bytes: &'a [u8],
) -> Result<(Option<(PvType, PvValue)>, Option<u32>, &'a [u8]), ValueStop>
    ensures { Gives (λ x. ((valued_view x.0, x.1), (x.2.now, laid base.now changed.new))) result (picked monitor_in (all_at order (begun_next sub ++ count_next sub) (bytes.now, laid base.now changed.old))) }
{
    if begins(sub) {
        let (request, rest) = valued_at(alloc, order, base, changed, bytes)?;
        let (count, rest) = count_at(order, sub, rest)?;
        return Ok((request, count, rest));
    }
    let (count, rest) = count_at(order, sub, bytes)?;
    Ok((None, count, rest))
}

fn monitor_at<'a>(
    alloc: Global,
    order: Order,
    base: &Registry,
    changed: &mut Definitions,
    bytes: &'a [u8],
) -> Result<(ToServer, &'a [u8]), ValueStop>
    ensures { Gives (λ x. (request_view x.0, (x.1.now, laid base.now changed.new))) result (request_row_at order command.Monitor (bytes.now, laid base.now changed.old)) }
{
    let (sid, req, sub, rest) = request_head_at(order, bytes)?;
    let (request, count, rest) = monitor_next_at(alloc, order, base, changed, sub, rest)?;
    let message = ToServer::Monitor {
        sid,
        req,
        sub,
        request,
        count,
    };
    Ok((message, rest))
}

#[tactic(auto, unfolding(crate::specs::Reading::stages_at, crate::specs::Reading::all_at, crate::specs::Reading::item_at))]
fn destroy_request_at(order: Order, bytes: &[u8]) -> Result<(ToServer, &[u8]), ValueStop>
    ensures { (types : Types) → Gives (λ x. (request_view x.0, (x.1.now, types))) result (request_row_at order command.DestroyRequest (bytes.now, types)) }
{
    let (sid, rest) = u32_at(order, bytes)?;
    let (req, rest) = u32_at(order, rest)?;
    Ok((ToServer::DestroyRequest { sid, req }, rest))
}

#[tactic(auto, unfolding(crate::specs::Reading::stages_at, crate::specs::Reading::all_at, crate::specs::Reading::item_at))]
fn cancel_at(order: Order, bytes: &[u8]) -> Result<(ToServer, &[u8]), ValueStop>
    ensures { (types : Types) → Gives (λ x. (request_view x.0, (x.1.now, types))) result (request_row_at order command.Cancel (bytes.now, types)) }
{
    let (sid, rest) = u32_at(order, bytes)?;
    let (req, rest) = u32_at(order, rest)?;
    Ok((ToServer::Cancel { sid, req }, rest))
}

#[tactic(auto, unfolding(crate::specs::Reading::stages_at, crate::specs::Reading::all_at, crate::specs::Reading::item_at))]
fn get_field_at(alloc: Global, order: Order, bytes: &[u8]) -> Result<(ToServer, &[u8]), ValueStop>
    ensures { (types : Types) → Gives (λ x. (request_view x.0, (x.1.now, types))) result (request_row_at order command.GetField (bytes.now, types)) }
{
    let (sid, rest) = u32_at(order, bytes)?;
    let (req, rest) = u32_at(order, rest)?;
    let (path, rest) = text_at(alloc, order, rest)?;
    Ok((ToServer::GetField { sid, req, path }, rest))
}

#[tactic(auto, unfolding(crate::specs::Reading::stages_at, crate::specs::Reading::all_at, crate::specs::Reading::item_at))]
fn message_at(alloc: Global, order: Order, bytes: &[u8]) -> Result<(ToServer, &[u8]), ValueStop>
    ensures { (types : Types) → Gives (λ x. (request_view x.0, (x.1.now, types))) result (request_row_at order command.Message (bytes.now, types)) }
{
    let (req, rest) = u32_at(order, bytes)?;
    let (kind, rest) = u8_at(order, rest)?;
    let (text, rest) = text_at(alloc, order, rest)?;
    Ok((ToServer::Message { req, kind, text }, rest))
}

#[tactic(auto, unfolding(crate::specs::Reading::stages_at, crate::specs::Reading::all_at, crate::specs::Reading::item_at))]
fn rpc_at<'a>(
    alloc: Global,
    order: Order,
    base: &Registry,
    changed: &mut Definitions,
    bytes: &'a [u8],
) -> Result<(ToServer, &'a [u8]), ValueStop>
    ensures { Gives (λ x. (request_view x.0, (x.1.now, laid base.now changed.new))) result (request_row_at order command.Rpc (bytes.now, laid base.now changed.old)) }
{
    let (sid, rest) = u32_at(order, bytes)?;
    let (req, rest) = u32_at(order, rest)?;
    let (sub, rest) = u8_at(order, rest)?;
    let (argument, rest) = valued_at(alloc, order, base, changed, rest)?;
    let message = ToServer::Rpc {
        sid,
        req,
        sub,
        argument,
    };
    Ok((message, rest))
}
