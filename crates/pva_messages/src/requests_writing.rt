ghost use Rattle.std.specs.Prelude.{false, ◌≡◌, ◌<◌, ◌++◌, ◌∷◌, [], OnOk, OnErr};
ghost use Rattle.pvd_codec.specs.Written.{Begins, CanEach};
ghost use Rattle.pva_frames.specs.Spelling.{message_bytes};
ghost use Rattle.pva_messages.specs.Fields as field;
ghost use Rattle.pva_messages.specs.Requests as requests;
ghost use Rattle.pva_messages.specs.Requests.{CanSend, GetsOrPuts, begun, part_field, count_field, request_fields, request_command};
ghost use Rattle.pva_messages.specs.Written.{canonical, CanField, FitsField};
ghost use Rattle.pva_messages.specs.Laws.{IsWritable, request_payload};
ghost use Rattle.pva_messages.specs.Views.{valued_view, put_part_view, request_view};

use crate::command::Command;
use crate::part::PutPart;
use crate::subcommand::begins;
use crate::to_server::ToServer;
use crate::writing::{
    put_channels, put_ids, put_part, put_request_head, put_rest, put_text_message, put_valued,
};
use pva_frames::{begin_message, end_message};
use pva_wire::{Order, write_text, write_u16, write_u32};
use pvd_type::{Name, NoMemory, PvType};
use pvd_value::PvValue;

/// Appends the one spelling of a message of a client, as one frame or as segments of `segment` bytes
/// (pvAccess Protocol Specification, "Application Messages"). A null description stands where a
/// validation has no argument.
///
/// `segment` is at least 1. The message isn't Skipped, and no part is Unread. It has a part and a count
/// where its row has them, and no item that its row doesn't have; a Create has at most 65,535 channels.
/// Each value fits its type, and the mask of a part holds leaves alone. A size or a text without a
/// spelling, above 2^31-2, is NoMemory. After a refusal `out` is as before.
pub fn write_to_server(
    out: &mut Vec<u8>,
    order: Order,
    segment: u32,
    message: &ToServer,
) -> Result<(), NoMemory>
    requires segment { 0 < segment }
    requires message { CanSend (request_view message.now) }
    requires fits { CanEach FitsField (request_fields (request_view message.now)) }
    ensures ok { OnOk result (out.new.items ≡ out.old.items ++ message_bytes order false (request_command (request_view message.now)) (request_payload order (request_view message.now)) segment) }
    ensures spelled { OnOk result (IsWritable (request_view message.now)) }
    ensures err { OnErr result (out.new.items ≡ out.old.items) }
{
    let start = out.len();
    begin_message(out)?;
    match put_request(out, order, message) {
        Ok(()) => end_message(out, start, order, false, byte_of(message), segment),
        Err(failed) => {
            out.truncate(start);
            Err(failed)
        }
    }
}

/// The byte of a message's command.
fn byte_of(message: &ToServer) -> u8
    ensures { result ≡ request_command (request_view message.now) }
{
    match message {
        ToServer::Validation { .. } => Command::Validation.byte(),
        ToServer::Echo { .. } => Command::Echo.byte(),
        ToServer::Create { .. } => Command::CreateChannel.byte(),
        ToServer::DestroyChannel { .. } => Command::DestroyChannel.byte(),
        ToServer::Get { .. } => Command::Get.byte(),
        ToServer::Put { .. } => Command::Put.byte(),
        ToServer::PutGet { .. } => Command::PutGet.byte(),
        ToServer::Monitor { .. } => Command::Monitor.byte(),
        ToServer::DestroyRequest { .. } => Command::DestroyRequest.byte(),
        ToServer::Cancel { .. } => Command::Cancel.byte(),
        ToServer::GetField { .. } => Command::GetField.byte(),
        ToServer::Message { .. } => Command::Message.byte(),
        ToServer::Rpc { .. } => Command::Rpc.byte(),
        ToServer::Skipped(byte) => *byte,
    }
}

/// Appends the items of a message, or a part of them.
fn put_request(out: &mut Vec<u8>, order: Order, message: &ToServer) -> Result<(), NoMemory>
    requires message { CanSend (request_view message.now) }
    requires fits { CanEach FitsField (request_fields (request_view message.now)) }
    ensures written { OnOk result (out.new.items ≡ out.old.items ++ canonical order (request_fields (request_view message.now))) }
    ensures can { OnOk result (CanEach CanField (request_fields (request_view message.now))) }
    ensures begins { OnErr result (Begins out.old.items out.new.items) }
{
    match message {
        ToServer::Validation {
            buffer,
            registry,
            qos,
            method,
            argument,
        } => put_validation(out, order, (*buffer, *registry, *qos), method, argument),
        ToServer::Echo { bytes } => put_rest(out, order, bytes),
        ToServer::Create { channels } => put_channels(out, order, channels),
        ToServer::DestroyChannel { sid, cid } => put_ids(out, order, *sid, *cid),
        ToServer::Get { .. } => put_access(out, order, message),
        ToServer::Put { .. } => put_access(out, order, message),
        ToServer::PutGet { .. } => put_access(out, order, message),
        ToServer::Monitor {
            sid,
            req,
            sub,
            request,
            count,
        } => put_monitor(out, order, *sid, *req, *sub, request, *count),
        ToServer::DestroyRequest { sid, req } => put_ids(out, order, *sid, *req),
        ToServer::Cancel { sid, req } => put_ids(out, order, *sid, *req),
        ToServer::GetField { sid, req, path } => put_get_field(out, order, *sid, *req, path),
        ToServer::Message { req, kind, text } => put_text_message(out, order, *req, *kind, text),
        ToServer::Rpc {
            sid,
            req,
            sub,
            argument,
        } => put_rpc(out, order, *sid, *req, *sub, argument),
        ToServer::Skipped(_) => Ok(()),
    }
}

/// Appends the items of a get, a put or a put-get.
fn put_access(out: &mut Vec<u8>, order: Order, message: &ToServer) -> Result<(), NoMemory>
    requires row { GetsOrPuts (request_view message.now) }
    requires fits { CanEach FitsField (request_fields (request_view message.now)) }
    ensures written { OnOk result (out.new.items ≡ out.old.items ++ canonical order (request_fields (request_view message.now))) }
    ensures can { OnOk result (CanEach CanField (request_fields (request_view message.now))) }
    ensures begins { OnErr result (Begins out.old.items out.new.items) }
{
    match message {
        ToServer::Get {
            sid,
            req,
            sub,
            request,
        } => put_get(out, order, *sid, *req, *sub, request),
        ToServer::Put {
            sid,
            req,
            sub,
            request,
            part,
        } => put_put(out, order, *sid, *req, *sub, request, part),
        ToServer::PutGet {
            sid,
            req,
            sub,
            request,
            part,
        } => put_put(out, order, *sid, *req, *sub, request, part),
        ToServer::Validation { .. }
        | ToServer::Echo { .. }
        | ToServer::Create { .. }
        | ToServer::DestroyChannel { .. }
        | ToServer::Monitor { .. }
        | ToServer::DestroyRequest { .. }
        | ToServer::Cancel { .. }
        | ToServer::GetField { .. }
        | ToServer::Message { .. }
        | ToServer::Rpc { .. }
        | ToServer::Skipped(_) => Ok(()),
    }
}

/// Appends the sizes, the quality of service, the method and its argument.
fn put_validation(
    out: &mut Vec<u8>,
    order: Order,
    sizes: (u32, u16, u16),
    method: &Name,
    argument: &Option<(PvType, PvValue)>,
) -> Result<(), NoMemory>
    requires { FitsField (field.last_valued (valued_view argument.now)) }
    ensures written { OnOk result (out.new.items ≡ out.old.items ++ canonical order (field.word sizes.0 ∷ field.short sizes.1 ∷ field.short sizes.2 ∷ field.text method.now ∷ field.last_valued (valued_view argument.now) ∷ [])) }
    ensures can { OnOk result (CanEach CanField (field.word sizes.0 ∷ field.short sizes.1 ∷ field.short sizes.2 ∷ field.text method.now ∷ field.last_valued (valued_view argument.now) ∷ [])) }
    ensures begins { OnErr result (Begins out.old.items out.new.items) }
{
    write_u32(out, order, sizes.0)?;
    write_u16(out, order, sizes.1)?;
    write_u16(out, order, sizes.2)?;
    write_text(out, order, method)?;
    put_valued(out, order, argument)?;
    Ok(())
}

/// Appends the request structure, where the subcommand begins a request.
fn put_begun(
    out: &mut Vec<u8>,
    order: Order,
    sub: u8,
    request: &Option<(PvType, PvValue)>,
) -> Result<(), NoMemory>
    requires { CanEach FitsField (begun sub (valued_view request.now)) }
    ensures written { OnOk result (out.new.items ≡ out.old.items ++ canonical order (begun sub (valued_view request.now))) }
    ensures can { OnOk result (CanEach CanField (begun sub (valued_view request.now))) }
    ensures begins { OnErr result (Begins out.old.items out.new.items) }
{
    if !begins(sub) {
        return Ok(());
    }
    put_valued(out, order, request)?;
    Ok(())
}

/// Appends a get.
fn put_get(
    out: &mut Vec<u8>,
    order: Order,
    sid: u32,
    req: u32,
    sub: u8,
    request: &Option<(PvType, PvValue)>,
) -> Result<(), NoMemory>
    requires { CanEach FitsField (request_fields (requests.get sid req sub (valued_view request.now))) }
    ensures written { OnOk result (out.new.items ≡ out.old.items ++ canonical order (request_fields (requests.get sid req sub (valued_view request.now)))) }
    ensures can { OnOk result (CanEach CanField (request_fields (requests.get sid req sub (valued_view request.now)))) }
    ensures begins { OnErr result (Begins out.old.items out.new.items) }
{
    put_request_head(out, order, sid, req, sub)?;
    put_begun(out, order, sub, request)?;
    Ok(())
}

/// Appends a put, or a put-get, whose items are the same.
fn put_put(
    out: &mut Vec<u8>,
    order: Order,
    sid: u32,
    req: u32,
    sub: u8,
    request: &Option<(PvType, PvValue)>,
    part: &PutPart,
) -> Result<(), NoMemory>
    requires { CanEach FitsField (request_fields (requests.put sid req sub (valued_view request.now) (put_part_view part.now))) }
    ensures written { OnOk result (out.new.items ≡ out.old.items ++ canonical order (request_fields (requests.put sid req sub (valued_view request.now) (put_part_view part.now)))) }
    ensures can { OnOk result (CanEach CanField (request_fields (requests.put sid req sub (valued_view request.now) (put_part_view part.now)))) }
    ensures begins { OnErr result (Begins out.old.items out.new.items) }
{
    put_request_head(out, order, sid, req, sub)?;
    put_begun(out, order, sub, request)?;
    put_given(out, order, part)?;
    Ok(())
}

/// Appends the part of a put, where it is there.
fn put_given(out: &mut Vec<u8>, order: Order, part: &PutPart) -> Result<(), NoMemory>
    requires { CanEach FitsField (part_field (put_part_view part.now)) }
    ensures written { OnOk result (out.new.items ≡ out.old.items ++ canonical order (part_field (put_part_view part.now))) }
    ensures can { OnOk result (CanEach CanField (part_field (put_part_view part.now))) }
    ensures begins { OnErr result (Begins out.old.items out.new.items) }
{
    let PutPart::Given(part) = part else {
        return Ok(());
    };
    put_part(out, order, &part.ty, &part.mask, &part.value)?;
    Ok(())
}

/// Appends a message of a monitor.
fn put_monitor(
    out: &mut Vec<u8>,
    order: Order,
    sid: u32,
    req: u32,
    sub: u8,
    request: &Option<(PvType, PvValue)>,
    count: Option<u32>,
) -> Result<(), NoMemory>
    requires { CanEach FitsField (request_fields (requests.monitor sid req sub (valued_view request.now) count)) }
    ensures written { OnOk result (out.new.items ≡ out.old.items ++ canonical order (request_fields (requests.monitor sid req sub (valued_view request.now) count))) }
    ensures can { OnOk result (CanEach CanField (request_fields (requests.monitor sid req sub (valued_view request.now) count))) }
    ensures begins { OnErr result (Begins out.old.items out.new.items) }
{
    put_request_head(out, order, sid, req, sub)?;
    put_begun(out, order, sub, request)?;
    put_count(out, order, count)?;
    Ok(())
}

/// Appends a call of a service.
fn put_rpc(
    out: &mut Vec<u8>,
    order: Order,
    sid: u32,
    req: u32,
    sub: u8,
    argument: &Option<(PvType, PvValue)>,
) -> Result<(), NoMemory>
    requires { CanEach FitsField (request_fields (requests.rpc sid req sub (valued_view argument.now))) }
    ensures written { OnOk result (out.new.items ≡ out.old.items ++ canonical order (request_fields (requests.rpc sid req sub (valued_view argument.now)))) }
    ensures can { OnOk result (CanEach CanField (request_fields (requests.rpc sid req sub (valued_view argument.now)))) }
    ensures begins { OnErr result (Begins out.old.items out.new.items) }
{
    put_request_head(out, order, sid, req, sub)?;
    put_valued(out, order, argument)?;
    Ok(())
}

/// Appends a question for the type of a field.
fn put_get_field(
    out: &mut Vec<u8>,
    order: Order,
    sid: u32,
    req: u32,
    path: &Name,
) -> Result<(), NoMemory>
    ensures written { OnOk result (out.new.items ≡ out.old.items ++ canonical order (request_fields (requests.get_field sid req path.now))) }
    ensures can { OnOk result (CanEach CanField (request_fields (requests.get_field sid req path.now))) }
    ensures begins { OnErr result (Begins out.old.items out.new.items) }
{
    put_ids(out, order, sid, req)?;
    write_text(out, order, path)?;
    Ok(())
}

/// Appends a count of updates, where there is one.
fn put_count(out: &mut Vec<u8>, order: Order, count: Option<u32>) -> Result<(), NoMemory>
    ensures written { OnOk result (out.new.items ≡ out.old.items ++ canonical order (count_field count)) }
    ensures can { OnOk result (CanEach CanField (count_field count)) }
    ensures begins { OnErr result (Begins out.old.items out.new.items) }
{
    let Some(count) = count else {
        return Ok(());
    };
    write_u32(out, order, count)?;
    Ok(())
}
