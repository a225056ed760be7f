ghost use Rattle.std.specs.Prelude.{true, false, Some, ◌≡◌, ◌<◌, ◌++◌, ◌∷◌, [], ◌&&◌, not, OnOk, OnErr};
ghost use Rattle.pvd_codec.specs.Written.{Begins, CanEach};
ghost use Rattle.pva_frames.specs.Spelling.{message_bytes};
ghost use Rattle.pva_wire.specs.Status.{good};
ghost use Rattle.pva_messages.specs.declared.command.Command.TheVariants.{Get, Monitor};
ghost use Rattle.pva_messages.specs.Rows.{byte_of};
ghost use Rattle.pva_messages.specs.Fields as field;
ghost use Rattle.pva_messages.specs.Subcommands.{begins, carries};
ghost use Rattle.pva_messages.specs.Replies as replies;
ghost use Rattle.pva_messages.specs.Replies.{CanReply, GetsOrPuts, begun_reply, value_reply, update_reply, type_field, valued_field, part_field, reply_fields, reply_command};
ghost use Rattle.pva_messages.specs.Written.{canonical, CanField, FitsField};
ghost use Rattle.pva_messages.specs.Laws.{IsReplyWritable, reply_payload};
ghost use Rattle.pva_messages.specs.Views.{valued_view, part_of, part_view, update_view, reply_view};

use crate::command::Command;
use crate::part::Part;
use crate::subcommand::{begins, carries};
use crate::to_client::ToClient;
use crate::writing::{
    put_any_part, put_ids, put_part, put_reply_head, put_rest, put_text_message, put_texts,
    put_type, put_update, put_valued,
};
use pva_frames::{begin_message, end_message};
use pva_wire::{Order, Status, write_bits, write_status, write_u16, write_u32};
use pvd_desc::write_desc;
use pvd_type::{BitSet, Name, NoMemory, PvType};
use pvd_value::PvValue;

/// The status OK without texts.
const GOOD: u8 = 0xFF;

/// Appends the one spelling of a message of a server, as one frame or as segments of `segment` bytes
/// (pvAccess Protocol Specification, "Application Messages").
///
/// `segment` is at least 1. The message isn't Skipped. It has a part and an update where its row has
/// them, and no item that its row doesn't have, which its sub and its status tell; a monitor's reply has
/// a sub of its variant. Each value fits its type, and the mask of a part holds leaves alone. A size or a
/// text without a spelling, above 2^31-2, is NoMemory. After a refusal `out` is as before.
pub fn write_to_client(
    out: &mut Vec<u8>,
    order: Order,
    segment: u32,
    message: &ToClient,
) -> Result<(), NoMemory>
    requires segment { 0 < segment }
    requires message { CanReply (reply_view message.now) }
    requires fits { CanEach FitsField (reply_fields (reply_view message.now)) }
    ensures ok { OnOk result (out.new.items ≡ out.old.items ++ message_bytes order true (reply_command (reply_view message.now)) (reply_payload order (reply_view message.now)) segment) }
    ensures spelled { OnOk result (IsReplyWritable (reply_view message.now)) }
    ensures err { OnErr result (out.new.items ≡ out.old.items) }
{
    let start = out.len();
    begin_message(out)?;
    match put_reply(out, order, message) {
        Ok(()) => end_message(out, start, order, true, byte_of(message), segment),
        Err(failed) => {
            out.truncate(start);
            Err(failed)
        }
    }
}

/// `write_to_client` for the reply OK that begins a get (0A), a put (0B) or a monitor (0D) with a type that stands
/// elsewhere, and isn't copied into a message first. `command` is one of these three, and `sub` has bit 08.
pub fn write_begun(
    out: &mut Vec<u8>,
    order: Order,
    segment: u32,
    command: Command,
    req: u32,
    sub: u8,
    ty: &PvType,
) -> Result<(), NoMemory>
    requires segment { 0 < segment }
    requires message { CanReply (begun_reply command req sub ty.now) }
    ensures ok { OnOk result (out.new.items ≡ out.old.items ++ message_bytes order true (byte_of command) (reply_payload order (begun_reply command req sub ty.now)) segment) }
    ensures spelled { OnOk result (IsReplyWritable (begun_reply command req sub ty.now)) }
    ensures err { OnErr result (out.new.items ≡ out.old.items) }
{
    let start = out.len();
    begin_message(out)?;
    match put_begun_type(out, order, req, sub, ty) {
        Ok(()) => end_message(out, start, order, true, command.byte(), segment),
        Err(failed) => {
            out.truncate(start);
            Err(failed)
        }
    }
}

/// `write_to_client` for the reply to a get (0A) that is OK and brings a part of a value, from what stands elsewhere:
/// nothing is copied into a message first. `sub` is without bit 08.
pub fn write_get_value(
    out: &mut Vec<u8>,
    order: Order,
    segment: u32,
    req: u32,
    sub: u8,
    ty: &PvType,
    mask: &BitSet,
    value: &PvValue,
) -> Result<(), NoMemory>
    requires segment { 0 < segment }
    requires message { begins sub ≡ false }
    requires fits { FitsField (field.part (part_of ty.now mask.now value.now)) }
    ensures ok { OnOk result (out.new.items ≡ out.old.items ++ message_bytes order true (byte_of Get) (reply_payload order (value_reply req sub (part_of ty.now mask.now value.now))) segment) }
    ensures spelled { OnOk result (IsReplyWritable (value_reply req sub (part_of ty.now mask.now value.now))) }
    ensures err { OnErr result (out.new.items ≡ out.old.items) }
{
    let start = out.len();
    begin_message(out)?;
    match put_get_value(out, order, req, sub, ty, mask, value) {
        Ok(()) => end_message(out, start, order, true, Command::Get.byte(), segment),
        Err(failed) => {
            out.truncate(start);
            Err(failed)
        }
    }
}

/// `write_to_client` for an update of a monitor (0D), from what stands elsewhere: nothing is copied into a message
/// first. `mask` is what changed, `overrun` what did so more than once.
pub fn write_monitor_update(
    out: &mut Vec<u8>,
    order: Order,
    segment: u32,
    req: u32,
    ty: &PvType,
    mask: &BitSet,
    value: &PvValue,
    overrun: &BitSet,
) -> Result<(), NoMemory>
    requires segment { 0 < segment }
    requires fits { FitsField (field.part (part_of ty.now mask.now value.now)) }
    ensures ok { OnOk result (out.new.items ≡ out.old.items ++ message_bytes order true (byte_of Monitor) (reply_payload order (update_reply req (part_of ty.now mask.now value.now) overrun.now)) segment) }
    ensures spelled { OnOk result (IsReplyWritable (update_reply req (part_of ty.now mask.now value.now) overrun.now)) }
    ensures err { OnErr result (out.new.items ≡ out.old.items) }
{
    let start = out.len();
    begin_message(out)?;
    match put_changes(out, order, req, ty, mask, value, overrun) {
        Ok(()) => end_message(out, start, order, true, Command::Monitor.byte(), segment),
        Err(failed) => {
            out.truncate(start);
            Err(failed)
        }
    }
}

/// The byte of a message's command.
fn byte_of(message: &ToClient) -> u8
    ensures { result ≡ reply_command (reply_view message.now) }
{
    match message {
        ToClient::Validation { .. } => Command::Validation.byte(),
        ToClient::Echo { .. } => Command::Echo.byte(),
        ToClient::Created { .. } => Command::CreateChannel.byte(),
        ToClient::ChannelDestroyed { .. } => Command::DestroyChannel.byte(),
        ToClient::Validated { .. } => Command::Validated.byte(),
        ToClient::Get { .. } => Command::Get.byte(),
        ToClient::Put { .. } => Command::Put.byte(),
        ToClient::PutGet { .. } => Command::PutGet.byte(),
        ToClient::MonitorBegun { .. } => Command::Monitor.byte(),
        ToClient::MonitorUpdate { .. } => Command::Monitor.byte(),
        ToClient::MonitorEnd { .. } => Command::Monitor.byte(),
        ToClient::GetField { .. } => Command::GetField.byte(),
        ToClient::Message { .. } => Command::Message.byte(),
        ToClient::Rpc { .. } => Command::Rpc.byte(),
        ToClient::Skipped(byte) => *byte,
    }
}

/// Appends the items of a message.
fn put_reply(out: &mut Vec<u8>, order: Order, message: &ToClient) -> Result<(), NoMemory>
    requires { CanEach FitsField (reply_fields (reply_view message.now)) }
    ensures written { OnOk result (out.new.items ≡ out.old.items ++ canonical order (reply_fields (reply_view message.now))) }
    ensures can { OnOk result (CanEach CanField (reply_fields (reply_view message.now))) }
    ensures begins { OnErr result (Begins out.old.items out.new.items) }
{
    match message {
        ToClient::Validation {
            buffer,
            registry,
            methods,
        } => put_validation(out, order, *buffer, *registry, methods),
        ToClient::Echo { bytes } => put_rest(out, order, bytes),
        ToClient::Created { cid, sid, status } => put_created(out, order, *cid, *sid, status),
        ToClient::ChannelDestroyed { sid, cid } => put_ids(out, order, *sid, *cid),
        ToClient::Validated { status } => write_status(out, order, status),
        ToClient::Get { .. } => put_accessed(out, order, message),
        ToClient::Put { .. } => put_accessed(out, order, message),
        ToClient::PutGet { .. } => put_accessed(out, order, message),
        ToClient::MonitorBegun {
            req,
            sub,
            status,
            ty,
        } => put_monitor_begun(out, order, *req, *sub, status, ty),
        ToClient::MonitorUpdate { req, sub, update } => {
            put_monitor_update(out, order, *req, *sub, update)
        }
        ToClient::MonitorEnd { req, sub, status } => put_reply_head(out, order, *req, *sub, status),
        ToClient::GetField { req, status, ty } => put_field_type(out, order, *req, status, ty),
        ToClient::Message { req, kind, text } => put_text_message(out, order, *req, *kind, text),
        ToClient::Rpc {
            req,
            sub,
            status,
            result,
        } => put_called(out, order, *req, *sub, status, result),
        ToClient::Skipped(_) => Ok(()),
    }
}

/// Appends the items of the reply to a get, a put or a put-get.
fn put_accessed(out: &mut Vec<u8>, order: Order, message: &ToClient) -> Result<(), NoMemory>
    requires row { GetsOrPuts (reply_view message.now) }
    requires fits { CanEach FitsField (reply_fields (reply_view message.now)) }
    ensures written { OnOk result (out.new.items ≡ out.old.items ++ canonical order (reply_fields (reply_view message.now))) }
    ensures can { OnOk result (CanEach CanField (reply_fields (reply_view message.now))) }
    ensures begins { OnErr result (Begins out.old.items out.new.items) }
{
    match message {
        ToClient::Get {
            req,
            sub,
            status,
            ty,
            part,
        } => put_got(out, order, *req, *sub, status, ty, part),
        ToClient::Put {
            req,
            sub,
            status,
            ty,
            part,
        } => put_got(out, order, *req, *sub, status, ty, part),
        ToClient::PutGet {
            req,
            sub,
            status,
            put_ty,
            get_ty,
            part,
        } => put_put_got(out, order, *req, *sub, status, put_ty, get_ty, part),
        ToClient::Validation { .. }
        | ToClient::Echo { .. }
        | ToClient::Created { .. }
        | ToClient::ChannelDestroyed { .. }
        | ToClient::Validated { .. }
        | ToClient::MonitorBegun { .. }
        | ToClient::MonitorUpdate { .. }
        | ToClient::MonitorEnd { .. }
        | ToClient::GetField { .. }
        | ToClient::Message { .. }
        | ToClient::Rpc { .. }
        | ToClient::Skipped(_) => Ok(()),
    }
}

/// Appends the id of a request, the subcommand and the status OK.
fn put_good_head(out: &mut Vec<u8>, order: Order, req: u32, sub: u8) -> Result<(), NoMemory>
    ensures written { OnOk result (out.new.items ≡ out.old.items ++ canonical order (field.word req ∷ field.byte sub ∷ field.status good ∷ [])) }
    ensures can { OnOk result (CanEach CanField (field.word req ∷ field.byte sub ∷ field.status good ∷ [])) }
    ensures begins { OnErr result (Begins out.old.items out.new.items) }
{
    write_u32(out, order, req)?;
    out.push(sub)?;
    out.push(GOOD)?;
    Ok(())
}

/// Appends the reply OK that begins a request with a type.
fn put_begun_type(
    out: &mut Vec<u8>,
    order: Order,
    req: u32,
    sub: u8,
    ty: &PvType,
) -> Result<(), NoMemory>
    ensures written { OnOk result (out.new.items ≡ out.old.items ++ canonical order (field.word req ∷ field.byte sub ∷ field.status good ∷ field.description (Some ty.now) ∷ [])) }
    ensures can { OnOk result (CanEach CanField (field.word req ∷ field.byte sub ∷ field.status good ∷ field.description (Some ty.now) ∷ [])) }
    ensures begins { OnErr result (Begins out.old.items out.new.items) }
{
    put_good_head(out, order, req, sub)?;
    write_desc(out, order, Some(ty))?;
    Ok(())
}

/// Appends the reply to a get that is OK and brings a part of a value.
fn put_get_value(
    out: &mut Vec<u8>,
    order: Order,
    req: u32,
    sub: u8,
    ty: &PvType,
    mask: &BitSet,
    value: &PvValue,
) -> Result<(), NoMemory>
    requires { FitsField (field.part (part_of ty.now mask.now value.now)) }
    ensures written { OnOk result (out.new.items ≡ out.old.items ++ canonical order (field.word req ∷ field.byte sub ∷ field.status good ∷ field.part (part_of ty.now mask.now value.now) ∷ [])) }
    ensures can { OnOk result (CanEach CanField (field.word req ∷ field.byte sub ∷ field.status good ∷ field.part (part_of ty.now mask.now value.now) ∷ [])) }
    ensures begins { OnErr result (Begins out.old.items out.new.items) }
{
    put_good_head(out, order, req, sub)?;
    put_part(out, order, ty, mask, value)?;
    Ok(())
}

/// Appends an update of a monitor.
fn put_changes(
    out: &mut Vec<u8>,
    order: Order,
    req: u32,
    ty: &PvType,
    mask: &BitSet,
    value: &PvValue,
    overrun: &BitSet,
) -> Result<(), NoMemory>
    requires { FitsField (field.part (part_of ty.now mask.now value.now)) }
    ensures written { OnOk result (out.new.items ≡ out.old.items ++ canonical order (reply_fields (update_reply req (part_of ty.now mask.now value.now) overrun.now))) }
    ensures can { OnOk result (CanEach CanField (reply_fields (update_reply req (part_of ty.now mask.now value.now) overrun.now))) }
    ensures begins { OnErr result (Begins out.old.items out.new.items) }
{
    write_u32(out, order, req)?;
    out.push(0)?;
    put_part(out, order, ty, mask, value)?;
    write_bits(out, order, overrun)?;
    Ok(())
}

/// Appends the sizes of the server's buffer and registry, and its methods of authentication.
fn put_validation(
    out: &mut Vec<u8>,
    order: Order,
    buffer: u32,
    registry: u16,
    methods: &[Name],
) -> Result<(), NoMemory>
    ensures written { OnOk result (out.new.items ≡ out.old.items ++ canonical order (reply_fields (replies.validation buffer registry methods.now))) }
    ensures can { OnOk result (CanEach CanField (reply_fields (replies.validation buffer registry methods.now))) }
    ensures begins { OnErr result (Begins out.old.items out.new.items) }
{
    write_u32(out, order, buffer)?;
    write_u16(out, order, registry)?;
    put_texts(out, order, methods)?;
    Ok(())
}

/// Appends the ids of a channel, the client's first, and how its creation went.
fn put_created(
    out: &mut Vec<u8>,
    order: Order,
    cid: u32,
    sid: u32,
    status: &Status,
) -> Result<(), NoMemory>
    ensures written { OnOk result (out.new.items ≡ out.old.items ++ canonical order (reply_fields (replies.created cid sid status.now))) }
    ensures can { OnOk result (CanEach CanField (reply_fields (replies.created cid sid status.now))) }
    ensures begins { OnErr result (Begins out.old.items out.new.items) }
{
    put_ids(out, order, cid, sid)?;
    write_status(out, order, status)?;
    Ok(())
}

/// Appends the reply to a get, or to a put, whose items are the same.
fn put_got(
    out: &mut Vec<u8>,
    order: Order,
    req: u32,
    sub: u8,
    status: &Status,
    ty: &Option<PvType>,
    part: &Option<Part>,
) -> Result<(), NoMemory>
    requires { CanEach FitsField (reply_fields (replies.get req sub status.now ty.now (part_view part.now))) }
    ensures written { OnOk result (out.new.items ≡ out.old.items ++ canonical order (reply_fields (replies.get req sub status.now ty.now (part_view part.now)))) }
    ensures can { OnOk result (CanEach CanField (reply_fields (replies.get req sub status.now ty.now (part_view part.now)))) }
    ensures begins { OnErr result (Begins out.old.items out.new.items) }
{
    put_reply_head(out, order, req, sub, status)?;
    put_type(out, order, carries(status) && begins(sub), ty)?;
    put_any_part(out, order, part)?;
    Ok(())
}

/// Appends the reply to a put-get.
fn put_put_got(
    out: &mut Vec<u8>,
    order: Order,
    req: u32,
    sub: u8,
    status: &Status,
    put_ty: &Option<PvType>,
    get_ty: &Option<PvType>,
    part: &Option<Part>,
) -> Result<(), NoMemory>
    requires { CanEach FitsField (reply_fields (replies.put_get req sub status.now put_ty.now get_ty.now (part_view part.now))) }
    ensures written { OnOk result (out.new.items ≡ out.old.items ++ canonical order (reply_fields (replies.put_get req sub status.now put_ty.now get_ty.now (part_view part.now)))) }
    ensures can { OnOk result (CanEach CanField (reply_fields (replies.put_get req sub status.now put_ty.now get_ty.now (part_view part.now)))) }
    ensures begins { OnErr result (Begins out.old.items out.new.items) }
{
    put_reply_head(out, order, req, sub, status)?;
    put_type(out, order, carries(status) && begins(sub), put_ty)?;
    put_type(out, order, carries(status) && begins(sub), get_ty)?;
    put_any_part(out, order, part)?;
    Ok(())
}

/// Appends the reply that begins a monitor.
fn put_monitor_begun(
    out: &mut Vec<u8>,
    order: Order,
    req: u32,
    sub: u8,
    status: &Status,
    ty: &Option<PvType>,
) -> Result<(), NoMemory>
    ensures written { OnOk result (out.new.items ≡ out.old.items ++ canonical order (reply_fields (replies.monitor_begun req sub status.now ty.now))) }
    ensures can { OnOk result (CanEach CanField (reply_fields (replies.monitor_begun req sub status.now ty.now))) }
    ensures begins { OnErr result (Begins out.old.items out.new.items) }
{
    put_reply_head(out, order, req, sub, status)?;
    put_type(out, order, carries(status), ty)?;
    Ok(())
}

/// Appends an update of a monitor.
fn put_monitor_update(
    out: &mut Vec<u8>,
    order: Order,
    req: u32,
    sub: u8,
    update: &Option<(Part, BitSet)>,
) -> Result<(), NoMemory>
    requires { CanEach FitsField (reply_fields (replies.monitor_update req sub (update_view update.now))) }
    ensures written { OnOk result (out.new.items ≡ out.old.items ++ canonical order (reply_fields (replies.monitor_update req sub (update_view update.now)))) }
    ensures can { OnOk result (CanEach CanField (reply_fields (replies.monitor_update req sub (update_view update.now)))) }
    ensures begins { OnErr result (Begins out.old.items out.new.items) }
{
    write_u32(out, order, req)?;
    out.push(sub)?;
    put_update(out, order, update)?;
    Ok(())
}

/// Appends the reply to a question for the type of a field.
fn put_field_type(
    out: &mut Vec<u8>,
    order: Order,
    req: u32,
    status: &Status,
    ty: &Option<PvType>,
) -> Result<(), NoMemory>
    ensures written { OnOk result (out.new.items ≡ out.old.items ++ canonical order (reply_fields (replies.get_field req status.now ty.now))) }
    ensures can { OnOk result (CanEach CanField (reply_fields (replies.get_field req status.now ty.now))) }
    ensures begins { OnErr result (Begins out.old.items out.new.items) }
{
    write_u32(out, order, req)?;
    write_status(out, order, status)?;
    put_type(out, order, carries(status), ty)?;
    Ok(())
}

/// Appends the reply to a call of a service, with its result where it was made.
fn put_called(
    out: &mut Vec<u8>,
    order: Order,
    req: u32,
    sub: u8,
    status: &Status,
    valued: &Option<(PvType, PvValue)>,
) -> Result<(), NoMemory>
    requires { CanEach FitsField (reply_fields (replies.rpc req sub status.now (valued_view valued.now))) }
    ensures written { OnOk result (out.new.items ≡ out.old.items ++ canonical order (reply_fields (replies.rpc req sub status.now (valued_view valued.now)))) }
    ensures can { OnOk result (CanEach CanField (reply_fields (replies.rpc req sub status.now (valued_view valued.now)))) }
    ensures begins { OnErr result (Begins out.old.items out.new.items) }
{
    put_reply_head(out, order, req, sub, status)?;
    put_result(out, order, carries(status) && !begins(sub), valued)?;
    Ok(())
}

/// Appends the result of a call, where the message has one.
fn put_result(
    out: &mut Vec<u8>,
    order: Order,
    brings: bool,
    valued: &Option<(PvType, PvValue)>,
) -> Result<(), NoMemory>
    requires { CanEach FitsField (valued_field brings (valued_view valued.now)) }
    ensures written { OnOk result (out.new.items ≡ out.old.items ++ canonical order (valued_field brings (valued_view valued.now))) }
    ensures can { OnOk result (CanEach CanField (valued_field brings (valued_view valued.now))) }
    ensures begins { OnErr result (Begins out.old.items out.new.items) }
{
    if !brings {
        return Ok(());
    }
    put_valued(out, order, valued)?;
    Ok(())
}
