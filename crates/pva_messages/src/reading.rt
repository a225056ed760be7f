ghost use Rattle.std.specs.Prelude.{◌≡◌, ◌≤◌, ◌+◌, ℕ, List, drop, length, ◌++◌, IfOk, IfErr, true, None};
ghost use Rattle.std.specs.Ordering.{nat_cmp};
ghost use Rattle.std.specs.FinSet.{FinSet};
ghost use Rattle.std.specs.Option.{option_copied};
ghost use Rattle.pvd_value.specs.Data.{Data};
ghost use Rattle.pvd_value.specs.View.{view};
ghost use Rattle.pvd_value.specs.Fits.{fits_of};
ghost use Rattle.pvd_desc.specs.Types.{Types, laid};
ghost use Rattle.pvd_codec.specs.declared.fault.ValueFault.TheVariants.{NoMemory};
ghost use Rattle.pvd_codec.specs.Grammar.{Part};
ghost use Rattle.pvd_codec.specs.Written.{CanEach};
ghost use Rattle.pvd_codec.specs.Faults.{part_view};
ghost use Rattle.pvd_codec.specs.Reading.{part_at};
ghost use Rattle.pva_messages.specs.Requests.{Request, request_fields};
ghost use Rattle.pva_messages.specs.Replies.{Reply, reply_fields};
ghost use Rattle.pva_messages.specs.Written.{FitsField};
ghost use Rattle.pva_messages.specs.Payloads.{IsRequest, IsReply};
ghost use Rattle.pva_messages.specs.Reading.{request_at, reply_at, names_request, id_of, request_id};
ghost use Rattle.pva_wire.specs.Reading.{number_at};
ghost use Rattle.pva_messages.specs.Rows.{command_of};
ghost use Rattle.pva_messages.specs.Views.{request_view, reply_view};
ghost use Rattle.pva_messages.specs.Faults.{GivesMessage, AnswersMessage, PartWithin};

use crate::command::{Command, command_of};
use crate::fault::MessageFault;
use crate::replies::reply_at;
use crate::requests::request_at;
use crate::to_client::ToClient;
use crate::to_server::ToServer;
use pva_frames::Whole;
use pva_wire::{Order, u32_at};
use pvd_codec::{ValueFault, part_at};
use pvd_desc::{Definitions, Registry};
use pvd_type::{BitSet, PvType};
use pvd_value::PvValue;
use std::alloc::Global;

/// Reads what a client says (pvAccess Protocol Specification, "Application Messages"): the items of the
/// command's row, from the front of the payload; what follows them is ignored. A message of another
/// command is Skipped, and nothing of it is read. The part of a put is left unread, since its type is
/// that of the request; its place is told.
///
/// A fault tells the command and the first item from the left that can't be read, with its place in the
/// payload, or want of memory. What descriptions define goes into the registry; after a fault that is as
/// before.
pub fn read_to_server(
    alloc: Global,
    message: &Whole,
    registry: &mut Registry,
) -> Result<ToServer, MessageFault>
    ensures exact { GivesMessage message.now.command (length message.now.payload) registry.old registry.new request_view result (request_at message.now.order None message.now.command (message.now.payload, registry.old)) }
    ensures found { (front follow : List ℕ) (m : Request) (after : Types) → IsRequest message.now.order None message.now.command registry.old front follow m after → message.now.payload ≡ front ++ follow → AnswersMessage request_view result m }
    ensures spelled { IfOk result (λ m. (front : List ℕ) × (follow : List ℕ) × IsRequest message.now.order None message.now.command registry.old front follow (request_view m) registry.new × (message.now.payload ≡ front ++ follow)) }
    ensures part { IfOk result (λ m. PartWithin (request_view m) (length message.now.payload)) }
    ensures fits { IfOk result (λ m. CanEach FitsField (request_fields (request_view m))) }
{
    read_request(
        alloc,
        message.order,
        message.command,
        message.payload.as_slice(),
        registry,
    )
}

/// Puts what a message has defined into the registry, and hands the message on.
fn settled<M: Drop>(
    command: u8,
    registry: &mut Registry,
    defined: Definitions,
    message: M,
) -> Result<M, MessageFault>
    ensures ok { IfOk result (λ m. (m ≡ message) × (registry.new ≡ laid registry.old defined)) }
    ensures err { IfErr result (λ fault. (fault.command ≡ command) × (fault.cause ≡ NoMemory) × (registry.new ≡ registry.old)) }
{
    let Ok(()) = registry.commit(defined) else {
        return Err(MessageFault {
            command,
            cause: ValueFault::NoMemory,
        });
    };
    Ok(message)
}

/// `read_to_server` over a payload that stands in another buffer, with its order and its command; it
/// answers and fails in the same way.
pub fn read_request(
    alloc: Global,
    order: Order,
    command: u8,
    payload: &[u8],
    registry: &mut Registry,
) -> Result<ToServer, MessageFault>
    ensures exact { GivesMessage command (length payload.now) registry.old registry.new request_view result (request_at order None command (payload.now, registry.old)) }
    ensures found { (front follow : List ℕ) (m : Request) (after : Types) → IsRequest order None command registry.old front follow m after → payload.now ≡ front ++ follow → AnswersMessage request_view result m }
    ensures spelled { IfOk result (λ m. (front : List ℕ) × (follow : List ℕ) × IsRequest order None command registry.old front follow (request_view m) registry.new × (payload.now ≡ front ++ follow)) }
    ensures part { IfOk result (λ m. PartWithin (request_view m) (length payload.now)) }
    ensures fits { IfOk result (λ m. CanEach FitsField (request_fields (request_view m))) }
{
    let mut defined = Definitions::new(alloc);
    match request_at(alloc, order, registry, &mut defined, command, payload) {
        Ok((message, _rest)) => settled(command, registry, defined, message),
        Err(stop) => Err(MessageFault {
            command,
            cause: stop.placed(payload.len()),
        }),
    }
}

/// Reads the part of a put, which `read_to_server` left unread at this place of the payload, under the
/// type of the request (pvAccess Protocol Specification, "Channel put"): the set of its leaves, and a
/// value whose other leaves are blank. `part` is at most the length of the payload. Faults, whose places
/// are counted from the start of the payload, and the registry are as for `read_to_server`.
pub fn read_put_part(
    alloc: Global,
    message: &Whole,
    part: usize,
    registry: &mut Registry,
    ty: &PvType,
) -> Result<(BitSet, PvValue), MessageFault>
    requires { part ≤ length message.now.payload }
    ensures exact { GivesMessage message.now.command (length message.now.payload) registry.old registry.new part_view result (part_at message.now.order ty.now (drop part message.now.payload, registry.old)) }
    ensures found { (front rest : List ℕ) (mask : FinSet nat_cmp) (v : Data) (after : Types) → Part message.now.order registry.old ty.now front mask v after → drop part message.now.payload ≡ front ++ rest → AnswersMessage part_view result (mask, v) }
    ensures spelled { IfOk result (λ x. (front : List ℕ) × (rest : List ℕ) × Part message.now.order registry.old ty.now front x.0 (view x.1) registry.new × (drop part message.now.payload ≡ front ++ rest)) }
    ensures fits { IfOk result (λ x. fits_of 16 (view x.1) ty.now ≡ true) }
{
    read_request_part(
        alloc,
        message.order,
        message.command,
        message.payload.as_slice(),
        part,
        registry,
        ty,
    )
}

/// `read_put_part` over a payload that stands in another buffer, with its order and its command; it
/// answers and fails in the same way.
pub fn read_request_part(
    alloc: Global,
    order: Order,
    command: u8,
    payload: &[u8],
    part: usize,
    registry: &mut Registry,
    ty: &PvType,
) -> Result<(BitSet, PvValue), MessageFault>
    requires { part ≤ length payload.now }
    ensures exact { GivesMessage command (length payload.now) registry.old registry.new part_view result (part_at order ty.now (drop part payload.now, registry.old)) }
    ensures found { (front rest : List ℕ) (mask : FinSet nat_cmp) (v : Data) (after : Types) → Part order registry.old ty.now front mask v after → drop part payload.now ≡ front ++ rest → AnswersMessage part_view result (mask, v) }
    ensures spelled { IfOk result (λ x. (front : List ℕ) × (rest : List ℕ) × Part order registry.old ty.now front x.0 (view x.1) registry.new × (drop part payload.now ≡ front ++ rest)) }
    ensures fits { IfOk result (λ x. fits_of 16 (view x.1) ty.now ≡ true) }
{
    let (_, bytes) = payload.split_at(part);
    read_part(alloc, order, command, payload.len(), bytes, registry, ty)
}

/// Reads a part of a value of a type at the front of the last bytes of a payload of `end` bytes.
fn read_part(
    alloc: Global,
    order: Order,
    command: u8,
    end: usize,
    bytes: &[u8],
    registry: &mut Registry,
    ty: &PvType,
) -> Result<(BitSet, PvValue), MessageFault>
    ensures exact { GivesMessage command end registry.old registry.new part_view result (part_at order ty.now (bytes.now, registry.old)) }
    ensures found { (front rest : List ℕ) (mask : FinSet nat_cmp) (v : Data) (after : Types) → Part order registry.old ty.now front mask v after → bytes.now ≡ front ++ rest → AnswersMessage part_view result (mask, v) }
    ensures spelled { IfOk result (λ x. (front : List ℕ) × (rest : List ℕ) × Part order registry.old ty.now front x.0 (view x.1) registry.new × (bytes.now ≡ front ++ rest)) }
    ensures fits { IfOk result (λ x. fits_of 16 (view x.1) ty.now ≡ true) }
{
    let mut defined = Definitions::new(alloc);
    match part_at(alloc, order, registry, &mut defined, ty, bytes) {
        Ok((mask, value, _rest)) => settled(command, registry, defined, (mask, value)),
        Err(stop) => Err(MessageFault {
            command,
            cause: stop.placed(end),
        }),
    }
}

/// Reads what a server says (pvAccess Protocol Specification, "Application Messages"), as
/// `read_to_server` does what a client says, with the same faults. `known` is the type of the request
/// that the reply names; without it a part, and what follows it, is left unread and is None.
pub fn read_to_client(
    alloc: Global,
    message: &Whole,
    registry: &mut Registry,
    known: Option<&PvType>,
) -> Result<ToClient, MessageFault>
    ensures exact { GivesMessage message.now.command (length message.now.payload) registry.old registry.new reply_view result (reply_at message.now.order (option_copied known.entry) message.now.command (message.now.payload, registry.old)) }
    ensures found { (front follow : List ℕ) (m : Reply) (after : Types) → IsReply message.now.order (option_copied known.entry) message.now.command registry.old front follow m after → message.now.payload ≡ front ++ follow → AnswersMessage reply_view result m }
    ensures spelled { IfOk result (λ m. (front : List ℕ) × (follow : List ℕ) × IsReply message.now.order (option_copied known.entry) message.now.command registry.old front follow (reply_view m) registry.new × (message.now.payload ≡ front ++ follow)) }
    ensures fits { IfOk result (λ m. CanEach FitsField (reply_fields (reply_view m))) }
{
    read_reply(
        alloc,
        message.order,
        message.command,
        message.payload.as_slice(),
        registry,
        known,
    )
}

/// `read_to_client` over a payload that stands in another buffer, with its order and its command; it
/// answers and fails in the same way.
pub fn read_reply(
    alloc: Global,
    order: Order,
    command: u8,
    payload: &[u8],
    registry: &mut Registry,
    known: Option<&PvType>,
) -> Result<ToClient, MessageFault>
    ensures exact { GivesMessage command (length payload.now) registry.old registry.new reply_view result (reply_at order (option_copied known.entry) command (payload.now, registry.old)) }
    ensures found { (front follow : List ℕ) (m : Reply) (after : Types) → IsReply order (option_copied known.entry) command registry.old front follow m after → payload.now ≡ front ++ follow → AnswersMessage reply_view result m }
    ensures spelled { IfOk result (λ m. (front : List ℕ) × (follow : List ℕ) × IsReply order (option_copied known.entry) command registry.old front follow (reply_view m) registry.new × (payload.now ≡ front ++ follow)) }
    ensures fits { IfOk result (λ m. CanEach FitsField (reply_fields (reply_view m))) }
{
    let mut defined = Definitions::new(alloc);
    match reply_at(
        alloc,
        order,
        registry,
        &mut defined,
        known,
        command,
        payload,
    ) {
        Ok((message, _rest)) => settled(command, registry, defined, message),
        Err(stop) => Err(MessageFault {
            command,
            cause: stop.placed(payload.len()),
        }),
    }
}

/// The request id of a reply, by which a client finds the type for `read_to_client`. None exactly where
/// the payload has fewer than four bytes, and for commands whose replies name no request. It takes no
/// memory.
pub fn request_of(message: &Whole) -> Option<u32>
    ensures { result ≡ request_id message.now.order message.now.command message.now.payload }
{
    request_in(message.order, message.command, message.payload.as_slice())
}

/// Whether the replies of this command name a request, in their first item.
fn names_request(command: u8) -> bool
    ensures { result ≡ names_request (command_of command) }
{
    match command_of(command) {
        Some(
            Command::Get
            | Command::Put
            | Command::PutGet
            | Command::Monitor
            | Command::GetField
            | Command::Message
            | Command::Rpc,
        ) => true,
        _ => false,
    }
}

/// `request_of` over a payload that stands in another buffer, with its order and its command; it answers
/// the same.
pub fn request_in(order: Order, command: u8, payload: &[u8]) -> Option<u32>
    ensures { result ≡ request_id order command payload.now }
{
    if names_request(command) {
        return id_at(order, payload);
    }
    None
}

/// The number in the first four bytes, where they are there.
fn id_at(order: Order, bytes: &[u8]) -> Option<u32>
    ensures { result ≡ id_of (number_at order 4 bytes.now) }
{
    match u32_at(order, bytes) {
        Ok((id, _rest)) => Some(id),
        Err(_stop) => None,
    }
}
