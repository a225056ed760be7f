// Payloads of replies, written from what stands elsewhere.
ghost use Rattle.std.specs.Prelude.{◌≡◌, ◌<◌, ◌++◌, ◌∷◌, [], true, Some, OnOk, OnErr, option_map};
ghost use Rattle.pvd_value.specs.Fits.{fits_of};
ghost use Rattle.pvd_value.specs.View.{view};
ghost use Rattle.pva_wire.specs.Status.{good, canonical_status, CanStatus};
ghost use Rattle.pvd_codec.specs.Written.{Begins, CanEach};
ghost use Rattle.pva_frames.specs.Spelling.{message_bytes};
ghost use Rattle.pva_messages.specs.Rows.{byte_of};
ghost use Rattle.pva_messages.specs.Fields as field;
ghost use Rattle.pva_messages.specs.Views.{part_of};
ghost use Rattle.pva_messages.specs.Written.{canonical, canonical_valued, CanField, CanValued, FitsField};
ghost use Rattle.pva_messages.specs.declared.command.Command.TheVariants.{Rpc};
ghost use Rattle.srv_session.specs.Replies.{outcome};

use pva_frames::{begin_message, end_message};
use pva_messages::Command;
use pva_wire::{Order, write_size, write_u32};
use pvd_codec::{write_full, write_part};
use pvd_desc::write_desc;
use pvd_type::{BitSet, NoMemory, PvType};
use pvd_value::PvValue;

/// The status OK without texts (pvAccess Protocol Specification, "Status").
const GOOD: u8 = 0xFF;

/// The first byte of the status ERROR.
const ERROR: u8 = 2;

/// The size of a text without bytes.
const EMPTY: u8 = 0;

/// Appends the status ERROR with this text and no call tree.
fn write_error(out: &mut Vec<u8>, order: Order, text: &str) -> Result<(), NoMemory>
    ensures written { OnOk result (out.new.items ≡ out.old.items ++ canonical_status order (outcome (Some text.now))) }
    ensures can { OnOk result (CanStatus (outcome (Some text.now))) }
{
    let Ok(size) = u32::try_from(text.len()) else {
        return Err(NoMemory);
    };
    out.push(ERROR)?;
    write_size(out, order, size)?;
    out.extend_from_slice(text.as_bytes())?;
    out.push(EMPTY)?;
    Ok(())
}

/// Appends how a message went: OK, or ERROR with the text of the problem.
fn write_outcome(out: &mut Vec<u8>, order: Order, problem: Option<&str>) -> Result<(), NoMemory>
    ensures written { OnOk result (out.new.items ≡ out.old.items ++ canonical_status order (outcome (option_map (λ t. t.now) problem.entry))) }
    ensures can { OnOk result (CanStatus (outcome (option_map (λ t. t.now) problem.entry))) }
{
    match problem {
        Some(text) => write_error(out, order, text),
        None => {
            out.push(GOOD)?;
            Ok(())
        }
    }
}

/// Appends the payload that says how a validation went.
pub(crate) fn write_validated(
    out: &mut Vec<u8>,
    order: Order,
    problem: Option<&str>,
) -> Result<(), NoMemory>
    ensures written { OnOk result (out.new.items ≡ out.old.items ++ canonical order (field.status (outcome (option_map (λ t. t.now) problem.entry)) ∷ [])) }
    ensures can { OnOk result (CanEach CanField (field.status (outcome (option_map (λ t. t.now) problem.entry)) ∷ [])) }
{
    write_outcome(out, order, problem)
}

/// Appends the payload that says how the creation of a channel went.
pub(crate) fn write_created(
    out: &mut Vec<u8>,
    order: Order,
    cid: u32,
    sid: u32,
    problem: Option<&str>,
) -> Result<(), NoMemory>
    ensures written { OnOk result (out.new.items ≡ out.old.items ++ canonical order (field.word cid ∷ field.word sid ∷ field.status (outcome (option_map (λ t. t.now) problem.entry)) ∷ [])) }
    ensures can { OnOk result (CanEach CanField (field.word cid ∷ field.word sid ∷ field.status (outcome (option_map (λ t. t.now) problem.entry)) ∷ [])) }
{
    write_u32(out, order, cid)?;
    write_u32(out, order, sid)?;
    write_outcome(out, order, problem)
}

/// Appends the payload that says that a channel has ended.
pub(crate) fn write_destroyed(
    out: &mut Vec<u8>,
    order: Order,
    sid: u32,
    cid: u32,
) -> Result<(), NoMemory>
    ensures written { OnOk result (out.new.items ≡ out.old.items ++ canonical order (field.word sid ∷ field.word cid ∷ [])) }
    ensures can { OnOk result (CanEach CanField (field.word sid ∷ field.word cid ∷ [])) }
{
    write_u32(out, order, sid)?;
    write_u32(out, order, cid)?;
    Ok(())
}

/// Appends the payload that says how a message about a request went, and nothing beside.
pub(crate) fn write_answer(
    out: &mut Vec<u8>,
    order: Order,
    req: u32,
    sub: u8,
    problem: Option<&str>,
) -> Result<(), NoMemory>
    ensures written { OnOk result (out.new.items ≡ out.old.items ++ canonical order (field.word req ∷ field.byte sub ∷ field.status (outcome (option_map (λ t. t.now) problem.entry)) ∷ [])) }
    ensures can { OnOk result (CanEach CanField (field.word req ∷ field.byte sub ∷ field.status (outcome (option_map (λ t. t.now) problem.entry)) ∷ [])) }
{
    write_u32(out, order, req)?;
    out.push(sub)?;
    write_outcome(out, order, problem)
}

/// Appends the payload that says OK to the beginning of a put-get, with the type of its channel as what is put and as what
/// is got.
pub(crate) fn write_both_types(
    out: &mut Vec<u8>,
    order: Order,
    req: u32,
    sub: u8,
    ty: &PvType,
) -> Result<(), NoMemory>
    ensures written { OnOk result (out.new.items ≡ out.old.items ++ canonical order (field.word req ∷ field.byte sub ∷ field.status good ∷ field.description (Some ty.now) ∷ field.description (Some ty.now) ∷ [])) }
    ensures can { OnOk result (CanEach CanField (field.word req ∷ field.byte sub ∷ field.status good ∷ field.description (Some ty.now) ∷ field.description (Some ty.now) ∷ [])) }
{
    put_good_head(out, order, req, sub)?;
    write_desc(out, order, Some(ty))?;
    write_desc(out, order, Some(ty))?;
    Ok(())
}

/// Appends the payload that tells the type of a field.
pub(crate) fn write_field_type(
    out: &mut Vec<u8>,
    order: Order,
    req: u32,
    ty: &PvType,
) -> Result<(), NoMemory>
    ensures written { OnOk result (out.new.items ≡ out.old.items ++ canonical order (field.word req ∷ field.status good ∷ field.description (Some ty.now) ∷ [])) }
    ensures can { OnOk result (CanEach CanField (field.word req ∷ field.status good ∷ field.description (Some ty.now) ∷ [])) }
{
    write_u32(out, order, req)?;
    out.push(GOOD)?;
    write_desc(out, order, Some(ty))?;
    Ok(())
}

/// Appends the payload that says why the type of a field isn't told.
pub(crate) fn write_field_refusal(
    out: &mut Vec<u8>,
    order: Order,
    req: u32,
    text: &str,
) -> Result<(), NoMemory>
    ensures written { OnOk result (out.new.items ≡ out.old.items ++ canonical order (field.word req ∷ field.status (outcome (Some text.now)) ∷ [])) }
    ensures can { OnOk result (CanEach CanField (field.word req ∷ field.status (outcome (Some text.now)) ∷ [])) }
{
    write_u32(out, order, req)?;
    write_error(out, order, text)
}

/// Appends the id of a request, the subcommand and the status OK.
fn put_good_head(out: &mut Vec<u8>, order: Order, req: u32, sub: u8) -> Result<(), NoMemory>
    ensures written { OnOk result (out.new.items ≡ out.old.items ++ canonical order (field.word req ∷ field.byte sub ∷ field.status good ∷ [])) }
    ensures can { OnOk result (CanEach CanField (field.word req ∷ field.byte sub ∷ field.status good ∷ [])) }
    ensures begins { OnErr result (Begins out.old.items out.new.items) }
{
    write_u32(out, order, req)?;
    out.push(sub)?;
    out.push(GOOD)?;
    Ok(())
}

/// Appends the payload that says OK to a message about a request, and brings a part of a value.
fn put_value(
    out: &mut Vec<u8>,
    order: Order,
    req: u32,
    sub: u8,
    ty: &PvType,
    mask: &BitSet,
    value: &PvValue,
) -> Result<(), NoMemory>
    requires { FitsField (field.part (part_of ty.now mask.now value.now)) }
    ensures written { OnOk result (out.new.items ≡ out.old.items ++ canonical order (field.word req ∷ field.byte sub ∷ field.status good ∷ field.part (part_of ty.now mask.now value.now) ∷ [])) }
    ensures can { OnOk result (CanEach CanField (field.word req ∷ field.byte sub ∷ field.status good ∷ field.part (part_of ty.now mask.now value.now) ∷ [])) }
    ensures begins { OnErr result (Begins out.old.items out.new.items) }
{
    // that the type is a checked one is what the proof takes from this
    let _checked = ty.shape();
    put_good_head(out, order, req, sub)?;
    write_part(out, order, ty, mask, value)?;
    Ok(())
}

/// Appends the message that says OK to one about a request, and brings a part of a value.
pub(crate) fn write_value(
    out: &mut Vec<u8>,
    order: Order,
    segment: u32,
    command: Command,
    req: u32,
    sub: u8,
    ty: &PvType,
    mask: &BitSet,
    value: &PvValue,
) -> Result<(), NoMemory>
    requires segment { 0 < segment }
    requires fits { FitsField (field.part (part_of ty.now mask.now value.now)) }
    ensures ok { OnOk result (out.new.items ≡ out.old.items ++ message_bytes order true (byte_of command) (canonical order (field.word req ∷ field.byte sub ∷ field.status good ∷ field.part (part_of ty.now mask.now value.now) ∷ [])) segment) }
    ensures can { OnOk result (CanEach CanField (field.word req ∷ field.byte sub ∷ field.status good ∷ field.part (part_of ty.now mask.now value.now) ∷ [])) }
    ensures err { OnErr result (out.new.items ≡ out.old.items) }
{
    let start = out.len();
    begin_message(out)?;
    match put_value(out, order, req, sub, ty, mask, value) {
        Ok(()) => end_message(out, start, order, true, command.byte(), segment),
        Err(failed) => {
            out.truncate(start);
            Err(failed)
        }
    }
}

/// Appends the payload that says OK to a call, and brings its result.
fn put_result(
    out: &mut Vec<u8>,
    order: Order,
    req: u32,
    sub: u8,
    ty: &PvType,
    value: &PvValue,
) -> Result<(), NoMemory>
    requires { fits_of 16 (view value.now) ty.now ≡ true }
    ensures written { OnOk result (out.new.items ≡ out.old.items ++ canonical order (field.word req ∷ field.byte sub ∷ field.status good ∷ field.valued (Some (ty.now, view value.now)) ∷ [])) }
    ensures can { OnOk result (CanEach CanField (field.word req ∷ field.byte sub ∷ field.status good ∷ field.valued (Some (ty.now, view value.now)) ∷ [])) }
    ensures begins { OnErr result (Begins out.old.items out.new.items) }
{
    put_good_head(out, order, req, sub)?;
    put_valued(out, order, ty, value)?;
    Ok(())
}

/// Appends a type and a value of it.
fn put_valued(out: &mut Vec<u8>, order: Order, ty: &PvType, value: &PvValue) -> Result<(), NoMemory>
    requires { fits_of 16 (view value.now) ty.now ≡ true }
    ensures written { OnOk result (out.new.items ≡ out.old.items ++ canonical_valued order (Some (ty.now, view value.now))) }
    ensures can { OnOk result (CanValued (Some (ty.now, view value.now))) }
    ensures begins { OnErr result (Begins out.old.items out.new.items) }
{
    write_desc(out, order, Some(ty))?;
    write_full(out, order, ty, value)?;
    Ok(())
}

/// Appends the message that says OK to a call, and brings its result.
pub(crate) fn write_result(
    out: &mut Vec<u8>,
    order: Order,
    segment: u32,
    req: u32,
    sub: u8,
    ty: &PvType,
    value: &PvValue,
) -> Result<(), NoMemory>
    requires segment { 0 < segment }
    requires fits { fits_of 16 (view value.now) ty.now ≡ true }
    ensures ok { OnOk result (out.new.items ≡ out.old.items ++ message_bytes order true (byte_of Rpc) (canonical order (field.word req ∷ field.byte sub ∷ field.status good ∷ field.valued (Some (ty.now, view value.now)) ∷ [])) segment) }
    ensures can { OnOk result (CanEach CanField (field.word req ∷ field.byte sub ∷ field.status good ∷ field.valued (Some (ty.now, view value.now)) ∷ [])) }
    ensures err { OnErr result (out.new.items ≡ out.old.items) }
{
    let start = out.len();
    begin_message(out)?;
    match put_result(out, order, req, sub, ty, value) {
        Ok(()) => end_message(out, start, order, true, Command::Rpc.byte(), segment),
        Err(failed) => {
            out.truncate(start);
            Err(failed)
        }
    }
}
