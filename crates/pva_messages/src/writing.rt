ghost use Rattle.std.specs.Prelude.{◌≡◌, ◌≤◌, ◌++◌, ◌∷◌, [], length, true, OnOk, OnErr};
ghost use Rattle.std.specs.List.{flat_map};
ghost use Rattle.std.specs.Option.{option_copied};
ghost use Rattle.pvd_codec.specs.Written.{Begins, CanEach};
ghost use Rattle.pva_wire.specs.Spelling.{IsSize, IsText, canonical_size, canonical_text};
ghost use Rattle.pva_messages.specs.Fields as field;
ghost use Rattle.pva_messages.specs.Written.{canonical, canonical_channel, canonical_field, canonical_valued, CanChannel, CanValued, CanField, FitsValued, FitsField};
ghost use Rattle.pva_messages.specs.Views.{valued_view, part_of, part_view, update_view};
ghost use Rattle.pva_messages.specs.Replies.{type_field, part_field, update_field};

use crate::part::Part;
use pva_wire::{
    Order, Status, write_bits, write_size, write_status, write_text, write_u16, write_u32,
};
use pvd_codec::{write_full, write_part};
use pvd_desc::write_desc;
use pvd_type::{BitSet, Name, NoMemory, PvType};
use pvd_value::PvValue;

// Each function appends the one spelling of an item. After a refusal a part of it may stand behind what `out` held.

/// Two ids.
pub(crate) fn put_ids(
    out: &mut Vec<u8>,
    order: Order,
    first: u32,
    second: u32,
) -> Result<(), NoMemory>
    ensures written { OnOk result (out.new.items ≡ out.old.items ++ canonical order (field.word first ∷ field.word second ∷ [])) }
    ensures can { OnOk result (CanEach CanField (field.word first ∷ field.word second ∷ [])) }
    ensures begins { OnErr result (Begins out.old.items out.new.items) }
{
    write_u32(out, order, first)?;
    write_u32(out, order, second)?;
    Ok(())
}

/// The ids of a channel and a request, and the subcommand.
pub(crate) fn put_request_head(
    out: &mut Vec<u8>,
    order: Order,
    sid: u32,
    req: u32,
    sub: u8,
) -> Result<(), NoMemory>
    ensures written { OnOk result (out.new.items ≡ out.old.items ++ canonical order (field.word sid ∷ field.word req ∷ field.byte sub ∷ [])) }
    ensures can { OnOk result (CanEach CanField (field.word sid ∷ field.word req ∷ field.byte sub ∷ [])) }
    ensures begins { OnErr result (Begins out.old.items out.new.items) }
{
    write_u32(out, order, sid)?;
    write_u32(out, order, req)?;
    out.push(sub)?;
    Ok(())
}

/// The bytes that end a message.
pub(crate) fn put_rest(out: &mut Vec<u8>, order: Order, bytes: &[u8]) -> Result<(), NoMemory>
    ensures written { OnOk result (out.new.items ≡ out.old.items ++ canonical order (field.rest bytes.now ∷ [])) }
    ensures can { OnOk result (CanEach CanField (field.rest bytes.now ∷ [])) }
    ensures begins { OnErr result (Begins out.old.items out.new.items) }
{
    out.extend_from_slice(bytes)?;
    Ok(())
}

/// A count of texts, and the texts.
pub(crate) fn put_texts(out: &mut Vec<u8>, order: Order, texts: &[Name]) -> Result<(), NoMemory>
    ensures written { OnOk result (out.new.items ≡ out.old.items ++ canonical_field order (field.texts texts.now)) }
    ensures can { OnOk result (CanField (field.texts texts.now)) }
    ensures begins { OnErr result (Begins out.old.items out.new.items) }
{
    let Ok(count) = u32::try_from(texts.len()) else {
        return Err(NoMemory);
    };
    write_size(out, order, count)?;
    put_each_text(out, order, texts)?;
    Ok(())
}

fn put_each_text(out: &mut Vec<u8>, order: Order, texts: &[Name]) -> Result<(), NoMemory>
    ensures written { OnOk result (out.new.items ≡ out.old.items ++ flat_map (canonical_text order) texts.now) }
    ensures can { OnOk result (CanEach IsText texts.now) }
    ensures begins { OnErr result (Begins out.old.items out.new.items) }
{
    for text in texts {
        write_text(out, order, text)?;
    }
    Ok(())
}

/// A count of two bytes, and channels.
pub(crate) fn put_channels(
    out: &mut Vec<u8>,
    order: Order,
    channels: &[(u32, Name)],
) -> Result<(), NoMemory>
    requires { length channels.now ≤ 65535 }
    ensures written { OnOk result (out.new.items ≡ out.old.items ++ canonical_field order (field.channels channels.now)) }
    ensures can { OnOk result (CanField (field.channels channels.now)) }
    ensures begins { OnErr result (Begins out.old.items out.new.items) }
{
    write_u16(out, order, channels.len() as u16)?;
    put_each_channel(out, order, channels)?;
    Ok(())
}

fn put_each_channel(
    out: &mut Vec<u8>,
    order: Order,
    channels: &[(u32, Name)],
) -> Result<(), NoMemory>
    ensures written { OnOk result (out.new.items ≡ out.old.items ++ flat_map (canonical_channel order) channels.now) }
    ensures can { OnOk result (CanEach CanChannel channels.now) }
    ensures begins { OnErr result (Begins out.old.items out.new.items) }
{
    for channel in channels {
        put_channel(out, order, channel)?;
    }
    Ok(())
}

fn put_channel(out: &mut Vec<u8>, order: Order, channel: &(u32, Name)) -> Result<(), NoMemory>
    ensures written { OnOk result (out.new.items ≡ out.old.items ++ canonical_channel order channel.now) }
    ensures can { OnOk result (CanChannel channel.now) }
    ensures begins { OnErr result (Begins out.old.items out.new.items) }
{
    write_u32(out, order, channel.0)?;
    write_text(out, order, &channel.1)?;
    Ok(())
}

/// A description and a value, or null.
pub(crate) fn put_valued(
    out: &mut Vec<u8>,
    order: Order,
    valued: &Option<(PvType, PvValue)>,
) -> Result<(), NoMemory>
    requires { FitsValued (valued_view valued.now) }
    ensures written { OnOk result (out.new.items ≡ out.old.items ++ canonical_valued order (valued_view valued.now)) }
    ensures can { OnOk result (CanValued (valued_view valued.now)) }
    ensures begins { OnErr result (Begins out.old.items out.new.items) }
{
    let Some((ty, value)) = valued else {
        write_desc(out, order, None)?;
        return Ok(());
    };
    write_desc(out, order, Some(ty))?;
    write_full(out, order, ty, value)?;
    Ok(())
}

/// A part of a value: the marked leaves.
pub(crate) fn put_part(
    out: &mut Vec<u8>,
    order: Order,
    ty: &PvType,
    mask: &BitSet,
    value: &PvValue,
) -> Result<(), NoMemory>
    requires { FitsField (field.part (part_of ty.now mask.now value.now)) }
    ensures written { OnOk result (out.new.items ≡ out.old.items ++ canonical_field order (field.part (part_of ty.now mask.now value.now))) }
    ensures can { OnOk result (CanField (field.part (part_of ty.now mask.now value.now))) }
    ensures begins { OnErr result (Begins out.old.items out.new.items) }
{
    // that the type is a checked one is what the proof takes from this
    let _checked = ty.shape();
    write_part(out, order, ty, mask, value)
}

/// The id of a request, a kind and a text.
pub(crate) fn put_text_message(
    out: &mut Vec<u8>,
    order: Order,
    req: u32,
    kind: u8,
    text: &Name,
) -> Result<(), NoMemory>
    ensures written { OnOk result (out.new.items ≡ out.old.items ++ canonical order (field.word req ∷ field.byte kind ∷ field.text text.now ∷ [])) }
    ensures can { OnOk result (CanEach CanField (field.word req ∷ field.byte kind ∷ field.text text.now ∷ [])) }
    ensures begins { OnErr result (Begins out.old.items out.new.items) }
{
    write_u32(out, order, req)?;
    out.push(kind)?;
    write_text(out, order, text)?;
    Ok(())
}

/// The id of a request, the subcommand and a status.
pub(crate) fn put_reply_head(
    out: &mut Vec<u8>,
    order: Order,
    req: u32,
    sub: u8,
    status: &Status,
) -> Result<(), NoMemory>
    ensures written { OnOk result (out.new.items ≡ out.old.items ++ canonical order (field.word req ∷ field.byte sub ∷ field.status status.now ∷ [])) }
    ensures can { OnOk result (CanEach CanField (field.word req ∷ field.byte sub ∷ field.status status.now ∷ [])) }
    ensures begins { OnErr result (Begins out.old.items out.new.items) }
{
    write_u32(out, order, req)?;
    out.push(sub)?;
    write_status(out, order, status)?;
    Ok(())
}

/// A description, where the message has one.
pub(crate) fn put_type(
    out: &mut Vec<u8>,
    order: Order,
    brings: bool,
    ty: &Option<PvType>,
) -> Result<(), NoMemory>
    ensures written { OnOk result (out.new.items ≡ out.old.items ++ canonical order (type_field brings ty.now)) }
    ensures can { OnOk result (CanEach CanField (type_field brings ty.now)) }
    ensures begins { OnErr result (Begins out.old.items out.new.items) }
{
    if !brings {
        return Ok(());
    }
    write_desc(out, order, ty.as_ref())?;
    Ok(())
}

/// A part, where there is one.
pub(crate) fn put_any_part(
    out: &mut Vec<u8>,
    order: Order,
    part: &Option<Part>,
) -> Result<(), NoMemory>
    requires { CanEach FitsField (part_field (part_view part.now)) }
    ensures written { OnOk result (out.new.items ≡ out.old.items ++ canonical order (part_field (part_view part.now))) }
    ensures can { OnOk result (CanEach CanField (part_field (part_view part.now))) }
    ensures begins { OnErr result (Begins out.old.items out.new.items) }
{
    let Some(part) = part else {
        return Ok(());
    };
    put_part(out, order, &part.ty, &part.mask, &part.value)?;
    Ok(())
}

/// What changed, and what did so more than once, where it is there.
pub(crate) fn put_update(
    out: &mut Vec<u8>,
    order: Order,
    update: &Option<(Part, BitSet)>,
) -> Result<(), NoMemory>
    requires { CanEach FitsField (update_field (update_view update.now)) }
    ensures written { OnOk result (out.new.items ≡ out.old.items ++ canonical order (update_field (update_view update.now))) }
    ensures can { OnOk result (CanEach CanField (update_field (update_view update.now))) }
    ensures begins { OnErr result (Begins out.old.items out.new.items) }
{
    let Some((part, overrun)) = update else {
        return Ok(());
    };
    put_part(out, order, &part.ty, &part.mask, &part.value)?;
    write_bits(out, order, overrun)?;
    Ok(())
}
