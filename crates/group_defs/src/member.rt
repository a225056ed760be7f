ghost use Rattle.std.specs.Prelude.{◌≡◌, IfOk, Some, None, option_map};
ghost use Rattle.std.specs.List.{list_any};
ghost use Rattle.json.specs.Strict.{keys};
ghost use Rattle.json.specs.Value.{value_view, members_view};
ghost use Rattle.group_defs.specs.Told.{Gives};
ghost use Rattle.group_defs.specs.Members.{is_setting, is_unknown, text_at, kind_named, kind_at, whole, order_at, channel_fits, record_of, member_text, settled, member_of};

use crate::def::MemberKind;
use crate::fault::Stop;
use crate::names::name_fits;
use crate::said::MemberText;
use json::Value;
use pvd_type::{Name, NoMemory};
use std::alloc::Global;

/// Whether a key stands for a setting, and not for a member's name.
pub(crate) fn is_setting(key: &str) -> bool
    ensures { result ≡ is_setting key.now }
{
    key.as_bytes().starts_with(b"+")
}

/// Whether a key would be a setting, and is none of a member's.
fn is_unknown(key: &str) -> bool
    ensures { result ≡ is_unknown key.now }
{
    if !is_setting(key) {
        return false;
    }
    !(key == "+type"
        || key == "+channel"
        || key == "+id"
        || key == "+trigger"
        || key == "+putorder")
}

/// Whether a member's object has an unknown setting.
fn has_unknown(members: &Vec<(&str, Value<'_>)>) -> bool
    ensures { result ≡ list_any is_unknown (keys (members_view members.now.items)) }
{
    for member in members {
        if is_unknown(member.0) {
            return true;
        }
    }
    false
}

/// The text at a key, if the key is there.
#[tactic(auto, unfolding(crate::specs::Members::text_at))]
fn text_at<'a>(value: &Value<'a>, key: &str) -> Result<Option<&'a str>, Stop>
    ensures { Gives (λ text. option_map (λ s. s.now) text) result (text_at key.now (value_view value.now)) }
{
    let Some(found) = value.get(key) else {
        return Ok(None);
    };
    match found.as_str() {
        Some(text) => Ok(Some(text)),
        None => Err(Stop::BadMember),
    }
}

/// The kind of this name.
fn kind_named(text: &str) -> Option<MemberKind>
    ensures { result ≡ kind_named text.now }
{
    if text == "scalar" {
        return Some(MemberKind::Whole);
    }
    if text == "plain" {
        return Some(MemberKind::Plain);
    }
    if text == "any" {
        return Some(MemberKind::Any);
    }
    if text == "meta" {
        return Some(MemberKind::Meta);
    }
    if text == "proc" {
        return Some(MemberKind::Proc);
    }
    if text == "structure" {
        return Some(MemberKind::Structure);
    }
    None
}

/// The kind of a member.
#[tactic(auto, unfolding(crate::specs::Members::kind_at))]
fn kind_at(value: &Value<'_>) -> Result<MemberKind, Stop>
    ensures { Gives (λ kind. kind) result (kind_at (value_view value.now)) }
{
    let Some(text) = text_at(value, "+type")? else {
        return Ok(MemberKind::Whole);
    };
    match kind_named(text) {
        Some(kind) => Ok(kind),
        None => Err(Stop::BadMember),
    }
}

/// The number of 32 bits that a JSON number writes, where it has neither a fraction nor an exponent.
fn whole(text: &str) -> Option<i32>
    ensures { result ≡ whole text.now }
{
    text.parse::<i32>().ok()
}

/// The put order of a member.
#[tactic(auto, unfolding(crate::specs::Members::order_at))]
fn order_at(value: &Value<'_>) -> Result<Option<i32>, Stop>
    ensures { Gives (λ order. order) result (order_at (value_view value.now)) }
{
    let Some(found) = value.get("+putorder") else {
        return Ok(None);
    };
    let Some(text) = found.as_number() else {
        return Err(Stop::BadMember);
    };
    match whole(text) {
        Some(order) => Ok(Some(order)),
        None => Err(Stop::BadMember),
    }
}

/// Whether a member of this kind may have this channel.
fn field_fits(kind: MemberKind, field: &str) -> bool
    ensures { result ≡ channel_fits kind (Some field.now) }
{
    match kind {
        MemberKind::Proc => true,
        MemberKind::Whole => field == "VAL",
        MemberKind::Plain => field == "VAL",
        MemberKind::Any => field == "VAL",
        MemberKind::Meta => field == "VAL",
        MemberKind::Structure => field == "VAL",
    }
}

/// Whether a member of this kind may have no channel.
fn may_lack(kind: MemberKind) -> bool
    ensures { result ≡ channel_fits kind None }
{
    match kind {
        MemberKind::Structure => true,
        MemberKind::Whole => false,
        MemberKind::Plain => false,
        MemberKind::Any => false,
        MemberKind::Meta => false,
        MemberKind::Proc => false,
    }
}

/// Whether a member of this kind may have this channel, or none.
fn channel_fits(kind: MemberKind, channel: Option<&str>) -> bool
    ensures { result ≡ channel_fits kind (option_map (λ s. s.now) channel.entry) }
{
    match channel {
        Some(field) => field_fits(kind, field),
        None => may_lack(kind),
    }
}

/// The record that a member of this kind shows or processes.
fn record_of(kind: MemberKind, number: u32) -> Option<u32>
    ensures { result ≡ record_of kind number }
{
    match kind {
        MemberKind::Structure => None,
        MemberKind::Whole
        | MemberKind::Plain
        | MemberKind::Any
        | MemberKind::Meta
        | MemberKind::Proc => Some(number),
    }
}

/// A name that a text gives, if there is one.
fn name_given(alloc: Global, text: Option<&str>) -> Result<Option<Name>, NoMemory>
    ensures { IfOk result (λ name. name ≡ option_map (λ s. s.now) text.entry) }
{
    match text {
        Some(text) => Ok(Some(Name::of(alloc, text)?)),
        None => Ok(None),
    }
}

/// A member with these settings.
fn member_text(
    alloc: Global,
    kind: MemberKind,
    number: u32,
    id: Option<&str>,
    order: Option<i32>,
    trigger: Option<&str>,
) -> Result<MemberText, NoMemory>
    ensures { IfOk result (λ m. m ≡ member_text kind number
        (option_map (λ s. s.now) id.entry) order (option_map (λ s. s.now) trigger.entry)) }
{
    let id = match id {
        Some(text) => Name::of(alloc, text)?,
        None => Name::of(alloc, "")?,
    };
    let trigger = name_given(alloc, trigger)?;
    Ok(MemberText {
        kind,
        rec: record_of(kind, number),
        id,
        order,
        trigger,
    })
}

/// The member of this name that an object's settings state.
#[tactic(auto, unfolding(crate::specs::Members::settled))]
fn settled(alloc: Global, number: u32, name: &str, value: &Value<'_>) -> Result<MemberText, Stop>
    ensures { Gives (λ m. m) result (settled number name.now (value_view value.now)) }
{
    let kind = kind_at(value)?;
    let channel = text_at(value, "+channel")?;
    let id = text_at(value, "+id")?;
    let trigger = text_at(value, "+trigger")?;
    let order = order_at(value)?;
    if !channel_fits(kind, channel) {
        return Err(Stop::BadMember);
    }
    if !name_fits(kind, name) {
        return Err(Stop::BadMember);
    }
    Ok(member_text(alloc, kind, number, id, order, trigger)?)
}

/// The member of this name that a value states, in a text of the record with this number.
#[tactic(auto, unfolding(crate::specs::Members::member_of))]
pub(crate) fn member_of(
    alloc: Global,
    number: u32,
    name: &str,
    value: &Value<'_>,
) -> Result<MemberText, Stop>
    ensures { Gives (λ m. m) result (member_of number name.now (value_view value.now)) }
{
    let Value::Object(members) = value else {
        return Err(Stop::BadMember);
    };
    if has_unknown(members) {
        return Err(Stop::UnknownKey);
    }
    settled(alloc, number, name, value)
}
