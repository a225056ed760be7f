ghost use Rattle.std.specs.Prelude.{◌≡◌, ◌<◌, ◌^◌, codes, length, unwrap_or, IfOk, OnOk};
ghost use Rattle.std.specs.Str.{bytes_eq};
ghost use Rattle.group_defs.specs.Joined.{blank};
ghost use Rattle.json.specs.Value.{value_view, members_view};
ghost use Rattle.group_defs.specs.Told.{Gives};
ghost use Rattle.group_defs.specs.Groups.{groups_seen, FaultsAs, Answers};
ghost use Rattle.group_defs.specs.Shown.{shown_places, shown_groups};
ghost use Rattle.group_defs.specs.Joining.{known, with_group, join_key, join_keys, join_group, join_groups, join_value, join_json, join_text, join_info, join_infos, join_record, join_texts};
ghost use Rattle.group_defs.specs.Statements.{fault_in};

use crate::bare_keys::with_quoted_keys;
use crate::draft::Draft;
use crate::fault::{GroupFault, Stop};
use crate::keys::said_by;
use crate::order::{groups_of, in_order, json_of};
use indexmap::IndexMap;
use json::{Scratch, Value};
use pvd_type::{Name, NoMemory};
use rec_kinds::{Info, RecText};
use std::alloc::Global;
use std::collections::BTreeMap;

/// Groups by their names, in the order in which they were first named.
pub(crate) type Drafts = IndexMap<String, Draft>;

/// Joins what a key says.
fn join_key(
    alloc: Global,
    number: u32,
    key: &str,
    value: &Value<'_>,
    draft: &mut Draft,
) -> Result<(), Stop>
    ensures { Gives (λ _. draft.new) result (join_key number draft.old key.now (value_view value.now)) }
{
    let said = said_by(alloc, number, key, value)?;
    draft.join(alloc, key, said)
}

/// Joins what these keys say.
fn join_keys(
    alloc: Global,
    number: u32,
    keys: BTreeMap<(&str, usize), &Value<'_>>,
    draft: &mut Draft,
) -> Result<(), Stop>
    ensures { Gives (λ _. draft.new) result (join_keys number draft.old (shown_places keys.entry.entries)) }
{
    let mut left = keys;
    while let Some((place, value)) = left.pop_first() {
        join_key(alloc, number, place.0, value, draft)?;
    }
    Ok(())
}

/// A group that a map gave, or one of which nothing is said yet.
fn or_blank(alloc: Global, draft: Option<Draft>) -> Result<Draft, NoMemory>
    ensures { IfOk result (λ known. known ≡ unwrap_or draft blank) }
{
    match draft {
        Some(draft) => Ok(draft),
        None => Draft::new(alloc),
    }
}

/// What is known of the group of this name, out of the map, where a blank group takes its place.
fn take(alloc: Global, groups: &mut Drafts, name: &str) -> Result<Draft, NoMemory>
    ensures value { IfOk result (λ draft. draft ≡ known (groups_seen groups.old) name.now) }
    ensures blank_left { OnOk result (groups_seen groups.new ≡ with_group (groups_seen groups.old) name.now blank) }
{
    let key = String::from_str(alloc, name)?;
    let first = Draft::new(alloc)?;
    let old = groups.insert(key, first)?;
    let draft = or_blank(alloc, old)?;
    Ok(draft)
}

/// Puts a group back in its place.
fn put(alloc: Global, groups: &mut Drafts, name: &str, draft: Draft) -> Result<(), NoMemory>
    ensures { OnOk result (groups_seen groups.new ≡ with_group (groups_seen groups.old) name.now draft) }
{
    let key = String::from_str(alloc, name)?;
    groups.insert(key, draft)?;
    Ok(())
}

/// Joins what an object says of the group of this name.
#[tactic(auto, using(crate::proofs::Joins::in_place, crate::proofs::Joins::in_place_fails))]
fn join_group<'a>(
    alloc: Global,
    number: u32,
    groups: &mut Drafts,
    name: &str,
    members: &Vec<(&'a str, Value<'a>)>,
) -> Result<(), Stop>
    ensures { Gives (λ _. groups_seen groups.new) result
        (join_group number (groups_seen groups.old) (name.now, members_view members.now.items)) }
{
    let keys = in_order(alloc, members)?;
    let mut draft = take(alloc, groups, name)?;
    join_keys(alloc, number, keys, &mut draft)?;
    put(alloc, groups, name, draft)?;
    Ok(())
}

/// Joins what objects say of groups.
fn join_groups<'a>(
    alloc: Global,
    number: u32,
    groups: &mut Drafts,
    objects: &[(&'a str, &Vec<(&'a str, Value<'a>)>)],
) -> Result<(), Stop>
    ensures { Gives (λ _. groups_seen groups.new) result
        (join_groups number (groups_seen groups.old) (shown_groups objects.now)) }
{
    for object in objects {
        join_group(alloc, number, groups, object.0, object.1)?;
    }
    Ok(())
}

/// Joins what a value says.
fn join_value(
    alloc: Global,
    number: u32,
    groups: &mut Drafts,
    value: &Value<'_>,
) -> Result<(), Stop>
    ensures { Gives (λ _. groups_seen groups.new) result (join_value number (groups_seen groups.old) (value_view value.now)) }
{
    let objects = groups_of(alloc, value)?;
    join_groups(alloc, number, groups, &objects)?;
    Ok(())
}

/// Joins what JSON says.
fn join_json(alloc: Global, number: u32, groups: &mut Drafts, text: &str) -> Result<(), Stop>
    ensures { Gives (λ _. groups_seen groups.new) result (join_json number (groups_seen groups.old) text.now) }
{
    let mut scratch = Scratch::new(alloc);
    let value = json_of(alloc, text, &mut scratch)?;
    join_value(alloc, number, groups, &value)?;
    Ok(())
}

/// Joins what a text says once its bare keys are in quotes.
#[tactic(auto, unfolding(crate::specs::Joining::join_text))]
fn join_text(alloc: Global, number: u32, groups: &mut Drafts, text: &str) -> Result<(), Stop>
    ensures { Gives (λ _. groups_seen groups.new) result (join_text number (groups_seen groups.old) text.now) }
{
    let quoted = with_quoted_keys(alloc, text)?;
    join_json(alloc, number, groups, quoted.as_str())?;
    Ok(())
}

/// Whether an info of this name speaks of groups.
fn is_of_groups(name: &str) -> bool
    ensures { result ≡ bytes_eq name.now (codes "Q:group") }
{
    name == "Q:group"
}

/// Joins what an info of a record says.
fn join_info(alloc: Global, number: u32, groups: &mut Drafts, info: &Info) -> Result<(), Stop>
    ensures { Gives (λ _. groups_seen groups.new) result (join_info number (groups_seen groups.old) info.now) }
{
    if is_of_groups(info.name.as_str()) {
        return join_text(alloc, number, groups, info.text.as_str());
    }
    Ok(())
}

/// Joins what the infos of a record say.
fn join_infos(alloc: Global, number: u32, groups: &mut Drafts, infos: &[Info]) -> Result<(), Stop>
    ensures { Gives (λ _. groups_seen groups.new) result (join_infos number (groups_seen groups.old) infos.now) }
{
    for info in infos {
        join_info(alloc, number, groups, info)?;
    }
    Ok(())
}

/// The fault that a record of this name has.
fn fault_in(name: &Name, stop: Stop, alloc: Global) -> GroupFault
    ensures { FaultsAs result (fault_in name.now stop) }
{
    let name = match name.clone_in(alloc) {
        Ok(name) => name,
        Err(_) => return GroupFault::NoMemory,
    };
    match stop {
        Stop::BadJson => GroupFault::BadJson(name),
        Stop::UnknownKey => GroupFault::UnknownKey(name),
        Stop::SameMember => GroupFault::SameMember(name),
        Stop::BadMember => GroupFault::BadMember(name),
        Stop::NoMemory => GroupFault::NoMemory,
    }
}

/// Joins what a record says.
fn join_record(
    alloc: Global,
    number: u32,
    groups: &mut Drafts,
    text: &RecText,
) -> Result<(), GroupFault>
    ensures { Answers (λ _. groups_seen groups.new) result (join_record (groups_seen groups.old) (number, text.now)) }
{
    match join_infos(alloc, number, groups, text.infos.as_slice()) {
        Ok(()) => Ok(()),
        Err(stop) => Err(fault_in(&text.name, stop, alloc)),
    }
}

/// Joins what records say, and keeps the order in which groups are first named.
pub(crate) fn join_texts(alloc: Global, texts: &[RecText]) -> Result<Drafts, GroupFault>
    requires { length texts.now < 2 ^ 32 }
    ensures { Answers (λ groups. groups_seen groups) result (join_texts texts.now) }
{
    let mut groups: Drafts = IndexMap::new(alloc);
    for (number, text) in texts.iter().enumerate() {
        join_record(alloc, number as u32, &mut groups, text)?;
    }
    Ok(groups)
}
