ghost use Rattle.std.specs.Prelude.{◌≡◌, IfOk};
ghost use Rattle.json.specs.Value.{value_view, members_view};
ghost use Rattle.group_defs.specs.Told.{Gives};
ghost use Rattle.group_defs.specs.Order.{place_of, by_name, in_order, json_of, groups_of};
ghost use Rattle.group_defs.specs.Shown.{shown_names, shown_places, shown_groups};

use crate::fault::Stop;
use crate::member::is_setting;
use json::{Error, Scratch, Value};
use pvd_type::NoMemory;
use std::alloc::Global;
use std::collections::BTreeMap;

/// The values of an object by the bytes of their keys. Of a key that is doubled the last counts.
fn by_name<'v, 'a>(
    alloc: Global,
    members: &'v Vec<(&'a str, Value<'a>)>,
) -> Result<BTreeMap<&'a str, &'v Value<'a>>, NoMemory>
    ensures { IfOk result (λ found. shown_names found.entries ≡ by_name (members_view members.now.items)) }
{
    let mut found = BTreeMap::new(alloc);
    for member in members {
        found.insert(member.0, &member.1)?;
    }
    Ok(found)
}

/// The place of a key among those that are equal to it, where it has this index among all keys.
fn place_of(key: &str, index: usize) -> usize
    ensures { result ≡ (place_of index key.now).1 }
{
    if is_setting(key) { 0 } else { index }
}

/// The values of a group's object by the bytes of their keys. Of a setting that is doubled the last counts, and a
/// member that is named twice stands twice.
pub(crate) fn in_order<'v, 'a>(
    alloc: Global,
    members: &'v Vec<(&'a str, Value<'a>)>,
) -> Result<BTreeMap<(&'a str, usize), &'v Value<'a>>, NoMemory>
    ensures { IfOk result (λ found. shown_places found.entries ≡ in_order (members_view members.now.items)) }
{
    let mut found = BTreeMap::new(alloc);
    for (index, member) in members.iter().enumerate() {
        let place = place_of(member.0, index);
        found.insert((member.0, place), &member.1)?;
    }
    Ok(found)
}

/// The value that a text is. JSON that nests deeper than 128 levels is refused, and none is read by recursion that a
/// text could drive deeper.
#[tactic(auto, unfolding(crate::specs::Order::json_of))]
pub(crate) fn json_of<'a>(
    alloc: Global,
    text: &'a str,
    scratch: &'a mut Scratch,
) -> Result<Value<'a>, Stop>
    ensures { Gives (λ value. value_view value) result (json_of text.now) }
{
    match Value::parse(alloc, text, scratch) {
        Ok(value) => Ok(value),
        Err(error) => match error {
            Error::Invalid => Err(Stop::BadJson),
            Error::OutOfMemory => Err(Stop::NoMemory),
            Error::TooLong => Err(Stop::NoMemory),
            Error::DuplicateKey => Err(Stop::NoMemory),
        },
    }
}

/// The groups that a value is about, each with the keys of its object.
#[tactic(auto, unfolding(crate::specs::Order::groups_of))]
pub(crate) fn groups_of<'v, 'a>(
    alloc: Global,
    value: &'v Value<'a>,
) -> Result<Vec<(&'a str, &'v Vec<(&'a str, Value<'a>)>)>, Stop>
    ensures { Gives (λ groups. shown_groups groups.items) result (groups_of (value_view value.now)) }
{
    let Value::Object(members) = value else {
        return Err(Stop::BadJson);
    };
    let mut left = by_name(alloc, members)?;
    let mut groups = Vec::new(alloc);
    while let Some((name, group)) = left.pop_first() {
        let Value::Object(keys) = group else {
            return Err(Stop::BadJson);
        };
        groups.push((name, keys))?;
    }
    Ok(groups)
}
