ghost use Rattle.json.specs.Value.{value_view};
ghost use Rattle.group_defs.specs.Told.{Gives};
ghost use Rattle.group_defs.specs.Keys.{id_of, flag_of, setting_of, said_by};

use crate::fault::Stop;
use crate::member::{is_setting, member_of};
use crate::said::Said;
use json::Value;
use pvd_type::Name;
use std::alloc::Global;

/// What the id of a group says.
fn id_of(alloc: Global, value: &Value<'_>) -> Result<Said, Stop>
    ensures { Gives (λ said. said) result (id_of (value_view value.now)) }
{
    let Some(text) = value.as_str() else {
        return Err(Stop::BadMember);
    };
    Ok(Said::Id(Name::of(alloc, text)?))
}

/// What the flag says that tells whether a group is atomic.
fn flag_of(value: &Value<'_>) -> Result<Said, Stop>
    ensures { Gives (λ said. said) result (flag_of (value_view value.now)) }
{
    match value.as_bool() {
        Some(flag) => Ok(Said::Atomic(flag)),
        None => Err(Stop::BadMember),
    }
}

/// What a setting of a group says.
fn setting_of(alloc: Global, key: &str, value: &Value<'_>) -> Result<Said, Stop>
    ensures { Gives (λ said. said) result (setting_of key.now (value_view value.now)) }
{
    if key == "+id" {
        return id_of(alloc, value);
    }
    if key == "+atomic" {
        return flag_of(value);
    }
    Err(Stop::UnknownKey)
}

/// What a key of a group's object says, in a text of the record with this number.
#[tactic(auto, unfolding(crate::specs::Keys::said_by))]
pub(crate) fn said_by(
    alloc: Global,
    number: u32,
    key: &str,
    value: &Value<'_>,
) -> Result<Said, Stop>
    ensures { Gives (λ said. said) result (said_by number key.now (value_view value.now)) }
{
    if is_setting(key) {
        return setting_of(alloc, key, value);
    }
    Ok(Said::Member(member_of(alloc, number, key, value)?))
}
