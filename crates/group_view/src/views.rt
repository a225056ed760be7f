// What a group shows.
ghost use Rattle.std.specs.Prelude.{◌≡◌, IfOk};
ghost use Rattle.pvd_value.specs.View.{view, row_view};
ghost use Rattle.group_view.specs.Groups.{HasState};
ghost use Rattle.group_view.specs.Seen.{branch_seen, slots_seen};
ghost use Rattle.group_view.specs.Slots.{EachShown, EachOfShown};
ghost use Rattle.group_view.specs.Views.{slot_shown, slots_shown};

use crate::slots::{Branch, Named};
use pvd_type::NoMemory;
use pvd_value::PvValue;
use rec_kinds::RecState;
use std::alloc::Global;

/// What is shown under a name.
#[cycle(views)]
fn value_of(branch: &Branch, states: &[RecState], alloc: Global) -> Result<PvValue, NoMemory>
    requires { EachShown (λ s. HasState states.now s.link) (branch_seen branch.now) }
    ensures { IfOk result (λ v. view v ≡ slot_shown states.now (branch_seen branch.now)) }
{
    match branch {
        Branch::Shows(source) => source.view(alloc, states),
        Branch::Level(_, slots) => Ok(PvValue::Struct(values_of(slots, states, alloc)?)),
    }
}

/// What slots show.
#[cycle(views)]
pub(crate) fn values_of(
    slots: &[Named],
    states: &[RecState],
    alloc: Global,
) -> Result<Vec<PvValue>, NoMemory>
    requires { EachOfShown (λ s. HasState states.now s.link) (slots_seen slots.now) }
    ensures { IfOk result (λ values. row_view values.items ≡ slots_shown states.now (slots_seen slots.now)) }
{
    let mut values = Vec::with_capacity(alloc, slots.len())?;
    for named in slots {
        values.push(value_of(&named.branch, states, alloc)?)?;
    }
    Ok(values)
}
