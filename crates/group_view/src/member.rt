// The members of a group.
ghost use Rattle.std.specs.Prelude.{◌≡◌, map, IfOk};
ghost use Rattle.group_view.specs.Groups.{member_of, link_of};
ghost use Rattle.group_view.specs.Seen.{configs_seen};
ghost use Rattle.std.specs.Option.{option_and_then};

use crate::link::Linked;
use group_defs::MemberDef;
use pvd_type::NoMemory;
use rec_kinds::RecConfig;
use std::alloc::Global;
use std::sync::Arc;

/// A member of a group, with the record that it is about; a `structure` may have none.
#[derive(Drop)]
pub(crate) struct Member {
    pub def: MemberDef,
    pub link: Option<Linked>,
}

/// The members of these definitions, over records that are so configured.
pub(crate) fn members_of(
    alloc: Global,
    defs: Vec<MemberDef>,
    configs: &[Arc<RecConfig>],
) -> Result<Vec<Member>, NoMemory>
    ensures { IfOk result (λ members. members.items ≡ map (member_of (configs_seen configs.now)) defs.items) }
{
    let mut members = Vec::with_capacity(alloc, defs.len())?;
    for def in defs {
        let link = link_of(def.rec, configs)?;
        members.push(Member { def, link })?;
    }
    Ok(members)
}

/// The record of this number, if there is one.
fn link_of(rec: Option<u32>, configs: &[Arc<RecConfig>]) -> Result<Option<Linked>, NoMemory>
    ensures { IfOk result (λ link. link ≡ option_and_then (link_of (configs_seen configs.now)) rec) }
{
    let Some(rec) = rec else {
        return Ok(None);
    };
    match configs.get(rec as usize) {
        Some(config) => Ok(Some(Linked::of(rec, config)?)),
        None => Ok(None),
    }
}
