// Groups with their members in the order of their names.
ghost use Rattle.std.specs.Prelude.{◌≡◌, ◌++◌, ◌∷◌, [], IfOk};
ghost use Rattle.std.specs.String.{string_bytes};
ghost use Rattle.group_defs.specs.Groups.{groups_seen};
ghost use Rattle.group_defs.specs.Checking.{listed, listed_group};

use crate::draft::Draft;
use crate::joining::Drafts;
use crate::said::MemberText;
use pvd_type::{Name, NoMemory};
use rec_kinds::Items;
use std::alloc::Global;

/// A member of a group, by its name.
#[derive(Drop)]
pub(crate) struct Member {
    pub name: Name,
    pub text: MemberText,
}

/// A group.
#[derive(Drop)]
pub(crate) struct Group {
    pub name: Name,
    pub id: Name,
    pub atomic: bool,
    pub members: Items<Member>,
}

/// One more group behind these.
fn with_group(
    alloc: Global,
    groups: Vec<Group>,
    name: String,
    draft: Draft,
) -> Result<Vec<Group>, NoMemory>
    ensures { IfOk result (λ more. more.items ≡ groups.items ++ listed_group (string_bytes name, draft) ∷ []) }
{
    let group = draft.into_group(alloc, name.as_str())?;
    let mut more = groups;
    more.push(group)?;
    Ok(more)
}

/// The groups, in the order in which they were first named.
pub(crate) fn listed(alloc: Global, drafts: Drafts) -> Result<Vec<Group>, NoMemory>
    ensures { IfOk result (λ groups. groups.items ≡ listed (groups_seen drafts)) }
{
    let mut groups = Vec::new(alloc);
    for (name, draft) in drafts {
        groups = with_group(alloc, groups, name, draft)?;
    }
    Ok(groups)
}
