ghost use Rattle.std.specs.Prelude.{length, IfOk};
ghost use Rattle.group_defs.specs.Groups.{Answers};
ghost use Rattle.group_defs.specs.Sound.{AreGroups};
ghost use Rattle.group_defs.specs.Checking.{defined, defined_in_place};

use crate::building::group_defs;
use crate::checking::check;
use crate::def::GroupDef;
use crate::fault::GroupFault;
use crate::joining::join_texts;
use crate::listed::listed;
use rec_kinds::RecText;
use std::alloc::Global;

/// The groups that the records' infos define, joined in place.
#[tactic(auto, unfolding(crate::specs::Checking::defined_in_place))]
fn read_in_place(alloc: Global, texts: &[RecText]) -> Result<Vec<GroupDef>, GroupFault>
    ensures exact { Answers (λ defs. defs.items) result (defined_in_place texts.now) }
    ensures sound { IfOk result (λ defs. AreGroups (length texts.now) defs.items) }
{
    if texts.len() > u32::MAX as usize {
        return Err(GroupFault::NoMemory);
    }
    let drafts = join_texts(alloc, texts)?;
    let found = listed(alloc, drafts)?;
    let groups = found.as_slice();
    check(alloc, texts, groups)?;
    Ok(group_defs(alloc, groups)?)
}

/// The groups that the records' infos `Q:group` define, in the order in which they are first named (QSRV manual,
/// "Group PV definitions"). A record's number is its place among the texts. Each text is JSON once its bare keys are in
/// quotes: the bare words outside of quotes, of letters, digits and `_ + - .`, that a colon follows after spaces and tabs.
///
/// Faults are found in two readings. The first goes by the records, then by the groups' names and the keys of each by
/// their bytes, and finds BadJson at a record, and UnknownKey, BadMember and SameMember in this order at a key. The
/// second goes from group to group, and finds UnknownTrigger, NameTaken and TooMany in this order at each: at most
/// 1,024 groups with at most 256 members each. Of a doubled `+` key or a doubled group name in one object the last
/// counts; JSON that nests deeper than 128 levels is BadJson. Shape comes only from building a group's type.
pub fn read_groups(alloc: Global, texts: &[RecText]) -> Result<Vec<GroupDef>, GroupFault>
    ensures exact { Answers (λ defs. defs.items) result (defined texts.now) }
    ensures sound { IfOk result (λ defs. AreGroups (length texts.now) defs.items) }
{
    read_in_place(alloc, texts)
}
