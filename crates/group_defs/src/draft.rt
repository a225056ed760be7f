ghost use Rattle.std.specs.Prelude.{◌≡◌, IfOk, OnOk, not, is_some};
ghost use Rattle.std.specs.BTreeMap.{insert_entry, is_at};
ghost use Rattle.std.specs.Map.{lookup};
ghost use Rattle.group_defs.specs.Order.{text_cmp};
ghost use Rattle.group_defs.specs.Joined.{members_seen};
ghost use Rattle.group_defs.specs.Told.{Gives};
ghost use Rattle.group_defs.specs.Joined.{blank};
ghost use Rattle.group_defs.specs.Joining.{joined_with};
ghost use Rattle.group_defs.specs.Checking.{listed_members, listed_group};

use crate::fault::Stop;
use crate::listed::{Group, Member};
use crate::said::{MemberText, Said};
use pvd_type::{Name, NoMemory};
use rec_kinds::Items;
use std::alloc::Global;
use std::collections::BTreeMap;
use std::marker::Model;

/// A group as the texts that were read state it together.
#[derive(Drop)]
pub(crate) struct Draft {
    id: Name,
    atomic: bool,
    members: BTreeMap<String, MemberText>,
}

impl Model for Draft {
    ghost use Rattle.group_defs.specs.Joined.{Joined, members_seen};

    ghost Value = { Joined };

    ghost view = { λ d. record { id = d.id; atomic = d.atomic; members = members_seen d.members.entries } };
}

impl Draft {
    /// A group of which nothing is said yet.
    pub fn new(alloc: Global) -> Result<Draft, NoMemory>
        ensures { IfOk result (λ draft. draft ≡ blank) }
    {
        Ok(Draft {
            id: Name::of(alloc, "")?,
            atomic: true,
            members: BTreeMap::new(alloc),
        })
    }

    /// Joins what a key says.
    #[tactic(auto, using(crate::proofs::Drafts::same_member, crate::proofs::Drafts::new_member))]
    pub fn join(&mut self, alloc: Global, key: &str, said: Said) -> Result<(), Stop>
        ensures { Gives (λ _. self.new) result (joined_with self.old key.now said) }
    {
        match said {
            Said::Id(text) => {
                self.id = text;
                Ok(())
            }
            Said::Atomic(flag) => {
                self.atomic = flag;
                Ok(())
            }
            Said::Member(member) => {
                if !add_member(alloc, &mut self.members, key, member)? {
                    return Err(Stop::SameMember);
                }
                Ok(())
            }
        }
    }

    /// The group of this name.
    pub fn into_group(self, alloc: Global, name: &str) -> Result<Group, NoMemory>
        ensures { IfOk result (λ group. group ≡ listed_group (name.now, self)) }
    {
        let Draft {
            id,
            atomic,
            members,
        } = self;
        Ok(Group {
            name: Name::of(alloc, name)?,
            id,
            atomic,
            members: Items::from_vec(members_in_order(alloc, members)?),
        })
    }
}

/// Adds a member, and says whether its name is new. Where it isn't, the later member takes the place.
fn add_member(
    alloc: Global,
    members: &mut BTreeMap<String, MemberText>,
    key: &str,
    member: MemberText,
) -> Result<bool, NoMemory>
    ensures added { IfOk result (λ added. added
        ≡ not (is_some (lookup (is_at (text_cmp key.now)) (members_seen members.old.entries)))) }
    ensures entries { OnOk result (members_seen members.new.entries
        ≡ insert_entry text_cmp (members_seen members.old.entries) key.now member) }
{
    let name = String::from_str(alloc, key)?;
    let old = members.insert(name, member)?;
    let added = old.is_none();
    Ok(added)
}

/// Members that are popped from a map in the order of their names.
fn members_in_order(
    alloc: Global,
    found: BTreeMap<String, MemberText>,
) -> Result<Vec<Member>, NoMemory>
    ensures { IfOk result (λ members. members.items ≡ listed_members (members_seen found.entries)) }
{
    let mut left = found;
    let mut members = Vec::new(alloc);
    while let Some((name, text)) = left.pop_first() {
        let name = Name::of(alloc, name.as_str())?;
        members.push(Member { name, text })?;
    }
    Ok(members)
}
