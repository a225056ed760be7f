// Groups of users or of hosts, and groups of rules, by their names.
ghost use Rattle.std.specs.Prelude.{◌≡◌, ◌++◌, ◌∷◌, [], false, IfOk, OnOk};
ghost use Rattle.std.specs.Prelude.{map, string_bytes, option_map};
ghost use Rattle.std.specs.List.{list_any};
ghost use Rattle.acf_rules.specs.Access.{has, holds, admit, named};
ghost use Rattle.acf_rules.specs.Forms.{once};

use crate::names::Names;
use crate::rules::Rule;
use indexmap::{IndexMap, IndexSet};
use pvd_type::{Name, NoMemory};
use std::alloc::Global;
use std::marker::Model;

/// The names, each once.
fn set_of(alloc: Global, names: &[Name]) -> Result<IndexSet<String>, NoMemory>
    ensures { IfOk result (λ set. map string_bytes set.keys ≡ once names.now) }
{
    let mut set: IndexSet<String> = IndexSet::new(alloc);
    for name in names {
        set.insert(String::from_str(alloc, name.as_str())?)?;
    }
    Ok(set)
}

/// Groups of users, or of hosts, by their names. A contract sees each group's name and its members.
#[derive(Drop)]
pub(crate) struct NameGroups {
    by_name: IndexMap<String, IndexSet<String>>,
}

impl Model for NameGroups {
    ghost use Rattle.std.specs.Prelude.{ℕ, List, map, string_bytes};

    ghost Value = { List (List ℕ × List (List ℕ)) };

    ghost view = { λ g. map (λ e. (string_bytes e.0, map string_bytes e.1.keys)) g.by_name.entries };
}

impl NameGroups {
    /// No groups.
    pub(crate) fn new(alloc: Global) -> NameGroups
        ensures { result ≡ [] }
    {
        NameGroups {
            by_name: IndexMap::new(alloc),
        }
    }

    /// Whether a group has this name.
    pub(crate) fn has(&self, name: &str) -> bool
        ensures { result ≡ has name.now self.now }
    {
        self.by_name.contains_key(name)
    }

    /// Whether the group of this name has this member.
    pub(crate) fn holds(&self, group: &str, member: &str) -> bool
        ensures { result ≡ holds self.now member.now group.now }
    {
        match self.by_name.get(group) {
            Some(members) => members.contains(member),
            None => false,
        }
    }

    /// Whether one of these groups has this member.
    fn one_holds(&self, groups: &[Name], member: &str) -> bool
        ensures { result ≡ list_any (holds self.now member.now) groups.now }
    {
        groups
            .iter()
            .any(|group| self.holds(group.as_str(), member))
    }

    /// Whether one of these groups has this member, or there are none of them.
    pub(crate) fn admits(&self, groups: &Names, member: &str) -> bool
        ensures { result ≡ admit self.now member.now groups.now }
    {
        if groups.is_empty() {
            return true;
        }
        self.one_holds(groups.as_slice(), member)
    }

    /// Adds a group of a new name with these members.
    pub(crate) fn insert(
        &mut self,
        alloc: Global,
        name: &str,
        members: &Names,
    ) -> Result<(), NoMemory>
        requires { has name.now self.old ≡ false }
        ensures { OnOk result (self.new ≡ self.old ++ (name.now, once members.now) ∷ []) }
    {
        let name = String::from_str(alloc, name)?;
        let members = set_of(alloc, members.as_slice())?;
        self.by_name.insert(name, members)?;
        Ok(())
    }
}

/// Groups of rules, by their names. A contract sees each group's name and its rules.
#[derive(Drop)]
pub(crate) struct RuleGroups {
    by_name: IndexMap<String, Vec<Rule>>,
}

impl Model for RuleGroups {
    ghost use Rattle.std.specs.Prelude.{ℕ, List, map, string_bytes};
    ghost use Rattle.acf_rules.specs.declared.rules.Rule.{Rule};

    ghost Value = { List (List ℕ × List Rule) };

    ghost view = { λ g. map (λ e. (string_bytes e.0, e.1.items)) g.by_name.entries };
}

impl RuleGroups {
    /// No groups.
    pub(crate) fn new(alloc: Global) -> RuleGroups
        ensures { result ≡ [] }
    {
        RuleGroups {
            by_name: IndexMap::new(alloc),
        }
    }

    /// Whether a group has this name.
    pub(crate) fn has(&self, name: &str) -> bool
        ensures { result ≡ has name.now self.now }
    {
        self.by_name.contains_key(name)
    }

    /// The rules of the group of this name.
    pub(crate) fn get(&self, name: &str) -> Option<&[Rule]>
        ensures { option_map (λ rules. rules.now) result ≡ named name.now self.now }
    {
        match self.by_name.get(name) {
            Some(rules) => Some(rules.as_slice()),
            None => None,
        }
    }

    /// Adds a group of a new name with these rules.
    pub(crate) fn insert(
        &mut self,
        alloc: Global,
        name: &str,
        rules: Vec<Rule>,
    ) -> Result<(), NoMemory>
        requires { has name.now self.old ≡ false }
        ensures { OnOk result (self.new ≡ self.old ++ (name.now, rules.items) ∷ []) }
    {
        let name = String::from_str(alloc, name)?;
        self.by_name.insert(name, rules)?;
        Ok(())
    }
}
