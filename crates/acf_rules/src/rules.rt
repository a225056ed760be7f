ghost use Rattle.std.specs.Prelude.{◌≡◌, option_map};
ghost use Rattle.db_text.specs.Macros.{Macros};
ghost use Rattle.acf_rules.specs.Access.{access, granted, guarding, matches, IsGreatest};
ghost use Rattle.acf_rules.specs.Reading.{Reads};

use crate::access::Access;
use crate::fault::AcfFault;
use crate::groups::{NameGroups, RuleGroups};
use crate::names::Names;
use crate::reading::read_rules;
use pvd_type::Name;
use std::alloc::Global;

/// What a rule grants, from which level on, and to whom.
#[derive(Drop)]
pub(crate) struct Rule {
    pub(crate) level: u8,
    pub(crate) access: Access,
    /// Groups of users; where there are none, every user is meant.
    pub(crate) users: Names,
    /// Groups of hosts; where there are none, every host is meant.
    pub(crate) hosts: Names,
}

/// Whom a rule names: groups of users and groups of hosts.
#[derive(Drop)]
pub(crate) struct Who {
    pub(crate) users: Names,
    pub(crate) hosts: Names,
}

/// The rules of an access security file (EPICS IOC Application Developer's Guide, "Access Security").
#[derive(Drop)]
pub struct Rules {
    pub(crate) users: NameGroups,
    pub(crate) hosts: NameGroups,
    pub(crate) groups: RuleGroups,
}

impl Rules {
    /// The rules of a file's text with these macros, of which values hold no line feed; of two values of one macro the
    /// later counts. A file is groups of users `UAG(name) {user, ...}`, of hosts `HAG(name) {host, ...}` and of rules
    /// `ASG(name) { rules }`; a rule is `RULE(level, permission)` with level 0 or 1 and permission `NONE`, `READ` or
    /// `WRITE`, may have a third word `TRAPWRITE` or `NOTRAPWRITE`, which has no effect, and may be followed by
    /// `{ UAG(name, ...) HAG(name, ...) }`, each at most once. Names are bare or quoted. Macros and tokens that are at
    /// fault are told first, then what can't stand where it does, from left to right.
    pub fn read(alloc: Global, text: &str, macros: &[(Name, Name)]) -> Result<Rules, AcfFault>
        ensures exact { Reads macros.now text.now result }
    {
        read_rules(alloc, text, macros)
    }

    /// What a user on a host may do with a channel of this level that rules of this name guard: the greatest permission
    /// of the rules that match, of the group of this name, or of `DEFAULT` where no group has it. It takes no memory
    /// and looks at the rules of one group.
    pub fn allowed(&self, group: &str, level: u8, user: &str, host: &str) -> Access
        ensures exact { result ≡ access self.now group.now level user.now host.now }
        ensures greatest { IsGreatest self.now group.now level user.now host.now result }
    {
        match self.rules_of(group) {
            Some(rules) => self.granted(rules, level, user, host),
            None => Access::Nothing,
        }
    }

    /// The rules of this name, or those of `DEFAULT`.
    fn rules_of(&self, group: &str) -> Option<&[Rule]>
        ensures { option_map (λ rules. rules.now) result ≡ guarding self.now group.now }
    {
        match self.groups.get(group) {
            Some(rules) => Some(rules),
            None => self.groups.get("DEFAULT"),
        }
    }

    /// The greatest permission of these rules that match.
    fn granted(&self, rules: &[Rule], level: u8, user: &str, host: &str) -> Access
        ensures { result ≡ granted self.now level user.now host.now rules.now }
    {
        let mut granted = Access::Nothing;
        for rule in rules {
            if !self.matches(rule, level, user, host) {
                continue;
            }
            granted = granted.greater(rule.access);
        }
        granted
    }

    /// Whether a rule is meant for a channel of this level, this user and this host.
    fn matches(&self, rule: &Rule, level: u8, user: &str, host: &str) -> bool
        ensures { result ≡ matches self.now level user.now host.now rule.now }
    {
        level <= rule.level
            && self.users.admits(&rule.users, user)
            && self.hosts.admits(&rule.hosts, host)
    }
}
