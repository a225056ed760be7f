// Lists of names, and the rules of a group.
ghost use Rattle.std.specs.Prelude.{◌≡◌, ◌<◌, ◌≤◌, length, IfOk, option_map};
ghost use Rattle.acf_rules.specs.Forms.{Gives, is_known, name_step, names_at, listed, members_at, who_step, nobody, inside_at, who_at, rule_at, rule_step, rules_at};

use crate::fault::FormStop;
use crate::forms::{
    after_mark, bad, known_name, mark_at, name_at, next, permission_at, unsupported,
};
use crate::groups::NameGroups;
use crate::keywords::{Keyword, keyword_in};
use crate::names::Names;
use crate::rules::{Rule, Rules, Who};
use db_text::Token;
use pvd_type::Name;
use std::alloc::Global;

/// Whether a name may stand in a list: that of one of these groups, or any.
fn is_known(known: Option<&NameGroups>, name: &str) -> bool
    ensures { result ≡ is_known known.entry name.now }
{
    match known {
        Some(groups) => groups.has(name),
        None => true,
    }
}

/// Adds the next name of a list. Tells whether a comma says that another follows.
#[tactic(auto, unfolding(crate::specs::Forms::name_step))]
fn name_step<'a>(
    alloc: Global,
    known: Option<&NameGroups>,
    names: &mut Vec<Name>,
    tokens: &'a [Token],
) -> Result<(bool, &'a [Token]), FormStop>
    ensures value { Gives (λ x. ((names.new.items, x.0), x.1.now)) result
        (name_step (is_known known.entry) names.old.items tokens.now) }
    ensures shorter { IfOk result (λ x. length x.1.now < length tokens.now) }
{
    let (token, rest) = name_at(tokens)?;
    let name = known_name(alloc, is_known(known, token.text.as_str()), token)?;
    names.push(name)?;
    match after_mark(b',', rest) {
        Some(more) => Ok((true, more)),
        None => Ok((false, rest)),
    }
}

/// Names with commas between them.
fn names_at<'a>(
    alloc: Global,
    known: Option<&NameGroups>,
    tokens: &'a [Token],
) -> Result<(Names, &'a [Token]), FormStop>
    ensures value { Gives (λ x. (x.0, x.1.now)) result (names_at (is_known known.entry) tokens.now) }
    ensures shorter { IfOk result (λ x. length x.1.now < length tokens.now) }
{
    let mut names: Vec<Name> = Vec::new(alloc);
    let mut rest = tokens;
    loop {
        let (more, after) = name_step(alloc, known, &mut names, rest)?;
        rest = after;
        if !more {
            return Ok((Names::from_vec(names), rest));
        }
    }
}

/// Names of these groups, in brackets.
#[tactic(auto, unfolding(crate::specs::Forms::listed))]
fn listed<'a>(
    alloc: Global,
    groups: &NameGroups,
    tokens: &'a [Token],
) -> Result<(Names, &'a [Token]), FormStop>
    ensures value { Gives (λ x. (x.0, x.1.now)) result (listed groups.now tokens.now) }
    ensures shorter { IfOk result (λ x. length x.1.now < length tokens.now) }
{
    let rest = mark_at(b'(', tokens)?;
    let (names, rest) = names_at(alloc, Some(groups), rest)?;
    let rest = mark_at(b')', rest)?;
    Ok((names, rest))
}

/// The members of a group of users or hosts, up to the closing brace.
#[tactic(auto, unfolding(crate::specs::Forms::members_at))]
pub(crate) fn members_at(alloc: Global, tokens: &[Token]) -> Result<(Names, &[Token]), FormStop>
    ensures value { Gives (λ x. (x.0, x.1.now)) result (members_at tokens.now) }
    ensures shorter { IfOk result (λ x. length x.1.now < length tokens.now) }
{
    let (names, rest) = names_at(alloc, None, tokens)?;
    let rest = mark_at(b'}', rest)?;
    Ok((names, rest))
}

/// Reads a list of groups in a rule's braces, or the closing brace. Tells whether more may follow.
#[tactic(auto, unfolding(crate::specs::Forms::who_step))]
fn who_step<'a>(
    alloc: Global,
    rules: &Rules,
    who: &mut Who,
    tokens: &'a [Token],
) -> Result<(bool, &'a [Token]), FormStop>
    ensures value { Gives (λ x. ((who.new, x.0), x.1.now)) result (who_step rules.now who.old tokens.now) }
    ensures shorter { IfOk result (λ x. length x.1.now < length tokens.now) }
{
    let (token, rest) = next(tokens)?;
    match keyword_in(token) {
        Keyword::Users => {
            if !who.users.is_empty() {
                return Err(bad(token));
            }
            let (names, rest) = listed(alloc, &rules.users, rest)?;
            who.users = names;
            Ok((true, rest))
        }
        Keyword::Hosts => {
            if !who.hosts.is_empty() {
                return Err(bad(token));
            }
            let (names, rest) = listed(alloc, &rules.hosts, rest)?;
            who.hosts = names;
            Ok((true, rest))
        }
        Keyword::Close => Ok((false, rest)),
        Keyword::Unsupported => Err(unsupported(alloc, token)),
        Keyword::Rules => Err(bad(token)),
        Keyword::Rule => Err(bad(token)),
        Keyword::Other => Err(bad(token)),
    }
}

/// No groups.
fn nobody(alloc: Global) -> Who
    ensures { result ≡ nobody }
{
    Who {
        users: Names::from_vec(Vec::new(alloc)),
        hosts: Names::from_vec(Vec::new(alloc)),
    }
}

/// The groups that a rule's braces name, up to the closing one.
fn inside_at<'a>(
    alloc: Global,
    rules: &Rules,
    tokens: &'a [Token],
) -> Result<(Who, &'a [Token]), FormStop>
    ensures value { Gives (λ x. (x.0, x.1.now)) result (inside_at rules.now tokens.now) }
    ensures shorter { IfOk result (λ x. length x.1.now < length tokens.now) }
{
    let mut who = nobody(alloc);
    let mut rest = tokens;
    loop {
        let (more, after) = who_step(alloc, rules, &mut who, rest)?;
        rest = after;
        if !more {
            return Ok((who, rest));
        }
    }
}

/// Whom a rule names in its braces, where they follow it.
#[tactic(auto, unfolding(crate::specs::Forms::who_at))]
fn who_at<'a>(
    alloc: Global,
    rules: &Rules,
    tokens: &'a [Token],
) -> Result<(Who, &'a [Token]), FormStop>
    ensures value { Gives (λ x. (x.0, x.1.now)) result (who_at rules.now tokens.now) }
    ensures within { IfOk result (λ x. length x.1.now ≤ length tokens.now) }
{
    match after_mark(b'{', tokens) {
        Some(rest) => inside_at(alloc, rules, rest),
        None => Ok((nobody(alloc), tokens)),
    }
}

/// A rule behind its word.
#[tactic(auto, unfolding(crate::specs::Forms::rule_at))]
fn rule_at<'a>(
    alloc: Global,
    rules: &Rules,
    tokens: &'a [Token],
) -> Result<(Rule, &'a [Token]), FormStop>
    ensures value { Gives (λ x. (x.0, x.1.now)) result (rule_at rules.now tokens.now) }
    ensures shorter { IfOk result (λ x. length x.1.now < length tokens.now) }
{
    let ((level, access), rest) = permission_at(tokens)?;
    let (who, rest) = who_at(alloc, rules, rest)?;
    let rule = Rule {
        level,
        access,
        users: who.users,
        hosts: who.hosts,
    };
    Ok((rule, rest))
}

/// Adds the next rule of a group, or reads the closing brace. Tells whether more may follow.
#[tactic(auto, unfolding(crate::specs::Forms::rule_step))]
fn rule_step<'a>(
    alloc: Global,
    rules: &Rules,
    list: &mut Vec<Rule>,
    tokens: &'a [Token],
) -> Result<(bool, &'a [Token]), FormStop>
    ensures value { Gives (λ x. ((list.new.items, x.0), x.1.now)) result
        (rule_step rules.now list.old.items tokens.now) }
    ensures shorter { IfOk result (λ x. length x.1.now < length tokens.now) }
{
    let (token, rest) = next(tokens)?;
    match keyword_in(token) {
        Keyword::Rule => {
            let (rule, rest) = rule_at(alloc, rules, rest)?;
            list.push(rule)?;
            Ok((true, rest))
        }
        Keyword::Close => Ok((false, rest)),
        Keyword::Unsupported => Err(unsupported(alloc, token)),
        Keyword::Users => Err(bad(token)),
        Keyword::Hosts => Err(bad(token)),
        Keyword::Rules => Err(bad(token)),
        Keyword::Other => Err(bad(token)),
    }
}

/// The rules of a group, up to the closing brace.
pub(crate) fn rules_at<'a>(
    alloc: Global,
    rules: &Rules,
    tokens: &'a [Token],
) -> Result<(Vec<Rule>, &'a [Token]), FormStop>
    ensures value { Gives (λ x. (x.0.items, x.1.now)) result (rules_at rules.now tokens.now) }
    ensures shorter { IfOk result (λ x. length x.1.now < length tokens.now) }
{
    let mut list: Vec<Rule> = Vec::new(alloc);
    let mut rest = tokens;
    loop {
        let (more, after) = rule_step(alloc, rules, &mut list, rest)?;
        rest = after;
        if !more {
            return Ok((list, rest));
        }
    }
}
