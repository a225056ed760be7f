// The groups of a file.
ghost use Rattle.std.specs.Prelude.{◌≡◌, ◌<◌, ◌≤◌, length, true, IfOk};
ghost use Rattle.acf_rules.specs.Forms.{Gives, group_at, rule_group_at, file_in, file_step, file_at, keyword_in};

use crate::fault::FormStop;
use crate::forms::{bad, braces_at, new_name, opened_at};
use crate::groups::{NameGroups, RuleGroups};
use crate::keywords::{Keyword, keyword_in};
use crate::lists::{members_at, rules_at};
use crate::rules::Rules;
use db_text::Token;
use std::alloc::Global;

/// Adds a group of users or hosts.
#[tactic(auto, unfolding(crate::specs::Forms::group_at))]
fn group_at<'a>(
    alloc: Global,
    groups: &mut NameGroups,
    tokens: &'a [Token],
) -> Result<&'a [Token], FormStop>
    ensures value { Gives (λ x. (groups.new, x.now)) result (group_at groups.old tokens.now) }
    ensures shorter { IfOk result (λ x. length x.now < length tokens.now) }
{
    let (token, rest) = opened_at(tokens)?;
    let name = new_name(alloc, groups.has(token.text.as_str()), token)?;
    let rest = braces_at(rest)?;
    let (members, rest) = members_at(alloc, rest)?;
    groups.insert(alloc, name.as_str(), &members)?;
    Ok(rest)
}

/// Adds a group of rules.
#[tactic(auto, unfolding(crate::specs::Forms::rule_group_at))]
fn rule_group_at<'a>(
    alloc: Global,
    rules: &mut Rules,
    tokens: &'a [Token],
) -> Result<&'a [Token], FormStop>
    ensures value { Gives (λ x. (rules.new.groups, x.now)) result (rule_group_at rules.old tokens.now) }
    ensures users { rules.new.users ≡ rules.old.users }
    ensures hosts { rules.new.hosts ≡ rules.old.hosts }
    ensures shorter { IfOk result (λ x. length x.now < length tokens.now) }
{
    let (token, rest) = opened_at(tokens)?;
    let name = new_name(alloc, rules.groups.has(token.text.as_str()), token)?;
    let rest = braces_at(rest)?;
    let (list, rest) = rules_at(alloc, rules, rest)?;
    rules.groups.insert(alloc, name.as_str(), list)?;
    Ok(rest)
}

/// Adds the group that this token begins.
fn file_in<'a>(
    alloc: Global,
    rules: &mut Rules,
    token: &Token,
    rest: &'a [Token],
) -> Result<(bool, &'a [Token]), FormStop>
    ensures value { Gives (λ x. ((rules.new, x.0), x.1.now)) result
        (file_in rules.old token.now (keyword_in token.now) rest.now) }
    ensures within { IfOk result (λ x. length x.1.now ≤ length rest.now) }
{
    match keyword_in(token) {
        Keyword::Users => {
            let rest = group_at(alloc, &mut rules.users, rest)?;
            Ok((true, rest))
        }
        Keyword::Hosts => {
            let rest = group_at(alloc, &mut rules.hosts, rest)?;
            Ok((true, rest))
        }
        Keyword::Rules => {
            let rest = rule_group_at(alloc, rules, rest)?;
            Ok((true, rest))
        }
        Keyword::Rule => Err(bad(token)),
        Keyword::Unsupported => Err(bad(token)),
        Keyword::Close => Err(bad(token)),
        Keyword::Other => Err(bad(token)),
    }
}

/// Adds the next group of a file, where it hasn't ended. Tells whether it had not.
#[tactic(auto, unfolding(crate::specs::Forms::file_step))]
fn file_step<'a>(
    alloc: Global,
    rules: &mut Rules,
    tokens: &'a [Token],
) -> Result<(bool, &'a [Token]), FormStop>
    ensures value { Gives (λ x. ((rules.new, x.0), x.1.now)) result (file_step rules.old tokens.now) }
    ensures shorter { IfOk result (λ x. x.0 ≡ true → length x.1.now < length tokens.now) }
{
    match tokens {
        [token, rest @ ..] => file_in(alloc, rules, token, rest),
        [] => Ok((false, tokens)),
    }
}

/// The rules of a file of these tokens.
pub(crate) fn file_at(alloc: Global, tokens: &[Token]) -> Result<Rules, FormStop>
    ensures { Gives (λ x. x) result (file_at tokens.now) }
{
    let mut rules = Rules {
        users: NameGroups::new(alloc),
        hosts: NameGroups::new(alloc),
        groups: RuleGroups::new(alloc),
    };
    let mut rest = tokens;
    loop {
        let (more, after) = file_step(alloc, &mut rules, rest)?;
        rest = after;
        if !more {
            return Ok(rules);
        }
    }
}
