// The tokens that forms are made of.
ghost use Rattle.std.specs.Prelude.{◌≡◌, ◌<◌, ◌≤◌, length, IfOk, IfSome, option_map};
ghost use Rattle.acf_rules.specs.Forms.{Gives, next, is_mark, mark_at, after_mark, word_at, name_at, known_in, untaken, level_in, access_in, trap_at, trap_in, permission_at, opened_at, braces_at, IsUnsupported};
ghost use Rattle.acf_rules.specs.declared.fault.FormStop.TheVariants.{Fault};
ghost use Rattle.acf_rules.specs.declared.fault.AcfFault.TheVariants.{BadForm};

use crate::access::Access;
use crate::fault::{AcfFault, FormStop};
use db_text::{Token, TokenKind};
use pvd_type::Name;
use std::alloc::Global;

/// The stop at a token that can't stand where it does.
pub(crate) fn bad(token: &Token) -> FormStop
    ensures { result ≡ Fault (BadForm token.now.line) }
{
    FormStop::Fault(AcfFault::BadForm(token.line))
}

/// The next token, and those after it.
#[tactic(auto, unfolding(crate::specs::Forms::next))]
pub(crate) fn next(tokens: &[Token]) -> Result<(&Token, &[Token]), FormStop>
    ensures value { Gives (λ x. (x.0.now, x.1.now)) result (next tokens.now) }
    ensures shorter { IfOk result (λ x. length x.1.now < length tokens.now) }
{
    match tokens {
        [token, rest @ ..] => Ok((token, rest)),
        [] => Err(FormStop::Short),
    }
}

/// Whether a token is this mark.
fn is_mark(mark: u8, token: &Token) -> bool
    ensures { result ≡ is_mark mark token.now }
{
    matches!(token.kind, TokenKind::Mark) && token.text.as_str().as_bytes() == [mark].as_slice()
}

/// What follows a mark.
#[tactic(auto, unfolding(crate::specs::Forms::mark_at))]
pub(crate) fn mark_at(mark: u8, tokens: &[Token]) -> Result<&[Token], FormStop>
    ensures value { Gives (λ x. x.now) result (mark_at mark tokens.now) }
    ensures shorter { IfOk result (λ x. length x.now < length tokens.now) }
{
    let (token, rest) = next(tokens)?;
    if is_mark(mark, token) {
        return Ok(rest);
    }
    Err(bad(token))
}

/// What follows a mark that may stand here.
pub(crate) fn after_mark(mark: u8, tokens: &[Token]) -> Option<&[Token]>
    ensures value { option_map (λ x. x.now) result ≡ after_mark mark tokens.now }
    ensures shorter { IfSome result (λ x. length x.now < length tokens.now) }
{
    match tokens {
        [token, rest @ ..] => {
            if is_mark(mark, token) {
                return Some(rest);
            }
            None
        }
        [] => None,
    }
}

/// A bare word.
#[tactic(auto, unfolding(crate::specs::Forms::word_at))]
fn word_at(tokens: &[Token]) -> Result<(&Token, &[Token]), FormStop>
    ensures value { Gives (λ x. (x.0.now, x.1.now)) result (word_at tokens.now) }
    ensures shorter { IfOk result (λ x. length x.1.now < length tokens.now) }
{
    let (token, rest) = next(tokens)?;
    if matches!(token.kind, TokenKind::Bare) {
        return Ok((token, rest));
    }
    Err(bad(token))
}

/// A name, bare or in quotes.
#[tactic(auto, unfolding(crate::specs::Forms::name_at))]
pub(crate) fn name_at(tokens: &[Token]) -> Result<(&Token, &[Token]), FormStop>
    ensures value { Gives (λ x. (x.0.now, x.1.now)) result (name_at tokens.now) }
    ensures shorter { IfOk result (λ x. length x.1.now < length tokens.now) }
{
    let (token, rest) = next(tokens)?;
    if matches!(token.kind, TokenKind::Bare | TokenKind::Quoted) {
        return Ok((token, rest));
    }
    Err(bad(token))
}

/// The name of a group, which must be known.
pub(crate) fn known_name(alloc: Global, known: bool, token: &Token) -> Result<Name, FormStop>
    ensures { Gives (λ name. name) result (known_in known token.now) }
{
    let name = token.text.clone_in(alloc)?;
    if known {
        return Ok(name);
    }
    Err(FormStop::Fault(AcfFault::UnknownName(name, token.line)))
}

/// A group's own name, which must not be taken.
pub(crate) fn new_name(alloc: Global, taken: bool, token: &Token) -> Result<Name, FormStop>
    ensures { Gives (λ name. name) result (untaken taken token.now) }
{
    let name = token.text.clone_in(alloc)?;
    if taken {
        return Err(FormStop::Fault(AcfFault::SameName(name, token.line)));
    }
    Ok(name)
}

/// The stop at a word that isn't supported.
pub(crate) fn unsupported(alloc: Global, token: &Token) -> FormStop
    ensures { IsUnsupported token.now result }
{
    match token.text.clone_in(alloc) {
        Ok(word) => FormStop::Fault(AcfFault::Unsupported(word, token.line)),
        Err(_) => FormStop::Fault(AcfFault::NoMemory),
    }
}

/// A level.
fn level_in(token: &Token) -> Result<u8, FormStop>
    ensures { Gives (λ level. level) result (level_in token.now) }
{
    match token.text.as_str() {
        "0" => Ok(0),
        "1" => Ok(1),
        _ => Err(bad(token)),
    }
}

/// A permission.
fn access_in(token: &Token) -> Result<Access, FormStop>
    ensures { Gives (λ access. access) result (access_in token.now) }
{
    match token.text.as_str() {
        "NONE" => Ok(Access::Nothing),
        "READ" => Ok(Access::Read),
        "WRITE" => Ok(Access::Write),
        _ => Err(bad(token)),
    }
}

/// Tests the third word of a rule.
fn trap_in(token: &Token) -> Result<(), FormStop>
    ensures { Gives (λ u. u) result (trap_in token.now) }
{
    match token.text.as_str() {
        "TRAPWRITE" => Ok(()),
        "NOTRAPWRITE" => Ok(()),
        _ => Err(bad(token)),
    }
}

/// What follows the third word of a rule, where a comma says that it comes.
#[tactic(auto, unfolding(crate::specs::Forms::trap_at))]
fn trap_at(tokens: &[Token]) -> Result<&[Token], FormStop>
    ensures value { Gives (λ x. x.now) result (trap_at tokens.now) }
    ensures within { IfOk result (λ x. length x.now ≤ length tokens.now) }
{
    match after_mark(b',', tokens) {
        None => Ok(tokens),
        Some(rest) => {
            let (token, rest) = word_at(rest)?;
            trap_in(token)?;
            Ok(rest)
        }
    }
}

/// A rule's level and permission, in brackets.
#[tactic(auto, unfolding(crate::specs::Forms::permission_at))]
pub(crate) fn permission_at(tokens: &[Token]) -> Result<((u8, Access), &[Token]), FormStop>
    ensures value { Gives (λ x. (x.0, x.1.now)) result (permission_at tokens.now) }
    ensures shorter { IfOk result (λ x. length x.1.now < length tokens.now) }
{
    let rest = mark_at(b'(', tokens)?;
    let (level, rest) = word_at(rest)?;
    let level = level_in(level)?;
    let rest = mark_at(b',', rest)?;
    let (access, rest) = word_at(rest)?;
    let access = access_in(access)?;
    let rest = trap_at(rest)?;
    let rest = mark_at(b')', rest)?;
    Ok(((level, access), rest))
}

/// A group's own name behind its opening bracket.
#[tactic(auto, unfolding(crate::specs::Forms::opened_at))]
pub(crate) fn opened_at(tokens: &[Token]) -> Result<(&Token, &[Token]), FormStop>
    ensures value { Gives (λ x. (x.0.now, x.1.now)) result (opened_at tokens.now) }
    ensures shorter { IfOk result (λ x. length x.1.now < length tokens.now) }
{
    let rest = mark_at(b'(', tokens)?;
    name_at(rest)
}

/// What follows the bracket that closes a group's name, and the brace that opens what is in it.
#[tactic(auto, unfolding(crate::specs::Forms::braces_at))]
pub(crate) fn braces_at(tokens: &[Token]) -> Result<&[Token], FormStop>
    ensures value { Gives (λ x. x.now) result (braces_at tokens.now) }
    ensures shorter { IfOk result (λ x. length x.now < length tokens.now) }
{
    let rest = mark_at(b')', tokens)?;
    mark_at(b'{', rest)
}
