ghost use Rattle.std.specs.Prelude.{◌≡◌, ◌<◌, ◌≤◌, ◌&&◌, [], ◌∷◌, length, IfOk, Ok};
ghost use Rattle.std.specs.Str.{bytes_eq};
ghost use Rattle.db_text.specs.Grammar.{is_sign, is_name};
ghost use Rattle.db_load.specs.Forms.{Gives, next, mark_at, word_at, value_at, told_at, known_at, field_of, field_at, info_of, info_at, begin_at, kind_in};
ghost use Rattle.rec_kinds.specs.Kinds.{kind_of};

use crate::fault::{FormStop, LoadFault};
use db_text::{Token, TokenKind};
use pvd_type::NoMemory;
use rec_kinds::{FieldText, Info, Kind, field_known, kind_named};
use std::alloc::Global;

/// The next token, and those after it.
#[tactic(auto, unfolding(crate::specs::Forms::next))]
pub fn next(tokens: &[Token]) -> Result<(&Token, &[Token]), FormStop>
    ensures value { Gives (λ x. (x.0.now, x.1.now)) result (next tokens.now) }
    ensures shorter { IfOk result (λ x. length x.1.now < length tokens.now) }
{
    match tokens {
        [token, rest @ ..] => Ok((token, rest)),
        [] => Err(FormStop::Short),
    }
}

/// What follows a mark.
#[tactic(auto, unfolding(crate::specs::Forms::mark_at))]
pub fn mark_at(mark: u8, tokens: &[Token]) -> Result<&[Token], FormStop>
    ensures value { Gives (λ x. x.now) result (mark_at mark tokens.now) }
    ensures shorter { IfOk result (λ x. length x.now < length tokens.now) }
{
    let (token, rest) = next(tokens)?;
    match token.kind {
        TokenKind::Mark => {
            if token.text.as_str().as_bytes() == [mark].as_slice() {
                return Ok(rest);
            }
            Err(FormStop::Fault(LoadFault::BadForm(token.line)))
        }
        TokenKind::Bare => Err(FormStop::Fault(LoadFault::BadForm(token.line))),
        TokenKind::Quoted => Err(FormStop::Fault(LoadFault::BadForm(token.line))),
        TokenKind::Json => Err(FormStop::Fault(LoadFault::BadForm(token.line))),
    }
}

/// A kind, a name or a text, bare or in quotes.
#[tactic(auto, unfolding(crate::specs::Forms::word_at))]
pub fn word_at(tokens: &[Token]) -> Result<(&Token, &[Token]), FormStop>
    ensures value { Gives (λ x. (x.0.now, x.1.now)) result (word_at tokens.now) }
    ensures shorter { IfOk result (λ x. length x.1.now < length tokens.now) }
{
    let (token, rest) = next(tokens)?;
    match token.kind {
        TokenKind::Bare => Ok((token, rest)),
        TokenKind::Quoted => Ok((token, rest)),
        TokenKind::Mark => Err(FormStop::Fault(LoadFault::BadForm(token.line))),
        TokenKind::Json => Err(FormStop::Fault(LoadFault::BadForm(token.line))),
    }
}

/// The value of an info, and whether it is JSON.
#[tactic(auto, unfolding(crate::specs::Forms::value_at))]
fn value_at(tokens: &[Token]) -> Result<(&Token, bool, &[Token]), FormStop>
    ensures value { Gives (λ x. ((x.0.now, x.1), x.2.now)) result (value_at tokens.now) }
    ensures shorter { IfOk result (λ x. length x.2.now < length tokens.now) }
{
    let (token, rest) = next(tokens)?;
    match token.kind {
        TokenKind::Bare => Ok((token, false, rest)),
        TokenKind::Quoted => Ok((token, false, rest)),
        TokenKind::Json => Ok((token, true, rest)),
        TokenKind::Mark => Err(FormStop::Fault(LoadFault::BadForm(token.line))),
    }
}

/// Whether a token is a comma.
fn is_comma(token: &Token) -> bool
    ensures { result ≡ is_sign token.now.kind && bytes_eq token.now.text (44 ∷ []) }
{
    matches!(token.kind, TokenKind::Mark) && token.text.as_str() == ","
}

/// Whether a token is a text, bare or in quotes.
fn is_text(token: &Token) -> bool
    ensures { result ≡ is_name token.now.kind }
{
    matches!(token.kind, TokenKind::Bare | TokenKind::Quoted)
}

/// The line at which a field's unknown name is told, by what follows the name: that of the text, where a
/// comma and a text follow, else that of the name.
fn told_at(name: &Token, rest: &[Token]) -> u32
    ensures { result ≡ told_at name.now rest.now }
{
    match rest {
        [comma, text, ..] => {
            if is_comma(comma) && is_text(text) {
                return text.line;
            }
            name.line
        }
        [_] => name.line,
        [] => name.line,
    }
}

/// The name of a field of this kind, and what follows it. A name that the kind doesn't know is told
/// whatever follows.
#[tactic(auto, unfolding(crate::specs::Forms::known_at))]
fn known_at(alloc: Global, kind: Kind, tokens: &[Token]) -> Result<(&Token, &[Token]), FormStop>
    ensures value { Gives (λ x. (x.0.now, x.1.now)) result (known_at kind tokens.now) }
    ensures shorter { IfOk result (λ x. length x.1.now < length tokens.now) }
{
    let (name, rest) = word_at(tokens)?;
    if field_known(kind, name.text.as_str()) {
        return Ok((name, rest));
    }
    let line = told_at(name, rest);
    let name = name.text.clone_in(alloc)?;
    Err(FormStop::Fault(LoadFault::UnknownField(name, line)))
}

/// A field by its name and text.
fn field_of(alloc: Global, name: &Token, text: &Token) -> Result<FieldText, NoMemory>
    ensures { IfOk result (λ x. x ≡ field_of name.now text.now) }
{
    Ok(FieldText {
        name: name.text.clone_in(alloc)?,
        text: text.text.clone_in(alloc)?,
        line: text.line,
    })
}

/// A field's name and text in brackets.
#[tactic(auto, unfolding(crate::specs::Forms::field_at))]
pub fn field_at(
    alloc: Global,
    kind: Kind,
    tokens: &[Token],
) -> Result<(FieldText, &[Token]), FormStop>
    ensures value { Gives (λ x. (x.0, x.1.now)) result (field_at kind tokens.now) }
    ensures shorter { IfOk result (λ x. length x.1.now < length tokens.now) }
{
    let rest = mark_at(b'(', tokens)?;
    let (name, rest) = known_at(alloc, kind, rest)?;
    let rest = mark_at(b',', rest)?;
    let (text, rest) = word_at(rest)?;
    let field = field_of(alloc, name, text)?;
    let rest = mark_at(b')', rest)?;
    Ok((field, rest))
}

/// An info by its name and value.
fn info_of(alloc: Global, name: &Token, value: &Token, json: bool) -> Result<Info, NoMemory>
    ensures { IfOk result (λ x. x ≡ info_of name.now (value.now, json)) }
{
    Ok(Info {
        name: name.text.clone_in(alloc)?,
        text: value.text.clone_in(alloc)?,
        json,
        line: value.line,
    })
}

/// An info's name and value in brackets.
#[tactic(auto, unfolding(crate::specs::Forms::info_at))]
pub fn info_at(alloc: Global, tokens: &[Token]) -> Result<(Info, &[Token]), FormStop>
    ensures value { Gives (λ x. (x.0, x.1.now)) result (info_at tokens.now) }
    ensures shorter { IfOk result (λ x. length x.1.now < length tokens.now) }
{
    let rest = mark_at(b'(', tokens)?;
    let (name, rest) = word_at(rest)?;
    let rest = mark_at(b',', rest)?;
    let (value, json, rest) = value_at(rest)?;
    let info = info_of(alloc, name, value, json)?;
    let rest = mark_at(b')', rest)?;
    Ok((info, rest))
}

/// The word `record`.
#[tactic(auto, unfolding(crate::specs::Forms::begin_at))]
pub fn begin_at(tokens: &[Token]) -> Result<(&Token, &[Token]), FormStop>
    ensures value { Gives (λ x. (x.0.now, x.1.now)) result (begin_at tokens.now) }
    ensures shorter { IfOk result (λ x. length x.1.now < length tokens.now) }
{
    let (token, rest) = next(tokens)?;
    match token.kind {
        TokenKind::Bare => {
            if token.text.as_str() == "record" {
                return Ok((token, rest));
            }
            Err(FormStop::Fault(LoadFault::BadForm(token.line)))
        }
        TokenKind::Quoted => Err(FormStop::Fault(LoadFault::BadForm(token.line))),
        TokenKind::Mark => Err(FormStop::Fault(LoadFault::BadForm(token.line))),
        TokenKind::Json => Err(FormStop::Fault(LoadFault::BadForm(token.line))),
    }
}

/// The kind that a token names.
pub fn kind_in(alloc: Global, token: &Token) -> Result<Kind, FormStop>
    ensures { Gives (λ kind. kind) result (kind_in token.now (kind_of token.now.text)) }
{
    match kind_named(token.text.as_str()) {
        Some(kind) => Ok(kind),
        None => {
            let name = token.text.clone_in(alloc)?;
            Err(FormStop::Fault(LoadFault::UnknownKind(name, token.line)))
        }
    }
}
