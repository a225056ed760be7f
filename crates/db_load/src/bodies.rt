ghost use Rattle.std.specs.Prelude.{◌≡◌, ◌<◌, ◌+◌, length, IfOk, Ok};
ghost use Rattle.db_load.specs.Forms.{Gives, keyword_at, item_at, body_at};

use crate::fault::{FormStop, LoadFault};
use crate::forms::{field_at, info_at, next};
use db_text::{Token, TokenKind};
use rec_kinds::{FieldText, Info, Kind};
use std::alloc::Global;

/// What stands in a record's braces.
#[derive(Debug, Drop)]
pub enum Item {
    Field(FieldText),
    Info(Info),
    /// The brace that closes the record.
    Close,
}

/// What a word in a record's braces begins.
#[tactic(auto, unfolding(crate::specs::Forms::keyword_at))]
fn keyword_at<'a>(
    alloc: Global,
    kind: Kind,
    token: &Token,
    rest: &'a [Token],
) -> Result<(Item, &'a [Token]), FormStop>
    ensures value { Gives (λ x. (x.0, x.1.now)) result (keyword_at kind token.now rest.now) }
    ensures shorter { IfOk result (λ x. length x.1.now < length rest.now) }
{
    if token.text.as_str() == "field" {
        let (field, rest) = field_at(alloc, kind, rest)?;
        return Ok((Item::Field(field), rest));
    }
    if token.text.as_str() == "info" {
        let (info, rest) = info_at(alloc, rest)?;
        return Ok((Item::Info(info), rest));
    }
    Err(FormStop::Fault(LoadFault::BadForm(token.line)))
}

/// A field or an info of a record of this kind, or the brace that closes it.
#[tactic(auto, unfolding(crate::specs::Forms::item_at))]
fn item_at(alloc: Global, kind: Kind, tokens: &[Token]) -> Result<(Item, &[Token]), FormStop>
    ensures value { Gives (λ x. (x.0, x.1.now)) result (item_at kind tokens.now) }
    ensures shorter { IfOk result (λ x. length x.1.now < length tokens.now) }
{
    let (token, rest) = next(tokens)?;
    match token.kind {
        TokenKind::Bare => keyword_at(alloc, kind, token, rest),
        TokenKind::Mark => {
            if token.text.as_str() == "}" {
                return Ok((Item::Close, rest));
            }
            Err(FormStop::Fault(LoadFault::BadForm(token.line)))
        }
        TokenKind::Quoted => Err(FormStop::Fault(LoadFault::BadForm(token.line))),
        TokenKind::Json => Err(FormStop::Fault(LoadFault::BadForm(token.line))),
    }
}

/// The fields and infos of a record of this kind, up to its closing brace, and what follows.
pub fn body_at(
    alloc: Global,
    kind: Kind,
    tokens: &[Token],
) -> Result<(Vec<FieldText>, Vec<Info>, &[Token]), FormStop>
    ensures value { Gives (λ x. ((x.0.items, x.1.items), x.2.now)) result (body_at kind (length tokens.now + 1) tokens.now) }
    ensures shorter { IfOk result (λ x. length x.2.now < length tokens.now) }
{
    let mut fields: Vec<FieldText> = Vec::new(alloc);
    let mut infos: Vec<Info> = Vec::new(alloc);
    let mut rest = tokens;
    loop {
        let (item, after) = item_at(alloc, kind, rest)?;
        match item {
            Item::Close => return Ok((fields, infos, after)),
            Item::Field(field) => {
                fields.push(field)?;
                rest = after;
                continue;
            }
            Item::Info(info) => {
                infos.push(info)?;
                rest = after;
                continue;
            }
        }
    }
}
