ghost use Rattle.std.specs.Prelude.{◌≡◌, ◌<◌, ◌≤◌, ◌+◌, ◌∷◌, [], length, IfOk, IfSome, Some, None, ◌^◌, not, take, drop, count_by, ◌==◌};
ghost use Rattle.std.specs.List.{position};
ghost use Rattle.db_text.specs.Cutting.{is_word, is_comma, bare_at, token_at, follows, follows_word, follows_quoted, follows_mark, cut};
ghost use Rattle.db_text.specs.Macros.{before_first};
ghost use Rattle.db_text.specs.Faults.{GivesPiece, CutsInto};
ghost use Rattle.db_text.specs.Grammar.{TokensTo};

use crate::fault::TextFault;
use crate::macros::front;
use crate::pieces::{is_blank, is_mark, is_word, json_at, quoted_at};
use crate::token::{Before, Token, TokenKind, TokenStop};
use pvd_type::{Name, NoMemory};
use std::alloc::Global;

/// A token's text.
fn name_of(alloc: Global, bytes: &[u8]) -> Result<Name, NoMemory>
    ensures { IfOk result (λ name. name ≡ bytes.now) }
{
    match str::from_utf8(bytes) {
        Ok(text) => Name::of(alloc, text),
        // It doesn't come: a token begins and ends at an ASCII byte of a text.
        Err(_) => Err(NoMemory),
    }
}

/// Where a bare word ends, if it does.
fn word_end(bytes: &[u8]) -> Option<usize>
    ensures value { result ≡ position (λ b. not (is_word b)) bytes.now }
    ensures within { IfSome result (λ i. i < length bytes.now) }
{
    bytes.iter().position(|byte| !is_word(*byte))
}

/// How many bytes of a bare word stand here.
fn word_len(bytes: &[u8]) -> usize
    ensures value { result ≡ before_first (λ b. not (is_word b)) bytes.now }
    ensures within { result ≤ length bytes.now }
{
    match word_end(bytes) {
        Some(len) => len,
        None => bytes.len(),
    }
}

/// A bare word, and what follows it.
fn bare_at(bytes: &[u8]) -> (&[u8], &[u8])
    requires { 0 < length bytes.now }
    ensures value { (result.0.now, result.1.now) ≡ bare_at bytes.now }
    ensures shorter { length result.1.now < length bytes.now }
{
    let Some((_, rest)) = front(bytes) else {
        return (bytes, bytes);
    };
    bytes.split_at(word_len(rest) + 1)
}

/// Whether a brace begins JSON.
fn is_comma(before: Before) -> bool
    ensures { result ≡ is_comma before }
{
    match before {
        Before::Comma => true,
        Before::Other => false,
        Before::Info => false,
        Before::Open => false,
        Before::Name => false,
        Before::InfoName => false,
    }
}

/// The token that begins here, and what follows it.
#[tactic(auto, unfolding(crate::specs::Cutting::token_at))]
fn token_at(
    alloc: Global,
    before: Before,
    bytes: &[u8],
) -> Result<(TokenKind, Name, &[u8]), TokenStop>
    ensures value { GivesPiece (λ x. (x.0, x.1, x.2.now)) result (token_at before bytes.now) }
    ensures shorter { IfOk result (λ x. length x.2.now < length bytes.now) }
{
    let [byte, rest @ ..] = bytes else {
        return Err(TokenStop::Bad);
    };
    if *byte == b'"' {
        let Some((text, next)) = quoted_at(alloc, rest)? else {
            return Err(TokenStop::OpenQuotes);
        };
        return Ok((TokenKind::Quoted, name_of(alloc, text.as_slice())?, next));
    }
    if *byte == b'{' && is_comma(before) {
        let Some((text, next)) = json_at(alloc, rest)? else {
            return Err(TokenStop::Bad);
        };
        return Ok((TokenKind::Json, name_of(alloc, text.as_slice())?, next));
    }
    if is_mark(*byte) {
        return Ok((TokenKind::Mark, name_of(alloc, &bytes[..1])?, rest));
    }
    if is_word(*byte) {
        let (word, next) = bare_at(bytes);
        return Ok((TokenKind::Bare, name_of(alloc, word)?, next));
    }
    Err(TokenStop::Bad)
}

/// What stands before the token after this one.
#[tactic(auto, unfolding(crate::specs::Cutting::follows))]
fn follows(before: Before, kind: TokenKind, text: &[u8]) -> Before
    ensures { result ≡ follows before kind text.now }
{
    match kind {
        TokenKind::Bare => follows_word(before, text),
        TokenKind::Quoted => follows_quoted(before),
        TokenKind::Mark => follows_mark(before, text),
        TokenKind::Json => Before::Other,
    }
}

/// What stands before the token after a bare word.
fn follows_word(before: Before, text: &[u8]) -> Before
    ensures { result ≡ follows_word before text.now }
{
    let is_info = text == b"info".as_slice();
    match before {
        Before::Open => {
            if is_info {
                return Before::InfoName;
            }
            Before::Name
        }
        _ => {
            if is_info {
                return Before::Info;
            }
            Before::Other
        }
    }
}

/// What stands before the token after a quoted text.
fn follows_quoted(before: Before) -> Before
    ensures { result ≡ follows_quoted before }
{
    match before {
        Before::Open => Before::Name,
        _ => Before::Other,
    }
}

/// What stands before the token after a mark.
fn follows_mark(before: Before, text: &[u8]) -> Before
    ensures { result ≡ follows_mark before text.now }
{
    match before {
        Before::Info => {
            if text == b"(".as_slice() {
                return Before::Open;
            }
            Before::Other
        }
        Before::InfoName => {
            if text == b"(".as_slice() {
                return Before::Open;
            }
            if text == b",".as_slice() {
                return Before::Comma;
            }
            Before::Other
        }
        Before::Name => {
            if text == b",".as_slice() {
                return Before::Comma;
            }
            Before::Other
        }
        _ => Before::Other,
    }
}

/// How many lines end in these bytes.
fn lines_in(bytes: &[u8]) -> usize
    ensures value { result ≡ count_by (λ b. b == 10) bytes.now }
    ensures within { result ≤ length bytes.now }
{
    bytes.iter().filter(|byte| **byte == b'\n').count()
}

/// The tokens of a text up to its first fault, and that fault. The text is one whose macros are replaced.
pub fn cut(alloc: Global, text: &str) -> Result<(Vec<Token>, Option<TextFault>), NoMemory>
    ensures exact { IfOk result (λ r. TokensTo text.now r.0.items r.1) }
    ensures scan { IfOk result (λ r. (r.0.items, r.1) ≡ cut text.now) }
{
    let bytes = text.as_bytes();
    if bytes.len() > u32::MAX as usize {
        return Err(NoMemory);
    }
    cut_bytes(alloc, bytes)
}

/// The tokens of these bytes up to the first fault, and that fault.
fn cut_bytes(alloc: Global, bytes: &[u8]) -> Result<(Vec<Token>, Option<TextFault>), NoMemory>
    requires { length bytes.now < 2 ^ 32 }
    ensures { IfOk result (λ r. (r.0.items, r.1) ≡ cut bytes.now) }
{
    let mut tokens: Vec<Token> = Vec::new(alloc);
    let mut rest = bytes;
    let mut before = Before::Other;
    let mut line = 1usize;
    while let Some((byte, after)) = front(rest) {
        if byte == b'\n' {
            line += 1;
            rest = after;
            continue;
        }
        if is_blank(byte) {
            rest = after;
            continue;
        }
        match token_at(alloc, before, rest) {
            Err(TokenStop::Memory) => return Err(NoMemory),
            Err(TokenStop::Bad) => {
                return Ok((tokens, Some(TextFault::BadToken(line as u32))));
            }
            Err(TokenStop::OpenQuotes) => {
                return Ok((tokens, Some(TextFault::OpenString(line as u32))));
            }
            Ok((kind, text, next)) => {
                before = follows(before, kind, text.as_str().as_bytes());
                let start = (bytes.len() - rest.len()) as u32;
                let end = (bytes.len() - next.len()) as u32;
                let line_here = line as u32;
                line += lines_in(&rest[..rest.len() - next.len()]);
                rest = next;
                tokens.push(Token {
                    kind,
                    text,
                    start,
                    end,
                    line: line_here,
                })?;
            }
        }
    }
    Ok((tokens, None))
}

/// The tokens of a text whose macros are replaced (EPICS IOC Application Developer's Guide, "Database
/// Definition"). BadToken where no token begins at a byte that is no blank, or a brace of JSON is never
/// closed; OpenString where a quoted text isn't closed on its line. The first fault is told.
pub fn tokens(alloc: Global, text: &str) -> Result<Vec<Token>, TextFault>
    ensures exact { CutsInto text.now result }
{
    let (tokens, fault) = cut(alloc, text)?;
    match fault {
        None => Ok(tokens),
        Some(fault) => Err(fault),
    }
}
