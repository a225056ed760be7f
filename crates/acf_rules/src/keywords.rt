ghost use Rattle.std.specs.Prelude.{◌≡◌};
ghost use Rattle.acf_rules.specs.Forms.{is_input, keyword_of, keyword_in};

use db_text::{Token, TokenKind};

/// What a token begins, or ends.
#[derive(Clone, Copy)]
pub(crate) enum Keyword {
    /// `UAG`
    Users,
    /// `HAG`
    Hosts,
    /// `ASG`
    Rules,
    /// `RULE`
    Rule,
    /// `CALC`, or `INPA` to `INPL`
    Unsupported,
    /// A closing brace.
    Close,
    Other,
}

/// Whether a word is one of `INPA` to `INPL`.
fn is_input(word: &[u8]) -> bool
    ensures { result ≡ is_input word.now }
{
    match word {
        [i, n, p, letter] => {
            *i == b'I' && *n == b'N' && *p == b'P' && b'A' <= *letter && *letter <= b'L'
        }
        _ => false,
    }
}

/// What a bare word begins.
fn keyword_of(word: &str) -> Keyword
    ensures { result ≡ keyword_of word.now }
{
    match word {
        "UAG" => Keyword::Users,
        "HAG" => Keyword::Hosts,
        "ASG" => Keyword::Rules,
        "RULE" => Keyword::Rule,
        "CALC" => Keyword::Unsupported,
        _ => {
            if is_input(word.as_bytes()) {
                return Keyword::Unsupported;
            }
            Keyword::Other
        }
    }
}

/// What a token begins, or ends. Keywords are bare words.
pub(crate) fn keyword_in(token: &Token) -> Keyword
    ensures { result ≡ keyword_in token.now }
{
    match token.kind {
        TokenKind::Bare => keyword_of(token.text.as_str()),
        TokenKind::Mark => {
            if token.text.as_str() == "}" {
                return Keyword::Close;
            }
            Keyword::Other
        }
        TokenKind::Quoted => Keyword::Other,
        TokenKind::Json => Keyword::Other,
    }
}
