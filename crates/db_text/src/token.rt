use pvd_type::{Name, NoMemory};

/// What a token is.
#[derive(Clone, Copy, Debug, PartialEq, Eq)]
pub enum TokenKind {
    /// A word of letters, digits and `_ - + : . [ ] < > ;`.
    Bare,
    /// A text in quotes.
    Quoted,
    /// One of `( ) { } ,`.
    Mark,
    /// The JSON of an info, from its brace up to the matching one.
    Json,
}

/// A token of a text.
#[derive(Debug, Drop)]
pub struct Token {
    /// Whether it is a word, a quoted text, a mark or JSON.
    pub kind: TokenKind,
    /// A word or mark as it stands; a quoted text without its quotes and escapes; JSON with its bare keys in quotes.
    pub text: Name,
    /// How many bytes of the text stand before the token.
    pub start: u32,
    /// How many bytes of the text stand before what follows it.
    pub end: u32,
    /// The line of its first byte, counted from 1.
    pub line: u32,
}

/// What stands before a token, as far as it tells whether a brace begins JSON: the parts of `info(NAME,`.
#[derive(Clone, Copy, Debug, PartialEq, Eq)]
pub enum Before {
    Other,
    Info,
    Open,
    Name,
    /// The name is the word `info`, which may begin another one.
    InfoName,
    Comma,
}

/// Why no token begins where one should.
#[derive(Clone, Copy, Debug, PartialEq, Eq)]
pub enum TokenStop {
    Bad,
    OpenQuotes,
    Memory,
}

impl From<NoMemory> for TokenStop {
    ghost use Rattle.std.specs.Prelude.{◌≡◌};
    ghost use Rattle.db_text.specs.declared.token.TokenStop.TheVariants.{Memory};

    ghost from_gives = { λ _ e. e ≡ Memory };

    fn from(_e: NoMemory) -> TokenStop {
        TokenStop::Memory
    }
}
