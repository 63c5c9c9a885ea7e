//! Tokens: the parts of a line.
ghost use Rattle.std.specs.Prelude.{◌≡◌};
ghost use Rattle.gq_token.specs.Tokens.{same};

use gq_row::Text;

/// A reserved word or a sign.
#[derive(Clone, Copy, Debug, PartialEq, Eq)]
pub enum Terminal {
    Create,
    Drop,
    Load,
    Upsert,
    Delete,
    Show,
    Group,
    Distinct,
    By,
    On,
    Where,
    Not,
    Exists,
    Having,
    And,
    Is,
    Null,
    Key,
    Int,
    Text,
    Count,
    Sum,
    Min,
    Max,
    NoCase,
    Rollup,
    Open,
    Close,
    Comma,
    Star,
    Equal,
    NotEqual,
    Less,
    LessEqual,
    Greater,
    GreaterEqual,
}

/// A token, as a value.
#[derive(Debug, Drop)]
pub enum Token {
    /// A reserved word, in any case, or a sign.
    Fixed(Terminal),
    /// A bare or quoted name, without its quotes.
    Name(Text),
    Number(i64),
    /// A string, without its quotes.
    Text(Text),
}

impl Terminal {
    #[inline]
    pub fn is(self, other: Terminal) -> bool
        ensures { result ≡ same self other }
    {
        self == other
    }
}
