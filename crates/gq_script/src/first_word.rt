//! The first word of a line, matched byte by byte.
ghost use Rattle.std.specs.Prelude.{◌≡◌};
ghost use Rattle.gq_script.specs.FirstWords.{word_after, is_load};

/// How much of the word `load` was matched.
#[derive(Clone, Copy)]
pub enum FirstWord {
    /// Only spaces and tabs.
    Blank,
    L,
    Lo,
    Loa,
    Load,
    /// `load`, followed by a byte that isn't part of a word.
    Ended,
    /// Another word, or none.
    Other,
}

impl FirstWord {
    #[inline]
    pub fn after(self, byte: u8) -> FirstWord
        ensures { result ≡ word_after self byte }
    {
        match self {
            FirstWord::Blank if byte == b' ' || byte == b'\t' => FirstWord::Blank,
            FirstWord::Blank if byte == b'l' || byte == b'L' => FirstWord::L,
            FirstWord::L if byte == b'o' || byte == b'O' => FirstWord::Lo,
            FirstWord::Lo if byte == b'a' || byte == b'A' => FirstWord::Loa,
            FirstWord::Loa if byte == b'd' || byte == b'D' => FirstWord::Load,
            FirstWord::Load if !byte.is_ascii_alphanumeric() && byte != b'_' => FirstWord::Ended,
            FirstWord::Ended => FirstWord::Ended,
            _ => FirstWord::Other,
        }
    }

    #[inline]
    pub fn is_load(self) -> bool
        ensures { result ≡ is_load self }
    {
        matches!(self, FirstWord::Load | FirstWord::Ended)
    }
}
