//! References to texts.
ghost use Rattle.std.specs.Prelude.{◌≡◌};
ghost use Rattle.gq_cells.specs.Words.{IsValid, short_in, text_in};

use gq_row::Text;
use std::str;

/// A reference to a text: one of at most seven bytes may be copied, any other is borrowed.
#[derive(Clone, Copy)]
pub enum TextRef<'a> {
    Stored(&'a Text),
    Short(WordText),
}

/// A text of at most seven bytes: the lowest three bits of the first byte are its length.
#[derive(Clone, Copy)]
pub struct WordText {
    bytes: [u8; 8],
    ghost valid: { IsValid (short_in bytes) },
}

impl WordText {
    // The text in a word.
    #[inline(always)]
    pub(crate) fn of(word: u64) -> WordText
        requires { IsValid (text_in word) }
        ensures { short_in result.bytes ≡ text_in word }
    {
        WordText {
            bytes: word.to_be_bytes(),
        }
    }

    #[inline(always)]
    pub fn as_str(&self) -> &str
        ensures { result.now ≡ short_in self.now.bytes }
    {
        let len = (self.bytes[0] % 8) as usize;
        unsafe { str::from_utf8_unchecked(&self.bytes[1..1 + len]) }
    }
}

impl<'a> TextRef<'a> {
    ghost use Rattle.gq_cells.specs.Cells.{text_of};

    #[inline(always)]
    pub fn as_str(&self) -> &str
        ensures { result.now ≡ text_of self.now }
    {
        match self {
            TextRef::Stored(text) => text.as_str(),
            TextRef::Short(text) => text.as_str(),
        }
    }
}
