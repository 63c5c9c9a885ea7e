//! Words and the sources of their files.
ghost use Rattle.std.specs.Prelude.{◌≡◌, ◌<◌, bytes_eq, length, slice_index_or};
ghost use Rattle.std.specs.List.{list_any};
ghost use Rattle.gq_infer.specs.declared.word.TableWord.{TableWord};

use crate::source::Source;
use gq_engine::Short;
use gq_infer::TableWord;

/// Words, the sources of the first of them, and how files are opened and read.
#[derive(Drop)]
pub(crate) struct Files<'a, 'w, F> {
    pub words: &'a [TableWord<'w>],
    pub sources: &'a [Source],
    pub opener: &'a F,
    pub short: Short,
}

/// Whether a word has a name.
pub(crate) fn has_name(words: &[TableWord], name: &str) -> bool
    ensures { result ≡ list_any (λ (word : TableWord). bytes_eq word.name name.now) words.now }
{
    words.iter().any(|word| word.name.as_str() == name)
}

/// Whether two words have one name.
pub(crate) fn is_same(words: &[TableWord], at: usize, other: usize) -> bool
    requires at { at < length words.now }
    requires other { other < length words.now }
    ensures { (word : TableWord) → result ≡ bytes_eq (slice_index_or words.now other word).name
        (slice_index_or words.now at word).name }
{
    words[other].name.as_str() == words[at].name.as_str()
}
