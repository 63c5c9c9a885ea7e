//! Why the word after `-t` is refused.
ghost use Rattle.std.specs.Prelude.{◌≡◌, IfOk, string_bytes};
ghost use Rattle.gq_infer.specs.Messages.{bad_table_text, reason};

use std::alloc::{AllocError, Global};

/// Why the word after `-t` is refused.
#[derive(Clone, Copy, Debug, PartialEq, Eq)]
pub enum BadTable {
    /// The table's name is empty or too long.
    NoName,
    /// What comes before the `=` has a `(`, and isn't the rest of a `create` command.
    NotColumns,
    /// It is one past a limit: a name is too long, or there are too many columns.
    Limit,
    /// An allocation failed.
    Memory,
}

/// What is printed on standard error for a word that is refused.
pub fn bad_table_text(alloc: Global, word: &str, why: &BadTable) -> Result<String, AllocError>
    ensures { IfOk result (λ text. string_bytes text ≡ bad_table_text word.now why.now) }
{
    let mut text = String::from_str(alloc, "error: invalid value '")?;
    text.push_str(word)?;
    text.push_str("' for '--table <[NAME=]FILE>': ")?;
    text.push_str(reason(why))?;
    text.push_str("\n\nFor more information, try '--help'.\n")?;
    Ok(text)
}

fn reason(why: &BadTable) -> &'static str
    ensures { result.now ≡ reason why.now }
{
    match why {
        BadTable::NoName => "write NAME=FILE, with a name of 1 to 63 bytes",
        BadTable::NotColumns => {
            "write the columns as in a create command: NAME (COLUMN KIND, .., key (COLUMN, ..))=FILE"
        }
        BadTable::Limit => "a name is too long, or there are too many columns",
        BadTable::Memory => "out of memory",
    }
}
