//! Column names without repetitions.
ghost use Rattle.std.specs.Prelude.{◌≡◌, ◌++◌, IfOk, not};
ghost use Rattle.gq_format.specs.Names.{distinct_names, free_name, is_taken, numbered, own_name};

use gq_row::Text;
use itoa::Buffer;
use std::alloc::{AllocError, Global};

// The names of a header's columns; a repeated name gets a number.
pub(crate) fn distinct_names(alloc: Global, header: &[Text]) -> Result<Vec<Text>, AllocError>
    ensures { IfOk result (λ names. names.items ≡ distinct_names header.now) }
{
    let mut names = Vec::new(alloc);
    for name in header {
        let own = own_name(alloc, header, names.as_slice(), name)?;
        names.push(own)?;
    }
    Ok(names)
}

fn own_name(alloc: Global, header: &[Text], given: &[Text], name: &Text) -> Result<Text, AllocError>
    ensures { IfOk result (λ own. own ≡ own_name header.now given.now name.now) }
{
    if is_taken(given, name) {
        free_name(alloc, header, given, name)
    } else {
        name.copy(alloc)
    }
}

fn free_name(
    alloc: Global,
    header: &[Text],
    given: &[Text],
    name: &Text,
) -> Result<Text, AllocError>
    ensures { IfOk result (λ own. own ≡ free_name (header.now ++ given.now) name.now) }
{
    for n in 2..header.len() + given.len() + 3 {
        let own = numbered(alloc, name, n)?;
        if is_free(header, given, &own) {
            return Ok(own);
        }
    }
    name.copy(alloc)
}

// Whether neither the header nor an earlier column has this name.
fn is_free(header: &[Text], given: &[Text], name: &Text) -> bool
    ensures { result ≡ not (is_taken (header.now ++ given.now) name.now) }
{
    !is_taken(header, name) && !is_taken(given, name)
}

fn is_taken(taken: &[Text], name: &Text) -> bool
    ensures { result ≡ is_taken taken.now name.now }
{
    taken.iter().any(|other| name.as_str() == other.as_str())
}

fn numbered(alloc: Global, name: &Text, n: usize) -> Result<Text, AllocError>
    ensures { IfOk result (λ own. own ≡ numbered name.now n) }
{
    let mut digits = Buffer::new();
    let mut own = String::from_str(alloc, name.as_str())?;
    own.push_str("_")?;
    own.push_str(digits.format(n))?;
    Text::from_string(alloc, own)
}
