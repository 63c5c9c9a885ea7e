//! Reports, and their text.
ghost use Rattle.std.specs.Prelude.{◌≡◌, IfOk, string_bytes};
ghost use Rattle.gq_check.specs.Reports.{report_text};

use crate::fault::Fault;
use itoa::Buffer;
use std::alloc::{AllocError, Global};

/// Why an item of a script is refused.
#[derive(Drop)]
pub struct Report {
    /// The number of its line; the first line of a script is 1.
    pub line: u64,
    pub fault: Fault,
    /// The byte of the line that it is about; the first byte is 1.
    pub column: u64,
    pub message: String,
}

impl Report {
    /// The report in the format of compilers: the script's name, the line, the column and the
    /// message.
    pub fn text(&self, alloc: Global, name: &str) -> Result<String, AllocError>
        ensures { IfOk result (λ text. string_bytes text ≡ report_text name.now self.now) }
    {
        let mut line = Buffer::new();
        let mut column = Buffer::new();
        let mut text = String::from_str(alloc, name)?;
        text.push_str(":")?;
        text.push_str(line.format(self.line))?;
        text.push_str(":")?;
        text.push_str(column.format(self.column))?;
        text.push_str(": ")?;
        text.push_str(self.message.as_str())?;
        text.push_str("\n")?;
        Ok(text)
    }
}
