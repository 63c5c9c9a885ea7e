//! Laws: what the definitions imply, in the subject's own words. Each is the contract of a
//! function that does nothing.
ghost use Rattle.gq_format.specs.Laws.{CsvReadsBack, JsonReadsBack, LinesAlign, NamesColumns};

/// A result as CSV reads back as its header and the fields of its rows.
pub fn csv_reads_back()
    ensures { CsvReadsBack }
{}

/// A JSON object reads back as its names and values.
pub fn json_reads_back()
    ensures { JsonReadsBack }
{}

/// Columns have distinct names in JSON.
pub fn names_columns()
    ensures { NamesColumns }
{}

/// All lines of a box have the same width in a terminal.
pub fn lines_align()
    ensures { LinesAlign }
{}
