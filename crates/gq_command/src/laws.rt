//! Laws: what the definitions imply, in the subject's own words. Each is the contract of a
//! function that does nothing.
ghost use Rattle.gq_command.specs.Lines.{SaysOne};
ghost use Rattle.gq_command.specs.Readings.{ReadsOnce};
ghost use Rattle.gq_script.specs.Numbering.{NumbersTell};
ghost use Rattle.gq_script.specs.Script.{InOrder};

pub use gq_token::laws::{cuts_all, takes_longest};

/// No line says two commands.
pub fn one_command()
    ensures { SaysOne }
{}

/// The items of lines are the first item, and then the items of the lines after it.
pub fn in_order()
    ensures { InOrder }
{}

/// The numbered items are the items of the script, and each has the number of its line.
pub fn numbers_tell()
    ensures { NumbersTell }
{}

/// Each item of a script is read as a command or as refused, and in only one way.
pub fn reads_once()
    ensures { ReadsOnce }
{}
