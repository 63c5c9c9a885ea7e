//! The report of a session's work.
ghost use Rattle.std.specs.Prelude.{◌≡◌, ◌+◌, ◌≤◌, ◌++◌, decimal, length};
ghost use Rattle.arrayvec.specs.ArrayString.{array_string_len};
ghost use Rattle.gq_shell.specs.Session.{report_of, seed_text, work_line};

use crate::seeding::RunSeed;
use arrayvec::ArrayString;
use gq_engine::Spent;
use itoa::Buffer;

/// A line of numbers, made without memory.
pub type Line = ArrayString<160>;

/// Whether a report is asked for, and the seed, which it shows if it was drawn.
#[derive(Clone, Copy)]
pub struct Reporting {
    pub stats: bool,
    pub seed: RunSeed,
}

/// The line on what the groupings took if it is asked for, and otherwise nothing.
pub fn report_of(reporting: Reporting, spent: Spent) -> Line
    ensures { result.bytes ≡ report_of reporting.stats reporting.seed spent }
{
    if reporting.stats {
        work_line(reporting.seed, spent)
    } else {
        Line::new()
    }
}

// The line on what the groupings took, and on a seed that was drawn.
fn work_line(seed: RunSeed, spent: Spent) -> Line
    ensures { result.bytes ≡ work_line seed spent }
{
    let mut line = Line::new();
    push_count(&mut line, "groupsh: read ", spent.rows_read);
    push_count(&mut line, ", written ", spent.rows_written);
    push_count(&mut line, ", groups ", spent.groups);
    push_count(&mut line, ", runs ", spent.runs);
    push_seed(&mut line, seed);
    line.push_str("\n");
    line
}

// Appends a seed that was drawn.
fn push_seed(line: &mut Line, seed: RunSeed)
    requires { array_string_len line.old + 27 ≤ 160 }
    ensures bytes { line.new.bytes ≡ line.old.bytes ++ seed_text seed }
    ensures short { array_string_len line.new ≤ array_string_len line.old + 27 }
{
    match seed {
        RunSeed::Given(_number) => {}
        RunSeed::Drawn(number) => push_count(line, ", seed ", number),
    }
}

// Appends a word and a number, which has at most 20 digits.
fn push_count(line: &mut Line, word: &str, count: u64)
    requires { array_string_len line.old + length word.now + 20 ≤ 160 }
    ensures bytes { line.new.bytes ≡ line.old.bytes ++ word.now ++ decimal count }
    ensures short { array_string_len line.new ≤ array_string_len line.old + length word.now + 20 }
{
    let mut digits = Buffer::new();
    line.push_str(word);
    line.push_str(digits.format(count));
}
