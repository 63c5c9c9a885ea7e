//! Checks scripts without running them: one report for each item that is refused.
//!
//! [`gq_command`] defines what is refused: a line that isn't a command, a line or a command past a
//! limit, and a load whose payload is open or too long. Payloads are skipped line by line, by the
//! rules of [`gq_script`], so at most one line is in memory.
//!
//! A line that isn't a command is diagnosed with the parser: the message says which words can
//! follow the longest prefix that some ending completes to a command. So there is no second grammar
//! here, only a table of words and one of such endings.
//!
//! The contract of [`Checker::next`] covers the reports: they come in the order of the script's
//! lines, one for each item that is refused and none for others. Each has the number of the item's
//! line, a column in that line or just past its end, and a message of one line. The laws in
//! [`laws`] say what the numbers are, and that a script has no report if and only if each of its
//! items reads as a command without a fault.
#![tactic(auto)]

mod checker;
mod diagnosis;
mod ends;
mod fault;
pub mod laws;
mod message;
mod payload;
mod pieces;
mod refusal;
mod report;

pub use checker::{Checker, report_of};
pub use fault::{CheckFault, Fault};
pub use report::Report;
