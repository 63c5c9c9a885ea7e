//! Replies.
ghost use Rattle.std.specs.Prelude.{◌≡◌};
ghost use Rattle.gq_reply.specs.Refusals.{refused, of_refused};
ghost use Rattle.gq_reply.specs.Replies.{is_refusal as refuses};

use crate::refusal::{Refusal, Refused};
use gq_cells::Rows;
use gq_row::{Sequence, Text};

/// The reply to a command.
#[derive(Drop)]
pub enum Reply {
    /// Carried out; the number of rows that were put or deleted.
    Done(u64),
    /// The rows of a query, under the names of their columns.
    Rows { header: Sequence<Text>, rows: Rows },
    /// Refused, and no table changed; `number` is that of a payload's faulty record.
    Refused { code: Refusal, number: Option<u64> },
}

impl Reply {
    /// A refusal that names no record.
    pub fn refused(why: Refusal) -> Reply
        ensures { result ≡ refused why }
    {
        Reply::of_refused(Refused::from(why))
    }

    /// The reply for a refusal.
    pub fn of_refused(refused: Refused) -> Reply
        ensures { result ≡ of_refused refused }
    {
        Reply::Refused {
            code: refused.why,
            number: refused.number,
        }
    }

    /// Whether the command was refused.
    pub fn is_refusal(&self) -> bool
        ensures { result ≡ refuses self.now }
    {
        matches!(self, Reply::Refused { .. })
    }
}
