//! Replies of one line, made without allocation.
ghost use Rattle.std.specs.Prelude.{◌≡◌, ◌∷◌, ◌++◌, ◌+◌, ◌≤◌, [], length};
ghost use Rattle.gq_reply.specs.Replies.{text, accepted, IsLine};

use crate::reply::Reply;
use itoa::Buffer;
use std::marker::Model;

/// Up to 96 bytes; the model is their list.
#[derive(Drop)]
pub struct ReplyLine {
    bytes: [u8; 96],
    len: usize,
}

impl Model for ReplyLine {
    ghost use Rattle.std.specs.Prelude.{List, ℕ, take, ◌≤◌};

    ghost Value = { List ℕ };

    ghost view = { λ l. take l.len l.bytes };

    ghost invariant = { λ l. l.len ≤ 96 };
}

impl ReplyLine {
    fn new() -> ReplyLine
        ensures { result ≡ [] }
    {
        ReplyLine {
            bytes: [0; 96],
            len: 0,
        }
    }

    pub fn as_slice(&self) -> &[u8]
        ensures { result.now ≡ self.now }
    {
        &self.bytes[..self.len]
    }

    fn push_byte(&mut self, byte: u8)
        requires { length self.old + 1 ≤ 96 }
        ensures { self.new ≡ self.old ++ byte ∷ [] }
    {
        self.bytes[self.len] = byte;
        self.len += 1;
    }

    fn push(&mut self, part: &[u8])
        requires { length self.old + length part.now ≤ 96 }
        ensures { self.new ≡ self.old ++ part.now }
    {
        for byte in part {
            self.push_byte(*byte);
        }
    }
}

/// `ok` and a number.
pub fn accepted_line(n: u64) -> ReplyLine
    ensures { result ≡ accepted n }
{
    let mut line = ReplyLine::new();
    let mut digits = Buffer::new();
    line.push(b"ok ");
    line.push(digits.format(n).as_bytes());
    line.push(b"\n");
    line
}

/// The text of a reply of one line.
pub fn line_of(reply: &Reply) -> ReplyLine
    requires { IsLine reply.now }
    ensures { result ≡ text reply.now }
{
    let mut line = ReplyLine::new();
    let mut digits = Buffer::new();
    match reply {
        Reply::Done(n) => return accepted_line(*n),
        Reply::Rows { header: _, rows: _ } => unreachable!(),
        Reply::Refused { code, number } => {
            line.push(b"err ");
            line.push(digits.format(code.code()).as_bytes());
            line.push(b" ");
            line.push(code.name().as_bytes());
            if let Some(n) = number {
                line.push(b" ");
                line.push(digits.format(*n).as_bytes());
            }
        }
    }
    line.push(b"\n");
    line
}
