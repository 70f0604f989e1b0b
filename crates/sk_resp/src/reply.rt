// Replies, and their text.
ghost use Rattle.std.specs.Prelude.{◌≡◌, ◌++◌, OnOk, map};
ghost use Rattle.sk_resp.specs.Errors.{is_error};
ghost use Rattle.sk_resp.specs.Reply.{wire};

mod fault;
mod feeder;
mod laws;
mod number_line;
mod state;
mod text;

use crate::say::write_say;
use crate::spelling::{write_bulk, write_header, write_int, write_line};
use crate::{Memory, Say, Word};
pub use fault::ReplyFault;
pub use feeder::ReplyFeeder;
pub use laws::{
    no_reply_begins_another, replies_come_in_pieces, replies_have_one_reading, replies_have_texts,
    written_replies_are_read,
};
use std::alloc::Global;
use std::marker::Model;

/// A reply (RESP2, "RESP protocol description").
#[cycle(reply)]
#[derive(Drop)]
pub enum Reply {
    /// One of the fixed texts. These replies take no memory.
    Say(Say),
    /// `+` and the text on a line. It is meant to hold no CR or LF.
    Simple(Word),
    /// `-` and the text on a line. It is meant to hold no CR or LF.
    Error(Word),
    /// `:` and the integer on a line
    Int(i64),
    /// `$` and the length on a line, and the bytes on a line
    Bulk(Word),
    /// `$-1` on a line
    Null,
    /// `*` and the number of elements on a line, and the elements
    Array(Replies),
    /// `*-1` on a line. The store never answers it.
    NullArray,
}

impl Reply {
    /// An error: its text begins with `-`.
    pub fn is_error(&self) -> bool
        ensures { result ≡ is_error self.now }
    {
        match self {
            Reply::Say(say) => say.is_error(),
            Reply::Error(_) => true,
            _ => false,
        }
    }
}

/// The elements of an array. Contracts see them as the list of their texts: two replies with one text are one reply.
#[cycle(reply)]
#[derive(Drop)]
pub struct Replies {
    list: Vec<Reply>,
}

impl Model for Replies {
    ghost use Rattle.std.specs.Prelude.{List, ℕ, map};

    ghost Value = { List (List ℕ) };

    ghost use Rattle.sk_resp.specs.Reply.{wire};
    ghost use Rattle.sk_resp.specs.Spelling.{total_length};

    ghost view = { λ r. map wire r.list.items };

    ghost size = { total_length };

    ghost use Rattle.std.proofs.Common.{arith};
    ghost use Rattle.sk_resp.specs.ReplySize.{most_le-total_length};

    ghost size_decreases = { λ a h. omega (arith, most_le-total_length a.list.items) };
}

impl Replies {
    /// Takes no memory.
    pub fn new(list: Vec<Reply>) -> Self
        ensures { result ≡ map wire list.items }
    {
        Replies { list }
    }

    pub fn list(&self) -> &[Reply]
        ensures { map wire result.now ≡ self.now }
    {
        &self.list
    }
}

/// Appends the reply's one spelling. After want of memory a part of it may stand there.
pub fn write_reply(alloc: Global, reply: &Reply, out: &mut Vec<u8>) -> Result<(), Memory>
    ensures { OnOk result (out.new.items ≡ out.old.items ++ wire reply.now) }
{
    match reply {
        Reply::Say(say) => {
            write_say(*say, out)?;
            write_line(b"", out)
        }
        Reply::Simple(text) => {
            out.push(b'+')?;
            write_line(text.bytes(), out)
        }
        Reply::Error(text) => {
            out.push(b'-')?;
            write_line(text.bytes(), out)
        }
        Reply::Int(n) => {
            out.push(b':')?;
            write_int(*n, out)?;
            write_line(b"", out)
        }
        Reply::Bulk(bytes) => write_bulk(bytes.bytes(), out),
        Reply::Null => write_line(b"$-1", out),
        Reply::Array(replies) => {
            write_header(replies.list.len(), out)?;
            for reply in &replies.list {
                write_reply(alloc, reply, out)?;
            }
            Ok(())
        }
        Reply::NullArray => write_line(b"*-1", out),
    }
}
