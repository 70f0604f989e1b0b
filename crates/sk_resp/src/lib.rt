//! Words, and the wire between a client and the store: requests as they are read and replies as they are written (RESP2).
#![tactic(auto)]

mod kind;
mod name;
mod number;
mod refusal;
mod reply;
mod request;
mod say;
mod spelling;
mod text;
mod wire_fault;
mod word;
mod word_order;

pub use kind::Kind;
pub use name::Name;
pub use number::read_int;
pub use refusal::Refusal;
pub use reply::{
    Replies, Reply, ReplyFault, ReplyFeeder, no_reply_begins_another, replies_come_in_pieces,
    replies_have_one_reading, replies_have_texts, write_reply, written_replies_are_read,
};
pub use request::{Feeder, one_reading, piece_by_piece, write_request, written_is_read};
pub use say::Say;
pub use std::alloc::AllocError as Memory;
pub use text::Text;
pub use wire_fault::WireFault;
pub use word::{Word, Words};
pub use word_order::compare_bytes;
