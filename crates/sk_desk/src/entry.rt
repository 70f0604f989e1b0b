// What a journal keeps of one event.
use sk_resp::{Word, Words};

/// A command that a seat handed to the store.
#[derive(Drop)]
pub struct Ask {
    /// The moment that it was handed in with, in milliseconds since 1970.
    pub now: u64,
    /// The words of the command.
    pub request: Words,
    /// The text of the reply as RESP2 has it, or none where there was no memory for it.
    pub reply: Option<Word>,
}

/// What happened at a seat.
#[derive(Drop)]
pub enum Deed {
    /// It handed in a command.
    Ask(Ask),
    /// It was cut off.
    Cut,
}

/// One event of a store.
#[derive(Drop)]
pub struct Entry {
    /// The number of the seat.
    pub seat: u32,
    /// What happened there.
    pub deed: Deed,
}
