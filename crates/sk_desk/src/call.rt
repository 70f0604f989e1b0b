// What a desk keeps of one call.
use sk_resp::{Word, Words};

/// One call of a desk.
#[derive(Drop)]
pub struct Call {
    /// The moment that it was made at, in milliseconds since 1970.
    pub now: u64,
    /// The words of the command.
    pub request: Words,
    /// The text of the reply, as RESP2 has it.
    pub reply: Word,
}
