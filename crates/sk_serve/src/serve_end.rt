// What a server did, and how it ended.
ghost use Rattle.std.specs.Prelude.{◌≡◌};
ghost use Rattle.sk_serve.specs.Ending.{end_of};

use sk_status::Tally;

/// What a server did.
#[derive(Clone, Copy)]
pub struct Served {
    /// How many connections were served.
    pub sessions: u64,
    /// How many rows the replies to them acknowledged.
    pub acknowledged: u64,
    /// The tally of the store's rows.
    pub tally: Tally,
}

/// How a server ended. Of several causes it is the first of these.
#[derive(Clone, Copy)]
pub enum ServeEnd {
    /// A session ended by SHUTDOWN, or each loop served as many connections as it was to.
    Served(Served),
    /// The door or an ear failed: its count of faults rose.
    Failed,
    /// A loop had used up its seats' numbers when it accepted one more connection.
    Spent,
    /// There was no memory. Nothing says when this comes.
    Memory,
}

/// Why the loops of a server ended before they were done. Of several causes it is the first of these.
#[derive(Clone, Copy)]
pub enum ServeFault {
    /// An ear failed: its count of faults rose.
    Failed,
    /// A loop had used up its seats' numbers when it accepted one more connection.
    Spent,
    /// There was no memory. Nothing says when this comes.
    Memory,
    /// What was done before the replies of a session couldn't be stored. This comes only where replies wait for that.
    Unsettled,
}

impl From<ServeFault> for ServeEnd {
    ghost from_gives = { λ fault end. end ≡ end_of fault };

    fn from(fault: ServeFault) -> ServeEnd {
        match fault {
            ServeFault::Failed => ServeEnd::Failed,
            ServeFault::Spent => ServeEnd::Spent,
            ServeFault::Memory => ServeEnd::Memory,
            ServeFault::Unsettled => ServeEnd::Failed,
        }
    }
}
