// The refusals that are the job store's own.
ghost use Rattle.std.specs.Prelude.{◌≡◌};
ghost use Rattle.sk_resp.specs.Refusal.{refusal_text};

/// Why the store refuses a command that is right in form. A refused command changes nothing.
#[derive(Clone, Copy)]
pub enum Refusal {
    /// The key is one that the store manages, and this write on it isn't one of those that it allows.
    ManagedKey,
    /// The command is a worker's, and the seat isn't one.
    NotWorker,
    /// A worker's seat may not send the command now.
    OutOfTurn,
    /// The worker's seat has sixteen jobs in its hands, and fetches another.
    HandsFull,
    /// No process of this name stands.
    NoProcess,
    /// There is no such batch.
    NoBatch,
    /// All members of the batch have returned.
    Settled,
    /// The job is a member of the batch already.
    RepeatedJid,
    /// The text isn't a job as the command wants it.
    BadPayload,
    /// The process doesn't hold the lease of the leader.
    NotLeader,
    /// The loop was pushed for this slot, or for a later one.
    SlotDone,
    /// The store has as many rows, bytes or batches as it may.
    Full,
    /// There is a batch of this id.
    RepeatedBid,
    /// The slot is in the future, or too long ago.
    SlotTime,
}

impl Refusal {
    /// The line that tells a client of it, without CR and LF.
    pub fn text(self) -> &'static [u8]
        ensures { result.now ≡ refusal_text self }
    {
        match self {
            Refusal::ManagedKey => b"-SK managed key",
            Refusal::NotWorker => b"-SK not a worker seat",
            Refusal::OutOfTurn => b"-SK out of turn",
            Refusal::HandsFull => b"-SK hands full",
            Refusal::NoProcess => b"-SK no such process",
            Refusal::NoBatch => b"-SK no such batch",
            Refusal::Settled => b"-SK batch settled",
            Refusal::RepeatedJid => b"-SK repeated jid",
            Refusal::BadPayload => b"-SK bad payload",
            Refusal::NotLeader => b"-SK not leader",
            Refusal::SlotDone => b"-SK slot done",
            Refusal::Full => b"-SK full",
            Refusal::RepeatedBid => b"-SK repeated bid",
            Refusal::SlotTime => b"-SK slot out of time",
        }
    }
}
