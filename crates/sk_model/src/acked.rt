// What a client is told was pushed, and what the store counts.
ghost use Rattle.sk_model.specs.Acked.{RepliesAcknowledge};

/// The rows that a reply acknowledges are those that its command pushed from outside, whatever command a seat sends and wherever memory runs out:
/// the tally's `outside` rises by exactly so many. So what all clients were told adds up to what the store counts.
pub fn replies_acknowledge_pushes()
    ensures { RepliesAcknowledge }
{}
