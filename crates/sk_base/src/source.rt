// Where bytes come from.
ghost use Rattle.std.specs.Prelude.{◌≡◌, ◌<◌, ◌≤◌, ℕ, List, Option, None, [], length, take, IfOk, OnErr, IfSome};
ghost use Rattle.sk_base.specs.Outside.{HasCause, Gives};

use crate::Failed;

/// A stream of bytes that is read once, from its front.
pub trait Source {
    /// The bytes that it has left, where it tells them. What is in memory does, and a real stream doesn't.
    ghost left: { Self → Option (List ℕ) };

    /// How often a read has failed. The count never falls.
    ghost read_faults: { Self → ℕ };

    /// What no read changes. A connection names here the bytes that it took, and how often a write has failed.
    ghost beside_read: { Self → Option (List ℕ) × ℕ } = { λ _. (None, 0) };

    /// Reads some of the bytes that are left, from their front, into the front of the buffer, and answers how many.
    fn read(&mut self, buf: &mut [u8]) -> Result<usize, Failed>
        ensures within { IfOk result (λ n. n ≤ length buf.old) }
        ensures told { IfOk result (λ n. Gives (left self.old) (take n buf.new) (left self.new)) }

        // No byte is read into a buffer that has room only at the end.
        ensures end { result ≡ Ok 0 → 0 < length buf.old → IfSome (left self.old) (λ bytes. bytes ≡ []) }
        ensures err { OnErr result (left self.new ≡ left self.old) }
        ensures beside { beside_read self.new ≡ beside_read self.old }
        ensures cause { HasCause (read_faults self.old) (read_faults self.new) result };
}
