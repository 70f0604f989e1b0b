// Where bytes go.
ghost use Rattle.std.specs.Prelude.{◌≡◌, ◌<◌, ◌≤◌, ℕ, List, Option, None, [], length, take, IfOk, OnOk, OnErr};
ghost use Rattle.sk_base.specs.Outside.{HasCause, Takes, TakesFront};

use crate::Failed;

/// A stream of bytes that is written once, at its end.
pub trait Sink {
    /// The bytes that it took, where it tells them. What is in memory does, and a real stream doesn't.
    ghost taken: { Self → Option (List ℕ) };

    /// How often a write has failed. The count never falls.
    ghost write_faults: { Self → ℕ };

    /// What no write changes. A connection names here the bytes that it has left, and how often a read has failed.
    ghost beside_write: { Self → Option (List ℕ) × ℕ } = { λ _. (None, 0) };

    /// Takes some of the bytes, from their front, and answers how many: of a piece that isn't empty, at least one.
    fn write(&mut self, bytes: &[u8]) -> Result<usize, Failed>
        ensures within { IfOk result (λ n. n ≤ length bytes.now) }
        ensures some { 0 < length bytes.now → IfOk result (λ n. 0 < n) }
        ensures told { IfOk result (λ n. Takes (taken self.old) (take n bytes.now) (taken self.new)) }
        ensures err { OnErr result (Takes (taken self.old) [] (taken self.new)) }
        ensures beside { beside_write self.new ≡ beside_write self.old }
        ensures cause { HasCause (write_faults self.old) (write_faults self.new) result };
}

/// Writes a whole piece. After a failure the sink has taken some of it, from its front.
pub fn write_all<K: Sink>(sink: &mut K, bytes: &[u8]) -> Result<(), Failed>
    ensures told { OnOk result (Takes (K.taken sink.old) bytes.now (K.taken sink.new)) }
    ensures err { OnErr result (TakesFront (K.taken sink.old) bytes.now (K.taken sink.new)) }
    ensures beside { K.beside_write sink.new ≡ K.beside_write sink.old }
    ensures cause { HasCause (K.write_faults sink.old) (K.write_faults sink.new) result }
{
    let mut rest = bytes;
    while !rest.is_empty() {
        let n = sink.write(rest)?;
        rest = &rest[n..];
    }
    Ok(())
}
