// A book whose writing others take out, part by part, to keep it where it lasts.
ghost use Rattle.std.specs.Prelude.{◌≡◌, ℕ, List, IfSome};
ghost use Rattle.sk_desk.specs.Writing.{IsIdle, WroteUpTo};

use crate::Book;

/// A book whose writing is taken out.
pub trait Outbox: Book {
    /// What who takes it gives for what comes next.
    type Spare;

    /// What was written and not taken yet.
    type Batch;

    /// How far it had written at some moment.
    type Mark;

    /// The batch ends where these bodies end.
    ghost ends: { Self.Batch → List (List ℕ) → Type 0 };

    /// The mark stands behind these bodies.
    ghost marks: { Self.Mark → List (List ℕ) → Type 0 };

    /// All that was written and not taken yet. None where it can write no more.
    fn take(&mut self, spare: Self::Spare) -> Option<Self::Batch>
        requires idle { IsIdle (Self.writing self.old) }
        ensures log { Self.log self.new ≡ Self.log self.old }
        ensures writing { Self.writing self.new ≡ Self.writing self.old }
        ensures batch { IfSome result (λ batch. WroteUpTo (ends batch) (Self.writing self.old)) };

    /// How far it has written. None where it can write no more.
    fn mark(&self) -> Option<Self::Mark>
        ensures { IfSome result (λ mark. WroteUpTo (marks mark) (Self.writing self.now)) };
}
