// What names a shared log: the book of its history, what its file and disk were before, and what holds of all that leaders take.
ghost use Rattle.std.specs.Prelude.{⊤};

use std::marker::Brand;

/// Names a shared log, for contracts alone. A function over an id is called with `Brand` for it.
pub trait LogId {
    ghost use Rattle.std.specs.Prelude.{List, ℕ};
    ghost use Rattle.logbook.specs.Pages.{Book};
    ghost use Rattle.sk_log.specs.File.{Body};

    /// The book that keeps the history.
    ghost book: { Book };

    /// The file may have been a log of these bodies when it was handed over.
    ghost starts: { List Body → Type 0 };

    /// How often the file's disk had failed then,
    ghost faults: { ℕ };

    /// and at which moment of it that was.
    ghost since: { ℕ };

    /// It holds of the history at each moment at which a leader takes what waits.
    ghost holds: { List Body → Type 0 };
}

impl LogId for Brand {
    ghost book = { record { number = 0; log_name = 0; cells_name = 0 } };

    ghost starts = { λ _. ⊥ };

    ghost faults = { 0 };

    ghost since = { 0 };

    ghost holds = { λ _. ⊤ };
}
