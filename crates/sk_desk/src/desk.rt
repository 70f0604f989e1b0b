// One seat of a store, as a session has it.
ghost use Rattle.std.specs.Prelude.{◌≡◌, ℕ, List, Bool, true, false, None, Option, Ok};
ghost use Rattle.sk_cmd.specs.Table.{IsRead};
ghost use Rattle.sk_model.specs.Acked.{Acknowledges};
ghost use Rattle.sk_desk.specs.Calls.{AddsCall, call_of};
ghost use Rattle.sk_desk.specs.declared.call.Call.{Call};

use sk_cmd::Command;
use sk_resp::{Reply, Words};

/// One seat of a store.
pub trait Desk {
    /// Its calls are to be handed the words of their commands, since it keeps them.
    ghost wants_words: { Bool };

    /// How many rows its replies have acknowledged.
    ghost acked: { Self → ℕ };

    /// Its calls, in order, where it tells them.
    ghost calls: { Self → Option (List Call) };

    /// Whether its calls are to be handed the words of their commands. A desk that wants none may be handed any, as an empty list.
    fn wants_words(&self) -> bool
        ensures { result ≡ wants_words };

    /// Lets the store do the command at the moment `now`, in milliseconds since 1970, and answers its reply. The words are the command's, where the
    /// desk wants them.
    fn call(&mut self, words: &Words, command: Command, now: u64) -> Reply
        requires { wants_words ≡ true → IsRead words.now (Ok command) }
        ensures acked { Acknowledges command result (acked self.old) (acked self.new) }
        ensures told { AddsCall (calls self.old) (call_of words.now now result) (calls self.new) };

    /// Whether it takes a series of calls now, for which it keeps the store.
    fn takes_series(&self) -> bool {
        false
    }

    /// Does as [`Desk::call`], as one call of a series. The desk may keep the store for the next one, so that no other seat comes between, until
    /// [`Desk::end_series`].
    fn call_in_series(&mut self, words: &Words, command: Command, now: u64) -> Reply
        requires { wants_words ≡ true → IsRead words.now (Ok command) }
        ensures acked { Acknowledges command result (acked self.old) (acked self.new) }
        ensures told { AddsCall (calls self.old) (call_of words.now now result) (calls self.new) }
    {
        self.call(words, command, now)
    }

    /// Lets the store go, where a call of a series has kept it.
    fn end_series(&mut self)
        ensures { self.new ≡ self.old }
    {}

    /// A desk that wants no words tells no calls.
    ghost untold: { (desk : Self) → wants_words ≡ false → calls desk ≡ None };
}
