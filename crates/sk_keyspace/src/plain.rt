// The commands on keys of the clients' own, and what is refused on others.
ghost use Rattle.std.specs.Prelude.{◌≡◌, ◌≢◌, IfOk, IfErr, IsErr, OnErr, OnOk};
ghost use Rattle.sk_key.specs.Class.{class_of};
ghost use Rattle.sk_model.specs.Outcome.{reply_of};
ghost use Rattle.sk_model.specs.Step.{on_keys, on_plain};
ghost use Rattle.sk_store.specs.Stored.{IsReady, Executes, world};
ghost use Rattle.sk_value.specs.Answer.{Answer, AnswersWith, fault_say};

use sk_cmd::SetOptions;
use sk_key::{KeyClass, class_of};
use sk_resp::{Memory, Refusal, Reply, Say, Word};
use sk_store::Store;
use sk_value::{Action, KeysFault, refused};

/// The refusal of a write on a managed key.
pub fn managed_key() -> Reply
    ensures { result ≡ Reply.Say (Say.Refused Refusal.ManagedKey) }
{
    refused(Refusal::ManagedKey)
}

// The text of a fault as a reply. Want of memory is none.
fn told(fault: KeysFault) -> Result<Reply, Memory>
    ensures known { IfOk result (λ reply. reply ≡ Reply.Say (fault_say fault)) }
    ensures refused { OnOk result (fault ≢ KeysFault.Memory) }
{
    match fault {
        KeysFault::WrongType => Ok(Reply::Say(Say::WrongType)),
        KeysFault::NotInt => Ok(Reply::Say(Say::NotInt)),
        KeysFault::Overflow => Ok(Reply::Say(Say::Overflow)),
        KeysFault::BadExpire => Ok(Reply::Say(Say::BadExpire)),
        KeysFault::Memory => Err(Memory),
    }
}

/// The reply that an answer of the plain keys is, or the text of its fault; only want of memory stays an error.
pub fn answered(answer: Result<Reply, KeysFault>) -> Result<Reply, Memory>
    ensures reply { IfOk result (λ reply. (due : Answer) → AnswersWith due answer → reply ≡ reply_of due) }
    ensures refused { OnOk result (IfErr answer (λ fault. fault ≢ KeysFault.Memory)) }
    ensures err { OnErr result (IsErr answer) }
{
    match answer {
        Ok(reply) => Ok(reply),
        Err(fault) => told(fault),
    }
}

/// Does an action to the plain keys. A refusal is a reply, and leaves them as they were.
pub fn do_on_keys(store: &mut Store, action: Action) -> Result<Reply, Memory>
    requires { IsReady store.old }
    ensures { Executes store.old (on_keys (world store.old) action) result store.new }
{
    answered(store.keys.act(store.moment, action))
}

// Does it, where the key is plain. Another is refused.
fn do_on_plain(store: &mut Store, action: Action, class: KeyClass) -> Result<Reply, Memory>
    requires { IsReady store.old }
    ensures { Executes store.old (on_plain (world store.old) action class) result store.new }
{
    match class {
        KeyClass::Plain => do_on_keys(store, action),
        _ => Ok(managed_key()),
    }
}

/// Sets a key to a text, where the key is plain. Another is refused.
pub fn set(store: &mut Store, key: Word, text: Word, options: SetOptions) -> Result<Reply, Memory>
    requires { IsReady store.old }
    ensures { Executes store.old (on_plain (world store.old) (Action.Set key text options) (class_of key)) result store.new }
{
    let class = class_of(key.bytes());
    do_on_plain(store, Action::Set(key, text, options), class)
}

/// Gives a key its span of life in milliseconds, where the key is plain. Another is refused.
pub fn expire(store: &mut Store, key: Word, millis: i64) -> Result<Reply, Memory>
    requires { IsReady store.old }
    ensures { Executes store.old (on_plain (world store.old) (Action.Expire key millis) (class_of key)) result store.new }
{
    let class = class_of(key.bytes());
    do_on_plain(store, Action::Expire(key, millis), class)
}

/// Deletes a key that holds exactly this string, where the key is plain. Another is refused.
pub fn give(store: &mut Store, key: Word, text: Word) -> Result<Reply, Memory>
    requires { IsReady store.old }
    ensures { Executes store.old (on_plain (world store.old) (Action.Give key text) (class_of key)) result store.new }
{
    let class = class_of(key.bytes());
    do_on_plain(store, Action::Give(key, text), class)
}
