// What the name of a key means to the store. Nothing here takes memory.
ghost use Rattle.std.specs.Prelude.{◌≡◌, ◌≤◌, ◌&&◌, ◌||◌, drop, length, true};
ghost use Rattle.sk_key.specs.Class.{class_of, counter_of, ident_of, is_queue as names_queue, private_key, queue_of, set_of};
ghost use Rattle.std.specs.Str.{bytes_eq};
ghost use Rattle.sk_payload.specs.Member.{is_name};

use sk_base::limits::LONGEST_NAME;
use sk_cmd::Scored;
use sk_resp::{Text, Word};

/// What the name of a key means to the store.
#[derive(Clone, Copy)]
pub enum KeyClass {
    /// A key of the clients' own.
    Plain,
    /// `queue:` and a name of at most 255 bytes: the jobs of a queue.
    Queue,
    /// `queue:` and what is no name. Nothing is ever there.
    NoQueue,
    /// `queues`: the set of the queues' names.
    Queues,
    /// `sq:` and a name of at most 255 bytes: the private list of the worker process of this identity.
    Private,
    /// `sq:` and what is no name. Nothing is ever there.
    NoPrivate,
    /// `processes`: the set of the identities of the processes whose heartbeats stand.
    Processes,
    /// `schedule`, `retry`, `dead`: a set of jobs with scores.
    Jobs(Scored),
    /// `stat:` and more: a counter, if there is one of this name.
    Counter,
}

/// A name of a queue or the identity of a process: 1 to 255 bytes of UTF-8 text without control characters.
pub fn is_name(name: &[u8]) -> bool
    ensures { result ≡ is_name LONGEST_NAME name.now }
{
    sk_base::is_name(name, LONGEST_NAME)
}

// The set of jobs that a key names.
fn set_of(key: &[u8]) -> Option<Scored>
    ensures { result ≡ set_of key.now }
{
    if key == b"schedule".as_slice() {
        return Some(Scored::Schedule);
    }
    if key == b"retry".as_slice() {
        return Some(Scored::Retry);
    }
    if key == b"dead".as_slice() {
        return Some(Scored::Dead);
    }
    None
}

/// What the name of a key means.
#[tactic(auto, unfolding(crate::specs::Class::class_of))]
pub fn class_of(key: &[u8]) -> KeyClass
    ensures { result ≡ class_of key.now }
{
    if key.starts_with(b"queue:") {
        if is_name(&key[6..]) {
            return KeyClass::Queue;
        }
        return KeyClass::NoQueue;
    }
    if key.starts_with(b"sq:") {
        if is_name(&key[3..]) {
            return KeyClass::Private;
        }
        return KeyClass::NoPrivate;
    }
    if key == b"queues".as_slice() {
        return KeyClass::Queues;
    }
    if key == b"processes".as_slice() {
        return KeyClass::Processes;
    }
    if key.starts_with(b"stat:") {
        return KeyClass::Counter;
    }
    match set_of(key) {
        Some(set) => KeyClass::Jobs(set),
        None => KeyClass::Plain,
    }
}

// What stands behind the first bytes of a key, so many.
fn behind(key: Word, count: usize) -> Word
    ensures { result ≡ drop count key }
{
    let mut bytes = key.into_bytes();
    let rest = bytes.len().saturating_sub(count);
    if rest == 0 {
        bytes.clear();
        return Word::new(bytes);
    }
    bytes.copy_within(count.., 0);
    bytes.truncate(rest);
    Word::new(bytes)
}

/// A name as text. Takes no memory.
#[tactic(auto, using(crate::proofs::Named::name_is_text))]
pub fn name_text(name: Word) -> Text
    requires { is_name LONGEST_NAME name ≡ true }
    ensures { result ≡ name }
{
    Text::new(unsafe { String::from_utf8_unchecked(name.into_bytes()) }) // A name is UTF-8, which the proof shows.
}

/// The name of the queue that a key means: what stands behind `queue:`.
pub fn queue_of(key: Word) -> Text
    requires { names_queue (class_of key) ≡ true }
    ensures { result ≡ queue_of key }
{
    name_text(behind(key, 6))
}

/// The identity of the process whose private list a key means: what stands behind `sq:`.
pub fn ident_of(key: Word) -> Word
    ensures { result ≡ ident_of key }
{
    behind(key, 3)
}

/// The name of the counter that a key means: what stands behind `stat:`.
pub fn counter_of(key: Word) -> Word
    ensures { result ≡ counter_of key }
{
    behind(key, 5)
}

/// The key is that of a queue.
pub fn is_queue(key: &[u8]) -> bool
    ensures { result ≡ names_queue (class_of key.now) }
{
    match class_of(key) {
        KeyClass::Queue => true,
        _ => false,
    }
}

/// The key is that of the private list of this process.
pub fn is_list_of(ident: &[u8], key: &[u8]) -> bool
    ensures { result ≡ bytes_eq key.now (private_key ident.now) }
{
    key.starts_with(b"sq:") && &key[3..] == ident
}
