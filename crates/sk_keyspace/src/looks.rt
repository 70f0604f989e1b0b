// The commands that read one key: a plain key, a queue, a private list, a set of jobs, the set of the queues' names, the set of processes, or a
// counter.
ghost use Rattle.std.specs.Prelude.{◌≡◌, ◌<◌, ◌^◌, ℕ, IfOk, Some, length, map, option_map, slice_get};
ghost use Rattle.std.specs.Option.{is_some};
ghost use Rattle.sk_counters.specs.Counters.{count_in};
ghost use Rattle.sk_key.specs.Class.{counter_of};
ghost use Rattle.sk_leases.specs.Leased.{idents};
ghost use Rattle.sk_model.specs.Held.{count_entry, held, if_any};
ghost use Rattle.sk_model.specs.Outcome.{reply_of, says};
ghost use Rattle.sk_places.specs.Rows.{pair_of, rows_at, texts_at};
ghost use Rattle.sk_places.specs.declared.row.Place.TheVariants.{Set};
ghost use Rattle.sk_resp.specs.Reply.{wire};
ghost use Rattle.sk_resp.specs.Spelling.{bulk};
ghost use Rattle.sk_resp.specs.WordOrder.{is_member};
ghost use Rattle.sk_store.specs.Stored.{IsReady, Executes, world};
ghost use Rattle.sk_value.specs.Answer.{AnswersWith, counted, texts};
ghost use Rattle.sk_value.specs.Keys.{how_many};
ghost use Rattle.sk_value.specs.Lists.{range_of};
ghost use Rattle.sk_value.specs.Values.{look_at};
ghost use Rattle.sk_value.specs.declared.value.Value.TheVariants as value;

use crate::jobs::Jobs;
use crate::plain::answered;
use sk_cmd::Scored;
use sk_counters::Counters;
use sk_key::{KeyClass, class_of, counter_of, ident_of, queue_of};
use sk_leases::Leases;
use sk_places::{Place, Places};
use sk_resp::{Kind, Memory, Replies, Reply, Say, Word, Words};
use sk_store::Store;
use sk_value::{
    Action, Entry, KeysFault, Pairs, ReadOp, Value, as_reply, counted, end_index, first_index,
    look_sorted, one_if,
};
use std::alloc::Global;

// The texts from the first index to the last, both included.
fn range(
    alloc: Global,
    places: &Places,
    place: &Place,
    first: i64,
    last: i64,
) -> Result<Reply, Memory>
    ensures { IfOk result (λ reply. reply ≡ texts (range_of first last (texts_at place.now places.now.current.rows))) }
{
    let count = places.len(place);
    let start = first_index(first, count);
    let end = end_index(last, count);
    let part = places.texts(alloc, place, start, end)?;
    as_reply(alloc, part)
}

// What a command that reads a key answers of a queue's jobs, of which there is one at least.
fn look_jobs(
    alloc: Global,
    places: &Places,
    place: &Place,
    look: &ReadOp,
) -> Result<Reply, KeysFault>
    requires { 0 < length (texts_at place.now places.now.current.rows) }
    ensures { (now : ℕ) → AnswersWith (look_at now look.now (if_any value.List (texts_at place.now places.now.current.rows))) result }
{
    match look {
        ReadOp::KindOf => Ok(Reply::Say(Say::Kind(Kind::List))),
        ReadOp::Pttl => Ok(Reply::Int(-1)),
        ReadOp::Llen => Ok(counted(places.len(place))),
        ReadOp::Lrange(first, last) => Ok(range(alloc, places, place, *first, *last)?),
        _ => Err(KeysFault::WrongType),
    }
}

// What a command that reads a key answers of a queue. One without jobs is no key.
fn look_queue(
    alloc: Global,
    places: &Places,
    place: &Place,
    look: &ReadOp,
) -> Result<Reply, KeysFault>
    ensures { (now : ℕ) → AnswersWith (look_at now look.now (if_any value.List (texts_at place.now places.now.current.rows))) result }
{
    if places.len(place) == 0 {
        return Ok(look.absent(alloc));
    }
    look_jobs(alloc, places, place, look)
}

// What it answers of a set of jobs. One without jobs is no key.
fn look_set(alloc: Global, places: &Places, set: Scored, look: &ReadOp) -> Result<Reply, KeysFault>
    ensures { (now : ℕ) → AnswersWith (look_at now look.now (if_any value.Sorted (map pair_of (rows_at (Set set) places.now.current.rows)))) result }
{
    let jobs = Jobs { places, set };
    if jobs.len() == 0 {
        return Ok(look.absent(alloc));
    }
    match look {
        ReadOp::KindOf => Ok(Reply::Say(Say::Kind(Kind::Sorted))),
        ReadOp::Pttl => Ok(Reply::Int(-1)),
        _ => look_sorted(alloc, &jobs, look),
    }
}

// The name at an index.
fn copy_name(alloc: Global, places: &Places, at: usize) -> Result<Word, Memory>
    requires { at < length places.now.current.names }
    ensures { IfOk result (λ name. slice_get places.now.current.names at ≡ Some name) }
{
    match places.name_at(at) {
        Some(name) => Ok(Word::new(name.as_bytes().to_vec(alloc)?)),
        None => unreachable!(),
    }
}

// The names in order, as replies.
#[tactic(auto, using(crate::proofs::Looking::one_more_name, crate::proofs::Looking::all_names))]
fn copies(alloc: Global, places: &Places) -> Result<Vec<Reply>, Memory>
    ensures { IfOk result (λ replies. map wire replies.items ≡ map bulk places.now.current.names) }
{
    let count = places.name_count();
    let mut replies = Vec::with_capacity(alloc, count)?;
    for at in 0..count {
        replies.push(Reply::Bulk(copy_name(alloc, places, at)?))?;
    }
    Ok(replies)
}

// What it answers of the set of the queues' names, of which there is one at least.
fn look_some_names(alloc: Global, places: &Places, look: &ReadOp) -> Result<Reply, KeysFault>
    requires { 0 < length places.now.current.names }
    ensures { (now : ℕ) → AnswersWith (look_at now look.now (if_any value.Set places.now.current.names)) result }
{
    match look {
        ReadOp::KindOf => Ok(Reply::Say(Say::Kind(Kind::Set))),
        ReadOp::Pttl => Ok(Reply::Int(-1)),
        ReadOp::Smembers => Ok(Reply::Array(Replies::new(copies(alloc, places)?))),
        ReadOp::Scard => Ok(counted(places.name_count())),
        ReadOp::Sismember(name) => Ok(one_if(places.is_queue(name))),
        _ => Err(KeysFault::WrongType),
    }
}

// The same of any number of names.
fn look_names(alloc: Global, places: &Places, look: &ReadOp) -> Result<Reply, KeysFault>
    ensures { (now : ℕ) → AnswersWith (look_at now look.now (if_any value.Set places.now.current.names)) result }
{
    if places.name_count() == 0 {
        return Ok(look.absent(alloc));
    }
    look_some_names(alloc, places, look)
}

// What it answers of the identities of the processes that are alive, of which there is one at least.
fn look_some_idents(alloc: Global, idents: Vec<Word>, look: &ReadOp) -> Result<Reply, KeysFault>
    requires { 0 < length idents.items }
    ensures { (now : ℕ) → AnswersWith (look_at now look.now (if_any value.Set idents.items)) result }
{
    match look {
        ReadOp::KindOf => Ok(Reply::Say(Say::Kind(Kind::Set))),
        ReadOp::Pttl => Ok(Reply::Int(-1)),
        ReadOp::Smembers => Ok(as_reply(alloc, idents)?),
        ReadOp::Scard => Ok(counted(idents.len())),
        ReadOp::Sismember(ident) => Ok(one_if(is_among(ident, &idents))),
        _ => Err(KeysFault::WrongType),
    }
}

// The word is one of these.
fn is_among(word: &Word, words: &[Word]) -> bool
    ensures { result ≡ is_member word.now words.now }
{
    words.iter().any(|other| word.cmp(other).is_eq())
}

// The same of any number of processes. Whether one is alive is asked of the leases, without a list of all.
fn look_idents(
    alloc: Global,
    moment: u64,
    leases: &Leases,
    look: &ReadOp,
) -> Result<Reply, KeysFault>
    ensures { (now : ℕ) → AnswersWith (look_at now look.now (if_any value.Set (idents moment leases.now.current))) result }
{
    if let ReadOp::Sismember(ident) = look {
        return Ok(one_if(leases.alive(ident, moment)));
    }
    let list = leases.idents(alloc, moment)?;
    if list.is_empty() {
        return Ok(look.absent(alloc));
    }
    look_some_idents(alloc, list, look)
}

// The count of the counter that the key means, where it was ever raised.
fn count_of(counters: &Counters, key: Word) -> Option<u64>
    ensures { result ≡ count_in counters.now.current (counter_of key) }
{
    counters.get(counter_of(key).bytes())
}

// A count as a string without a deadline.
fn count_entry(alloc: Global, count: u64) -> Result<Entry, Memory>
    ensures { IfOk result (λ entry. entry ≡ count_entry count) }
{
    let spelling = count.to_string(alloc)?;
    Ok(Entry {
        value: Value::String(Word::new(spelling.into_bytes())),
        deadline: None,
    })
}

// What it answers of a counter.
fn look_count(
    alloc: Global,
    moment: u64,
    count: Option<u64>,
    look: &ReadOp,
) -> Result<Reply, KeysFault>
    ensures { AnswersWith (look_at moment look.now (option_map count_entry count)) result }
{
    match count {
        Some(count) => count_entry(alloc, count)?.look(alloc, moment, look),
        None => Ok(look.absent(alloc)),
    }
}

/// Reads one key, plain or managed.
pub fn look(store: &mut Store, key: Word, look: ReadOp) -> Result<Reply, Memory>
    requires { IsReady store.old }
    ensures { Executes store.old (says (reply_of (look_at store.old.moment look (held (world store.old) key)))) result store.new }
{
    let (alloc, moment, places) = (store.alloc, store.moment, &store.places);
    match class_of(key.bytes()) {
        KeyClass::Plain => answered(store.keys.act(moment, Action::ReadOp(key, look))),
        KeyClass::Queue => answered(look_queue(alloc, places, &Place::Queue(queue_of(key)), &look)),
        KeyClass::Queues => answered(look_names(alloc, places, &look)),
        KeyClass::Private => {
            answered(look_queue(alloc, places, &Place::Private(ident_of(key)), &look))
        }
        KeyClass::Processes => answered(look_idents(alloc, moment, &store.leases, &look)),
        KeyClass::Jobs(set) => answered(look_set(alloc, places, set, &look)),
        KeyClass::Counter => {
            answered(look_count(alloc, moment, count_of(&store.counters, key), &look))
        }
        _ => Ok(look.absent(alloc)),
    }
}

// Whether the key is there.
fn has(store: &Store, key: Word) -> Result<bool, Memory>
    ensures { IfOk result (λ there. there ≡ is_some (held (world store.now) key)) }
{
    let places = &store.places;
    match class_of(key.bytes()) {
        KeyClass::Plain => Ok(store.keys.has(&key)),
        KeyClass::Queue => Ok(places.len(&Place::Queue(queue_of(key))) > 0),
        KeyClass::Queues => Ok(places.name_count() > 0),
        KeyClass::Private => Ok(places.len(&Place::Private(ident_of(key))) > 0),
        KeyClass::Processes => Ok(store.leases.alive_count(store.moment) > 0),
        KeyClass::Jobs(set) => Ok(places.len(&Place::Set(set)) > 0),
        KeyClass::Counter => Ok(count_of(&store.counters, key).is_some()),
        _ => Ok(false),
    }
}

// How many of the words name a key that is there.
fn count_there(store: &Store, names: Vec<Word>) -> Result<usize, Memory>
    ensures count { IfOk result (λ count. count ≡ how_many (held (world store.now)) names.items) }
    ensures small { IfOk result (λ count. count < 2 ^ 63) }
{
    let mut count = 0usize;
    for name in names {
        if has(store, name)? {
            count += 1;
        }
    }
    Ok(count)
}

/// EXISTS key .. (Redis, "EXISTS")
pub fn exists(store: &Store, names: Words) -> Result<Reply, Memory>
    requires { IsReady store.now }
    ensures { Executes store.now (says (counted (how_many (held (world store.now)) names))) result store.now }
{
    let count = count_there(store, names.into_list())?;
    Ok(counted(count))
}
