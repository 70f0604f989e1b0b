// The dead set: a job is buried there with the moment as its score, and then the set drops what it keeps no longer, and no more.
ghost use Rattle.std.specs.Prelude.{◌≡◌, ◌∷◌, [], ◌<◌, ◌≤◌, ◌*◌, ◌+ℤ◌, pos, false, IfOk, OnOk, length, take};
ghost use Rattle.std.specs.Ordering.{is_eq};
ghost use Rattle.sk_base.specs.Score.{last_moment};
ghost use Rattle.sk_cmd.specs.declared.argument.Scored.TheVariants.{Dead};
ghost use Rattle.sk_places.specs.Rows.{place_cmp};
ghost use Rattle.sk_places.specs.declared.row.Place.TheVariants.{Set};
ghost use Rattle.sk_places.specs.declared.row.Row.{Row};
ghost use Rattle.sk_model.specs.Change.{perform};
ghost use Rattle.sk_model.specs.Jobs.{buried_by, bury, kept_for, surplus};
ghost use Rattle.sk_store.specs.Stored.{InStep, world};
ghost use Rattle.sk_jobs.specs.Callbacks.{AreCovered, member_of};
ghost use Rattle.sk_jobs.specs.Routing.{IsNamed, PutsDead, Routes, Takes, Trims, dead_rows, texts_of, trims};
ghost use Rattle.sk_resp.specs.Spelling.{Bytes};

use crate::callbacks::notify;
use crate::report::Report;
use sk_base::limits::{DEAD_LIFE, MOST_DEAD};
use sk_base::{Bound, Score};
use sk_batch::{Event, Member};
use sk_cmd::{Scored, Side};
use sk_places::Place;
use sk_resp::{Memory, Word};
use sk_store::Store;

// The score of what has been there for 180 days.
fn oldest(moment: u64) -> Score
    requires { moment ≤ last_moment }
    ensures { result +ℤ kept_for ≡ pos (moment * 1000) }
{
    Score::of_micros(moment as i64 * 1000 - DEAD_LIFE)
}

/// How many jobs the dead set drops. They stand in front.
pub fn surplus_count(store: &Store) -> usize
    requires { store.now.moment ≤ last_moment }
    ensures is { surplus (world store.now) (dead_rows (world store.now)) ≡ take result (dead_rows (world store.now)) }
    ensures within { result ≤ length (dead_rows (world store.now)) }
{
    let bound = Bound::At(oldest(store.moment));
    let (_, old) = store.places.range_of(Scored::Dead, Bound::Low, bound);
    let count = store.places.len(&Place::Set(Scored::Dead));
    old.max(count.saturating_sub(MOST_DEAD))
}

// The dead set drops the job at its left end. Gives its text.
fn trim_first(store: &mut Store) -> Result<Word, Memory>
    requires { 0 < length (dead_rows (world store.old)) }
    ensures ok { IfOk result (λ text. Trims store.old text store.new) }
    ensures step { InStep store.old store.new }
{
    let dead = Place::Set(Scored::Dead);
    let Some((_, payload)) = store.places.end(&dead, Side::Left) else {
        unreachable!()
    };
    let text = payload.text().copy()?;
    store.places.trim_end(&dead, Side::Left)?;
    Ok(text)
}

/// The dead set drops its first so many jobs. Gives their texts. After want of memory some of them are gone.
pub fn trim_front(store: &mut Store, count: usize) -> Result<Vec<Word>, Memory>
    requires { count ≤ length (dead_rows (world store.old)) }
    ensures texts { IfOk result (λ gone. gone.items ≡ texts_of (take count (dead_rows (world store.old)))) }
    ensures ok { OnOk result (world store.new ≡ perform (world store.old) (trims (take count (dead_rows (world store.old))))) }
    ensures aside { OnOk result (Takes [] store.old store.new) }
    ensures step { InStep store.old store.new }
{
    let mut gone = Vec::new(store.alloc);
    let mut left = count;
    while left > 0 {
        gone.push(trim_first(store)?)?;
        left -= 1;
    }
    Ok(gone)
}

// The first job of a text goes from its place to the dead set. One of the same text there becomes one with it.
fn put_dead(store: &mut Store, from: &Place, text: &Word) -> Result<(), Memory>
    requires early { store.old.moment ≤ last_moment }
    requires alive { is_eq (place_cmp (Set Dead) from.now) ≡ false }
    requires covered { AreCovered store.old }
    ensures ok { OnOk result ((row : Row) → IsNamed text.now from.now store.old row → PutsDead store.old row store.new) }
    ensures covered { OnOk result (AreCovered store.new) }
    ensures step { InStep store.old store.new }
{
    let dead = Place::Set(Scored::Dead);
    let score = Score::of_moment(store.moment);
    let places = &mut store.places;
    places.drop_text(&dead, text.bytes())?;
    places.shift_text(from, text.bytes(), dead, score, Side::Left)?;
    Ok(())
}

/// Once something was buried: the dead set drops what it keeps no longer, and no more, and the batch is told.
pub fn bury_put(store: &mut Store, member: Option<Member>) -> Result<Report, Memory>
    requires early { store.old.moment ≤ last_moment }
    requires covered { AreCovered store.old }
    ensures ok { IfOk result (λ report. (text : Bytes) → member ≡ member_of text → Routes (λ w. buried_by w text []) store.old report store.new) }
    ensures one { IfOk result (λ report. (report.moved ≡ 0) × (report.buried ≡ 1)) }
    ensures aside { OnOk result (Takes [] store.old store.new) }
    ensures covered { OnOk result (AreCovered store.new) }
    ensures step { InStep store.old store.new }
{
    let count = surplus_count(store);
    let trimmed = trim_front(store, count)?;
    let fired = notify(store, Event::Died, member)?;
    Ok(Report {
        moved: 0,
        buried: 1,
        fired,
        trimmed,
    })
}

/// The first job of a text goes from its place to the dead set, which then drops what it keeps no longer, and no more. Its batch is told.
pub fn bury(
    store: &mut Store,
    from: &Place,
    text: &Word,
    member: Option<Member>,
) -> Result<Report, Memory>
    requires early { store.old.moment ≤ last_moment }
    requires alive { is_eq (place_cmp (Set Dead) from.now) ≡ false }
    requires member { member ≡ member_of text.now }
    requires covered { AreCovered store.old }
    ensures ok { IfOk result (λ report. (row : Row) → IsNamed text.now from.now store.old row → Routes (λ w. bury w row) store.old report store.new) }
    ensures one { IfOk result (λ report. (report.moved ≡ 0) × (report.buried ≡ 1)) }
    ensures left { OnOk result ((row : Row) → IsNamed text.now from.now store.old row → Takes (row ∷ []) store.old store.new) }
    ensures covered { OnOk result (AreCovered store.new) }
    ensures step { InStep store.old store.new }
{
    put_dead(store, from, text)?;
    bury_put(store, member)
}
