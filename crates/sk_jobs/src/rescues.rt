// SK.RESCUE: the jobs of processes that are gone go back to their queues (Sidekiq's wiki, "Reliability").
ghost use Rattle.std.specs.Prelude.{◌≡◌, ◌∷◌, [], ◌<◌, ◌≤◌, ◌+◌, ◌^◌, false, IfOk, OnOk, length, option_map};
ghost use Rattle.std.specs.Ordering.{is_eq};
ghost use Rattle.sk_base.specs.Score.{last_moment};
ghost use Rattle.sk_cmd.specs.declared.argument.Scored.TheVariants.{Dead};
ghost use Rattle.sk_places.specs.Rows.{place_cmp, rows_at};
ghost use Rattle.sk_places.specs.declared.row.Place.TheVariants.{Set};
ghost use Rattle.sk_places.specs.declared.row.Row.{Row};
ghost use Rattle.sk_model.specs.Jobs.{each};
ghost use Rattle.sk_model.specs.Outcome.{Realizes};
ghost use Rattle.sk_model.specs.Rescue.{left_rows, rescue, rescue_row};
ghost use Rattle.sk_store.specs.Stored.{InStep, world};
ghost use Rattle.sk_jobs.specs.Callbacks.{AreCovered};
ghost use Rattle.sk_jobs.specs.Rescuing.{BuriesPoison, IsNext, IsPassed, own_rows};
ghost use Rattle.sk_jobs.specs.Routing.{IsNamed, Routes, RoutesFirst, Takes, TakesFirst};

use crate::callbacks::member_of;
use crate::dead::bury;
use crate::promotion::promote_to;
use crate::report::Report;
use sk_base::limits::MOST_RECOVERIES;
use sk_cmd::Side;
use sk_payload::JobText;
use sk_places::Place;
use sk_resp::{Memory, Reply, Word};
use sk_store::Store;

// A job that was recovered too often is buried, and its recoveries are forgotten.
fn bury_poison(store: &mut Store, list: &Place, payload: &JobText) -> Result<Report, Memory>
    requires early { store.old.moment ≤ last_moment }
    requires alive { is_eq (place_cmp (Set Dead) list.now) ≡ false }
    requires covered { AreCovered store.old }
    ensures ok { IfOk result (λ report. (row : Row) → IsNamed payload.now list.now store.old row → BuriesPoison store.old row report store.new) }
    ensures one { IfOk result (λ report. report.moved + report.buried ≡ 1) }
    ensures left { OnOk result ((row : Row) → IsNamed payload.now list.now store.old row → Takes (row ∷ []) store.old store.new) }
    ensures covered { OnOk result (AreCovered store.new) }
    ensures step { InStep store.old store.new }
{
    let member = member_of(store.alloc, payload)?;
    let report = bury(store, list, payload.text(), member)?;
    if let Some(head) = payload.head() {
        let jid = head.jid_text(store.alloc)?;
        store.leases.forget(&jid)?;
    }
    Ok(report)
}

// The first job of a list goes back to its queue, to be fetched first. At its third recovery, or without a head, it is buried.
fn rescue_first(store: &mut Store, list: &Place) -> Result<Report, Memory>
    requires early { store.old.moment ≤ last_moment }
    requires alive { is_eq (place_cmp (Set Dead) list.now) ≡ false }
    requires some { 0 < length (rows_at list.now (world store.old).rows) }
    requires covered { AreCovered store.old }
    ensures ok { IfOk result (λ report. RoutesFirst rescue_row list.now store.old report store.new) }
    ensures one { IfOk result (λ report. report.moved + report.buried ≡ 1) }
    ensures left { OnOk result (TakesFirst list.now store.old store.new) }
    ensures covered { OnOk result (AreCovered store.new) }
    ensures step { InStep store.old store.new }
{
    let Some((_, payload)) = store.places.end(list, Side::Left) else {
        unreachable!()
    };
    let Some(head) = payload.head() else {
        let text = payload.text().copy()?;
        return bury(store, list, &text, None);
    };
    let jid = head.jid_text(store.alloc)?;
    let recoveries = store.leases.recovered(&jid, store.moment)?;
    if recoveries >= MOST_RECOVERIES {
        let payload = payload.copy()?;
        return bury_poison(store, list, &payload);
    }
    let queue = head.queue_text(store.alloc)?;
    promote_to(store, list, queue, Side::Right)?;
    Ok(Report::one_moved(store.alloc))
}

// The jobs of a process go back to their queues, one after another.
fn rescue_list(store: &mut Store, ident: Word) -> Result<Report, Memory>
    requires early { store.old.moment ≤ last_moment }
    requires covered { AreCovered store.old }
    ensures ok { IfOk result (λ report. Routes (λ w. each rescue_row w (own_rows ident w)) store.old report store.new) }
    ensures few { IfOk result (λ report. report.moved + report.buried ≡ length (own_rows ident (world store.old))) }
    ensures left { OnOk result (Takes (own_rows ident (world store.old)) store.old store.new) }
    ensures covered { OnOk result (AreCovered store.new) }
    ensures step { InStep store.old store.new }
{
    let list = Place::Private(ident);
    let mut report = Report::nothing(store.alloc);
    let mut left = store.places.len(&list);
    while left > 0 {
        let one = rescue_first(store, &list)?;
        report.append(one)?;
        left -= 1;
    }
    Ok(report)
}

// A copy of the first identity behind this one, by its bytes, of a process without a heartbeat that has a private list with a job.
fn next_gone(store: &Store, after: Option<&Word>) -> Result<Option<Word>, Memory>
    requires { IsPassed (option_map (λ word. word.now) after) (world store.now) }
    ensures { IfOk result (λ ident. IsNext ident (world store.now)) }
{
    let mut passed = after;
    while let Some(ident) = store.places.next_ident(passed) {
        if !store.leases.alive(ident, store.moment) {
            let gone = ident.copy()?;
            return Ok(Some(gone));
        }
        passed = Some(ident);
    }
    Ok(None)
}

// The jobs of all processes that are gone go back to their queues.
fn rescue_all(store: &mut Store) -> Result<Report, Memory>
    requires early { store.old.moment ≤ last_moment }
    requires covered { AreCovered store.old }
    ensures ok { IfOk result (λ report. Routes (λ w. each rescue_row w (left_rows w)) store.old report store.new) }
    ensures few { IfOk result (λ report. report.moved + report.buried < 2 ^ 63) }
    ensures step { InStep store.old store.new }
{
    let _count = store.places.row_count(); // for what it says of their number
    let mut report = Report::nothing(store.alloc);
    let mut after: Option<Word> = None;
    while let Some(ident) = next_gone(store, after.as_ref())? {
        let passed = ident.copy()?;
        let more = rescue_list(store, ident)?;
        report.append(more)?;
        after = Some(passed);
    }
    Ok(report)
}

/// What SK.RESCUE does in its step. After want of memory some of it is done.
pub fn rescue_open(store: &mut Store) -> Result<Reply, Memory>
    requires early { store.old.moment ≤ last_moment }
    requires covered { AreCovered store.old }
    ensures ok { IfOk result (λ reply. Realizes (world store.old) (rescue (world store.old)) reply (world store.new)) }
    ensures step { InStep store.old store.new }
{
    let report = rescue_all(store)?;
    report.into_reply(store.alloc)
}
