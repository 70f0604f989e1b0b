// Jobs that are sent from a set on, one after another: each to the left end of the queue that its head names. One without a head is buried.
ghost use Rattle.std.specs.Prelude.{◌≡◌, ◌<◌, ◌≤◌, ◌+◌, ◌^◌, false, List, IfOk, OnOk, length, take};
ghost use Rattle.std.specs.Ordering.{is_eq};
ghost use Rattle.sk_base.specs.Score.{last_moment};
ghost use Rattle.sk_cmd.specs.declared.argument.Scored.TheVariants.{Dead};
ghost use Rattle.sk_places.specs.Rows.{place_cmp};
ghost use Rattle.sk_places.specs.declared.row.Place.TheVariants.{Set};
ghost use Rattle.sk_places.specs.declared.row.Row.{Row};
ghost use Rattle.sk_model.specs.Jobs.{each, promote};
ghost use Rattle.sk_store.specs.Stored.{InStep, world};
ghost use Rattle.sk_jobs.specs.Callbacks.{AreCovered};
ghost use Rattle.sk_jobs.specs.Routing.{Carries, Routes, RoutesFirst, StandsFirst, TakesFirst, set_rows};

use crate::dead::bury;
use crate::report::Report;
use sk_base::Score;
use sk_cmd::{Scored, Side};
use sk_places::Place;
use sk_resp::{Memory, Text};
use sk_store::Store;

/// The first job of a place goes to an end of a queue.
pub fn promote_to(store: &mut Store, place: &Place, queue: Text, end: Side) -> Result<(), Memory>
    requires { AreCovered store.old }
    ensures ok { OnOk result ((row : Row) (more : List Row) → StandsFirst place.now store.old row more → Carries store.old row queue end store.new) }
    ensures covered { OnOk result (AreCovered store.new) }
    ensures step { InStep store.old store.new }
{
    let (queue, score) = (Place::Queue(queue), Score::of_moment(0));
    store.places.shift(place, Side::Left, queue, score, end)?;
    Ok(())
}

// The first job of a set is sent on.
fn promote_first(store: &mut Store, set: Scored) -> Result<Report, Memory>
    requires early { store.old.moment ≤ last_moment }
    requires alive { is_eq (place_cmp (Set Dead) (Set set)) ≡ false }
    requires some { 0 < length (set_rows set (world store.old)) }
    requires covered { AreCovered store.old }
    ensures ok { IfOk result (λ report. RoutesFirst promote (Set set) store.old report store.new) }
    ensures left { OnOk result (TakesFirst (Set set) store.old store.new) }
    ensures one { IfOk result (λ report. report.moved + report.buried ≡ 1) }
    ensures covered { OnOk result (AreCovered store.new) }
    ensures step { InStep store.old store.new }
{
    let place = Place::Set(set);
    let Some((_, payload)) = store.places.end(&place, Side::Left) else {
        unreachable!()
    };
    match payload.head() {
        Some(head) => {
            let queue = head.queue_text(store.alloc)?;
            promote_to(store, &place, queue, Side::Left)?;
            Ok(Report::one_moved(store.alloc))
        }
        None => {
            let text = payload.text().copy()?;
            bury(store, &place, &text, None)
        }
    }
}

/// The first so many jobs of a set are sent on, one after another.
pub fn promote_front(store: &mut Store, set: Scored, count: usize) -> Result<Report, Memory>
    requires early { store.old.moment ≤ last_moment }
    requires alive { is_eq (place_cmp (Set Dead) (Set set)) ≡ false }
    requires some { count ≤ length (set_rows set (world store.old)) }
    requires few { count < 2 ^ 63 }
    requires covered { AreCovered store.old }
    ensures ok { IfOk result (λ report. Routes (λ w. each promote w (take count (set_rows set w))) store.old report store.new) }
    ensures few { IfOk result (λ report. report.moved + report.buried ≡ count) }
    ensures step { InStep store.old store.new }
{
    let mut report = Report::nothing(store.alloc);
    let mut left = count;
    while left > 0 {
        let one = promote_first(store, set)?;
        report.append(one)?;
        left -= 1;
    }
    Ok(report)
}
