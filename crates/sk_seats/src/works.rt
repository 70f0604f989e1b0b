// The jobs in a worker's hands, in order of fetching. There is room for all of them from the first on, so that no edit takes memory.
ghost use Rattle.std.specs.Prelude.{◌≡◌, ◌<◌, ◌≤◌, ◌++◌, ◌∷◌, [], IfOk, IfSome, Some, length, nat_lt, not, remove, slice_get};
ghost use Rattle.sk_seats.specs.Works.{held, is_buried_as, is_done_as, is_held_as, is_held as is_held_stage, is_retried_as, may_bury, most_works, staged_at};
ghost use Rattle.std.specs.List.{position};

use crate::work::{Stage, Work};
use sk_base::limits::MOST_PREFETCH;
use sk_payload::JobText;
use sk_resp::{Memory, Word};
use std::alloc::Global;
use std::marker::Model;

/// At most sixteen jobs in a worker's hands. Contracts see them as a list, in order of fetching.
#[derive(Drop)]
pub struct Works {
    list: Vec<Work>,
}

impl Model for Works {
    ghost use Rattle.std.specs.Prelude.{List};
    ghost use Rattle.sk_seats.specs.declared.work.Work.{Work};

    ghost Value = { List Work };

    ghost view = { λ w. w.list.items };

    ghost use Rattle.sk_seats.specs.Seats.{HaveRoom};

    ghost invariant = { HaveRoom };
}

fn is_held(stage: Stage) -> bool
    ensures { result ≡ is_held_stage stage }
{
    match stage {
        Stage::Held => true,
        _ => false,
    }
}

// A failed text may be buried, and a payload itself that has no head.
fn may_bury(payload: &JobText, next: &JobText) -> bool
    ensures { result ≡ may_bury payload.now next.now }
{
    let is_same = payload.text().bytes() == next.text().bytes();
    payload.is_followed_by(next) || is_same && payload.head().is_none()
}

impl Works {
    /// No job, and room for sixteen.
    pub(crate) fn new(alloc: Global) -> Result<Works, Memory>
        ensures { IfOk result (λ works. works ≡ []) }
    {
        Ok(Works {
            list: Vec::with_capacity(alloc, MOST_PREFETCH)?,
        })
    }

    /// How many they are, at most sixteen.
    pub fn len(&self) -> usize
        ensures is { result ≡ length self.now }
        ensures few { result ≤ most_works }
    {
        self.list.len()
    }

    /// Whether there is no room for another.
    pub fn are_full(&self) -> bool
        ensures { result ≡ not (nat_lt (length self.now) most_works) }
    {
        self.list.len() >= MOST_PREFETCH
    }

    /// The works as a slice, in order of fetching.
    pub fn list(&self) -> &[Work]
        ensures { result.now ≡ self.now }
    {
        &self.list
    }

    /// The work at an index.
    pub fn get(&self, at: usize) -> &Work
        requires { at < length self.now }
        ensures { slice_get self.now at ≡ Some result.now }
    {
        &self.list[at]
    }

    /// The index of the first that is held, of this text.
    pub fn find_held(&self, text: &[u8]) -> Option<usize>
        ensures is { result ≡ position (is_held_as text.now) self.now }
        ensures within { IfSome result (λ at. at < length self.now) }
    {
        self.list.iter().position(|work| is_held(work.stage) && work.payload.text().bytes() == text)
    }

    /// The index of the first that is held and that this payload follows after a failure.
    pub fn find_retried(&self, next: &JobText) -> Option<usize>
        ensures is { result ≡ position (is_retried_as next.now) self.now }
        ensures within { IfSome result (λ at. at < length self.now) }
    {
        self.list.iter().position(|work| is_held(work.stage) && work.payload.is_followed_by(next))
    }

    /// The index of the first that is held and that this payload follows after a failure, or equals, where that has no head.
    pub fn find_buried(&self, next: &JobText) -> Option<usize>
        ensures is { result ≡ position (is_buried_as next.now) self.now }
        ensures within { IfSome result (λ at. at < length self.now) }
    {
        self.list.iter().position(|work| is_held(work.stage) && may_bury(&work.payload, next))
    }

    /// The index of the first that was put back or is settled, of this text.
    pub fn find_done(&self, text: &[u8]) -> Option<usize>
        ensures is { result ≡ position (is_done_as text.now) self.now }
        ensures within { IfSome result (λ at. at < length self.now) }
    {
        self.list.iter().position(|work| !is_held(work.stage)
            && work.payload.text().bytes() == text)
    }

    /// A job was fetched.
    pub(crate) fn hold(&mut self, payload: JobText)
        requires { length self.old < most_works }
        ensures { self.new ≡ self.old ++ held payload ∷ [] }
    {
        let stage = Stage::Held;
        self.list.push_reserved(Work { payload, stage });
    }

    /// The work at an index is at this stage from now on.
    pub(crate) fn stage(&mut self, at: usize, stage: Stage)
        requires { at < length self.old }
        ensures { self.new ≡ staged_at at stage self.old }
    {
        self.list[at].stage = stage;
    }

    /// The work at an index goes.
    pub(crate) fn release(&mut self, at: usize)
        requires { at < length self.old }
        ensures { self.new ≡ remove self.old at }
    {
        self.list.remove(at);
    }
}
