// A worker: who it is, the queues that it asks, the jobs that it holds, and whether it has ended.
ghost use Rattle.std.specs.Prelude.{◌≡◌, ◌≤◌, ◌||◌, [], false};
ghost use Rattle.std.specs.Result.{is_err};
ghost use Rattle.sk_base.specs.declared.limits.TheConstants.{MOST_PREFETCH};
ghost use Rattle.sk_worker.specs.Broken.{is_lost};
ghost use Rattle.sk_worker.specs.Leaving.{LeaveOf};
ghost use Rattle.sk_worker.specs.Saying.{JoinOf};

use crate::leave::give_back_all;
use crate::say::{join_request, say};
use crate::turn::WorkFault;
use sk_link::{Answer, Link};
use sk_payload::Payload;
use sk_policy::{DelayRule, QueueOrder};
use sk_resp::Text;
use std::alloc::Global;
use std::collections::VecDeque;

/// A worker of the store, as super_fetch of Sidekiq Pro is one (wiki page "Reliability"). It joins, takes turns and leaves.
#[derive(Drop)]
pub struct Worker {
    /// The process, as its heartbeat names it.
    pub ident: Text,
    pub order: QueueOrder,
    /// The delay rule of classes that have no job here.
    pub plain: DelayRule,
    /// How many jobs it holds at most, from 1 to 16.
    pub prefetch: usize,
    /// The jobs that it fetched and didn't release yet, the oldest first. They stand in its private list.
    pub held: VecDeque<Payload>,
    /// It had a fault.
    pub ended: bool,
    ghost some: { 1 ≤ prefetch },
    ghost most: { prefetch ≤ MOST_PREFETCH },
}

impl Worker {
    /// A worker that holds no job. `prefetch` is from 1 to 16. `plain` is the delay rule of classes that have no job. Takes no memory.
    pub fn new(
        alloc: Global,
        ident: Text,
        order: QueueOrder,
        plain: DelayRule,
        prefetch: usize,
    ) -> Worker
        requires some { 1 ≤ prefetch }
        requires most { prefetch ≤ MOST_PREFETCH }
        ensures ident { result.ident ≡ ident }
        ensures order { result.order ≡ order }
        ensures plain { result.plain ≡ plain }
        ensures prefetch { result.prefetch ≡ prefetch }
        ensures held { result.held.items ≡ [] }
        ensures ended { result.ended ≡ false }
    {
        Worker {
            ident,
            order,
            plain,
            prefetch,
            held: VecDeque::new(alloc),
            ended: false,
        }
    }

    /// `SK.JOIN ident`: the seat behind this link becomes this worker's. After a fault the worker has ended.
    pub fn join<L: Link>(&mut self, alloc: Global, link: &mut L) -> Result<(), WorkFault>
        requires { 0 ≤ 1 }
        ensures told { JoinOf self.old.ended (λ calls. L.carried link.old link.new calls) self.old.ident result }
        ensures ends { self.new.ended ≡ is_err result }
        ensures held { self.new.held.items ≡ self.old.held.items }
        ensures link { L.has_ended link.new ≡ (L.has_ended link.old || is_lost result) }
        ensures ident { self.new.ident ≡ self.old.ident }
        ensures order { self.new.order ≡ self.old.order }
        ensures plain { self.new.plain ≡ self.old.plain }
        ensures prefetch { self.new.prefetch ≡ self.old.prefetch }
    {
        if self.ended {
            return Err(WorkFault::Ended);
        }
        let words = join_request(alloc, &self.ident);
        match say(alloc, link, words, Answer::Okay) {
            Ok(_) => Ok(()),
            Err(fault) => {
                self.ended = true;
                Err(fault)
            }
        }
    }

    /// Gives back the jobs that it holds, the oldest first, by SK.BACK, and answers how many went back. A job that a rescue took away doesn't, and one
    /// without a head is buried and taken out of the private list. After a fault the worker has ended, and holds the jobs that it didn't give back or
    /// take out.
    pub fn leave<L: Link>(&mut self, alloc: Global, link: &mut L) -> Result<u64, WorkFault>
        requires { 0 ≤ 1 }
        ensures told { LeaveOf (λ cs. L.carried link.old link.new cs) self.old.ended self.old.ident self.old.held.items self.new.held.items result }
        ensures ends { self.new.ended ≡ is_err result }
        ensures link { L.has_ended link.new ≡ (L.has_ended link.old || is_lost result) }
        ensures ident { self.new.ident ≡ self.old.ident }
        ensures order { self.new.order ≡ self.old.order }
        ensures plain { self.new.plain ≡ self.old.plain }
        ensures prefetch { self.new.prefetch ≡ self.old.prefetch }
    {
        if self.ended {
            return Err(WorkFault::Ended);
        }
        let result = give_back_all(alloc, link, &self.ident, &mut self.held, 0);
        self.ended = result.is_err();
        result
    }

    /// Its queues and its plain rule, for another worker. What it still holds stays in its private list. Takes no memory.
    pub fn retire(self) -> (QueueOrder, DelayRule)
        requires { 0 ≤ 1 }
        ensures order { result.0 ≡ self.order }
        ensures plain { result.1 ≡ self.plain }
    {
        (self.order, self.plain)
    }
}
