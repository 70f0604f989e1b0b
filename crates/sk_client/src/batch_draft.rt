// Batches: a new one with its callbacks and jobs, and more jobs for one that is open.
ghost use Rattle.std.specs.Prelude.{◌≡◌, ◌<◌, IfOk, IfErr, OnOk, length};
ghost use Rattle.sk_client.specs.Push.{Accepted, AcceptedBy, Fails};
ghost use Rattle.sk_client.specs.Making.{Makes};
ghost use Rattle.sk_client.specs.Requests.{bpush, badd};

use crate::ClientFault;
use crate::send::{request, send};
use crate::words::{add_callback, add_drafts};
use sk_link::{Answer, Link, words_of};
use sk_payload::JobDraft;
use sk_resp::{Reply, Text, Words};
use std::alloc::Global;

/// A batch that isn't made yet (Sidekiq's wiki, "Batches"). The store refuses it where a job's `bid` isn't the batch's, or where a callback has a `bid`
/// or a lock.
#[derive(Drop)]
pub struct BatchDraft {
    /// Its id, a name of at most 64 bytes.
    pub bid: Text,
    /// The id of the batch that it stands in.
    pub parent: Option<Text>,
    /// The callback that is pushed once each of its jobs has run.
    pub complete: Option<JobDraft>,
    /// The callback that is pushed once each of its jobs has succeeded.
    pub success: Option<JobDraft>,
    /// The callback that is pushed once one of its jobs has died.
    pub death: Option<JobDraft>,
    /// Its jobs.
    pub jobs: Vec<JobDraft>,
}

impl BatchDraft {
    // `SK.BPUSH bid parent complete success death text ..`
    fn words(&self, alloc: Global) -> Result<Words, ClientFault>
        ensures { Makes (bpush self.now) result }
    {
        let parent = self.parent.as_ref().map_or("", Text::text);
        let front: [&[u8]; 3] = [b"SK.BPUSH", self.bid.text().as_bytes(), parent.as_bytes()];
        let mut words = words_of(alloc, &front)?;
        add_callback(alloc, &self.complete, &mut words)?;
        add_callback(alloc, &self.success, &mut words)?;
        add_callback(alloc, &self.death, &mut words)?;
        add_drafts(alloc, &self.jobs, &mut words)?;
        Ok(Words::new(words))
    }

    /// Makes the batch, and pushes each of its jobs at the left end of its queue (`SK.BPUSH`). Answers the store's array of the events that this
    /// fired, as pairs of a bid and a word: a batch without jobs fires its own `complete` and `success`, and another fires none.
    ///
    /// The texts are built in the order of the fields: `complete`, `success`, `death`, and then the jobs.
    pub fn send<L: Link>(&self, alloc: Global, link: &mut L) -> Result<Reply, ClientFault>
        ensures ok { IfOk result (AcceptedBy (L.carried link.old link.new) (bpush self.now)) }
        ensures err { IfErr result (Fails (L.carried link.old link.new) (bpush self.now)) }
    {
        let words = self.words(alloc)?;
        request(alloc, link, &words, Answer::List)
    }
}

// `SK.BADD bid text ..`
fn badd_words(alloc: Global, bid: &str, jobs: &[JobDraft]) -> Result<Words, ClientFault>
    ensures { Makes (badd bid.now jobs.now) result }
{
    let mut words = words_of(alloc, &[b"SK.BADD", bid.as_bytes()])?;
    add_drafts(alloc, jobs, &mut words)?;
    Ok(Words::new(words))
}

/// Adds one or more jobs to an open batch, and pushes each at the left end of its queue (`SK.BADD`; Sidekiq's wiki, "Batches").
pub fn batch_add<L: Link>(
    alloc: Global,
    link: &mut L,
    bid: &str,
    jobs: &[JobDraft],
) -> Result<(), ClientFault>
    requires { 0 < length jobs.now }
    ensures ok { OnOk result (Accepted (L.carried link.old link.new) (badd bid.now jobs.now)) }
    ensures err { IfErr result (Fails (L.carried link.old link.new) (badd bid.now jobs.now)) }
{
    let words = badd_words(alloc, bid, jobs)?;
    send(alloc, link, &words, Answer::Number)
}
