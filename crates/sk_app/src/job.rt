// The job that a line of `push` asks for.
ghost use Rattle.std.specs.Prelude.{◌≡◌, ℕ, option_map};
ghost use Rattle.sk_client.specs.Jid.{jid_of_words};
ghost use Rattle.sk_app.specs.Jobs.{IsJob, lock_for};
ghost use Rattle.sk_app.specs.Promises.{MakesJob};

use sk_base::{Clock, Dice, Score};
use sk_client::fresh_jid;
use sk_launcher::Address;
use sk_line::PushLine;
use sk_payload::{JobDraft, Lock, Until};
use sk_resp::Text;
use std::alloc::{AllocError, Global};

/// A job that is to be pushed.
#[derive(Drop)]
pub struct PushJob {
    /// To this store.
    pub address: Address,
    pub draft: JobDraft,
    /// When it is due, in seconds since 1970; None: now.
    pub at: Option<Score>,
}

fn lock_of(unique: Option<u32>) -> Option<Lock>
    ensures { result ≡ option_map lock_for unique }
{
    let seconds = unique?;
    Some(Lock {
        seconds,
        until: Until::Success,
    })
}

// The job with this id, made at this moment.
fn job(line: PushLine, jid: Text, created: u64) -> PushJob
    ensures { (first second : ℕ) → jid ≡ jid_of_words first second → IsJob line created first second result }
{
    let draft = JobDraft {
        jid,
        class: line.class,
        queue: line.queue,
        args: line.args,
        retry: line.retry,
        retry_for: line.retry_for,
        bid: None,
        lock: lock_of(line.unique),
        dead: true,
        created,
    };
    PushJob {
        address: line.address,
        draft,
        at: line.at,
    }
}

/// The job of the line, with a fresh id, made at the clock's moment.
pub fn job_of<C: Clock, D: Dice>(
    alloc: Global,
    line: PushLine,
    clock: &mut C,
    dice: &mut D,
) -> Result<PushJob, AllocError>
    ensures { MakesJob C.Clock D.Dice clock.old dice.old clock.new dice.new line result }
{
    let created = clock.now();
    let jid = fresh_jid(alloc, dice)?;
    Ok(job(line, jid, created))
}
