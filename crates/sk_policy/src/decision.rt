// Whether a failed job is tried again, and when.
ghost use Rattle.std.specs.Prelude.{◌≡◌, ◌≤◌, pos};
ghost use Rattle.sk_policy.specs.Decision.{decision, first_failure as first_failure_in, is_exhausted as is_exhausted_in, retry_score as score_in};

use sk_base::Score;
use sk_base::limits::{DEFAULT_RETRIES, LAST_MOMENT, LONGEST_DELAY};
use sk_payload::{Head, Retry};

/// What becomes of a job whose run failed.
#[derive(Clone, Copy)]
pub enum Decision {
    /// It is tried again at this moment, as a score of the set `retry`.
    Retry(Score),
    /// It becomes a dead job.
    Bury,
    /// It is forgotten.
    Discard,
}

fn retry_score(now: u64, jitter: u64, delay: u64, count: u32) -> Score
    requires jitter { jitter ≤ 9 }
    requires delay { delay ≤ LONGEST_DELAY }
    ensures { result ≡ pos (score_in now jitter delay count) }
{
    let wait = (delay + jitter * (u64::from(count) + 1)).min(LONGEST_DELAY);
    let moment = now.min(LAST_MOMENT);
    Score::of_micros((moment * 1000 + wait * 1_000_000) as i64)
}

// The moment of the job's first failure, where it fails at this one.
fn first_failure(head: &Head, now: u64) -> u64
    ensures { result ≡ first_failure_in head.now now }
{
    let unknown = if head.gen_ == 0 { now } else { head.created };
    head.first_failed.unwrap_or(unknown)
}

// The job has no retry left.
fn is_exhausted(head: &Head, most: u32, now: u64) -> bool
    ensures { result ≡ is_exhausted_in head.now most now }
{
    match head.retry_for {
        Some(seconds) => {
            now.saturating_sub(first_failure(head, now)) > 1000 * u64::from(seconds)
        }
        None => head.gen_ >= most,
    }
}

/// What becomes of a job whose run failed at the moment `now`, in milliseconds since 1970 (Sidekiq's wiki, "Error Handling").
///
/// - Where `retry` is `Never`, it is discarded.
/// - It has no retry left where its generation is at least the most, 25 for `Default` and `n` for `Count(n)`. A job with `retry_for` of `s` seconds
///   has none left where `now` is more than `s` seconds after its first failure, however often it failed. A first failure that isn't known is `now`
///   for generation 0, and `created` for a later one. Such a job is buried, or discarded where `dead` is false.
/// - Otherwise it is retried the lesser of 1,000,000,000 and `delay + jitter * (generation + 1)` seconds after `now`, which counts as
///   253,370,764,799,999 where it is greater.
///
/// `delay` is in seconds: what the class's rule answers on the generation. Takes no memory.
pub fn decide(head: &Head, now: u64, jitter: u64, delay: u64) -> Decision
    requires jitter { jitter ≤ 9 }
    requires delay { delay ≤ LONGEST_DELAY }
    ensures { result ≡ decision head.now now jitter delay }
{
    let most = match head.retry {
        Retry::Never => return Decision::Discard,
        Retry::Default => DEFAULT_RETRIES,
        Retry::Count(most) => most,
    };
    if !is_exhausted(head, most, now) {
        return Decision::Retry(retry_score(now, jitter, delay, head.gen_));
    }
    if head.dead {
        Decision::Bury
    } else {
        Decision::Discard
    }
}
