// How long a failed job waits until it is tried again.
ghost use Rattle.std.specs.Prelude.{◌≡◌, ◌≤◌, ◌+◌, ◌^◌, ℕ, min};
ghost use Rattle.sk_base.specs.declared.limits.TheConstants.{LAST_GENERATION, LONGEST_DELAY};

use sk_base::limits::LONGEST_DELAY;

/// Sidekiq's own rule, without its jitter (wiki page "Error Handling"): the seconds that a job waits whose runs failed so often before. It is the
/// lesser of `count^4 + 15` and 1,000,000,000. Takes no memory.
pub fn plain_delay(count: u32) -> u64
    ensures { result ≡ min (count ^ 4 + 15) LONGEST_DELAY }
{
    // 178^4 is above 1,000,000,000.
    if count >= 178 {
        return LONGEST_DELAY;
    }
    let square = u64::from(count) * u64::from(count);
    square * square + 15
}

/// A class's own rule (`sidekiq_retry_in`): the seconds that a job waits whose runs failed so often before. It may be called on each count from 0
/// to 1,000,000,000, the greatest generation of a job, and answers at most 1,000,000,000 there.
#[derive(Drop)]
pub struct DelayRule {
    pub rule: Box<dyn Fn(u32) -> u64 + Send>,
    ghost callable: { (count : ℕ) → count ≤ LAST_GENERATION → pre rule count },
    ghost capped: { (count delay : ℕ) → count ≤ LAST_GENERATION → post rule count delay → delay ≤ LONGEST_DELAY },
}

impl DelayRule {
    /// The function is the caller's. Takes no memory.
    pub fn new(rule: Box<dyn Fn(u32) -> u64 + Send>) -> DelayRule
        requires callable { (count : ℕ) → count ≤ LAST_GENERATION → pre rule count }
        requires capped { (count delay : ℕ) → count ≤ LAST_GENERATION → post rule count delay → delay ≤ LONGEST_DELAY }
        ensures { (count delay : ℕ) → post result.rule count delay → post rule count delay }
    {
        DelayRule { rule }
    }

    /// What the function answers, in seconds. Takes no memory.
    pub fn delay(&self, count: u32) -> u64
        requires { count ≤ LAST_GENERATION }
        ensures answer { post self.now.rule count result }
        ensures cap { result ≤ LONGEST_DELAY }
    {
        (self.rule)(count)
    }
}
