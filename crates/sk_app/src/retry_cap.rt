// The function of the shipped program's chain.
ghost use Rattle.std.specs.Prelude.{◌≡◌, IfSome, Some};
ghost use Rattle.sk_middle.specs.Identity.{KeepsIdentity};
ghost use Rattle.sk_app.specs.Capping.{capped, lowered};

use sk_payload::{JobDraft, Retry};

/// The most retries of a job that goes through [`cap`].
const MOST: u32 = 100;

// A count of retries above 100 is lowered to 100.
fn lowered(retry: Retry) -> Retry
    ensures { result ≡ lowered retry }
{
    match retry {
        Retry::Count(count) => Retry::Count(count.min(MOST)),
        other => other,
    }
}

/// The draft with at most 100 retries: a greater count is lowered to 100. All else of it stays.
pub fn cap(draft: JobDraft) -> Option<JobDraft>
    ensures capped { result ≡ Some (capped draft) }
    ensures same { IfSome result (KeepsIdentity draft) }
{
    let retry = lowered(draft.retry);
    Some(JobDraft { retry, ..draft })
}
