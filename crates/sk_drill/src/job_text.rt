// The texts of a load's jobs.
ghost use Rattle.std.specs.Prelude.{◌≡◌, ◌++◌, IfOk, OnOk, option_map};
ghost use Rattle.sk_drill.specs.Jobs.{bid_member, jid_of, job_text};

use crate::Memory;
use sk_resp::Word;
use std::alloc::Global;

// As many zeros as an id has digits.
const ZEROS: &[u8] = b"000000000000000000000000";

// Writes the number as an id: 24 digits, with zeros in front.
#[tactic(auto, unfolding(crate::specs::Jobs::jid_of))]
fn write_jid(alloc: Global, k: u64, out: &mut Vec<u8>) -> Result<(), Memory>
    ensures { OnOk result (out.new.items ≡ out.old.items ++ jid_of k) }
{
    let digits = k.to_string(alloc)?;
    out.extend_from_slice(&ZEROS[digits.len()..])?;
    out.extend_from_slice(digits.as_bytes())
}

// Writes the member that names the job's batch, where it has one.
fn write_bid(bid: Option<&[u8]>, out: &mut Vec<u8>) -> Result<(), Memory>
    ensures { OnOk result (out.new.items ≡ out.old.items ++ bid_member (option_map (λ b. b.now) bid.entry)) }
{
    let Some(bid) = bid else {
        return Ok(());
    };
    out.extend_from_slice(b"\"bid\":\"")?;
    out.extend_from_slice(bid)?;
    out.extend_from_slice(b"\",")
}

/// The text of job `k` in a queue, of the batch `bid` where there is one.
#[tactic(auto, unfolding(crate::specs::Jobs::job_text))]
pub(crate) fn job_text(
    alloc: Global,
    k: u64,
    queue: &[u8],
    bid: Option<&[u8]>,
) -> Result<Word, Memory>
    ensures { IfOk result (λ text. text ≡ job_text k queue.now (option_map (λ b. b.now) bid.entry)) }
{
    let mut text = b"{\"args\":[1],".to_vec(alloc)?;
    write_bid(bid, &mut text)?;
    text.extend_from_slice(b"\"class\":\"Note\",\"created_at\":1700000000000,\"jid\":\"")?;
    write_jid(alloc, k, &mut text)?;
    text.extend_from_slice(b"\",\"queue\":\"")?;
    text.extend_from_slice(queue)?;
    text.extend_from_slice(b"\",\"retry\":true}")?;
    Ok(Word::new(text))
}
