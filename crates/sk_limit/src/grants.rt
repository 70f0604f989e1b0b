// Grants of a name, of which so many are given in a window of time (Sidekiq Enterprise's wiki page "Ent Rate Limiting", window limiters).
ghost use Rattle.std.specs.Prelude.{◌≡◌, ◌↔◌, Err, false};
ghost use Rattle.sk_limit.specs.Limiter.{is_limiter as limiter_test};
ghost use Rattle.sk_limit.specs.Grant.{Counts, Grants};

use crate::LimitFault;
use crate::ask::{is_limiter, request};
use crate::request::bucket_key;
use crate::stage::{Next, Stage, after, request_of, wanted};
use sk_link::Link;
use std::alloc::Global;

// Counts a grant in the window under the key. Answers the count.
fn count<L: Link>(alloc: Global, link: &mut L, key: &[u8], millis: u64) -> Result<i64, LimitFault>
    ensures { Counts (L.carried link.old link.new) (record { key = key.now; millis = millis }) result }
{
    let mut next = Next::Ask(Stage::Opening);
    'calls: loop {
        let stage = match next {
            Next::Over(count) => return Ok(count),
            Next::Ask(stage) => stage,
        };
        let words = request_of(alloc, key, millis, stage)?;
        match request(alloc, link, &words, wanted(stage)) {
            Ok(reply) => next = after(stage, &reply),
            Err(fault) => return Err(fault),
        }
    }
}

/// Counts a grant in the window of the name, and answers whether it is one of the first `most`, from 1 to 1,000. A window begins with the first grant
/// after the last one ended, and lasts the milliseconds, from 1 to 1,000,000,000: `SET bucket:name 0 NX PX millis`, then `INCRBY bucket:name 1`. Where
/// the window was there, `PTTL bucket:name` looks whether it ends, and `PEXPIRE bucket:name millis` follows where it wouldn't.
pub fn grant<L: Link>(
    alloc: Global,
    link: &mut L,
    name: &str,
    most: u32,
    millis: u64,
) -> Result<bool, LimitFault>
    ensures named { (result ≡ Err LimitFault.Name) ↔ (limiter_test name.now most millis ≡ false) }
    ensures told { Grants (L.carried link.old link.new) name.now most millis result }
{
    if !is_limiter(name, most, millis) {
        return Err(LimitFault::Name);
    }
    let key = bucket_key(alloc, name)?;
    match count(alloc, link, &key, millis) {
        Ok(count) => Ok(1 <= count && count <= most as i64),
        Err(fault) => Err(fault),
    }
}
