// The index of deadlines, each with its name, the soonest first, so that a purge looks at nothing that stays. It gets a pair for each lease. A
// pair whose lease is gone stays until its own deadline, so that undo has nothing to bring back.
ghost use Rattle.std.specs.Prelude.{◌≡◌, ◌<◌, true, false, None, IfSome, OnOk};
ghost use Rattle.std.specs.BTreeSet.{btree_set_len};
ghost use Rattle.sk_leases.specs.Index.{DropsExpiry, HasMore, IsClear, is_expiry_in, is_first_over};

use crate::Memory;
use sk_resp::Word;
use std::collections::BTreeSet;

/// Each deadline, in milliseconds since 1970, with its name.
pub type Expiries = BTreeSet<(u64, Word)>;

/// Adds a pair. The pairs that are there stay in any case.
pub fn add_expiry(expiries: &mut Expiries, name: Word, deadline: u64) -> Result<(), Memory>
    ensures more { HasMore expiries.old expiries.new }
    ensures added { OnOk result (is_expiry_in expiries.new (name, deadline) ≡ true) }
{
    expiries.insert((deadline, name))?;
    Ok(())
}

// Whether the moment has reached the first deadline.
fn has_expired(expiries: &Expiries, now: u64) -> bool
    ensures first { result ≡ is_first_over now expiries.now.keys }
    ensures clear { result ≡ false → IsClear now expiries.now }
{
    match expiries.first() {
        Some((deadline, _)) => *deadline <= now,
        None => false,
    }
}

/// Takes the first pair out and gives its name, where the moment has reached its deadline.
pub fn next_expired(expiries: &mut Expiries, now: u64) -> Option<Word>
    ensures taken { IfSome result (λ name. DropsExpiry now name expiries.old expiries.new) }
    ensures shorter { IfSome result (λ _. btree_set_len expiries.new < btree_set_len expiries.old) }
    ensures same { result ≡ None → HasMore expiries.old expiries.new }
    ensures clear { result ≡ None → IsClear now expiries.new }
{
    if !has_expired(expiries, now) {
        return None;
    }
    match expiries.pop_first() {
        Some((_, name)) => Some(name),
        None => None,
    }
}
