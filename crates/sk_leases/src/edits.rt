// Leases that are taken out of a list in order.
ghost use Rattle.std.specs.Prelude.{◌≡◌, ◌+◌, ◌≤◌, true, None};
ghost use Rattle.std.specs.List.{count_by};
ghost use Rattle.sk_undo.specs.Balance.{most};
ghost use Rattle.sk_undo.specs.Versions.{edited};
ghost use Rattle.sk_leases.specs.Index.{TakesOver, covers};
ghost use Rattle.sk_leases.specs.Lease.{names};
ghost use Rattle.sk_leases.specs.Lists.{count_standing, standing, without};

use crate::expiries::{Expiries, next_expired};
use crate::part::{LeasesOf, Part};
use sk_resp::Word;
use sk_undo::UndoMultiset;

/// Leases by the names' bytes and then by their deadlines in milliseconds since 1970.
pub type Entries = UndoMultiset<(Word, u64)>;

/// How many leases the name has.
pub fn count_named(entries: &Entries, name: &[u8]) -> usize
    ensures is { result ≡ count_by (names name.now) entries.now.list.current }
    ensures small { result ≤ most }
{
    entries.count(&LeasesOf {
        name,
        part: Part::All,
    })
}

/// How many leases of the name stand.
pub fn count_standing(entries: &Entries, name: &[u8], now: u64) -> usize
    ensures { result ≡ count_standing name.now now entries.now.list.current }
{
    entries.count(&LeasesOf {
        name,
        part: Part::Standing(now),
    })
}

/// Drops the leases of the name out.
pub fn drop_named(entries: &mut Entries, name: &[u8], expiries: &Expiries)
    requires room { count_by (names name.now) entries.old.list.current ≤ entries.old.room }
    requires covered { covers expiries.now entries.old.list.current ≡ true }
    ensures list { entries.new.list ≡ edited (without name.now entries.old.list.current) entries.old.list }
    ensures room { entries.old.room ≤ entries.new.room + count_by (names name.now) entries.old.list.current }
    ensures covered { covers expiries.now entries.new.list.current ≡ true }
{
    let named = LeasesOf {
        name,
        part: Part::All,
    };
    let mut left = count_named(entries, name);
    while 0 < left {
        entries.remove(&named);
        left -= 1;
    }
}

// Takes the leases of the name out that are over.
fn take_over(entries: &mut Entries, name: &[u8], now: u64)
    requires { entries.old.list.saved ≡ None }
    ensures closed { entries.new.list.saved ≡ None }
    ensures rest { TakesOver name.now now entries.old.list.current entries.new.list.current }
{
    let over = LeasesOf {
        name,
        part: Part::Over(now),
    };
    while entries.take(&over) {}
}

/// Takes the leases out that are over. What stays isn't looked at.
pub fn purge(entries: &mut Entries, expiries: &mut Expiries, now: u64)
    requires closed { entries.old.list.saved ≡ None }
    requires covered { covers expiries.old entries.old.list.current ≡ true }
    ensures list { entries.new.list ≡ edited (standing now entries.old.list.current) entries.old.list }
    ensures covered { covers expiries.new entries.new.list.current ≡ true }
{
    while let Some(name) = next_expired(expiries, now) {
        take_over(entries, name.bytes(), now);
    }
}
