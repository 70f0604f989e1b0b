// The index of deadlines: each with its key's name, the soonest first. So a purge looks at nothing that stays.
ghost use Rattle.std.specs.Prelude.{◌≡◌, OnOk, OnErr, false};
ghost use Rattle.sk_keys.specs.Index.{AddsExpiry, DropsExpiry, HasExpiry, IsClear, SetsExpiry, is_first_over};

use sk_resp::{Memory, Word};
use std::collections::BTreeSet;

/// Each deadline, in milliseconds since 1970, with its key's name.
pub type Expiries = BTreeSet<(u64, Word)>;

/// Whether the moment has reached the first deadline.
pub fn has_expired(expiries: &Expiries, now: u64) -> bool
    ensures first { result ≡ is_first_over now expiries.now.keys }
    ensures clear { result ≡ false → IsClear now expiries.now }
{
    match expiries.first() {
        Some((deadline, _)) => *deadline <= now,
        None => false,
    }
}

/// Adds the deadline of the name, where there is one.
pub fn add_expiry(expiries: &mut Expiries, name: &Word, deadline: Option<u64>) -> Result<(), Memory>
    ensures ok { OnOk result (AddsExpiry name.now deadline expiries.old expiries.new) }
    ensures err { OnErr result (expiries.new.keys ≡ expiries.old.keys) }
{
    if let Some(deadline) = deadline {
        expiries.insert((deadline, name.copy()?))?;
    }
    Ok(())
}

/// Takes the deadline of the name out, where there is one. Takes no memory.
pub fn drop_expiry(expiries: &mut Expiries, name: Word, deadline: Option<u64>)
    ensures { DropsExpiry name deadline expiries.old expiries.new }
{
    if let Some(deadline) = deadline {
        expiries.remove(&(deadline, name));
    }
}

/// Makes `to` the deadline of the name, where it was `from`.
pub fn set_expiry(
    expiries: &mut Expiries,
    name: Word,
    from: Option<u64>,
    to: Option<u64>,
) -> Result<(), Memory>
    requires { HasExpiry name from expiries.old }
    ensures ok { OnOk result (SetsExpiry name to expiries.old expiries.new) }
    ensures err { OnErr result (expiries.new.keys ≡ expiries.old.keys) }
{
    if from == to {
        return Ok(());
    }
    add_expiry(expiries, &name, to)?;
    drop_expiry(expiries, name, from);
    Ok(())
}
