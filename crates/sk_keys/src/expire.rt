// Deadlines, and `PEXPIRE key milliseconds`.
ghost use Rattle.std.specs.Prelude.{◌≡◌, OnErr, OnOk};
ghost use Rattle.sk_value.specs.Answer.{AnswersWith};
ghost use Rattle.sk_value.specs.Apply.{after, changed, deadline_of, expires_at, deadline_after};
ghost use Rattle.sk_value.specs.Keys.{at};
ghost use Rattle.sk_keys.specs.Index.{IsIndexed};

use crate::delete::remove;
use crate::expiries::set_expiry;
use crate::key_table::KeyTable;
use sk_base::limits::LAST_CALENDAR_MOMENT;
use sk_cmd::Expire;
use sk_resp::{Reply, Word};
use sk_value::KeysFault;

/// So many milliseconds from now, where that isn't past the latest deadline.
pub fn after(now: u64, millis: u64) -> Option<u64>
    ensures { result ≡ after now millis }
{
    let deadline = now.checked_add(millis)?;
    if deadline > LAST_CALENDAR_MOMENT {
        return None;
    }
    Some(deadline)
}

// The end of a time to live of so many units, each of `unit` milliseconds.
fn deadline_after(now: u64, unit: u64, n: i64) -> Result<Option<u64>, KeysFault>
    ensures { result ≡ deadline_after now unit n }
{
    if n < 1 {
        return Err(KeysFault::BadExpire);
    }
    let Some(millis) = unit.checked_mul(n as u64) else {
        return Err(KeysFault::BadExpire);
    };
    match after(now, millis) {
        None => Err(KeysFault::BadExpire),
        Some(deadline) => Ok(Some(deadline)),
    }
}

/// The deadline that the options of `SET` give.
pub fn deadline_of(now: u64, expire: Expire) -> Result<Option<u64>, KeysFault>
    ensures { result ≡ deadline_of now expire }
{
    match expire {
        Expire::Never => Ok(None),
        Expire::Seconds(n) => deadline_after(now, 1000, n),
        Expire::Millis(n) => deadline_after(now, 1, n),
    }
}

/// Sets the deadline of the key. With 0 or less it goes.
#[tactic(auto, using(crate::proofs::Puts::put_present, crate::proofs::Puts::without_absent, std::proofs::lemmas::Map::Steps::set_value_same), unfolding(sk_value::specs::Apply::expires_at))]
pub fn expire(table: &mut KeyTable, now: u64, name: Word, millis: i64) -> Result<Reply, KeysFault>
    requires { IsIndexed table.old.entries table.old.expiries }
    ensures answer { AnswersWith (expires_at now millis (at name table.old.entries)).answer result }
    ensures ok { OnOk result (table.new.entries ≡ changed name (expires_at now millis (at name table.old.entries)).change table.old.entries) }
    ensures err { OnErr result (table.new.entries ≡ table.old.entries) }
    ensures indexed { IsIndexed table.new.entries table.new.expiries }
{
    if millis < 1 {
        return Ok(Reply::Int(i64::from(remove(table, &name))));
    }
    let Some(deadline) = after(now, millis as u64) else {
        return Err(KeysFault::BadExpire);
    };
    let Some(there) = table.entries.get_mut(&name) else {
        return Ok(Reply::Int(0));
    };
    set_expiry(&mut table.expiries, name, there.deadline, Some(deadline))?;
    there.deadline = Some(deadline);
    Ok(Reply::Int(1))
}
