// The id of a job, as the index of rows and the live jobs keep it.
ghost use Rattle.std.specs.Prelude.{◌≡◌, IfOk};
ghost use Rattle.sk_payload.specs.Head.{jid_of};

use crate::Memory;
use sk_payload::JobText;
use sk_table::TextKey;
use std::marker::Model;

/// The id of the job that a payload names. The payload is shared with the job's row, so that the id isn't copied. Contracts see the id's bytes.
#[derive(Drop)]
pub struct JobKey {
    payload: JobText,
}

impl Model for JobKey {
    ghost use Rattle.std.specs.Prelude.{[], List, ℕ, unwrap_or};
    ghost use Rattle.sk_payload.specs.Head.{jid_of};

    ghost Value = { List ℕ };

    ghost view = { λ k. unwrap_or (jid_of k.payload) [] };
}

impl JobKey {
    /// The key of the payload's job, where it has one. It takes no memory; there is none where 2^63 - 1 copies of the payload stand.
    pub fn of(payload: &JobText) -> Result<Option<JobKey>, Memory>
        ensures { IfOk result (λ key. key ≡ jid_of payload.now) }
    {
        match payload.jid() {
            Some(_) => Ok(Some(JobKey {
                payload: payload.copy()?,
            })),
            None => Ok(None),
        }
    }

    /// The bytes of the id.
    pub fn jid(&self) -> &[u8]
        ensures { result.now ≡ self.now }
    {
        match self.payload.jid() {
            Some(jid) => jid,
            None => &[],
        }
    }
}

impl TextKey for JobKey {
    ghost text = { λ key. key };

    fn bytes(&self) -> &[u8] {
        self.jid()
    }
}
