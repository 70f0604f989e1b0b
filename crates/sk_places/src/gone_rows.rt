// All rows of a place that were taken out at once, and how their jobs leave.
ghost use Rattle.std.specs.Prelude.{◌≡◌, ◌+◌, ◌<◌, ◌≤◌, None, length, slice_index_or};
ghost use Rattle.sk_undo.specs.Balance.{most};
ghost use Rattle.sk_undo.specs.Versions.{edited};
ghost use Rattle.sk_places.specs.GoneRows.{all_left, bytes_in, texts_in};

use crate::Ending;
use crate::job_records::JobRecords;
use crate::rows::{Size, lowered};
use crate::tagged_payload::TaggedPayload;
use crate::text_index::TextIndex;
use sk_base::Score;
use sk_deques::Deque;
use sk_payload::JobText;
use sk_table::hash_of;
use sk_undo::UndoList;

/// The rows, with the memory that they are kept in.
#[derive(Drop)]
pub enum GoneRows {
    /// Of a queue or a private list.
    Listed(Deque<(Score, TaggedPayload)>),
    /// Of a set, and the keys of their texts.
    Scored(UndoList<Score, JobText>, TextIndex),
}

impl GoneRows {
    /// How many rows they are.
    pub fn len(&self) -> usize
        ensures is { result ≡ length (texts_in self.now) }
    {
        match self {
            GoneRows::Listed(rows) => rows.len(),
            GoneRows::Scored(rows, _) => rows.len(),
        }
    }

    /// The payload of one of them.
    pub fn payload(&self, at: usize) -> &JobText
        requires { at < length (texts_in self.now) }
        ensures { result.now ≡ slice_index_or (texts_in self.now) at result.now }
    {
        match self {
            GoneRows::Listed(rows) => rows.get(at).1.payload(),
            GoneRows::Scored(rows, _) => &rows.get(at).1,
        }
    }
}

// So many rows are looked at before their jobs leave.
const AHEAD: usize = 32;

// The bytes of the id of a row's job; none where there is no such row, or it has no job.
fn jid_at(gone: &GoneRows, at: usize) -> &[u8] {
    if at < gone.len() {
        gone.payload(at).jid().unwrap_or(&[])
    } else {
        &[]
    }
}

// The hashes of the ids of the jobs of the next rows.
fn hashes_from(gone: &GoneRows, first: usize) -> [u32; AHEAD] {
    let mut hashes = [0; AHEAD];
    for (at, hash) in hashes.iter_mut().enumerate() {
        *hash = hash_of(jid_at(gone, first.saturating_add(at)));
    }
    hashes
}

// Looks at the next rows, and at what is kept of their jobs, and answers whether it saw anything. All of it lies apart in memory, so that it would
// have to be waited for, piece after piece: the processor fetches what is asked for in so short a loop side by side.
fn look_ahead(gone: &GoneRows, first: usize, jobs: &JobRecords) -> bool {
    let mut seen = 0;
    for at in 0..AHEAD {
        if let Some(byte) = jid_at(gone, first.saturating_add(at)).first() {
            seen |= *byte as u32;
        }
    }
    for hash in hashes_from(gone, first) {
        seen |= jobs.look_at(hash);
    }
    seen != 0
}

/// The rows are counted no more under their jobs, and each of these ends as deleted, if it is live. Answers the size without the rows. Takes no
/// memory, and gives none of the rows' back.
pub fn leave_all(gone: &GoneRows, size: Size, jobs: &mut JobRecords) -> Size
    requires rows { length (texts_in gone.now) ≤ size.rows }
    requires bytes { bytes_in (texts_in gone.now) ≤ size.bytes }
    requires closed { jobs.old.saved ≡ None }
    ensures rows { result.rows + length (texts_in gone.now) ≡ size.rows }
    ensures bytes { result.bytes + bytes_in (texts_in gone.now) ≡ size.bytes }
    ensures jobs { jobs.new ≡ edited (all_left (texts_in gone.now) jobs.old.current) jobs.old }
{
    let mut left = size;
    let mut of_use = true;
    let mut at = 0;
    while at < gone.len() {
        if of_use && at % AHEAD == 0 {
            of_use = look_ahead(gone, at, jobs);
        }
        let payload = gone.payload(at);
        left = lowered(left, payload.text());
        jobs.take_ended(payload, Ending::Deleted);
        at += 1;
    }
    left
}
