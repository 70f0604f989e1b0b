// The log of an open step: what each edit was, kept so that it can be taken back. The newest edit is the last one.
ghost use Rattle.std.specs.Prelude.{◌≡◌, ◌<◌, ◌≤◌, ◌+◌, ◌++◌, ◌∷◌, [], length, Some, option_map, slice_get};
ghost use Rattle.sk_undo.specs.Edits.{AllFit, Fits, before, taken_back};
ghost use Rattle.sk_undo.specs.Moves.{moved};

use crate::sequence::{Sequence, Spare};

/// An edit of an open step.
#[derive(Drop)]
pub enum Edit<K, T> {
    /// An entry was put in at this place.
    Put(usize),
    /// This entry was taken out from this place; the memory that it was kept in waits for it.
    Taken(usize, (K, T), Spare<(K, T)>),
    /// The entry at the first place was moved to the second one, and had this tag.
    Moved(usize, usize, K),
}

/// Moves an entry to another place, with another tag, and answers the tag that it had. Takes no memory.
#[tactic(auto, using(crate::proofs::Tags::moved_there))]
pub fn shift<K: Drop, T: Drop>(entries: &mut Sequence<(K, T)>, from: usize, to: usize, tag: K) -> K
    requires from { from < length entries.old }
    requires to { to < length entries.old }
    ensures is { entries.new ≡ moved from to tag entries.old }
    ensures tag { option_map (λ e. e.0) (slice_get entries.old from) ≡ Some result }
    ensures len { length entries.new ≡ length entries.old }
{
    if from == to {
        return entries.retag(from, tag);
    }
    let (entry, spare) = entries.remove(from);
    let (old, item) = entry;
    entries.insert(to, (tag, item), spare);
    old
}

fn take_back<K: Drop, T: Drop>(entries: &mut Sequence<(K, T)>, edit: Edit<K, T>)
    requires { Fits edit entries.old }
    ensures { entries.new ≡ taken_back edit entries.old }
{
    match edit {
        Edit::Put(at) => {
            let _entry = entries.remove(at);
        }
        Edit::Taken(at, entry, spare) => entries.insert(at, entry, spare),
        Edit::Moved(from, to, tag) => {
            let _tag = shift(entries, to, from, tag);
        }
    }
}

/// Takes all edits back, the newest first. Takes no memory.
pub fn take_all_back<K: Drop, T: Drop>(entries: &mut Sequence<(K, T)>, log: &mut Vec<Edit<K, T>>)
    requires { AllFit log.old.items entries.old }
    ensures entries { entries.new ≡ before log.old.items entries.old }
    ensures log { log.new.items ≡ [] }
{
    'edits: while let Some(edit) = log.pop() {
        take_back(entries, edit);
    }
}
