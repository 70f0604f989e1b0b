// The numbers of a batch, as they are kept with it.
ghost use Rattle.std.specs.Prelude.{◌≡◌, IfSome};
ghost use Rattle.sk_batch.specs.Stat.{IsSmall, stat};
ghost use Rattle.sk_batch.specs.States.{BatchInvariant, of_lists, seen_of};

use crate::batch_list::BatchList;
use crate::{BatchStat, Member, Progress};
use sk_undo::UndoList;

/// The numbers of a batch, where it was made.
pub fn stat(
    batches: &BatchList,
    members: &UndoList<Progress, Member>,
    bid: &[u8],
) -> Option<BatchStat>
    requires { BatchInvariant batches.now.list.current members.now.list.current }
    ensures is { result ≡ stat bid.now (of_lists (seen_of batches.now.list.current) members.now.list.current) }
    ensures small { IfSome result IsSmall }
{
    let _len = members.len(); // its contract says that there are no more than 2^60
    let at = batches.find(bid);
    if at == batches.len() {
        return None;
    }
    let state = batches.get(at).0;
    Some(BatchStat {
        members: state.numbers.members,
        pending: state.numbers.own.unreturned,
        unreported: state.numbers.own.unreported,
        died: state.fired.death,
        pending_under: state.numbers.under.unreturned,
    })
}
