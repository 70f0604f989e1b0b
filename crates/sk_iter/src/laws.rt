// What follows from the transcript of a call, and what holds of calls that go through a run of the store. The run may end anywhere, and so may each call:
// a call without a result was cut off.
ghost use Rattle.std.specs.Prelude.{List};
ghost use Rattle.sk_resp.specs.Spelling.{Bytes};
ghost use Rattle.sk_model.specs.Event.{Happens, Step};
ghost use Rattle.sk_model.specs.World.{World};
ghost use Rattle.sk_model.specs.declared.limits.Limits.{Limits};
ghost use Rattle.sk_iter.specs.Calls.{IsCallOn, IterCall};
ghost use Rattle.sk_iter.specs.Goes.{Goes};
ghost use Rattle.sk_iter.specs.Writes.{LeavesOther};
ghost use Rattle.sk_iter.specs.Laws.{BelowReturned, CursorsRise, DoneIsAll, FewRunAgain, ItemsInOrder, NoneRunAgain, SavesReturned};

/// The items of one call are consecutive from the cursor that it read, and all returned but perhaps the last.
pub fn items_are_in_order()
    ensures { (jid : Bytes) (call : IterCall) → IsCallOn jid call → ItemsInOrder call }
{}

/// Every number that a call saves is at most the first index that hasn't returned by then.
pub fn saved_numbers_have_returned()
    ensures { (jid : Bytes) (call : IterCall) → IsCallOn jid call → SavesReturned jid call }
{}

/// The cursor that a call reads is at least each cursor read before.
pub fn cursors_rise()
    ensures { (limits : Limits) (steps : List Step) (calls : List IterCall) (jid : Bytes) → Goes limits steps calls jid → CursorsRise calls }
{}

/// Every index below the cursor that a call reads has returned in an earlier call.
pub fn what_is_below_a_cursor_returned()
    ensures { (limits : Limits) (steps : List Step) (calls : List IterCall) (jid : Bytes) → Goes limits steps calls jid → BelowReturned calls }
{}

/// No index below the cursor that a call reads is run again.
pub fn what_is_below_a_cursor_is_not_run_again()
    ensures { (limits : Limits) (steps : List Step) (calls : List IterCall) (jid : Bytes) → Goes limits steps calls jid → NoneRunAgain calls }
{}

/// Of the items that returned in a call, at most `every` are run again by the next one.
pub fn few_items_are_run_again()
    ensures { (limits : Limits) (steps : List Step) (calls : List IterCall) (jid : Bytes) → Goes limits steps calls jid → FewRunAgain calls }
{}

/// Once a call is Done, every index below the length has returned.
pub fn done_is_all()
    ensures { (limits : Limits) (steps : List Step) (calls : List IterCall) (jid : Bytes) → Goes limits steps calls jid → DoneIsAll calls }
{}

/// An event leaves what stands under a plain key without a deadline, unless it is a command that edits, sets, deletes or moves that key, or gives it a
/// deadline, or FLUSHALL.
pub fn few_commands_write_a_key()
    ensures { (key : Bytes) (w : World) (step : Step) → Happens w step.event step.outcome → LeavesOther key w step }
{}
