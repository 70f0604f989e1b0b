// A call on a job's items: from the cursor in the store on.
ghost use Rattle.std.specs.Prelude.{◌≡◌, ◌≤◌, ◌<◌, ◌^◌, ◌||◌, true, Err};
ghost use Rattle.sk_base.specs.Name.{IsName};
ghost use Rattle.sk_base.specs.declared.limits.TheConstants.{LONGEST_ID};
ghost use Rattle.sk_iter.specs.Transcript.{Iterates, GoesOn, end_in, is_lost, reach};

use crate::call::{Bounds, Call, MOST_EVERY, MOST_ITEMS};
use crate::cursor::read_cursor;
use crate::{Items, IterEnd, IterFault};
use sk_link::Link;
use std::alloc::Global;

/// Where a call began, and where it stopped.
#[derive(Drop)]
pub struct Iteration {
    /// The cursor that it read: the number of the first item that it might run.
    pub cursor: u64,
    /// Where it stopped.
    pub end: IterEnd,
}

/// The same as [`iterate`], for any text as jid and any `every` above 0; it tells the cursor that it read, too.
pub fn go_on<L: Link, I: Items>(
    alloc: Global,
    link: &mut L,
    jid: &str,
    items: &mut I,
    every: u32,
    most: u64,
) -> Result<Iteration, IterFault>
    requires some { 1 ≤ every }
    requires len { I.count items.old < MOST_ITEMS }
    ensures told { GoesOn (L.carried link.old link.new) (I.told items.old) (I.told items.new) jid.now
        (reach (I.count items.old) every most) result }
    ensures ended { L.has_ended link.new ≡ (L.has_ended link.old || is_lost (end_in result)) }
    ensures count { I.count items.new ≡ I.count items.old }
{
    let len = items.len();
    let bounds = Bounds { len, every, most };
    match read_cursor(alloc, link, jid, len) {
        Ok(cursor) => {
            let call = Call {
                jid,
                bounds,
                cursor,
            };
            match call.go(alloc, link, items) {
                Ok(end) => Ok(Iteration { cursor, end }),
                Err(fault) => Err(fault),
            }
        }
        Err(fault) => Err(fault),
    }
}

// The end of it alone.
pub(crate) fn iterate_any<L: Link, I: Items>(
    alloc: Global,
    link: &mut L,
    jid: &str,
    items: &mut I,
    every: u32,
    most: u64,
) -> Result<IterEnd, IterFault>
    requires some { 1 ≤ every }
    requires len { I.count items.old < MOST_ITEMS }
    ensures told { Iterates (L.carried link.old link.new) (I.told items.old) (I.told items.new) jid.now
        (reach (I.count items.old) every most) result }
    ensures ended { L.has_ended link.new ≡ (L.has_ended link.old || is_lost result) }
    ensures count { I.count items.new ≡ I.count items.old }
{
    match go_on(alloc, link, jid, items, every, most) {
        Ok(iteration) => Ok(iteration.end),
        Err(fault) => Err(fault),
    }
}

/// Runs the items of a job from its cursor on (Sidekiq's wiki, "Iteration").
///
/// It reads the cursor by `GET it:jid`; null means 0. It runs the items from there upwards. By `SET it:jid next`, where next is the first index that
/// hasn't returned, it saves the cursor: after an item that returned, where the number of items that returned in this call is then a multiple of
/// `every`, and where the call stops, unless next is the number that it last read or sent. It stops at the end of the items, behind `most` of them, or
/// at one that raised. Where the end and `most` meet, it is [`IterEnd::Done`]. A fault leaves a front of this, and the items that ran are told.
pub fn iterate<L: Link, I: Items>(
    alloc: Global,
    link: &mut L,
    jid: &str,
    items: &mut I,
    every: u32,
    most: u64,
) -> Result<IterEnd, IterFault>
    requires jid { IsName LONGEST_ID jid.now }
    requires some { 1 ≤ every }
    requires few { every ≤ MOST_EVERY }
    requires len { I.count items.old < MOST_ITEMS }
    ensures told { Iterates (L.carried link.old link.new) (I.told items.old) (I.told items.new) jid.now
        (reach (I.count items.old) every most) result }
    ensures ended { L.has_ended link.new ≡ (L.has_ended link.old || is_lost result) }
    ensures count { I.count items.new ≡ I.count items.old }
{
    iterate_any(alloc, link, jid, items, every, most)
}
