// The table of a grant: what is sent at each stage, and where a reply leads.
ghost use Rattle.std.specs.Prelude.{◌≡◌, IfOk};
ghost use Rattle.sk_limit.specs.Grant.{after as next_after, counted as behind_count, is_new as makes_new, looked as behind_look, request_at, wanted_at};

use crate::Memory;
use crate::ask::number_of;
use crate::request::{count_request, expire_request, left_request, set_request};
use sk_link::Answer;
use sk_resp::{Reply, Words};
use std::alloc::Global;

/// What is asked of a window's key.
#[derive(Clone, Copy)]
pub(crate) enum Stage {
    /// It makes the window, where there is none.
    Opening,
    /// It counts a grant. True: the window is new.
    Counting(bool),
    /// The grant was counted so, in a window that was there: it looks whether the window ends.
    Looking(i64),
    /// The window has no end: it gets one.
    Bounding(i64),
}

/// What follows.
#[derive(Clone, Copy)]
pub(crate) enum Next {
    Ask(Stage),
    /// The grant was counted so.
    Over(i64),
}

/// The request of the stage.
pub(crate) fn request_of(
    alloc: Global,
    key: &[u8],
    millis: u64,
    stage: Stage,
) -> Result<Words, Memory>
    ensures { IfOk result (λ words. words ≡ request_at (record { key = key.now; millis = millis }) stage) }
{
    match stage {
        Stage::Opening => set_request(alloc, key, b"0", millis),
        Stage::Counting(_) => count_request(alloc, key),
        Stage::Looking(_) => left_request(alloc, key),
        Stage::Bounding(_) => expire_request(alloc, key, millis),
    }
}

/// The kind of its answer.
pub(crate) fn wanted(stage: Stage) -> Answer
    ensures { result ≡ wanted_at stage }
{
    match stage {
        Stage::Opening => Answer::OkayOrNull,
        _ => Answer::Number,
    }
}

fn is_new(reply: &Reply) -> bool
    ensures { result ≡ makes_new reply.now }
{
    !matches!(reply, Reply::Null)
}

fn counted(is_new: bool, count: i64) -> Next
    ensures { result ≡ behind_count is_new count }
{
    if is_new {
        Next::Over(count)
    } else {
        Next::Ask(Stage::Looking(count))
    }
}

fn looked(count: i64, left: i64) -> Next
    ensures { result ≡ behind_look count left }
{
    if left == -1 {
        Next::Ask(Stage::Bounding(count))
    } else {
        Next::Over(count)
    }
}

/// Where a reply of the kind wanted leads.
pub(crate) fn after(stage: Stage, reply: &Reply) -> Next
    ensures { result ≡ next_after stage reply.now }
{
    match stage {
        Stage::Opening => Next::Ask(Stage::Counting(is_new(reply))),
        Stage::Counting(is_new) => counted(is_new, number_of(reply)),
        Stage::Looking(count) => looked(count, number_of(reply)),
        Stage::Bounding(count) => Next::Over(count),
    }
}
