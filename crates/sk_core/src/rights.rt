// Which seat may send which command. Nothing here takes memory.
ghost use Rattle.std.specs.Prelude.{◌≡◌};
ghost use Rattle.sk_key.specs.Class.{class_of, is_private};
ghost use Rattle.sk_seats.specs.Phases.{is_plain};
ghost use Rattle.sk_model.specs.Seats.{adds, may_push, is_worker_action, is_worker_write};
ghost use Rattle.sk_key.specs.declared.key_class.KeyClass.TheVariants as KeyClass;

use sk_cmd::Scored;
use sk_key::{KeyClass, class_of};
use sk_seats::Phase;
use sk_value::{Action, WriteOp};

/// Whether the seat is no worker's.
pub fn is_plain(phase: &Phase) -> bool
    ensures { result ≡ is_plain phase.now }
{
    match phase {
        Phase::Plain => true,
        _ => false,
    }
}

// A worker's edits: ZADD on `retry`, and LREM on a private list.
fn is_worker_write(class: KeyClass, edit: &WriteOp) -> bool
    ensures { result ≡ is_worker_write class edit.now }
{
    match edit {
        WriteOp::Zadd(_) => match class {
            KeyClass::Jobs(Scored::Retry) => true,
            _ => false,
        },
        WriteOp::Lrem(_, _) => match class {
            KeyClass::Private | KeyClass::NoPrivate => true,
            _ => false,
        },
        _ => false,
    }
}

// A key that begins with `sq:`.
fn is_private(class: KeyClass) -> bool
    ensures { result ≡ is_private class }
{
    match class {
        KeyClass::Private | KeyClass::NoPrivate => true,
        _ => false,
    }
}

/// Whether the command is a worker's: one of its edits, or LMOVE to a private list.
pub fn is_worker_action(action: &Action) -> bool
    ensures { result ≡ is_worker_action action.now }
{
    match action {
        Action::WriteOp(key, edit) => is_worker_write(class_of(key.bytes()), edit),
        Action::Move(_, destination, _, _) => is_private(class_of(destination.bytes())),
        _ => false,
    }
}

// The edits that every seat may send: the pushes from outside, and names into `queues`.
fn may_push(class: KeyClass, edit: &WriteOp) -> bool
    ensures { result ≡ may_push class edit.now }
{
    match edit {
        WriteOp::Push(_, _) => match class {
            KeyClass::Queue => true,
            _ => false,
        },
        WriteOp::Sadd(_) => match class {
            KeyClass::Queues => true,
            _ => false,
        },
        WriteOp::Zadd(_) => match class {
            KeyClass::Jobs(Scored::Schedule) => true,
            _ => false,
        },
        _ => false,
    }
}

/// Whether every seat may send it, besides the commands that only read.
pub fn adds(action: &Action) -> bool
    ensures { result ≡ adds action.now }
{
    match action {
        Action::WriteOp(key, edit) => may_push(class_of(key.bytes()), edit),
        _ => false,
    }
}
