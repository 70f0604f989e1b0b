// SK.BEAT ident, SK.JOIN ident: the processes that are alive, and their seats.
ghost use Rattle.std.specs.Prelude.{◌≡◌};
ghost use Rattle.sk_model.specs.Seats.{where_plain};
ghost use Rattle.sk_model.specs.Workers.{beat, join};
ghost use Rattle.sk_model.specs.World.{phase_of};
ghost use Rattle.sk_store.specs.Stored.{IsReady, Executes, world};

use sk_key::{is_name, name_text};
use sk_resp::{Memory, Refusal, Reply, Say, Word};
use sk_seats::Phase;
use sk_store::Store;
use sk_value::refused;

/// SK.BEAT: the process's heartbeat stands for a minute from this moment on. A word that is no name is refused.
pub fn beat(store: &mut Store, ident: &Word) -> Result<Reply, Memory>
    requires { IsReady store.old }
    ensures { Executes store.old (beat ident.now) result store.new }
{
    if !is_name(ident.bytes()) {
        return Ok(refused(Refusal::NoProcess));
    }
    store.leases.beat(ident, store.moment)?;
    Ok(Reply::Say(Say::Ok))
}

/// SK.JOIN: the seat is one of the process's, whose heartbeat stands.
pub fn join(store: &mut Store, seat: u32, ident: Word) -> Result<Reply, Memory>
    requires { IsReady store.old }
    ensures { Executes store.old (where_plain (phase_of (world store.old) seat) (join (world store.old) seat ident)) result store.new }
{
    match store.seats.get(seat) {
        Phase::Plain => {
            if !is_name(ident.bytes()) || !store.leases.alive(&ident, store.moment) {
                return Ok(refused(Refusal::NoProcess));
            }
            store.seats.join(seat, name_text(ident))?;
            Ok(Reply::Say(Say::Ok))
        }
        _ => Ok(refused(Refusal::OutOfTurn)),
    }
}
