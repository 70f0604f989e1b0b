// The turns of a load.
ghost use Rattle.std.specs.Prelude.{◌<◌, ◌^◌, IfOk};
ghost use Rattle.sk_drill.specs.Load.{Gives, turn_part};

use crate::Memory;
use crate::actor::Actor;
use crate::events::Events;
use crate::load::Load;
use sk_core::Core;

/// The next turn: time goes on, and an actor that is drawn does its part. Answers its events.
#[tactic(auto, unfolding(crate::specs::Load::turn_part))]
pub(crate) fn turn(load: &mut Load, core: &Core) -> Result<Events, Memory>
    requires moment { load.old.moment < 2 ^ 62 }
    requires crons { load.old.crons < 2 ^ 62 }
    ensures { IfOk result (λ events. Gives (turn_part load.old core.now) events load.new) }
{
    load.wait();
    match Actor::of(load.draw(8)) {
        Actor::Client => load.push(),
        Actor::Poller => load.poll(),
        Actor::Crash => load.crash(),
        Actor::Worker(seat) => load.work(seat, core.phase(seat)),
    }
}
