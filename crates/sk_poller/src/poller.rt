// A poller: the process, its periodic jobs, and how far its clock is ahead of UTC.
ghost use Rattle.std.specs.Prelude.{◌≡◌, List, true};
ghost use Rattle.std.specs.List.{list_all};
ghost use Rattle.sk_cron.specs.Offset.{IsOffset};
ghost use Rattle.sk_poller.specs.Loop.{is_loop};

use sk_cron::Cron;
use sk_resp::Text;

/// A periodic job (Sidekiq Enterprise, wiki page "Ent Periodic Jobs").
#[derive(Drop)]
pub struct Loop {
    /// A name of at most 255 bytes.
    pub name: Text,
    /// When it runs.
    pub cron: Cron,
    /// The class that runs it, a name of at most 255 bytes.
    pub class: Text,
    /// Its queue, a name of at most 255 bytes.
    pub queue: Text,
}

/// Watches over the store for one process. It keeps the names of its loops to the rules of [`Loop`], and its offset from -1,439 to 1,439 minutes.
#[derive(Drop)]
pub struct Poller {
    /// The process, as its heartbeat names it.
    pub ident: Text,
    /// Its periodic jobs.
    pub loops: Vec<Loop>,
    /// How many minutes the clock that crons go by is ahead of UTC.
    pub offset: i32,
    ghost named: { list_all is_loop loops.items ≡ true },
    ghost in_range: { IsOffset offset },
}

impl Poller {
    /// A poller of these periodic jobs. The offset is in minutes. Takes no memory.
    pub fn new(ident: Text, loops: Vec<Loop>, offset: i32) -> Poller
        requires named { list_all is_loop loops.items ≡ true }
        requires offset { IsOffset offset }
        ensures ident { result.ident ≡ ident }
        ensures loops { result.loops.items ≡ loops.items }
        ensures offset { result.offset ≡ offset }
    {
        Poller {
            ident,
            loops,
            offset,
        }
    }
}
