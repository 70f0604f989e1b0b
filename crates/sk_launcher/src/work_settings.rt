// What workers and their poller are started with.
use crate::Address;
use sk_policy::QueueOrder;
use sk_poller::Loop;
use sk_resp::Text;

/// What a process of workers is told: its store, its name, its queues, and how much it does at a time.
#[derive(Drop)]
pub struct WorkSettings {
    /// The store that has the jobs.
    pub address: Address,
    /// The process, as its heartbeat names it: a name of at most 255 bytes.
    pub ident: Text,
    /// The queues, and in which order a turn asks them.
    pub order: QueueOrder,
    /// How many workers run, each in a thread of its own, from 1 to the number of teams.
    pub threads: u32,
    /// How many turns each worker takes; 0: as many as come until a fault.
    pub turns: u32,
    /// How many minutes the clock that crons go by is ahead of UTC, from -1,439 to 1,439.
    pub offset: i32,
    /// How many jobs a worker holds at most, from 1 to 16.
    pub prefetch: u32,
    /// For how many seconds in all it waits, between launches, for a server that is away, since it last had a connection; 0: not at all.
    pub patience: u32,
    /// The periodic jobs.
    pub loops: Vec<Loop>,
}
