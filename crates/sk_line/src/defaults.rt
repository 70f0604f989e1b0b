// What a command line stands for where it leaves an option out, as a user would write it.

/// The host of the store: this machine.
pub const HOST: &str = "localhost";

/// The port of the store. It is no port of Redis (6379), so that both run on one machine.
pub const PORT: &str = "7419";

/// How many accept loops `serve` runs, each in a thread: one for each processor of a small machine.
pub const LOOPS: &str = "4";

/// How many connections a loop of `serve` serves before it ends: 0, as many as come.
pub const SESSIONS: &str = "0";

/// When a server stores what was logged: before each reply, as Redis's `appendfsync always`, so that nothing that was answered is lost.
pub const SYNC: &str = "always";

/// The queue of a job, and the one queue of a worker, as Sidekiq's.
pub const QUEUE: &str = "default";

/// How often a job is tried again: as often as Sidekiq does, 25 times.
pub const RETRY: &str = "true";

/// The process that a worker is, as its heartbeat names it: a host, a number and a count, as Sidekiq's `host:pid:nonce`.
pub const IDENT: &str = "local:1:0";

/// How many workers run, each in a thread: one for each processor of a small machine.
pub const THREADS: &str = "4";

/// How many turns a worker takes: 0, as many as come until a fault.
pub const TURNS: &str = "0";

/// How many minutes the clock that crons go by is ahead of UTC, and 1,439 more: UTC.
pub const OFFSET: &str = "1439";

/// How many jobs a worker holds at most: each as it comes, so that a worker that dies leaves one job to be rescued.
pub const PREFETCH: &str = "1";

/// For how many seconds `work` waits for a server that is away: not at all, so that whoever watches it knows at once.
pub const PATIENCE: &str = "0";

/// After how many items of an iteration its cursor is saved: a cut costs at most so many items that are done twice.
pub const EVERY: &str = "100";

/// How many items of an iteration are run at most: all.
pub const MOST_ITEMS: &str = "4294967295";
