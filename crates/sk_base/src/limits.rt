// The limits and defaults of the whole system, each with its unit and its reason, in the order of the layers that keep them. No other file types such
// a number: code names the constant, and definitions name it too. Two kinds of numbers stay where they are used: what a structure bounds for its own
// sake, as the lists that undo edits, which have at most 2^60 entries, and what is no choice, as the milliseconds of a day.
// An option's own value on a command line is a text of `sk_line/src/defaults.rt`, since it is read as the user's own words are.

// ## The wire

/// The most words of a command (RESP2). A bulk push of Sidekiq's size has a thousand.
pub const MOST_WORDS: usize = 1 << 16;

/// The most bytes of a word of a command: 1 MiB. A job's text is shorter.
pub const LONGEST_WORD: usize = 1 << 20;

/// The most bytes of all words of a command together: 16 MiB, so that a client can't fill the memory with one command.
pub const LONGEST_COMMAND: usize = 1 << 24;

/// The most bytes of a line behind `*` or `$`, its CR among them. The longest number of 64 bits has 20 bytes.
pub const LONGEST_LENGTH_LINE: usize = 32;

/// The most bytes of an inline command, its LF aside: 64 KiB, as in Redis.
pub const LONGEST_INLINE: usize = 1 << 16;

/// The most bytes of a simple string or an error in a reply: 64 KiB. They are one line, for people.
pub const LONGEST_TEXT: usize = 1 << 16;

/// The most bytes of a bulk string in a reply: 2 GiB.
pub const LONGEST_BULK: usize = 1 << 31;

/// The most elements of an array in a reply.
pub const MOST_ELEMENTS: usize = 1 << 31;

/// The most arrays of a reply that stand in one another.
pub const DEEPEST_REPLY: usize = 8;

/// The most bytes of a whole reply: 4 GiB. An open array counts with the least that its elements need.
pub const LONGEST_REPLY: usize = 1 << 32;

// ## Texts of jobs

/// The most bytes of a job's text, written without whitespace and without what failures put into it. A word has room for it and for a failure.
pub const LONGEST_JOB: usize = 1_000_000;

/// The most bytes of a job's text whose head is found in one pass. Written without whitespace such a text is surely no longer than `LONGEST_JOB`.
pub const LONGEST_SKETCHED: usize = 400_000;

/// How deep the members of a job's text may be nested where its head is found in one pass.
pub const DEEPEST_SKETCHED: u32 = 100;

/// How deep a job's arguments may stand in one another, their array counted. The parser of JSON goes 127 deep.
pub const DEEPEST_ARGS: u32 = 100;

/// The most bytes of an id: a job's `jid` or a batch's `bid`. Sidekiq's own have 24 and 14.
pub const LONGEST_ID: usize = 64;

/// The most bytes of a name: of a class, a queue, a process or a periodic job.
pub const LONGEST_NAME: usize = 255;

/// The most retries that a job may ask for.
pub const MOST_RETRIES: u32 = 1_000_000_000;

/// The retries of a job that doesn't tell how many it wants, as in Sidekiq.
pub const DEFAULT_RETRIES: u32 = 25;

/// The greatest generation of a job: how often its runs may have failed. It is one more than `retry_count`.
pub const LAST_GENERATION: u32 = 1_000_000_000;

/// The most seconds of `retry_for` and of a unique job's lock: some 31 years, and a moment plus it is a number of 64 bits.
pub const MOST_SECONDS: u32 = 1_000_000_000;

/// The most seconds that a failed job waits until it is tried again.
pub const LONGEST_DELAY: u64 = 1_000_000_000;

/// The most characters of an error's class that a retry keeps.
pub const LONGEST_ERROR_CLASS: usize = 255;

/// The most characters of an error's message that a retry keeps.
pub const LONGEST_ERROR_MESSAGE: usize = 1_000;

// ## Moments and scores

/// The greatest moment, in milliseconds since 1970 (UTC): the last one of the year 9998. A later one counts as this. So its date is one of the
/// calendar in each time zone.
pub const LAST_MOMENT: u64 = 253_370_764_799_999;

/// The last moment of the calendar, in milliseconds since 1970 (UTC): the end of the year 9999, the last one with four digits (RFC 3339). No key's
/// deadline is past it, and no moment that a job's text tells.
pub const LAST_CALENDAR_MOMENT: u64 = 253_402_300_799_999;

/// The greatest magnitude of a score, in millionths: 2^63 - 1, so that a score is a number of 64 bits with a sign.
pub const GREATEST_SCORE: u64 = (1 << 63) - 1;

// ## Keys

/// The greatest value of a counter: 2^63 - 1, the greatest integer of a reply. It counts no further.
pub const LAST_COUNT: u64 = (1 << 63) - 1;

/// The most jobs that one `SK.DUE` takes.
pub const MOST_DUE: i64 = 1_000;

/// The most due jobs that a poller takes of a set in one turn. The store does one command at a time, and so much of it holds nobody up.
pub const DUE_A_TURN: u64 = 100;

// ## Places of jobs

/// The most rows in all places together, whatever limit a program sets: as many as the lists have that keep them.
pub const MOST_ROWS: usize = 1 << 60;

/// The most pushes that a store takes from its clients, from its first moment on. With its own there are fewer than 2^64, so that none is uncounted.
pub const MOST_PUSHES: u64 = 1 << 62;

/// The most jobs that the dead set keeps, as in Sidekiq.
pub const MOST_DEAD: usize = 10_000;

/// How long the dead set keeps a job, in microseconds, as scores are: 180 days, as in Sidekiq.
pub const DEAD_LIFE: i64 = 15_552_000_000_000;

// ## Seats

/// The greatest number of a seat. A seat's number has 32 bits, and 0 is a pipe's own first seat.
pub const LAST_SEAT: u32 = 4_294_967_295;

/// The most jobs that a seat has in its hands at a time.
pub const MOST_PREFETCH: usize = 16;

// ## Batches

/// The most batches in the store of a program.
pub const SHIPPED_BATCHES: u64 = 1_000_000;

// ## Leases and periods

/// How long a heartbeat stands, in milliseconds: a minute, as in Sidekiq.
pub const BEAT_LIFE: u64 = 60_000;

/// How long the lease of the leader stands, in milliseconds: half a minute.
pub const LEAD_LIFE: u64 = 30_000;

/// How long a recovery stands, in milliseconds: 72 hours, as in Sidekiq, and one millisecond more, since at its end it still counts.
pub const RECOVERY_LIFE: u64 = 259_200_001;

/// How often a job is recovered within `RECOVERY_LIFE` before it is buried, as in Sidekiq.
pub const MOST_RECOVERIES: u64 = 3;

/// The most periodic jobs that have a last slot.
pub const MOST_LOOPS: u64 = 10_000;

/// How long after its moment the slot of a periodic job may be sent, in milliseconds: ten minutes.
pub const SLOT_LIFE: u64 = 600_000;

/// The greatest offset of a clock from UTC, in minutes, ahead or behind: one minute less than a day. A command line tells an offset plus this, which
/// is never below 0, and so this is what it tells of UTC itself.
pub const OFFSET_UTC: i32 = 1_439;

/// The greatest offset that a command line tells, which is `OFFSET_UTC` more than its minutes.
pub const LAST_OFFSET: u64 = 2_878;

// ## The client

/// The most jobs in one request of a bulk push, as in Sidekiq.
pub const MOST_SLICE: usize = 1_000;

/// How many bytes a link asks its connection for at a time: a page of memory.
pub const CHUNK: usize = 4_096;

/// The most bytes of an unreadable reply that a fault shows.
pub const LONGEST_SHOWN: usize = 64;

/// The greatest number in a report of moved and buried jobs. The sum of two is a number of 64 bits.
pub const MOST_REPORTED: u64 = 1 << 62;

// ## Queues

/// The most queues of a worker.
pub const MOST_QUEUES: usize = 100;

/// The greatest weight of a queue.
pub const MOST_WEIGHT: u8 = 100;

// ## The pipe and the server

/// The most jobs in the store of a program.
pub const SHIPPED_ROWS: u64 = 4_000_000;

/// The most bytes of all texts of jobs in the store of a program: 2 GiB.
pub const SHIPPED_BYTES: u64 = 1 << 31;

/// The most bytes that a talk takes from its source, but for the rest of its last piece: 1 TiB. So a talk ends, whatever its source gives.
pub const LONGEST_TALK: u64 = 1 << 40;

/// How many bytes a talk asks its source for at a time: 64 KiB, a buffer on the stack.
pub const PIECE: usize = 65_536;

/// How many bytes a connection gathers of what is written to it, at most: 64 KiB, as much as a talk reads at a time.
pub const LARGEST_BATCH: usize = 65_536;

/// How many clients may wait until they are accepted: as many as by Redis's default.
pub const BACKLOG: i32 = 511;

/// How long an ear waits before it asks again for a descriptor or memory, in milliseconds: long enough that others give some back, and short enough
/// that a client doesn't notice.
pub const SHORTAGE_PAUSE: u64 = 10;

/// The most accept loops of a server. Each serves one connection at a time.
pub const MOST_LOOPS_SERVED: usize = 64;

/// The most workers of a process, each in a thread. A process has a team for each: a registry of jobs and a plain rule.
pub const MOST_WORKERS: usize = 16;

/// How long a poller waits between two turns, in milliseconds.
pub const POLL_PAUSE: u64 = 5_000;

/// How long a worker waits that found each queue empty, in milliseconds.
pub const IDLE_PAUSE: u64 = 1_000;
