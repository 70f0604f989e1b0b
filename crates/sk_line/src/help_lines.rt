// What help (`--help`) says of each subcommand, with an example, and of each of its options: what it is, with its unit and its range.

pub const SERVE_ABOUT: &str =
    "Serves the store at a port of this machine, to clients of Redis and to `work`. With --log the store is kept in a file.

Example: sidekiq serve --port 7419 --log jobs.log";

pub const WORK_ABOUT: &str =
    "Runs the jobs of a server's queues, and sends those that are due there.

Example: sidekiq work --queues critical:3,default --threads 8 '0 3 * * * Note default'";

pub const PUSH_ABOUT: &str = "Pushes one job to a server, and prints its id.

Example: sidekiq push --queue default Note '[1, \"two\"]'";

pub const STATUS_ABOUT: &str =
    "Prints the page of a server: what was processed, and what waits where.

Example: sidekiq status";

pub const LIMIT_ABOUT: &str =
    "Asks a limiter of a server for a slot or a grant: prints 'held' and the slot, 'granted' or 'over'.

Example: sidekiq limit hold erp 50 30000";

pub const ITERATE_ABOUT: &str =
    "Runs items that do nothing from the cursor that a server keeps: prints how far it came.

Example: sidekiq iterate --every 100 import 1000000";

pub const PIPE_ABOUT: &str =
    "Takes commands from standard input, and writes their replies to standard output. With --log the store is kept in a file.

Example: printf 'LPUSH queue:default one\\r\\n' | sidekiq pipe --log jobs.log";

pub const SOAK_ABOUT: &str = "Prints a large run that is made from a number.

Example: sidekiq soak 7 5000";

pub const DRILL_ABOUT: &str =
    "Runs jobs in threads with crashes, and compares what came of them with the store's journal.

Example: sidekiq drill 1 2000 16 100";

pub const HOST_HELP: &str = "The host of the server";

pub const PORT_HELP: &str = "Its port, 1 to 65535";

pub const QUEUE_HELP: &str = "The queue that the job goes to";

pub const RETRY_HELP: &str =
    "How often it is tried again: true (25 times), false, or a count, 0 to 1000000000";

pub const RETRY_FOR_HELP: &str =
    "For how many seconds it is tried again, in place of a count, 1 to 1000000000";

pub const AT_HELP: &str =
    "When it is due, in seconds since 1970, as 1790000000.5; now, if left out";

pub const UNIQUE_HELP: &str =
    "For how many seconds no other push of the same work is taken, 1 to 1000000000";

pub const CLASS_HELP: &str = "The class that runs it, as Note, Fail or Flip";

pub const ARGS_HELP: &str = "Its arguments, a JSON array, as '[1, \"two\"]'";

pub const LOG_HELP: &str =
    "The file that keeps the store, made where it isn't there; left out, all is kept in memory";

pub const SEED_HELP: &str = "What the run is made from, 0 to 18446744073709551615";

pub const JOBS_HELP: &str = "How many jobs it has, 1 to 1000000";

pub const DRILL_JOBS_HELP: &str = "How many jobs are pushed, 1 to 20000";

pub const WORKERS_HELP: &str = "How many workers run, each in a thread, 1 to 16";

pub const CRASHES_HELP: &str = "How many crashes they may have together, 0 to 1000000";

pub const SERVE_PORT_HELP: &str = "The port that it listens at, 1 to 65535";

pub const LOOPS_HELP: &str = "How many connections it serves at a time, 1 to 64; further ones wait";

pub const SESSIONS_HELP: &str =
    "How many connections each loop serves before it ends, 1 to 4294967295; 0: all that come";

pub const SERVE_LOG_HELP: &str =
    "The file that keeps the store, so that it outlives a crash; left out, all is kept in memory";

pub const SYNC_HELP: &str =
    "When the file of --log gets what was done: always (before each reply), or every so many milliseconds, 1 to 3600000";

pub const IDENT_HELP: &str = "The process, by a name that never comes back; left out, a new one";

pub const QUEUES_HELP: &str = "The queues to serve: names, or NAME:WEIGHT (1 to 100), with commas";

pub const STRICT_HELP: &str = "Serve them in the order written, and not by weight";

pub const THREADS_HELP: &str = "How many workers run, each in a thread, 1 to 16";

pub const TURNS_HELP: &str = "How many turns each worker takes, 1 to 4294967295; 0: until a fault";

pub const OFFSET_HELP: &str =
    "The clock of CRON, in minutes ahead of UTC, and 1439 more, 0 to 2878";

pub const PREFETCH_HELP: &str = "How many jobs a worker holds at a time, 1 to 16";

pub const PATIENCE_HELP: &str =
    "How long it waits for a server that is away, in seconds, 0 to 86400; each return counts anew";

pub const CRON_HELP: &str = "A periodic job, one word: 'MINUTE HOUR DAY MONTH WEEKDAY CLASS QUEUE'";

pub const KIND_HELP: &str =
    "What is asked for: hold (a slot, for a time) or grant (one of a window)";

pub const LIMITER_HELP: &str = "The limiter, a name of at most 100 bytes";

pub const MOST_HELP: &str = "How many at most, 1 to 1000";

pub const MILLIS_HELP: &str = "For how many milliseconds, 1 to 1000000000";

pub const EVERY_HELP: &str = "After how many items the cursor is saved, 1 to 1000";

pub const MOST_ITEMS_HELP: &str = "How many items are run at most, 0 to 4294967295";

pub const JID_HELP: &str = "Whose cursor it is, a name of at most 64 bytes";

pub const ITEMS_HELP: &str = "How many items there are, 0 to 1000000";
