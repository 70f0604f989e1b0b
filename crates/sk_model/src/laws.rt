// What holds of every run of events.
ghost use Rattle.std.specs.Prelude.{◌≡◌};
ghost use Rattle.sk_model.specs.Causes.{MovesHaveCauses};
ghost use Rattle.sk_model.specs.Laws.{Balance, Conserve, CopiesKept, OneHolder, OneLeader, SlotsRise};
ghost use Rattle.sk_model.specs.Once.{BatchOnce, CallbacksFollow, CompleteOnce, DeathOnce, SettledStays};
ghost use Rattle.sk_model.specs.Order.{FiringsInOrder};
ghost use Rattle.sk_model.specs.Reading.{IsSaid, PipeCommand, SomeReading, Words};
ghost use Rattle.sk_model.specs.Reliable.{Reliable};
ghost use Rattle.sk_model.specs.Replay.{NullMovesIdle, Replay, Rerun};
ghost use Rattle.sk_model.specs.Starving.{LimitsStay, OwnWordsNeverStarve, ReleasesNeverStarve, ServedOrStarved};

/// After every step of every run each live job stands: some row names it. A job is live where it was freshly pushed, no row and no worker's
/// seat naming it then, and since then neither released by a worker that was done with it, nor deleted by a client, nor trimmed from the dead
/// set, nor pushed again under its own id. Moves, fetches, retries and cuts keep it, wherever they fall and wherever memory runs out: for each
/// old payload that a seat has put back and still has to release, a newer row of the job stands, whatever else the seat has in its hands.
pub fn live_jobs_stand()
    ensures { Conserve }
{}

/// After every step of every run, each text stands in exactly as many rows as it was pushed or put back by a worker, without those that a
/// client's command took away, a worker released, the dead set dropped, or a set made one with another row of the same text, wherever memory
/// ran out.
pub fn nothing_is_lost()
    ensures { CopiesKept }
{}

/// After every step of every run the tally balances: the rows that were ever pushed are those without a head, those whose push wasn't fresh,
/// the jobs that are live now, and the jobs that ended, by how they did. The jobs that count as live are exactly those whose life is live.
pub fn tally_balances()
    ensures { Balance }
{}

/// Success of a batch is fired once, in the very step that leaves no job of it and of the batches within it open: exactly where it is settled
/// after the step, and was made in it or wasn't settled before (Sidekiq's wiki, "Batches").
pub fn success_fires_once()
    ensures { BatchOnce }
{}

/// A batch that is settled after a step is settled after every later one: it gets no more jobs, and no more batches within it.
pub fn settled_stays()
    ensures { SettledStays }
{}

/// Complete of a batch is fired once, in the first step after which it is there and each job of it and of the batches within it was reported, and
/// in no other.
pub fn complete_fires_once()
    ensures { CompleteOnce }
{}

/// Death of a batch is fired once, in the first step in which a member of it comes into the dead set, and in no other.
pub fn death_fires_once()
    ensures { DeathOnce }
{}

/// What an event fires stands in groups: one before the first text that comes into the dead set, and one after each such text, up to the next one.
/// Within a group each complete stands before each success and death, each success before each death, and of each kind a batch before those that
/// it is in. So a command that buries several jobs fires for one after another, in the order in which it buries them.
pub fn firings_are_in_order()
    ensures { FiringsInOrder }
{}

/// Each firing of a batch is followed at once by the push of the batch's callback of this kind, at the left end of the queue that its head
/// names, where the batch has one. That push counts as the store's own.
pub fn callbacks_follow()
    ensures { CallbacksFollow }
{}

/// Whatever takes a row away, puts a text back or is the store's own push has its cause. Rows are taken away by a client's DEL, LREM, ZREM,
/// ZREMRANGEBYRANK, ZREMRANGEBYSCORE or FLUSHALL alone. The dead set is trimmed only after a text came into it in the same event. A row is
/// released by the seat alone that put a payload of its text back or is done with it, and a text put back by one that holds a payload which it
/// follows. The store's own push is the callback of the firing just before it, or the job of the slot that a loop got just before it. That a job
/// returned, a batch is told by the SK.OK of a seat that held a payload of it. A lock is made by an SK.UPUSH of its job alone, and let go before
/// its time by the SK.START or SK.OK of a seat that held a payload of that job alone.
pub fn moves_have_causes()
    ensures { MovesHaveCauses }
{}

/// While a lock under a digest stands, each SK.UPUSH of a job with that digest is answered by the id of the job that holds the lock, or by a refusal,
/// and nothing moves: time alone goes on.
pub fn a_lock_has_one_holder()
    ensures { OneHolder }
{}

/// While one process leads, SK.LEAD of another one is answered by 0 or by a refusal, and time alone goes on.
pub fn one_process_leads()
    ensures { OneLeader }
{}

/// The slots of each periodic job strictly rise. Each was sent by the process whose lease stood at that moment, and had come, not more than 600,000
/// milliseconds ago.
pub fn slots_rise()
    ensures { SlotsRise }
{}

/// All of these hold of each run together.
pub fn runs_are_reliable()
    ensures { Reliable }
{}

/// An event comes to its one outcome; or it starves, which a cut never does: the reply is `-OOM`, and time alone goes on, or nothing changes at all.
pub fn events_are_served_or_starve()
    ensures { ServedOrStarved }
{}

/// A worker's release always comes about, whichever of the jobs in its hands it is: neither to read its words nor to do it is memory wanted.
pub fn releases_never_starve()
    ensures { ReleasesNeverStarve }
{}

/// A pipe answers its own words, SK.NOW, SK.AS and SK.CUT, without memory.
pub fn own_words_never_starve()
    ensures { OwnWordsNeverStarve }
{}

/// Each run keeps the limits that the store was made with.
pub fn limits_stay()
    ensures { LimitsStay }
{}

/// The words of a command are read in one way: as one command with its arguments, as one word of the pipe's own, or as one refusal. So what
/// they come to from a state is one turn, where the command doesn't starve.
pub fn words_have_one_reading()
    ensures { (words : Words) (said other : PipeCommand) → IsSaid words said → IsSaid words other → said ≡ other }
{}

/// Any words have a reading in which memory isn't wanted.
pub fn words_have_some_reading()
    ensures { SomeReading }
{}

/// Of each run, the events that a log keeps are a run again in which none starves, with the same replies. Brought to the moment of the whole run's
/// last world, the two last worlds are one.
pub fn what_is_logged_runs_again()
    ensures { Replay }
{}

/// The same of entries that leave out any steps that left the world as it was but for time.
pub fn what_was_written_runs_again()
    ensures { Rerun }
{}

/// An LMOVE that is answered null leaves the world as it was, but for time: such a one may be left out.
pub fn null_moves_idle()
    ensures { NullMovesIdle }
{}
