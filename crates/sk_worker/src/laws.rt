// What follows from the definition of a turn.
ghost use Rattle.std.specs.Prelude.{List};
ghost use Rattle.sk_resp.specs.Spelling.{Bytes};
ghost use Rattle.sk_link.specs.Walk.{Walk};
ghost use Rattle.sk_worker.specs.Event.{Event};
ghost use Rattle.sk_worker.specs.Forms.{Form, ReturnedForm};
ghost use Rattle.sk_worker.specs.Laws.{DoneTurnsReturned, EmptyTurnsFindNoJob, StartedJobsRunOnce, TurnsWithoutJobsAreEmpty};
ghost use Rattle.sk_worker.specs.Stage.{Step, Settings, holding, over, returned};
ghost use Rattle.sk_worker.specs.declared.turn.Turn.{Turn};

/// What a whole turn does with a job has one of four forms: the job has no head, its run returned, its run raised an error, or its class has no job.
pub fn a_turn_has_one_of_four_forms()
    ensures { (w : Settings) (c : Bytes) (t : Turn) (events : List Event) → Walk (Step w) (holding c) events (over t) → Form w c events t }
{}

/// An empty turn held no job, and each queue in its order answered null: so [`crate::Turn::Empty`] says.
pub fn an_empty_turn_found_each_queue_empty()
    ensures { (w : Settings) → EmptyTurnsFindNoJob w }
{}

/// A turn that held no job, and in which each queue in its order answered null, is empty, unless there was no memory.
pub fn a_turn_that_finds_no_job_is_empty()
    ensures { (w : Settings) → TurnsWithoutJobsAreEmpty w }
{}

/// Where SK.START of a job was answered `+OK`, and its class has a job, exactly one run of its head follows; or there was no memory, before the run
/// or behind it. This holds also in a turn that a fault breaks off.
pub fn a_started_job_runs_once()
    ensures { (w : Settings) → StartedJobsRunOnce w }
{}

/// SK.OK is said at one stage of the table, where a run returned. A worker comes there only by SK.START and a run of the job's own class that
/// returned, also in a turn that a fault breaks off.
pub fn ok_is_said_after_a_run_that_returned()
    ensures { (w : Settings) (c said : Bytes) (events : List Event)
        → Walk (Step w) (holding c) events (returned said) → ReturnedForm w c said events }
{}

/// A turn that answers [`crate::Turn::Done`] had one run that returned, and every other turn without a fault had none. So the turns that were done are
/// as many as the runs that returned.
pub fn a_done_turn_has_one_run_that_returned()
    ensures { (w : Settings) → DoneTurnsReturned w }
{}
