// A worker with its jobs, and what came of its turns.
use crate::tally::Tally;
use sk_worker::{Registry, WorkFault, Worker};

/// A worker with its jobs, and what came of its turns. (It has boxed functions, and so it is a struct without type parameters: then the check finds that
/// it may go to a thread.)
#[derive(Drop)]
pub(crate) struct Processor {
    pub worker: Worker,
    pub registry: Registry,
    pub tally: Tally,
    pub fault: Option<WorkFault>,
}
