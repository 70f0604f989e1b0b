// The jobs that a batch pushes when something comes of it.
use sk_payload::JobText;

/// A batch's callbacks, each with its job, where it has one (Sidekiq's wiki, "Batches").
#[derive(Drop)]
pub struct Callbacks {
    pub complete: Option<JobText>,
    pub success: Option<JobText>,
    pub death: Option<JobText>,
}
