// What may come of a job, as it is told to its batch.

/// What has come of a job.
#[derive(Clone, Copy, Drop)]
pub enum Event {
    /// A run of it has ended badly.
    Reported,
    /// A run of it has ended well.
    Returned,
    /// It was buried.
    Died,
}
