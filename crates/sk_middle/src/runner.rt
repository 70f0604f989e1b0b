// Whose a run is.

/// Whose a run of a wrapped job is.
#[derive(Clone, Copy, Drop)]
pub enum Runner {
    /// The inner job ran.
    Inner,
    /// The gate raised an error, and the inner job didn't run.
    Gate,
}
