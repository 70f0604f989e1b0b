// The one error of the outside.

/// A call of the outside failed. It comes only where the count of faults of the object that was called rose in that call.
#[derive(Clone, Copy, Debug, PartialEq, Eq)]
pub struct Failed;
