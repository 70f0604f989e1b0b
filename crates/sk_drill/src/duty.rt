// What one thread of a drill does.

use std::alloc::Global;

/// What one thread of a drill does, and keeps of it.
pub(crate) trait Duty {
    /// It may begin.
    ghost ready: { Self → Type 0 };

    /// It was done, from the one state to the other.
    ghost did: { Self → Self → Type 0 };

    /// Does it.
    fn run(&mut self, alloc: Global)
        requires { ready self.old }
        ensures { did self.old self.new };
}
