// What a search looks for, and what a walk does.
ghost use Rattle.std.specs.Prelude.{◌≡◌, ◌++◌, ◌∷◌, [], Bool, List, OnOk};
ghost use Rattle.std.specs.declared.cmp.Ordering.{Ordering};

use crate::Memory;
use std::cmp::Ordering;

/// A test of items, as a type, so that a search through a tree takes no closure.
pub trait Predicate<T> {
    ghost passes: { Self → T → Bool };

    fn test(&self, item: &T) -> bool
        ensures { result ≡ passes self.now item.now };
}

/// How what is looked for compares with an item, as a type.
pub trait Probe<T> {
    ghost order: { Self → T → Ordering };

    fn probe(&self, item: &T) -> Ordering
        ensures { result ≡ order self.now item.now };
}

/// What is done at each item of a walk.
pub trait Visit<T> {
    /// What is kept of an item.
    type Output;

    ghost output: { T → Self.Output };

    /// What was kept of the items that were visited, of the last one at the end.
    ghost visited: { Self → List Self.Output };

    fn visit(&mut self, item: &T) -> Result<(), Memory>
        ensures { OnOk result (visited self.new ≡ visited self.old ++ output item.now ∷ []) };
}
