// The jobs by class.
ghost use Rattle.std.specs.Prelude.{◌≡◌, ◌≤◌, ◌↔◌, ◌++◌, ℕ, List, [], ◌∷◌, Option, Err, OnOk, OnErr, IsSome, length, vec_len, bytes_eq};
ghost use Rattle.sk_worker.specs.Run.{place_of};

use crate::Memory;
use crate::job::Job;
use sk_policy::DelayRule;
use sk_resp::Text;
use std::alloc::Global;
use std::marker::Model;

/// The names of the classes, in order of adding.
#[derive(Drop)]
pub struct Classes {
    names: Vec<Text>,
}

impl Model for Classes {
    ghost use Rattle.std.specs.Prelude.{List, ℕ};

    ghost Value = { List (List ℕ) };

    ghost view = { λ c. c.names.items };
}

fn is_same(a: &str, b: &str) -> bool
    ensures { result ≡ bytes_eq a.now b.now }
{
    a == b
}

impl Classes {
    pub fn new(alloc: Global) -> Classes
        ensures { result ≡ [] }
    {
        Classes {
            names: Vec::new(alloc),
        }
    }

    pub fn find(&self, class: &Text) -> Option<usize>
        ensures { result ≡ place_of self.now class.now }
    {
        self.names
            .iter()
            .position(|name| is_same(class.text(), name.text()))
    }

    pub fn push(&mut self, class: Text) -> Result<(), Memory>
        ensures ok { OnOk result (self.new ≡ self.old ++ class ∷ []) }
        ensures err { OnErr result (self.new ≡ self.old) }
    {
        self.names.push(class)?;
        Ok(())
    }
}

/// The job of a class.
#[derive(Drop)]
pub struct Slot {
    pub job: Box<dyn Job + Send>,
}

/// The jobs and delay rules of a worker's classes: those of a class stand at its place among the classes.
#[derive(Drop)]
pub struct Registry {
    pub classes: Classes,
    pub slots: Vec<Slot>,
    pub rules: Vec<DelayRule>,
    ghost jobs: { length classes ≡ vec_len slots },
    ghost delays: { length classes ≡ vec_len rules },
}

/// Why a class isn't added.
#[derive(Drop)]
pub enum AddFault {
    /// This class is there already.
    Repeated(Text),
    /// There was no memory.
    Memory,
}

impl Registry {
    /// A registry without classes. Takes no memory.
    pub fn new(alloc: Global) -> Registry
        requires { 0 ≤ 1 }
        ensures { result.classes ≡ [] }
    {
        Registry {
            classes: Classes::new(alloc),
            slots: Vec::new(alloc),
            rules: Vec::new(alloc),
        }
    }

    /// Adds a class with its job and its delay rule. Where it isn't added, the registry stays as it was.
    pub fn add(
        &mut self,
        class: Text,
        job: Box<dyn Job + Send>,
        delay: DelayRule,
    ) -> Result<(), AddFault>
        requires { 0 ≤ 1 }
        ensures class { OnOk result (self.new.classes ≡ self.old.classes ++ class ∷ []) }
        ensures job { OnOk result (self.new.slots.items ≡ self.old.slots.items ++ record { job = job } ∷ []) }
        ensures delay { OnOk result (self.new.rules.items ≡ self.old.rules.items ++ delay ∷ []) }
        ensures same_classes { OnErr result (self.new.classes ≡ self.old.classes) }
        ensures same_jobs { OnErr result (self.new.slots.items ≡ self.old.slots.items) }
        ensures same_delays { OnErr result (self.new.rules.items ≡ self.old.rules.items) }
        ensures repeated { (result ≡ Err (AddFault.Repeated class)) ↔ IsSome (place_of self.old.classes class) }
    {
        if self.classes.find(&class).is_some() {
            return Err(AddFault::Repeated(class));
        }
        if self.slots.reserve(1).is_err() {
            return Err(AddFault::Memory);
        }
        if self.rules.reserve(1).is_err() {
            return Err(AddFault::Memory);
        }
        if self.classes.push(class).is_err() {
            return Err(AddFault::Memory);
        }
        self.slots.push_reserved(Slot { job });
        self.rules.push_reserved(delay);
        Ok(())
    }
}
