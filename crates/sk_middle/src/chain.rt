// The client's chain: functions that a draft goes through before it is pushed, each known by a name.
ghost use Rattle.std.specs.Prelude.{◌≡◌, ◌↔◌, ◌++◌, [], ◌∷◌, Some, Contains, map, bytes_eq};
ghost use Rattle.std.proofs.Props.{props};
ghost use Rattle.sk_base.specs.Name.{IsName};
ghost use Rattle.sk_base.specs.declared.limits.TheConstants.{LONGEST_NAME};
ghost use Rattle.sk_middle.specs.Identity.{KeepsIdentity};

use sk_base::is_name;
use sk_base::limits::LONGEST_NAME;
use sk_payload::JobDraft;
use sk_resp::Text;
use std::alloc::Global;

/// A function of a chain, under its name. It may be called on every draft, and answers none, or a draft with the same jid, class and bid.
#[derive(Drop)]
pub struct ChainStep {
    /// A name of at most 255 bytes.
    pub name: Text,
    /// What it makes of a draft. Where it answers none, the draft isn't pushed.
    pub call: Box<dyn Fn(JobDraft) -> Option<JobDraft> + Send>,
    ghost named: { IsName LONGEST_NAME name } by { Prim.hlevel props },
    ghost callable: { (draft : _) → pre call draft },
    ghost keeps: { (draft next : _) → post call draft (Some next) → KeepsIdentity draft next } by { Prim.hlevel props },
}

impl ChainStep {
    ghost use Rattle.std.specs.Prelude.{IfSome};

    fn is_named(&self, name: &Text) -> bool
        ensures { result ≡ bytes_eq name.now self.now.name }
    {
        name.text() == self.name.text()
    }

    // What the function answers.
    fn answer(&self, draft: JobDraft) -> Option<JobDraft>
        ensures answer { post self.now.call draft result }
        ensures same { IfSome result (KeepsIdentity draft) }
    {
        (self.call)(draft)
    }
}

/// What comes of a draft that went through a chain.
#[derive(Drop)]
pub enum Through {
    /// The draft that is to be pushed: the answer of the last function, or the draft itself where the chain is empty.
    Push(JobDraft),
    /// The place, from 0, of the first function that answered none.
    Stopped(usize),
}

/// Why a function isn't added.
#[derive(Clone, Copy, Drop)]
pub enum ChainFault {
    /// The name is no name of at most 255 bytes.
    Name,
    /// A function of this name is in the chain already.
    Repeated,
    /// There was no memory.
    Memory,
}

/// The functions that a job's draft goes through before it is pushed, in order of adding (Sidekiq's wiki, "Middleware").
#[derive(Drop)]
pub struct ClientChain {
    /// In order of adding. [`ClientChain::add`] takes no name twice.
    pub steps: Vec<ChainStep>,
}

impl ClientChain {
    ghost use Rattle.std.specs.Prelude.{Err, OnOk, OnErr, IsTrue};
    ghost use Rattle.sk_middle.specs.Applied.{applied};
    ghost use Rattle.sk_middle.specs.Chain.{IsOfJob};

    /// A chain without functions. Takes no memory.
    pub fn new(alloc: Global) -> ClientChain
        ensures { result.steps.items ≡ [] }
    {
        ClientChain {
            steps: Vec::new(alloc),
        }
    }

    // Whether a function of the chain has this name.
    fn has(&self, name: &Text) -> bool
        ensures { IsTrue result ↔ Contains (map (λ s. s.name) self.now.steps.items) name.now }
    {
        self.steps.iter().any(
            |step: &ChainStep| -> bool
                ensures { result ≡ bytes_eq name.entry.now step.now.name }
            { step.is_named(name) },
        )
    }

    /// Adds a function at the end. It may be called on every draft, and answers none, or a draft with the same jid, class and bid. Where it isn't added,
    /// the chain stays as it was.
    pub fn add(
        &mut self,
        name: Text,
        step: Box<dyn Fn(JobDraft) -> Option<JobDraft> + Send>,
    ) -> Result<(), ChainFault>
        requires callable { (draft : _) → pre step draft }
        requires keeps { (draft next : _) → post step draft (Some next) → KeepsIdentity draft next }
        ensures name { (result ≡ Err ChainFault.Name) ↔ ¬ IsName LONGEST_NAME name }
        ensures repeated { (result ≡ Err ChainFault.Repeated) ↔ Contains (map (λ s. s.name) self.old.steps.items) name }
        ensures named { OnOk result (map (λ s. s.name) self.new.steps.items ≡ map (λ s. s.name) self.old.steps.items ++ name ∷ []) }
        ensures added { OnOk result (map (λ s. s.call) self.new.steps.items ≡ map (λ s. s.call) self.old.steps.items ++ step ∷ []) }
        ensures err { OnErr result (self.new.steps.items ≡ self.old.steps.items) }
    {
        if !is_name(name.text().as_bytes(), LONGEST_NAME) {
            return Err(ChainFault::Name);
        }
        if self.has(&name) {
            return Err(ChainFault::Repeated);
        }
        if self.steps.reserve(1).is_err() {
            return Err(ChainFault::Memory);
        }
        self.steps.push_reserved(ChainStep { name, call: step });
        Ok(())
    }

    /// Hands the draft to the first function, and what that answers to the next one, until one answers none. Takes no memory of its own.
    pub fn apply(&self, draft: JobDraft) -> Through
        ensures chained { applied self.now draft result }
        ensures same { IsOfJob draft result }
    {
        let mut draft = draft;
        for (place, step) in self.steps.iter().enumerate() {
            match step.answer(draft) {
                Some(next) => draft = next,
                None => return Through::Stopped(place),
            }
        }
        Through::Push(draft)
    }
}
