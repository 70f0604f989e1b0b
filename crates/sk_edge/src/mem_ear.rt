// An ear in memory, for tests. What is left to it is kept in order, in room that was made with it.
ghost use Rattle.std.specs.Prelude.{◌≡◌, Some, IfSome};

use crate::Ear;
use crate::collector::Collector;
use sk_base::{Failed, MemConn};
use std::collections::VecDeque;
use std::marker::Model;

/// An ear in memory. It accepts the connections of its list in order, and fails behind the last of them.
#[derive(Drop)]
pub struct MemEar {
    heard: VecDeque<MemConn>,
    kept: Collector<MemConn>,
    // how often it was nudged, none where it doesn't fit
    nudged: Option<u64>,
    faults: u64,
}

impl Model for MemEar {
    ghost use Rattle.sk_edge.specs.Memory.{EarView};

    ghost Value = { EarView };

    ghost view = { λ e. record { heard = e.heard.items; kept = e.kept; nudged = e.nudged; faults = e.faults } };
}

impl MemEar {
    // An ear that hears these connections.
    pub(crate) fn new(heard: Vec<MemConn>, kept: Collector<MemConn>) -> MemEar
        ensures { result ≡ record { heard = heard.items; kept = kept; nudged = Some 0; faults = 0 } }
    {
        MemEar {
            heard: VecDeque::from(heard),
            kept,
            nudged: Some(0),
            faults: 0,
        }
    }

    /// The connections that were left to it, in order, up to the first for which there was no room. An ear has room for as many as it hears.
    pub fn kept(&self) -> &[MemConn]
        ensures { IfSome self.now.kept (λ kept. result.now ≡ kept.items) }
    {
        self.kept.items()
    }

    /// How often it was nudged. None where that was 2^64 times or more.
    pub fn nudged(&self) -> Option<u64>
        ensures { result ≡ self.now.nudged }
    {
        self.nudged
    }
}

impl Ear for MemEar {
    type Conn = MemConn;

    ghost ear_faults = { λ e. e.faults };

    ghost heard = { λ e. Some e.heard };

    ghost kept = { λ e. e.kept };

    ghost nudged = { λ e. e.nudged };

    fn accept(&mut self) -> Result<MemConn, Failed> {
        match self.heard.pop_front() {
            Some(conn) => Ok(conn),
            None => {
                self.faults = self.faults.saturating_add(1);
                Err(Failed)
            }
        }
    }

    /// It is counted. Nothing is heard of it, and it never fails.
    fn nudge(&mut self) -> Result<(), Failed> {
        self.nudged = self.nudged.and_then(|count| count.checked_add(1));
        Ok(())
    }

    fn leave(&mut self, conn: MemConn) {
        self.kept.keep(conn);
    }
}
