// The numbers of a batch, kept with it, and what each event makes of them. So no event and no look counts members.
ghost use Rattle.std.specs.Prelude.{◌≡◌, true};
ghost use Rattle.sk_batch.specs.Numbers.{changed, gained, left_after, no_numbers, one_if};

use crate::{Mark, Progress};

/// How many members of some are still to come.
#[derive(Clone, Copy, Drop)]
pub struct Left {
    /// Those that weren't reported.
    pub unreported: u64,
    /// Those that haven't returned.
    pub unreturned: u64,
}

/// The numbers of a batch.
#[derive(Clone, Copy, Drop)]
pub struct Numbers {
    /// Its own members.
    pub members: u64,
    /// Of its own members.
    pub own: Left,
    /// Of its own members and those of the batches within it.
    pub under: Left,
}

/// What comes to a batch and to those that it is in.
#[derive(Clone, Copy, Drop)]
pub enum Change {
    /// So many new members of the batch.
    Came(u64),
    /// Marks that a member of the batch hadn't.
    Got(Progress),
}

fn one_if(b: bool) -> u64
    ensures { result ≡ one_if b }
{
    if b { 1 } else { 0 }
}

/// Which marks a member gets by this one, of those that it hasn't.
pub fn gained(mark: Mark, marks: Progress) -> Progress
    ensures { result ≡ gained mark marks }
{
    match mark {
        Mark::Reported => Progress {
            reported: !marks.reported,
            returned: false,
        },
        Mark::Returned => Progress {
            reported: !marks.reported,
            returned: !marks.returned,
        },
    }
}

impl Left {
    /// The numbers after a change. A sum stays at the last number of 64 bits.
    pub fn after(self, change: Change) -> Left
        ensures { result ≡ left_after change self }
    {
        match change {
            Change::Came(count) => Left {
                unreported: self.unreported.saturating_add(count),
                unreturned: self.unreturned.saturating_add(count),
            },
            Change::Got(marks) => Left {
                unreported: self.unreported.saturating_sub(one_if(marks.reported)),
                unreturned: self.unreturned.saturating_sub(one_if(marks.returned)),
            },
        }
    }
}

impl Numbers {
    /// Of a batch that has no members.
    pub fn none() -> Numbers
        ensures { result ≡ no_numbers }
    {
        let none = Left {
            unreported: 0,
            unreturned: 0,
        };
        Numbers {
            members: 0,
            own: none,
            under: none,
        }
    }

    // The numbers of the batch itself to which a change comes.
    fn after_own(self, change: Change) -> Numbers
        ensures { result ≡ changed change true self }
    {
        let members = match change {
            Change::Came(count) => self.members.saturating_add(count),
            Change::Got(_) => self.members,
        };
        Numbers {
            members,
            own: self.own.after(change),
            under: self.under.after(change),
        }
    }

    /// The numbers after a change that comes to this batch itself, or to one within it.
    pub fn after(self, change: Change, own: bool) -> Numbers
        ensures { result ≡ changed change own self }
    {
        if own {
            self.after_own(change)
        } else {
            Numbers {
                under: self.under.after(change),
                ..self
            }
        }
    }
}
