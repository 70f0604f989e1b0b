// The events that a load made.
ghost use Rattle.std.specs.Prelude.{◌≡◌, ◌<◌, ◌^◌, ◌++◌, ◌∷◌, [], length, map, OnOk};
ghost use Rattle.sk_drill.specs.Events.{event_of};

use crate::Memory;
use sk_resp::Words;
use std::alloc::Global;
use std::marker::Model;

/// An event.
#[derive(Drop)]
pub(crate) enum Event {
    /// A seat hands the store the words of a command, at a moment in milliseconds since 1970.
    Ask(u32, u64, Words),
    /// A seat is cut off.
    Cut(u32),
}

/// Events, in order. Contracts see them as the abstract store's.
#[derive(Drop)]
pub(crate) struct Events {
    list: Vec<Event>,
}

impl Model for Events {
    ghost use Rattle.std.specs.Prelude.{List, map};
    ghost use Rattle.sk_model.specs.Event.{Event};
    ghost use Rattle.sk_drill.specs.Events.{event_of};

    ghost Value = { List Event };

    ghost view = { λ e. map event_of e.list.items };
}

impl Events {
    /// No events. Takes no memory.
    pub(crate) fn new(alloc: Global) -> Events
        ensures { result ≡ [] }
    {
        Events {
            list: Vec::new(alloc),
        }
    }

    /// One more.
    pub(crate) fn push(&mut self, event: Event) -> Result<(), Memory>
        ensures { OnOk result (self.new ≡ self.old ++ event_of event ∷ []) }
    {
        self.list.push(event)?;
        Ok(())
    }

    /// All of the others, behind these.
    pub(crate) fn extend(&mut self, others: Events) -> Result<(), Memory>
        ensures { OnOk result (self.new ≡ self.old ++ others) }
    {
        let mut others = others;
        self.list.append(&mut others.list)
    }

    /// How many they are.
    pub(crate) fn len(&self) -> usize
        ensures is { result ≡ length self.now }
        ensures small { result < 2 ^ 63 }
    {
        self.list.len()
    }

    /// Takes no memory.
    pub(crate) fn into_list(self) -> Vec<Event>
        ensures { map event_of result.items ≡ self }
    {
        self.list
    }
}
