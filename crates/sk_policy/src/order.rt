// The queues of a worker, and in which order a turn asks them.
ghost use Rattle.std.specs.Prelude.{is_some, bytes_eq, map, vec_capacity, ◌≡◌, ◌<◌, ◌≤◌, ◌-◌, ℕ, List, [], All, Some, None, Option, IfOk, OnErr, MatchResult, length};
ghost use Rattle.std.specs.List.{list_any, range_with_len};
ghost use Rattle.std.specs.List.Sorted.{IsPermutation};
ghost use Rattle.sk_base.specs.Yields.{YieldsAll};
ghost use Rattle.sk_policy.specs.Order.{IsFault, IsOrder, IsQueue, Order, draws, firsts, lot as lot_of, places, shuffled, strict_order, weight_at, weighted_order};

use crate::Memory;
use crate::order_fault::OrderFault;
use sk_base::limits::{LONGEST_NAME, MOST_QUEUES, MOST_WEIGHT};
use sk_base::{Dice, is_name};
use sk_resp::Text;
use std::alloc::Global;
use std::marker::Model;

/// The queues of a worker, 1 to 100, and how a turn orders them. Contracts see the names and the weights, and none where the order is strict.
#[derive(Drop)]
pub struct QueueOrder {
    names: Vec<Text>,
    weights: Option<Vec<u8>>,
}

impl Model for QueueOrder {
    ghost use Rattle.std.specs.Prelude.{option_map};
    ghost use Rattle.sk_policy.specs.Order.{Order};

    ghost Value = { Order };

    ghost view = { λ o. record { names = o.names.items; weights = option_map (λ weights. weights.items) o.weights } };
}

fn is_same(a: &str, b: &str) -> bool
    ensures { result ≡ bytes_eq a.now b.now }
{
    a == b
}

fn stands_among(name: &Text, names: &[Text]) -> bool
    ensures { result ≡ list_any (bytes_eq name.now) names.now }
{
    names.iter().any(|other| is_same(name.text(), other.text()))
}

// The order of these queues, before it is checked.
fn by_weight(alloc: Global, queues: Vec<(Text, u8)>) -> Result<QueueOrder, Memory>
    ensures { IfOk result (λ order. order ≡ weighted_order queues.items) }
{
    let mut names = Vec::new(alloc);
    let mut weights = Vec::new(alloc);
    for (name, weight) in queues {
        names.push(name)?;
        weights.push(weight)?;
    }
    Ok(QueueOrder {
        names,
        weights: Some(weights),
    })
}

// So many places, in the order of the list.
fn in_order(alloc: Global, len: usize) -> Result<Vec<usize>, Memory>
    ensures { IfOk result (λ places. places.items ≡ range_with_len 0 len) }
{
    let mut places = Vec::new(alloc);
    for place in 0..len {
        places.push(place)?;
    }
    Ok(places)
}

// Exchanges elements from the last index down, by a word of the dice each (Fisher-Yates).
fn shuffle<D: Dice>(mut lot: Vec<usize>, dice: &mut D) -> Vec<usize>
    ensures shuffled { (words : List ℕ) × YieldsAll (D.words dice.old) words (D.words dice.new) × (length words ≡ length lot.items - 1)
        × (result.items ≡ shuffled (length lot.items - 1) words lot.items) }
    ensures same { IsPermutation lot.items result.items }
    ensures len { length result.items ≡ length lot.items }
{
    let mut i = lot.len();
    while i > 1 {
        i -= 1;
        let chosen = dice.word() % (i as u64 + 1);
        lot.swap(i, chosen as usize);
    }
    lot
}

// Each element where it stands first, in a list with room for all.
fn keep_firsts(lot: &[usize], mut room: Vec<usize>) -> Vec<usize>
    requires empty { room.items ≡ [] }
    requires room { length lot.now ≤ vec_capacity room }
    ensures { result.items ≡ firsts lot.now }
{
    for place in lot {
        if !room.contains(place) {
            room.push_reserved(*place);
        }
    }
    room
}

impl QueueOrder {
    /// A strict order: each turn asks the queues in the order of the list.
    pub fn strict(names: Vec<Text>) -> Result<QueueOrder, OrderFault>
        ensures { MatchResult result (λ order. (order ≡ strict_order names.items) × IsOrder order) (IsFault (strict_order names.items)) }
    {
        let order = QueueOrder {
            names,
            weights: None,
        };
        order.check()?;
        Ok(order)
    }

    /// A weighted order: each turn asks the queues in a random order, in which of two queues the one of weight 2 comes before the one of weight 1
    /// twice as often as behind it. Weights are from 1 to 100.
    pub fn weighted(alloc: Global, queues: Vec<(Text, u8)>) -> Result<QueueOrder, OrderFault>
        ensures { MatchResult result (λ order. (order ≡ weighted_order queues.items) × IsOrder order) (IsFault (weighted_order queues.items)) }
    {
        let order = by_weight(alloc, queues)?;
        order.check()?;
        Ok(order)
    }

    /// The names of the queues, by their places.
    pub fn names(&self) -> &[Text]
        ensures { result.now ≡ self.now.names }
    {
        &self.names
    }

    /// The same queues, for another worker.
    pub fn copy(&self, alloc: Global) -> Result<QueueOrder, Memory>
        ensures { IfOk result (λ order. order ≡ self.now) }
    {
        let mut names = Vec::with_capacity(alloc, self.names.len())?;
        for name in self.names.iter() {
            names.push(name.copy()?)?;
        }
        let weights = match &self.weights {
            Some(weights) => Some(weights.clone()?),
            None => None,
        };
        Ok(QueueOrder { names, weights })
    }

    /// The places of the queues in the order of a turn. A strict order draws no word. A weighted one takes each place as often as its weight says, in
    /// list order; from the last index `i` down to 1 it draws a word and exchanges the element at `i` with that at `word mod (i + 1)`; and it keeps
    /// each place where it stands first. Where there is no memory, no word is drawn.
    pub fn turn<D: Dice>(&self, alloc: Global, dice: &mut D) -> Result<Vec<usize>, Memory>
        ensures ok { IfOk result (λ turn. (words : List ℕ) × YieldsAll (D.words dice.old) words (D.words dice.new)
            × (length words ≡ draws self.now) × (turn.items ≡ places self.now words)) }
        ensures places { IfOk result (λ turn. All (λ place. place < length self.now.names) turn.items) }
        ensures err { OnErr result (D.words dice.new ≡ D.words dice.old) }
    {
        if !self.is_weighted() {
            return in_order(alloc, self.names().len());
        }
        let lot = self.lot(alloc)?;
        let room = Vec::with_capacity(alloc, lot.len())?;
        Ok(keep_firsts(&shuffle(lot, dice), room))
    }

    fn is_weighted(&self) -> bool
        ensures { result ≡ is_some self.now.weights }
    {
        self.weights.is_some()
    }

    // The first wrong place is a fault.
    fn check(&self) -> Result<(), OrderFault>
        ensures { MatchResult result (λ _. IsOrder self.now) (IsFault self.now) }
    {
        if self.names.is_empty() {
            return Err(OrderFault::Empty);
        }
        for place in 0..self.names.len() {
            self.check_at(place)?;
        }
        Ok(())
    }

    fn check_at(&self, place: usize) -> Result<(), OrderFault>
        requires there { place < length self.now.names }
        requires before { (k : ℕ) → k < place → IsQueue self.now k }
        ensures { MatchResult result (λ _. IsQueue self.now place) (IsFault self.now) }
    {
        let name = &self.names[place];
        if place >= MOST_QUEUES || !is_name(name.text().as_bytes(), LONGEST_NAME) {
            return Err(OrderFault::Name(place));
        }
        if stands_among(name, &self.names[..place]) {
            return Err(OrderFault::Repeated(place));
        }
        let weight = self.weight(place);
        if weight < 1 || weight > MOST_WEIGHT {
            return Err(OrderFault::Weight(place));
        }
        Ok(())
    }

    fn weight(&self, place: usize) -> u8
        ensures { result ≡ weight_at self.now place }
    {
        match &self.weights {
            Some(weights) => weights.get(place).copied().unwrap_or(0),
            None => 1,
        }
    }

    // Each place as often as its weight says.
    fn lot(&self, alloc: Global) -> Result<Vec<usize>, Memory>
        ensures { IfOk result (λ lot. lot.items ≡ lot_of self.now) }
    {
        let mut lot = Vec::new(alloc);
        for place in 0..self.names.len() {
            let len = lot.len() + usize::from(self.weight(place));
            lot.resize(len, place)?;
        }
        Ok(lot)
    }
}
