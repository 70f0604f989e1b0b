// A counting Bloom filter of the jobs in hands. Each job has three places among the counts, and is counted at each of them. So where one of these
// counts is 0, no seat has the job; else a seat has it, or other jobs share its places.
ghost use Rattle.std.specs.Prelude.{◌≡◌, [], IfOk, length, replicate};
ghost use Rattle.sk_seats.specs.JobFilter.{changed, is_counted as is_counted_in, lowered, may_have, mixed, number_of, place_of, places_of, raised, with_job, with_jobs, without_job, without_jobs};

use crate::work::Work;
use sk_payload::JobText;
use sk_resp::Memory;
use std::alloc::Global;
use std::marker::Model;

/// What spreads the ids of jobs over 64 bits: 2^64, divided by the golden ratio.
const SPREAD: usize = 0x9E37_79B9_7F4A_7C15;

/// 2^21. The number of a job is divided by it for the job's second place, and once more for the third.
const STRIDE: usize = 0x20_0000;

/// A count that has come so far stays there.
const STUCK: u16 = 0xFFFF;

/// Where a job is counted.
#[derive(Clone, Copy)]
struct Places {
    first: usize,
    second: usize,
    third: usize,
}

/// How many jobs in hands have each place, up to 65,535. Contracts see the list of these counts.
#[derive(Drop)]
pub struct JobFilter {
    counts: Vec<u16>,
}

impl Model for JobFilter {
    ghost use Rattle.std.specs.Prelude.{List, ℕ};

    ghost Value = { List ℕ };

    ghost view = { λ f. f.counts.items };
}

// The number of an id, once one more byte of it is read.
#[tactic(auto, unfolding(crate::specs::JobFilter::mixed))]
fn mixed(number: usize, byte: u8) -> usize
    ensures { result ≡ mixed number byte }
{
    number.wrapping_add(usize::from(byte)).wrapping_mul(SPREAD)
}

// The number of an id.
#[tactic(auto, unfolding(crate::specs::JobFilter::number_of))]
fn number_of(jid: &[u8]) -> usize
    ensures { result ≡ number_of jid.now }
{
    let mut number = 0;
    for byte in jid {
        number = mixed(number, *byte);
    }
    number
}

// A place among so many.
#[tactic(auto, unfolding(crate::specs::JobFilter::place_of))]
fn place_of(number: usize, size: usize) -> usize
    ensures { result ≡ place_of number size }
{
    number % size.max(1)
}

// The places of a job among so many.
fn places_of(jid: &[u8], size: usize) -> Places
    ensures { result ≡ places_of jid.now size }
{
    let number = number_of(jid);
    Places {
        first: place_of(number, size),
        second: place_of(number / STRIDE, size),
        third: place_of(number / STRIDE / STRIDE, size),
    }
}

// A count, once one more job has its place.
fn raised(count: u16) -> u16
    ensures { result ≡ raised count }
{
    if count < STUCK { count + 1 } else { count }
}

// A count, once one job fewer has its place.
fn lowered(count: u16) -> u16
    ensures { result ≡ lowered count }
{
    if count < STUCK {
        count.saturating_sub(1)
    } else {
        count
    }
}

impl JobFilter {
    /// Without a count. Takes no memory.
    pub fn none(alloc: Global) -> JobFilter
        ensures { result ≡ [] }
    {
        JobFilter {
            counts: Vec::new(alloc),
        }
    }

    /// So many counts, all 0.
    pub fn new(alloc: Global, size: usize) -> Result<JobFilter, Memory>
        ensures { IfOk result (λ filter. filter ≡ replicate size 0) }
    {
        Ok(JobFilter {
            counts: vec![in alloc; 0; size]?,
        })
    }

    /// How many counts there are.
    pub fn len(&self) -> usize
        ensures { result ≡ length self.now }
    {
        self.counts.len()
    }

    // Whether the count at a place isn't 0.
    fn is_counted(&self, place: usize) -> bool
        ensures { result ≡ is_counted_in place self.now }
    {
        match self.counts.get(place) {
            Some(count) => *count > 0,
            None => true,
        }
    }

    /// Whether a seat may have the job. Constant.
    pub fn may_have(&self, jid: &[u8]) -> bool
        ensures { result ≡ may_have jid.now self.now }
    {
        let places = places_of(jid, self.counts.len());
        self.is_counted(places.first)
            && self.is_counted(places.second)
            && self.is_counted(places.third)
    }

    // One more job has the place.
    fn raise(&mut self, place: usize)
        ensures { self.new ≡ changed raised place self.old }
    {
        if place < self.counts.len() {
            self.counts[place] = raised(self.counts[place]);
        }
    }

    // One job fewer has the place.
    fn lower(&mut self, place: usize)
        ensures { self.new ≡ changed lowered place self.old }
    {
        if place < self.counts.len() {
            self.counts[place] = lowered(self.counts[place]);
        }
    }

    /// Counts the job of a payload. Constant, and takes no memory.
    pub fn add(&mut self, payload: &JobText)
        ensures { self.new ≡ with_job payload.now self.old }
    {
        if let Some(jid) = payload.jid() {
            let places = places_of(jid, self.counts.len());
            self.raise(places.first);
            self.raise(places.second);
            self.raise(places.third);
        }
    }

    /// No longer counts the job of a payload. Constant, and takes no memory.
    pub fn remove(&mut self, payload: &JobText)
        ensures { self.new ≡ without_job payload.now self.old }
    {
        if let Some(jid) = payload.jid() {
            let places = places_of(jid, self.counts.len());
            self.lower(places.first);
            self.lower(places.second);
            self.lower(places.third);
        }
    }

    /// Counts the job of each work.
    pub fn add_all(&mut self, works: &[Work])
        ensures { self.new ≡ with_jobs works.now self.old }
    {
        for work in works {
            self.add(&work.payload);
        }
    }

    /// No longer counts the job of any of the works.
    pub fn remove_all(&mut self, works: &[Work])
        ensures { self.new ≡ without_jobs works.now self.old }
    {
        for work in works {
            self.remove(&work.payload);
        }
    }
}
