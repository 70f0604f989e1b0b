// How a drill ends.
use crate::Summary;
use sk_desk::FullBook;
use sk_lane::Story;
use sk_resp::Word;

/// A drill whose stories and journal are alike.
#[derive(Drop)]
pub struct Drilled {
    /// How many entries the journal has, and the store's tally behind the last of them.
    pub summary: Summary,
    /// What each thread tells of its seats, thread by thread.
    pub stories: Vec<Story>,
    /// The journal of the store.
    pub book: FullBook,
}

/// How a drill ended.
#[derive(Drop)]
pub enum DrillEnd {
    /// The journal has of each seat what is told of it.
    Alike(Drilled),
    /// At a place of a seat the journal has another ask than is told, or only one of them has an ask there. The two texts differ.
    Differs {
        /// The number of the seat.
        seat: u32,
        /// How many asks of the seat stand before it.
        place: u64,
        /// What is told there: the request as clients write it, and the text of the reply behind it. It is empty where nothing is told.
        told: Word,
        /// What the journal has there, in the same form.
        noted: Word,
    },
    /// There was no memory, in a thread or for a reply, or the store answered `-OOM`.
    Memory,
}
