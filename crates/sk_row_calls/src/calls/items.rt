// The items of iterable jobs. They write a line each time they are run.
ghost use Rattle.std.specs.Prelude.{◌≡◌, [], None, Some, map};
ghost use Rattle.sk_iter.specs.Event.{ItemRun};
ghost use Rattle.sk_worker.specs.declared.job.Outcome.TheVariants.{Returned};

use crate::calls::Peers;
use crate::output::Output;
use crate::text::{count, invalid, number};
use sk_base::MemConn;
use sk_iter::{Items, IterJob};
use sk_link::WireLink;
use sk_resp::Text;
use sk_worker::{Outcome, Raised};
use std::alloc::{AllocError, Global};
use std::io;
use std::sync::{Arc, Mutex};

// An item raises.
fn raised(alloc: Global) -> Result<Outcome, AllocError> {
    let class = Text::new(String::from_str(alloc, "ItemFault")?);
    let message = Text::new(String::new(alloc));
    Ok(Outcome::Raised(Raised { class, message }))
}

/// Items of which one raises, where there is one.
#[derive(Drop)]
pub struct ShownItems {
    pub len: u64,
    pub raises: Option<u64>,
    pub out: Output,
}

impl Items for ShownItems {
    ghost count = { λ items. items.len };

    ghost told = { λ items. None };

    fn len(&self) -> u64 {
        self.len
    }

    fn item(&mut self, alloc: Global, index: u64) -> Result<Outcome, AllocError> {
        self.out.count("item ", index, "\n");
        if self.raises == Some(index) {
            return raised(alloc);
        }
        Ok(Outcome::Returned)
    }
}

/// Lines that the items of a job write and the row takes. One thread does both, so the lock is free.
#[derive(Drop)]
pub struct Lines {
    text: Arc<Mutex<Output>, Global>,
}

impl Lines {
    pub fn new(alloc: Global) -> Result<Lines, AllocError> {
        let text = Arc::new(alloc, Mutex::new(Output::new(alloc)))?;
        Ok(Lines { text })
    }

    /// The same lines.
    pub fn share(&self) -> Result<Lines, AllocError> {
        let text = Arc::try_clone(&self.text)?;
        Ok(Lines { text })
    }

    // Writes the line of an item.
    fn write(&self, index: u64) {
        if let Some(mut text) = self.text.try_lock() {
            text.count("item ", index, "\n");
        }
    }

    /// Moves the lines to the end of what is told, and none is left.
    pub fn move_to(&self, out: &mut Output) {
        if let Some(mut text) = self.text.try_lock() {
            out.add(text.bytes());
            text.clear();
        }
    }
}

/// Items that return, but for one that finds no memory when it is run first. They tell which of them ran.
#[derive(Drop)]
pub struct CutItems {
    pub len: u64,
    pub cut: Option<u64>,
    /// Which ran, in order.
    pub ran: Vec<u64>,
    pub lines: Lines,
}

impl Items for CutItems {
    ghost count = { λ items. items.len };

    ghost told = { λ items. Some (map {B = ItemRun} (λ index. record { index = index; outcome = Returned }) items.ran.items) };

    fn len(&self) -> u64 {
        self.len
    }

    fn item(&mut self, _alloc: Global, index: u64) -> Result<Outcome, AllocError> {
        if self.cut == Some(index) {
            self.cut = None;
            return Err(AllocError);
        }
        self.ran.reserve(1)?;
        self.lines.write(index);
        self.ran.push_reserved(index);
        Ok(Outcome::Returned)
    }
}

/// The job of rows with a job that is cut.
pub type Import = IterJob<WireLink<MemConn>, CutItems>;

/// The job whose items are so many, whose cursor is saved after so many, and one of whose items is cut, as the first three words say. Its link is the
/// first connection that is dialled. Other words are invalid data.
pub fn import_of(
    alloc: Global,
    words: &[String],
    peers: &mut Peers,
    lines: &Lines,
) -> io::Result<Import> {
    let [len, every, cut, ..] = words else {
        return Err(invalid());
    };
    let (len, every, cut) = (number(len)?, count(every)?, number(cut)?);
    if peers.dialled.is_empty() {
        return Err(invalid());
    }
    let lines = lines.share()?;
    let link = WireLink::new(alloc, peers.dialled.remove(0));
    let items = CutItems {
        len,
        cut: Some(cut),
        ran: Vec::new(alloc),
        lines,
    };
    Ok(IterJob { link, items, every })
}
