// Memory that an accept loop holds back, so that a short command can be read, done and answered where memory is used up. It is let go then, and taken
// again as soon as there is some; and a command that keeps memory is done only beside a whole reserve. So what is stored never grows into it.
//
// It is blocks of every size that the C library's allocator keeps for one thread alone, once that thread has let them go: up to seven of each, of which
// no other thread gets any.
use std::alloc::Global;
use std::mem;

// The sizes of these blocks, in bytes, from the least on, with so many bytes between two of them.
const LEAST: usize = 24;

const STEP: usize = 16;

const SIZES: usize = 64;

// How many blocks there are of the least size beside those of every size, and of that of a list of four words, which each command has.
const LEAST_BLOCKS: usize = 5;

const LIST_BLOCKS: usize = 4;

const LIST: usize = 104;

// Two blocks of every size, and the others.
const BLOCKS: usize = 2 * SIZES + LEAST_BLOCKS + LIST_BLOCKS;

// How many bytes are free at a piece, where memory isn't used up.
const PROBE: usize = 65_536;

/// The reserve of an accept loop.
#[derive(Drop)]
pub struct Reserve {
    alloc: Global,
    blocks: Vec<Vec<u8>>,
}

// The bytes of this block.
fn size_of(block: usize) -> usize {
    if block < LEAST_BLOCKS {
        return LEAST;
    }
    if block < LEAST_BLOCKS + LIST_BLOCKS {
        return LIST;
    }
    LEAST + STEP * (block % SIZES)
}

impl Reserve {
    /// A whole one, or as much as there is memory for.
    pub fn new(alloc: Global) -> Reserve {
        let blocks = match Vec::with_capacity(alloc, BLOCKS) {
            Ok(blocks) => blocks,
            Err(_) => Vec::new(alloc),
        };
        let mut reserve = Reserve { alloc, blocks };
        let _ = reserve.hold();
        reserve
    }

    /// All that is held. Nothing is left.
    pub fn take(&mut self) -> Reserve {
        let alloc = self.alloc;
        let blocks = mem::replace(&mut self.blocks, Vec::new(alloc));
        Reserve { alloc, blocks }
    }

    /// Whether no block is missing.
    pub fn is_whole(&self) -> bool {
        self.blocks.len() >= BLOCKS
    }

    /// Takes the blocks that are missing, and answers whether none is missing then.
    pub fn hold(&mut self) -> bool {
        for block in self.blocks.len()..BLOCKS {
            let Ok(taken) = Vec::with_capacity(self.alloc, size_of(block)) else {
                return false;
            };
            if self.blocks.push(taken).is_err() {
                return false;
            }
        }
        true
    }

    /// Takes the blocks where there is memory, and lets all of them go where it is used up.
    pub fn settle(&mut self) {
        let probe: Result<Vec<u8>, _> = Vec::with_capacity(self.alloc, PROBE);
        match probe {
            Ok(_) => {
                let _ = self.hold();
            }
            Err(_) => self.blocks.clear(),
        }
    }
}
