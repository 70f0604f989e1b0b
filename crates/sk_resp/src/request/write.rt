// Requests as a client writes them.
ghost use Rattle.std.specs.Prelude.{◌≡◌, ◌++◌, OnOk};
ghost use Rattle.sk_resp.specs.Request.{array};

use crate::spelling::{write_bulk, write_header};
use crate::{Memory, Words};
use std::alloc::Global;

/// Appends the words as an array of bulk strings (RESP2, "Sending commands to a Redis server"). After want of memory a part of it may stand
/// there. The reader of requests takes one to 65,536 words of at most 1,048,576 bytes each and 16,777,216 together.
pub fn write_request(alloc: Global, words: &Words, out: &mut Vec<u8>) -> Result<(), Memory>
    ensures { OnOk result (out.new.items ≡ out.old.items ++ array words.now) }
{
    write_header(words.list().len(), out)?;
    for word in words.list() {
        write_bulk(word.bytes(), out)?;
    }
    Ok(())
}
