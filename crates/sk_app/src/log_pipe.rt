// The program `pipe --log`: its words are read, the file is opened, commands from the source are answered over the store that it keeps, and the file is
// left on its shelf.
ghost use Rattle.std.specs.Prelude.{◌≡◌, ◌≤◌, Err};
ghost use Rattle.sk_base.specs.Outside.{Rose};
ghost use Rattle.sk_app.specs.Logging.{DoLog, LogCauses, LogDone, LogEnds, OpensFile};
ghost use Rattle.sk_app.specs.Promises.{texts};

use crate::Unopened;
use crate::log_outcome::settle;
use sk_aof::{LogEnd, log_pipe};
use sk_base::{Sink, Source};
use sk_disk::Shelf;
use sk_line::read_log;
use sk_pipe::SHIPPED_LIMITS;
use std::alloc::Global;

// Answers commands over the store that the file of this path keeps.
fn pipe_over<S: Source, K: Sink, H: Shelf>(
    alloc: Global,
    path: &str,
    source: &mut S,
    sink: &mut K,
    shelf: &mut H,
) -> Result<LogEnd, Unopened>
    ensures told { OpensFile S.Source K.Sink H.Shelf H.Disk.Disk source.old sink.old shelf.old source.new sink.new shelf.new result }
    ensures sink_count { K.write_faults sink.old ≤ K.write_faults sink.new }
{
    let mut disk = shelf.open(path)?;
    let end = log_pipe(alloc, source, sink, &mut disk, SHIPPED_LIMITS);
    shelf.leave(disk);
    Ok(end)
}

// What `pipe --log` comes to.
fn outcome_by<S: Source, K: Sink, H: Shelf>(
    alloc: Global,
    words: &[String],
    source: &mut S,
    sink: &mut K,
    shelf: &mut H,
) -> Result<LogEnd, Unopened>
    ensures told { DoLog S.Source K.Sink H.Shelf H.Disk.Disk (texts words.now)
        source.old sink.old shelf.old source.new sink.new shelf.new result }
    ensures sink_count { K.write_faults sink.old ≤ K.write_faults sink.new }
{
    let line = read_log(alloc, words)?;
    pipe_over(alloc, line.path.text(), source, sink, shelf)
}

/// Answers commands from the source as `pipe` does, over the store that the file of the words keeps ([`sk_aof::log_pipe`]), with the limits of the
/// program's store. The words begin with `pipe`. Answers the status: that of `pipe`, or 2 for words that are no line of it, 10 where the file can't be
/// opened, read or written, 11 where it is no log or is damaged, which is told, and 12 where it is full.
pub fn run_log_pipe<S: Source, K: Sink, H: Shelf>(
    alloc: Global,
    words: &[String],
    source: &mut S,
    sink: &mut K,
    shelf: &mut H,
) -> u8
    ensures told { LogEnds S.Source K.Sink H.Shelf H.Disk.Disk (texts words.now)
        source.old sink.old shelf.old source.new sink.new shelf.new result }

    // Input that is commands end to end is done, where neither count of faults rises and the file doesn't hinder it.
    ensures completes { LogDone S.Source K.Sink H.Shelf H.Disk.Disk (texts words.now)
        source.old sink.old shelf.old source.new sink.new shelf.new result }

    // With status 10 the shelf or its file failed, with 11 the file is no log or is damaged, which is told, and with 12 it is full.
    ensures causes { LogCauses S.Source K.Sink H.Shelf H.Disk.Disk source.old sink.old shelf.old source.new sink.new shelf.new result }

    // With status 4 the sink's count of faults rose.
    ensures sink_cause { result ≡ 4 → Rose (K.write_faults sink.old) (K.write_faults sink.new) }

    // With status 2 nothing was read, written or opened.
    ensures untouched { result ≡ 2 → (source.new ≡ source.old) × (sink.new ≡ sink.old) × (shelf.new ≡ shelf.old) }
{
    let outcome = outcome_by(alloc, words, source, sink, shelf);
    settle(alloc, sink, outcome)
}
