// A talk: it takes a piece of the stream, and does the commands that are whole, a series of them at once, where the talker takes one, and else one by
// one. Each one's reply is written in one write, before the next command is done or behind the series. A command that stops the talk is the last: what
// was read behind it isn't looked at.
ghost use Rattle.std.specs.Prelude.{◌≡◌, ◌<◌, ◌≤◌, ◌++◌, [], ℕ, List, take, length, map, Ok, Err, None, Option, IfOk, IfErr, OnOk, OnErr};
ghost use Rattle.std.specs.Vec.Iter.{drain_items};
ghost use Rattle.sk_base.specs.Outside.{Rose, Gives, HasCause, Takes, TakesFront};
ghost use Rattle.sk_resp.specs.Spelling.{Bytes, joined};
ghost use Rattle.sk_resp.specs.Request.{Command};
ghost use Rattle.sk_resp.specs.Stream.{Reads};
ghost use Rattle.sk_resp.specs.Reply.{wire};
ghost use Rattle.sk_talk.specs.Talk.{DoesAll, AnswersAll, Ends, IsAtEnd, Moves, refusal};
ghost use Rattle.sk_talk.specs.Driving.{Answered, AnsweredSome, IsWriteStop, IsPieceEnd, EndsAt, Sends, Stopped, StopsAt, end_at, is_lost};

use crate::{Stop, TalkEnd, Talker};
use sk_base::limits::{LONGEST_TALK, PIECE};
use sk_base::{Duplex, Failed, Sink, Source, write_all};
use sk_resp::{Feeder, Reply, Say, WireFault, Words, write_reply};
use std::alloc::Global;
use std::vec::Drain;

// How many commands are done at once at most.
const SERIES: usize = 64;

// Writes a reply in one write. The buffer is only kept from reply to reply, so that its memory is taken once.
fn send<K: Sink>(
    alloc: Global,
    reply: &Reply,
    text: &mut Vec<u8>,
    sink: &mut K,
) -> Result<(), TalkEnd>
    ensures told { OnOk result (Takes (K.taken sink.old) (wire reply.now) (K.taken sink.new)) }
    ensures err { IfErr result (λ end. IsWriteStop end × TakesFront (K.taken sink.old) (wire reply.now) (K.taken sink.new)) }
    ensures beside { K.beside_write sink.new ≡ K.beside_write sink.old }
    ensures later { K.write_faults sink.old ≤ K.write_faults sink.new }
    ensures write { result ≡ Err TalkEnd.WriteFault → Rose (K.write_faults sink.old) (K.write_faults sink.new) }
{
    text.clear();
    let Ok(()) = write_reply(alloc, reply, text) else {
        return Err(TalkEnd::Memory);
    };
    let Ok(()) = write_all(sink, text) else {
        return Err(TalkEnd::WriteFault);
    };
    Ok(())
}

fn end_at(stop: Stop) -> TalkEnd
    ensures { result ≡ end_at stop }
{
    match stop {
        Stop::Quit => TalkEnd::Quit,
        Stop::Shutdown => TalkEnd::Shutdown,
        Stop::Lost => TalkEnd::Lost,
    }
}

fn is_lost(stop: Option<Stop>) -> bool
    ensures { result ≡ is_lost stop }
{
    matches!(stop, Some(Stop::Lost))
}

// Does a command, and writes its reply. After the reply to one that stops the talk it has ended, and before one that isn't to be written.
fn answer<T: Talker, K: Sink>(
    alloc: Global,
    talker: &mut T,
    words: Words,
    text: &mut Vec<u8>,
    sink: &mut K,
) -> Result<(), TalkEnd>
    ensures told { Answered T.does talker.old words talker.new result (K.taken sink.old) (K.taken sink.new) }
    ensures beside { K.beside_write sink.new ≡ K.beside_write sink.old }
    ensures later { K.write_faults sink.old ≤ K.write_faults sink.new }
    ensures write { result ≡ Err TalkEnd.WriteFault → Rose (K.write_faults sink.old) (K.write_faults sink.new) }
{
    let answer = talker.answer(words);
    if is_lost(answer.stop) {
        return Err(TalkEnd::Lost);
    }
    match send(alloc, &answer.reply, text, sink) {
        Ok(()) => {}
        Err(end) => return Err(end),
    }
    match answer.stop {
        Some(stop) => Err(end_at(stop)),
        None => Ok(()),
    }
}

// Writes a reply, and drops it.
fn send_last<K: Sink>(
    alloc: Global,
    reply: Reply,
    text: &mut Vec<u8>,
    sink: &mut K,
) -> Result<(), TalkEnd>
    ensures told { OnOk result (Takes (K.taken sink.old) (wire reply) (K.taken sink.new)) }
    ensures err { IfErr result (λ end. IsWriteStop end × TakesFront (K.taken sink.old) (wire reply) (K.taken sink.new)) }
    ensures beside { K.beside_write sink.new ≡ K.beside_write sink.old }
    ensures later { K.write_faults sink.old ≤ K.write_faults sink.new }
    ensures write { result ≡ Err TalkEnd.WriteFault → Rose (K.write_faults sink.old) (K.write_faults sink.new) }
{
    send(alloc, &reply, text, sink)
}

// Writes the replies, one after another.
fn send_all<K: Sink>(
    alloc: Global,
    replies: &mut Vec<Reply>,
    text: &mut Vec<u8>,
    sink: &mut K,
) -> Result<(), TalkEnd>
    ensures told { OnOk result (Takes (K.taken sink.old) (joined (map wire replies.old.items)) (K.taken sink.new)) }
    ensures err { IfErr result (λ end. IsWriteStop end × TakesFront (K.taken sink.old) (joined (map wire replies.old.items)) (K.taken sink.new)) }
    ensures beside { K.beside_write sink.new ≡ K.beside_write sink.old }
    ensures later { K.write_faults sink.old ≤ K.write_faults sink.new }
    ensures write { result ≡ Err TalkEnd.WriteFault → Rose (K.write_faults sink.old) (K.write_faults sink.new) }
{
    for reply in replies.drain(..) {
        match send_last(alloc, reply, text, sink) {
            Ok(()) => {}
            Err(end) => return Err(end),
        }
    }
    Ok(())
}

// Does as many of the commands at once as the talker takes, and writes their replies. A single one isn't done so.
fn answer_series<T: Talker, K: Sink>(
    alloc: Global,
    talker: &mut T,
    left: &mut Drain<'_, Words, Global>,
    text: &mut Vec<u8>,
    sink: &mut K,
) -> Result<(), TalkEnd>
    ensures told { AnsweredSome T.does talker.old (drain_items left.old) talker.new (drain_items left.new) result (K.taken sink.old) (K.taken sink.new) }
    ensures beside { K.beside_write sink.new ≡ K.beside_write sink.old }
    ensures later { K.write_faults sink.old ≤ K.write_faults sink.new }
    ensures write { result ≡ Err TalkEnd.WriteFault → Rose (K.write_faults sink.old) (K.write_faults sink.new) }
{
    let count = left.len();
    if count < 2 || !talker.takes_series() {
        return Ok(());
    }
    let Ok(mut replies) = Vec::with_capacity(alloc, count.min(SERIES)) else {
        return Ok(());
    };
    let stop = talker.answer_series(left, &mut replies);
    talker.end_series();
    match send_all(alloc, &mut replies, text, sink) {
        Ok(()) => {}
        Err(end) => return Err(end),
    }
    match stop {
        Some(stop) => Err(end_at(stop)),
        None => Ok(()),
    }
}

// Does the commands, and writes the reply of each, or those of a series, before the next is done. None is done behind one that stops the talk.
fn answer_all<T: Talker, K: Sink>(
    alloc: Global,
    talker: &mut T,
    commands: &mut Vec<Words>,
    sink: &mut K,
) -> Result<(), TalkEnd>
    ensures ok { OnOk result ((written : Bytes) × AnswersAll (DoesAll T.does) None talker.old commands.old.items talker.new written × Takes (K.taken sink.old) written (K.taken sink.new)) }
    ensures err { IfErr result (λ end. (count : ℕ) × ((written : Bytes) × StopsAt T.does end talker.old (take count commands.old.items) talker.new written
        × Takes (K.taken sink.old) written (K.taken sink.new))) }
    ensures beside { K.beside_write sink.new ≡ K.beside_write sink.old }
    ensures later { K.write_faults sink.old ≤ K.write_faults sink.new }
    ensures write { result ≡ Err TalkEnd.WriteFault → Rose (K.write_faults sink.old) (K.write_faults sink.new) }
{
    let mut text = Vec::new(alloc);
    let mut left = commands.drain(..);
    'left: loop {
        match answer_series(alloc, talker, &mut left, &mut text, sink) {
            Ok(()) => {}
            Err(end) => return Err(end),
        }
        let Some(words) = left.next() else {
            return Ok(());
        };
        match answer(alloc, talker, words, &mut text, sink) {
            Ok(()) => {}
            Err(end) => return Err(end),
        }
    }
}

// Writes the text of a fault of the stream, and tells how the talk ends.
fn refuse<K: Sink>(alloc: Global, fault: WireFault, sink: &mut K) -> TalkEnd
    ensures told { Sends result (refusal fault) (K.taken sink.old) (K.taken sink.new) }
    ensures beside { K.beside_write sink.new ≡ K.beside_write sink.old }
    ensures later { K.write_faults sink.old ≤ K.write_faults sink.new }
    ensures write { result ≡ TalkEnd.WriteFault → Rose (K.write_faults sink.old) (K.write_faults sink.new) }
{
    let mut text = Vec::new(alloc);
    match send(alloc, &Reply::Say(Say::Protocol(fault)), &mut text, sink) {
        Ok(()) => TalkEnd::Wire,
        Err(end) => end,
    }
}

// How the talk ends at a fault of its reader.
fn stop<K: Sink>(alloc: Global, fault: WireFault, sink: &mut K) -> TalkEnd
    ensures told { Stopped fault result (K.taken sink.old) (K.taken sink.new) }
    ensures beside { K.beside_write sink.new ≡ K.beside_write sink.old }
    ensures later { K.write_faults sink.old ≤ K.write_faults sink.new }
    ensures write { result ≡ TalkEnd.WriteFault → Rose (K.write_faults sink.old) (K.write_faults sink.new) }
{
    match fault {
        WireFault::Memory => TalkEnd::Memory,
        _ => refuse(alloc, fault, sink),
    }
}

// Takes a piece of the stream, and answers the commands that it makes whole. An error is an end of the talk, whatever the source has left.
// The vector is only kept from piece to piece, so that its memory is taken once.
fn pass<T: Talker, K: Sink>(
    alloc: Global,
    feeder: &mut Feeder,
    talker: &mut T,
    commands: &mut Vec<Words>,
    piece: &[u8],
    sink: &mut K,
) -> Result<(), TalkEnd>
    requires { feeder.old.fault ≡ None }
    ensures on { OnOk result ((feeder.new.fault ≡ None) × ((added : List Command) × ((written : Bytes) × Reads (feeder.old.rest ++ piece.now) added feeder.new.rest
        × AnswersAll (DoesAll T.does) None talker.old added talker.new written × Takes (K.taken sink.old) written (K.taken sink.new)))) }
    ensures stopped { IfErr result (λ end. IsPieceEnd end × ((written : Bytes) × Takes (K.taken sink.old) written (K.taken sink.new)
        × ((left : Option Bytes) → Ends (DoesAll T.does) talker.old end (feeder.old.rest ++ piece.now) left talker.new written))) }
    ensures beside { K.beside_write sink.new ≡ K.beside_write sink.old }
    ensures later { K.write_faults sink.old ≤ K.write_faults sink.new }
    ensures write { result ≡ Err TalkEnd.WriteFault → Rose (K.write_faults sink.old) (K.write_faults sink.new) }
{
    commands.clear();
    let fed = feeder.feed(piece, commands);
    match answer_all(alloc, talker, commands, sink) {
        Ok(()) => {}
        Err(end) => return Err(end),
    }
    match fed {
        Ok(()) => Ok(()),
        Err(fault) => Err(stop(alloc, fault, sink)),
    }
}

// How a talk ends where its input does.
fn end_of_input(feeder: &Feeder) -> TalkEnd
    requires { feeder.now.fault ≡ None }
    ensures { EndsAt result feeder.now.rest }
{
    if feeder.at_rest() {
        TalkEnd::Ended
    } else {
        TalkEnd::Cut
    }
}

/// A talk from a source to a sink: reads commands until the source's end, or until a command stops the talk, and lets the talker answer them.
pub fn relay<T: Talker, S: Source, K: Sink>(
    alloc: Global,
    talker: &mut T,
    source: &mut S,
    sink: &mut K,
) -> TalkEnd
    // The source gave some bytes, and the sink took what these call for.
    ensures ends { (bytes written : Bytes) × (Moves (S.left source.old) (S.left source.new) (K.taken sink.old) (K.taken sink.new) bytes written
        × Ends (DoesAll T.does) talker.old result bytes (S.left source.new) talker.new written) }

    // A fault of the outside is the end only where its count rose.
    ensures read_fault { result ≡ TalkEnd.ReadFault → Rose (S.read_faults source.old) (S.read_faults source.new) }
    ensures write_fault { result ≡ TalkEnd.WriteFault → Rose (K.write_faults sink.old) (K.write_faults sink.new) }
    ensures source_count { S.read_faults source.old ≤ S.read_faults source.new }
    ensures sink_count { K.write_faults sink.old ≤ K.write_faults sink.new }
{
    let mut feeder = Feeder::new(alloc);
    let mut commands = Vec::new(alloc);
    let mut buf = [0u8; PIECE];
    let mut count: u64 = 0;
    while count < LONGEST_TALK {
        let Ok(n) = source.read(&mut buf) else {
            return TalkEnd::ReadFault;
        };
        if n == 0 {
            return end_of_input(&feeder);
        }
        count += n as u64;
        let piece = &buf[..n];
        match pass(alloc, &mut feeder, talker, &mut commands, piece, sink) {
            Ok(()) => {}
            Err(end) => return end,
        }
    }
    TalkEnd::Budget
}

// Reads a piece. What was written stays as it is.
fn read_over<C: Duplex>(conn: &mut C, buf: &mut [u8]) -> Result<usize, Failed>
    ensures within { IfOk result (λ n. n ≤ length buf.old) }
    ensures told { IfOk result (λ n. Gives (C.left conn.old) (take n buf.new) (C.left conn.new)) }
    ensures end { result ≡ Ok 0 → 0 < length buf.old → IsAtEnd (C.left conn.old) }
    ensures err { OnErr result (C.left conn.new ≡ C.left conn.old) }
    ensures taken { C.taken conn.new ≡ C.taken conn.old }
    ensures writes { C.write_faults conn.new ≡ C.write_faults conn.old }
    ensures cause { HasCause (C.read_faults conn.old) (C.read_faults conn.new) result }
{
    conn.read(buf)
}

// Takes a piece of the stream of a connection, and answers on it. What is to be read stays as it is.
fn pass_over<T: Talker, C: Duplex>(
    alloc: Global,
    feeder: &mut Feeder,
    talker: &mut T,
    commands: &mut Vec<Words>,
    piece: &[u8],
    conn: &mut C,
) -> Result<(), TalkEnd>
    requires { feeder.old.fault ≡ None }
    ensures on { OnOk result ((feeder.new.fault ≡ None) × ((added : List Command) × ((written : Bytes) × Reads (feeder.old.rest ++ piece.now) added feeder.new.rest
        × AnswersAll (DoesAll T.does) None talker.old added talker.new written × Takes (C.taken conn.old) written (C.taken conn.new)))) }
    ensures stopped { IfErr result (λ end. IsPieceEnd end × ((written : Bytes) × Takes (C.taken conn.old) written (C.taken conn.new)
        × ((left : Option Bytes) → Ends (DoesAll T.does) talker.old end (feeder.old.rest ++ piece.now) left talker.new written))) }
    ensures left { C.left conn.new ≡ C.left conn.old }
    ensures reads { C.read_faults conn.new ≡ C.read_faults conn.old }
    ensures later { C.write_faults conn.old ≤ C.write_faults conn.new }
    ensures write { result ≡ Err TalkEnd.WriteFault → Rose (C.write_faults conn.old) (C.write_faults conn.new) }
{
    pass(alloc, feeder, talker, commands, piece, conn)
}

/// A talk over a connection: reads commands until its end, or until a command stops the talk, and lets the talker answer them.
pub fn converse<T: Talker, C: Duplex>(alloc: Global, talker: &mut T, conn: &mut C) -> TalkEnd
    // The connection gave some bytes, and took what these call for.
    ensures ends { (bytes written : Bytes) × (Moves (C.left conn.old) (C.left conn.new) (C.taken conn.old) (C.taken conn.new) bytes written
        × Ends (DoesAll T.does) talker.old result bytes (C.left conn.new) talker.new written) }

    // A fault of the connection is the end only where its count rose.
    ensures read_fault { result ≡ TalkEnd.ReadFault → Rose (C.read_faults conn.old) (C.read_faults conn.new) }
    ensures write_fault { result ≡ TalkEnd.WriteFault → Rose (C.write_faults conn.old) (C.write_faults conn.new) }
    ensures read_count { C.read_faults conn.old ≤ C.read_faults conn.new }
    ensures write_count { C.write_faults conn.old ≤ C.write_faults conn.new }
{
    let mut feeder = Feeder::new(alloc);
    let mut commands = Vec::new(alloc);
    let mut buf = [0u8; PIECE];
    let mut count: u64 = 0;
    while count < LONGEST_TALK {
        let Ok(n) = read_over(conn, &mut buf) else {
            return TalkEnd::ReadFault;
        };
        if n == 0 {
            return end_of_input(&feeder);
        }
        count += n as u64;
        let piece = &buf[..n];
        match pass_over(alloc, &mut feeder, talker, &mut commands, piece, conn) {
            Ok(()) => {}
            Err(end) => return end,
        }
    }
    TalkEnd::Budget
}
