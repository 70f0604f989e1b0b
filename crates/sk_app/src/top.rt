// The top call: what the words of a command line ask for. The first of them names the program.
ghost use Rattle.std.specs.Prelude.{◌≡◌, ◌≢◌, ◌≤◌, ◌⊎◌, None, vec_len};
ghost use Rattle.sk_base.specs.Outside.{Rose};
ghost use Rattle.sk_pipe.specs.Run.{IsPipeLine};
ghost use Rattle.sk_base.specs.declared.limits.TheConstants.{MOST_WORKERS};
ghost use Rattle.sk_launcher.specs.Connections.{classes_of};
ghost use Rattle.sk_middle.specs.Applied.{applied};
ghost use Rattle.sk_line.specs.Soak.{IsSoak};
ghost use Rattle.sk_line.specs.declared.soak_line.SoakLine.{SoakLine};
ghost use Rattle.sk_app.specs.Drilling.{RunsDrill};
ghost use Rattle.sk_app.specs.Ending.{Ends};
ghost use Rattle.sk_app.specs.Programs.{program_of};
ghost use Rattle.sk_app.specs.Soaking.{SoakRun};
ghost use Rattle.sk_app.specs.declared.program.Program.TheVariants.{Drill, Iterate, Limit, LogPipe, LogServe, Push, Serve, Soak, Status, Work};
ghost use Rattle.sk_app.specs.Promises.{DoIterate, DoPush, DoStatus, DrillDone, IterateDone, LimitDone, Limited, LogServes, Logs, LogsCaused, LogsDone, Names, PipeDone, Pipes, PushDone, ServeDone, Served, StatusDone, WorkDone, Worked, texts};

use crate::program::{Program, program_of};
use crate::{
    run_drill, run_limit, run_log_pipe, run_log_serve, run_push, run_question, run_serve, run_soak,
    run_status, run_work,
};
use sk_base::{Clock, Dice, Sink, Source};
use sk_disk::Shelf;
use sk_edge::Door;
use sk_line::IterateLine;
use sk_middle::ClientChain;
use sk_pipe::run as run_pipe;
use sk_policy::DelayRule;
use sk_worker::Registry;
use std::alloc::Global;
use std::sync::Wait;
use std::thread::Threads;
use std::time;

/// Does what the words of a command line ask for, which are those behind the program's name, and answers the exit status. The first word names the
/// program:
///
/// - `pipe`, alone: commands from the source, and their replies to the sink ([`sk_pipe::run`]).
/// - `pipe --log FILE`: the same over a store that a file of the shelf keeps ([`run_log_pipe`]).
/// - `serve ..`: a server ([`run_serve`]).
/// - `serve --log FILE ..`: a server over a store that a file of the shelf keeps ([`run_log_serve`]).
/// - `work ..`: workers and a poller for a server ([`run_work`]), which have these teams and rules.
/// - `push ..`: one job is pushed to a server ([`run_push`]), as this chain makes it, which may stop it.
/// - `status ..`: the page of a server ([`run_status`]).
/// - `limit ..`: a limiter of a server is asked for a slot or a grant ([`run_limit`]).
/// - `iterate ..`: items that do nothing are run from the cursor that a server keeps ([`run_question`]).
/// - `soak ..`: a large run of a store of its own ([`run_soak`]).
/// - `drill ..`: threads at a store of its own, with crashes, whose stories are compared with its journal ([`run_drill`]). It has these teams and rules.
///
/// Status 0: all was done. 1: the input of `pipe` has a fault or ends inside a command. 2: the words are no command line; nothing was read, written
/// or opened. 3, 4: the source, the sink failed. 5: there was no memory. 6: a connection failed or was unreadable, or seats were used up. 7: the
/// store answered an error, a cursor is no number of an item, or a worker held a job whose count of failures can't rise. 8: what a drill's threads
/// tell differs from its journal. 9: 2^40 bytes were read. Of `pipe --log` and `serve --log` alone, 10: the shelf gave no file, the file failed, or
/// nothing more could be logged. 11: the file is no log, or is damaged, which is told. 12: the file is full.
pub fn run<
    R: Threads + Wait + Sync + time::Clock,
    S: Source,
    K: Sink,
    N: Door,
    H: Shelf,
    C: Clock + Send,
    D: Dice,
>(
    rt: &R,
    alloc: Global,
    words: &[String],
    teams: &mut Vec<Registry>,
    rules: Vec<DelayRule>,
    chain: &ClientChain,
    source: &mut S,
    sink: &mut K,
    net: &mut N,
    shelf: &mut H,
    clock: &mut C,
    dice: &mut D,
) -> u8
where
    N::Ear: Send,
    H::Disk: Send,
    // There is a plain rule for each team.
    requires rules { vec_len rules ≡ vec_len teams.old }
    requires few { vec_len teams.old ≤ MOST_WORKERS }

    // The word `pipe` pipes the source to the sink, and the status tells how that ended.
    ensures piped { IsPipeLine (texts words.now) → Pipes S.Source K.Sink source.old sink.old source.new sink.new result }

    // Input that is commands end to end is done to its end, or to a QUIT or SHUTDOWN, where neither count of faults rises.
    ensures completes { IsPipeLine (texts words.now) → PipeDone S.Source K.Sink source.old sink.old source.new sink.new result }

    // A server.
    ensures served { Served K.Sink N.Door N.Ear.Ear N.Conn.Source N.Conn.Sink C.Clock words.now sink.old net.old sink.new net.new result }

    // Workers: the i-th has the i-th of the teams, with their rules, and the i-th of the plain rules.
    ensures worked { Worked K.Sink N.Door N.Conn.Source N.Conn.Sink runs words.now rules
        sink.old net.old teams.old sink.new net.new teams.new result }

    // A push.
    ensures pushed { Names words.now Push → Ends K.Sink sink.old sink.new result
        (DoPush N.Door N.Conn.Source N.Conn.Sink C.Clock D.Dice words.now (applied chain.now) net.old clock.old dice.old net.new clock.new dice.new) }

    // A page.
    ensures paged { Names words.now Status → Ends K.Sink sink.old sink.new result (DoStatus N.Door N.Conn.Source N.Conn.Sink words.now net.old net.new) }

    // A slot or a grant of a limiter.
    ensures limited { Limited K.Sink N.Door N.Conn.Source N.Conn.Sink D.Dice words.now sink.old net.old dice.old sink.new net.new dice.new result }

    // An iteration.
    ensures ran { Names words.now Iterate → Ends K.Sink sink.old sink.new result
        (DoIterate N.Door N.Conn.Source N.Conn.Sink words.now net.old net.new) }

    // A large run.
    ensures soaked { Names words.now Soak → Ends K.Sink sink.old sink.new result (SoakRun (texts words.now)) }

    // A drill.
    ensures drilled { Names words.now Drill → Ends K.Sink sink.old sink.new result (RunsDrill runs rules.items teams.old teams.new (texts words.now)) }

    // A pipe over the store that the line's file keeps.
    ensures logged { Logs S.Source K.Sink H.Shelf H.Disk.Disk words.now source.old sink.old shelf.old source.new sink.new shelf.new result }

    // Its input is done, too, where neither count of faults rises and the file doesn't hinder it.
    ensures log_completes { LogsDone S.Source K.Sink H.Shelf H.Disk.Disk words.now
        source.old sink.old shelf.old source.new sink.new shelf.new result }

    // With status 10 the shelf or its file failed, with 11 the file is no log or is damaged, which is told, and with 12 it is full.
    ensures log_causes { LogsCaused S.Source K.Sink H.Shelf H.Disk.Disk words.now
        source.old sink.old shelf.old source.new sink.new shelf.new result }

    // A server over the store that the line's file keeps.
    ensures log_served { LogServes N.Door N.Ear.Ear N.Conn.Source N.Conn.Sink C.Clock H.Disk.Disk H.Shelf K.Sink words.now
        sink.old net.old shelf.old sink.new net.new shelf.new result }

    // No other program has to do with the shelf, or ends so.
    ensures unlogged { (Names words.now LogPipe → ⊥) → (Names words.now LogServe → ⊥) → (shelf.new ≡ shelf.old) × (result ≤ 9) }

    // A line of a program is done, where the sink takes what is told and nothing hinders it. Where something does, it is this.
    ensures serve_completes { Names words.now Serve → ServeDone N.Door N.Ear.Ear N.Conn.Source N.Conn.Sink C.Clock words.now net.old net.new result }
    ensures work_completes { Names words.now Work → WorkDone N.Door N.Conn.Source N.Conn.Sink runs words.now net.old teams.old net.new teams.new result }
    ensures push_completes { Names words.now Push → PushDone N.Door N.Conn.Source N.Conn.Sink net.old net.new result }
    ensures status_completes { Names words.now Status → StatusDone N.Door N.Conn.Source N.Conn.Sink words.now net.old net.new result }
    ensures limit_completes { Names words.now Limit → LimitDone N.Door N.Conn.Source N.Conn.Sink words.now net.old net.new result }
    ensures iterate_completes { Names words.now Iterate → IterateDone N.Door N.Conn.Source N.Conn.Sink words.now net.old net.new result }
    ensures soak_completes { Names words.now Soak → (line : SoakLine) → IsSoak (texts words.now) line → result ≢ 4 → (result ≡ 0) ⊎ (result ≡ 5) }
    ensures drill_completes { Names words.now Drill → DrillDone (vec_len teams.old) words.now result }

    // Words that name no program are refused.
    ensures unknown { (IsPipeLine (texts words.now) → ⊥) → program_of (texts words.now) ≡ None → result ≡ 2 }

    // Where words are refused nothing is read, written or opened. `pipe` alone, with a file or without, reads the source.
    ensures refused { result ≡ 2 → (source.new ≡ source.old) × (sink.new ≡ sink.old) × (net.new ≡ net.old) × (teams.new ≡ teams.old) }
    ensures unopened { result ≡ 2 → shelf.new ≡ shelf.old }
    ensures source_alone { (IsPipeLine (texts words.now) → ⊥) → (Names words.now LogPipe → ⊥) → source.new ≡ source.old }

    // `pipe`, with a file or without, `soak` and `drill` make no connection.
    ensures inside { (program_of (texts words.now) ≡ None) ⊎ Names words.now Soak ⊎ Names words.now Drill → net.new ≡ net.old }
    ensures log_inside { Names words.now LogPipe → net.new ≡ net.old }

    // The teams stand in their order again, and `work` and `drill` alone have to do with them.
    ensures teams { classes_of teams.new.items ≡ classes_of teams.old.items }
    ensures others { (Names words.now Work → ⊥) → (Names words.now Drill → ⊥) → teams.new ≡ teams.old }

    // With status 4 the sink's count of faults rose. (For the pipe that is said above.)
    ensures sink_cause { (IsPipeLine (texts words.now) → ⊥) → result ≡ 4 → Rose (K.write_faults sink.old) (K.write_faults sink.new) }
{
    match program_of(words) {
        Some(Program::Serve) => run_serve(rt, alloc, words, sink, net, clock),
        Some(Program::Work) => run_work(rt, alloc, words, teams, rules, sink, net, clock, dice),
        Some(Program::Push) => run_push(alloc, words, chain, sink, net, clock, dice),
        Some(Program::Status) => run_status(alloc, words, sink, net),
        Some(Program::Soak) => run_soak(alloc, words, sink),
        Some(Program::Limit) => run_limit(alloc, words, sink, net, dice),
        Some(Program::Iterate) => run_question::<K, N, IterateLine>(alloc, words, sink, net),
        Some(Program::Drill) => run_drill(rt, alloc, words, teams, rules, sink),
        Some(Program::LogPipe) => run_log_pipe(alloc, words, source, sink, shelf),
        Some(Program::LogServe) => run_log_serve(rt, alloc, words, sink, net, shelf, clock),
        None => run_pipe(alloc, words, source, sink),
    }
}
