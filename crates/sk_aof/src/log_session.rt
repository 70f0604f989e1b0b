// A pipe's session whose events are logged: a reply is handed out only where what a log keeps of its command is in the file.
ghost use Rattle.std.specs.Prelude.{◌≡◌, IfOk, Some, false, ⊤};
ghost use Rattle.sk_cmd.specs.ReadOnly.{is_quiet};
ghost use Rattle.sk_model.specs.Reading.{CutSeat, IsSaid};
ghost use Rattle.sk_talk.specs.declared.talk_end.Stop.TheVariants.{Lost};
ghost use Rattle.sk_aof.specs.Causes.{Blames};
ghost use Rattle.sk_aof.specs.Logging.{Serves, AnswersLine, IsDraft, IsDrafted, IsLogged, Puts, place_of};

use crate::entry::{cut_record, draft_record};
use sk_cmd::Command;
use sk_disk::Disk;
use sk_log::{Log, LogFault, Record};
use sk_pipe::{PipeCommand, Session, read_words};
use sk_resp::{Memory, Reply, Say, Words};
use sk_talk::{Answer, Stop, Talker};
use std::alloc::Global;
use std::vec::Drain;

/// A pipe's session, its log, the disk that has it, and why the log can't go on.
pub(crate) struct LogSession<'a, D: Disk> {
    pub alloc: Global,
    pub session: &'a mut Session,
    pub log: Log,
    pub disk: &'a mut D,
    pub fault: Option<LogFault>,
}

fn lost() -> Answer
    ensures { result.stop ≡ Some Lost }
{
    Answer {
        reply: Reply::Null,
        stop: Some(Stop::Lost),
    }
}

fn starved() -> Answer
    ensures { result ≡ record { reply = Reply.Say Say.Oom; stop = None } }
{
    Answer {
        reply: Reply::Say(Say::Oom),
        stop: None,
    }
}

impl<'a, D: Disk> LogSession<'a, D> {
    // The record of a command, at the moment at which it acts.
    fn draft(&self, words: &Words) -> Result<Record, Memory>
        ensures { IfOk result (λ entry. IsDraft self.entry.now.session.now words.now entry) }
    {
        draft_record(
            self.alloc,
            self.session.seat(),
            self.session.acts_at(),
            words,
        )
    }

    // The log can't go on, and no reply is written. Nothing was done.
    fn lose(&mut self) -> Answer
        ensures same { self.new.disk.ghost_name ≡ self.old.disk.ghost_name }
        ensures blames { Blames (D.disk_faults self.old.disk.now) self.old.fault (D.disk_faults self.new.disk.now) self.new.fault }
        ensures told { Serves D.may_leave D.moment D.left_since (λ _. ⊤) self.old result self.new }
    {
        self.fault = Some(LogFault::Memory);
        lost()
    }

    // Puts a record into the log, and hands out the answer.
    fn append(&mut self, entry: &Record, answer: Answer) -> Answer
        ensures same { self.new.disk.ghost_name ≡ self.old.disk.ghost_name }
        ensures blames { Blames (D.disk_faults self.old.disk.now) self.old.fault (D.disk_faults self.new.disk.now) self.new.fault }
        ensures session { self.new.session.now ≡ self.old.session.now }
        ensures put { Puts D.may_leave D.moment D.left_since entry.now (place_of self.old) answer result (place_of self.new) }
    {
        match self.log.append(self.disk, entry) {
            Ok(()) => answer,
            Err(fault) => {
                self.fault = Some(fault);
                lost()
            }
        }
    }

    // Cuts a seat off.
    fn cut(&mut self, seat: u32) -> Answer
        ensures same { self.new.disk.ghost_name ≡ self.old.disk.ghost_name }
        ensures blames { Blames (D.disk_faults self.old.disk.now) self.old.fault (D.disk_faults self.new.disk.now) self.new.fault }
        ensures told { Serves D.may_leave D.moment D.left_since (λ w. IsSaid w (CutSeat seat)) self.old result self.new }
    {
        let Ok(entry) = cut_record(self.alloc, seat) else {
            return self.lose();
        };
        let answer = self.session.perform(PipeCommand::CutSeat(seat));
        self.append(&entry, answer)
    }

    // Does a command that is logged where its reply is no error.
    fn write(&mut self, entry: &Record, command: Command) -> Answer
        requires { is_quiet command ≡ false }
        ensures same { self.new.disk.ghost_name ≡ self.old.disk.ghost_name }
        ensures blames { Blames (D.disk_faults self.old.disk.now) self.old.fault (D.disk_faults self.new.disk.now) self.new.fault }
        ensures told { Serves D.may_leave D.moment D.left_since (IsLogged self.old.session.now command entry.now) self.old result self.new }
    {
        let answer = self.session.perform(PipeCommand::RunCommand(command));
        if answer.reply.is_error() {
            return answer;
        }
        self.append(entry, answer)
    }

    // Does a command. One that leaves the store as it is isn't logged.
    fn ask(&mut self, draft: Result<Record, Memory>, command: Command) -> Answer
        ensures same { self.new.disk.ghost_name ≡ self.old.disk.ghost_name }
        ensures blames { Blames (D.disk_faults self.old.disk.now) self.old.fault (D.disk_faults self.new.disk.now) self.new.fault }
        ensures told { Serves D.may_leave D.moment D.left_since (IsDrafted self.old.session.now command draft) self.old result self.new }
    {
        if command.is_quiet() {
            return self.session.perform(PipeCommand::RunCommand(command));
        }
        match draft {
            Ok(entry) => self.write(&entry, command),
            Err(_) => self.lose(),
        }
    }
}

impl<'a, D: Disk> Talker for LogSession<'a, D> {
    ghost does = { λ old words reply stop new. (new.disk.ghost_name ≡ old.disk.ghost_name)
        × Blames (D.disk_faults old.disk.now) old.fault (D.disk_faults new.disk.now) new.fault
        × AnswersLine D.may_leave D.moment D.left_since (place_of old) words reply stop (place_of new) };

    fn answer(&mut self, words: Words) -> Answer {
        let draft = self.draft(&words);
        match read_words(self.alloc, words) {
            Ok(PipeCommand::CutSeat(seat)) => self.cut(seat),
            Ok(PipeCommand::RunCommand(command)) => self.ask(draft, command),
            Ok(PipeCommand::Refused(say)) => self.session.perform(PipeCommand::Refused(say)),
            Ok(PipeCommand::SetTime(now)) => self.session.perform(PipeCommand::SetTime(now)),
            Ok(PipeCommand::ActAs(seat)) => self.session.perform(PipeCommand::ActAs(seat)),
            Err(_) => starved(),
        }
    }

    // None: what a command has logged is in the file before the next is done.
    fn answer_series(
        &mut self,
        _commands: &mut Drain<'_, Words, Global>,
        _replies: &mut Vec<Reply>,
    ) -> Option<Stop> {
        None
    }

    fn end_series(&mut self) {}
}
