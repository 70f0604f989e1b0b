// Commands in rows, and who answers them.
ghost use Rattle.std.specs.Prelude.{IfOk, Ok};
ghost use Rattle.sk_cmd.specs.Table.{IsRead};

use crate::text::{bytes_of, invalid};
use sk_base::{Clock, StepClock};
use sk_cmd::{Command, read_command};
use sk_core::Core;
use sk_desk::Desk;
use sk_resp::{Reply, Word, Words};
use std::alloc::{AllocError, Global};
use std::io;

/// The words of a command, with one blank between each two, so that an empty word has a blank on each side.
pub fn words_of(alloc: Global, text: &str) -> Result<Words, AllocError> {
    let mut words = Vec::new(alloc);
    for word in text.split(' ') {
        words.push(Word::new(bytes_of(alloc, word)?))?;
    }
    Ok(Words::new(words))
}

/// The command whose words these are. Words that are no command are invalid data.
pub fn command_of(alloc: Global, words: Words) -> io::Result<Command>
    ensures { IfOk result (λ command. IsRead words (Ok command)) }
{
    if words.list().is_empty() {
        return Err(invalid());
    }
    match read_command(alloc, words) {
        Ok(command) => Ok(command),
        Err(_) => Err(invalid()),
    }
}

/// What the store answers. No clause says more: what a step does to a store stands in no proof above this one.
pub fn step(store: &mut Core, seat: u32, now: u64, command: Command) -> Reply {
    store.step(seat, now, command)
}

/// What the desk answers to the words. Words that are no command are invalid data.
pub fn hand_in<D: Desk>(
    alloc: Global,
    desk: &mut D,
    words: &Words,
    clock: &mut StepClock,
) -> io::Result<Reply> {
    let command = command_of(alloc, words.copy()?)?;
    Ok(desk.call(words, command, clock.now()))
}
