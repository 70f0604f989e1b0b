// What a row gives to its call.
use crate::text::{halves, invalid, number, numbers};
use sk_base::{ListDice, StepClock};
use std::alloc::Global;
use std::io;

/// What a row gives to its call, as the texts that say it.
#[derive(Clone, Copy)]
pub struct Given<'a> {
    pub call: &'a str,
    /// The command line.
    pub words: &'a str,
    /// The chain of `push` has `cap`, the shipped program's function, and behind it one that stops the jobs of the queue `held`.
    pub chained: bool,
    /// There are two teams, whose classes and whose workers have delay rules of their own.
    pub ruled: bool,
    /// What is done at desks, in order, a line each, among other lines.
    pub lines: &'a str,
    /// The ends of the program, behind their first `@`.
    pub parts: &'a str,
    clock: &'a str,
    dice: &'a str,
}

impl<'a> Given<'a> {
    /// A call with a command line alone: no connections, no input; the clock and the dice tell 0.
    pub fn new(call: &'a str, words: &'a str) -> Given<'a> {
        Given {
            call,
            words,
            chained: false,
            ruled: false,
            lines: "",
            parts: "",
            clock: "0 0",
            dice: "",
        }
    }

    /// What the text says: on its first line what is called, with its command line; then the clock's first moment and its step (`clock`), the words
    /// of the dice (`dice`), that there is a chain (`chain`), or two teams with rules of their own (`rules`), and what is done at a desk (`sit`,
    /// `ask`, `cut`); then the parts. Another line is invalid data.
    pub fn read(text: &'a str) -> io::Result<Given<'a>> {
        let (head, parts) = text.split_once("\n@").unwrap_or((text, ""));
        let (first, lines) = head.split_once('\n').unwrap_or((head, ""));
        let (call, words) = first.split_once(' ').unwrap_or((first, ""));
        let mut given = Given::new(call, words);
        given.lines = lines;
        given.parts = parts;
        for line in lines.lines() {
            let (key, rest) = line.split_once(' ').unwrap_or((line, ""));
            match key {
                "clock" => given.clock = rest,
                "dice" => given.dice = rest,
                "chain" => given.chained = true,
                "rules" => given.ruled = true,
                "sit" | "ask" | "cut" => {}
                _ => return Err(invalid()),
            }
        }
        Ok(given)
    }

    /// A clock that tells a moment, in milliseconds since 1970, and each further time so many more.
    pub fn clock(&self) -> io::Result<StepClock> {
        let (now, step) = halves(self.clock)?;
        let (now, step) = (number(now)?, number(step)?);
        Ok(StepClock { now, step })
    }

    /// Dice that give these words.
    pub fn dice(&self, alloc: Global) -> io::Result<ListDice> {
        Ok(ListDice::new(numbers(alloc, self.dice)?))
    }
}
