// The words of the command line, with what the program itself puts there where they name none: a name that no process had before for `work`, and
// loops enough for workers and other clients for `serve`. The top call sees these words, and does what they say.
use sk_base::{Dice, is_name};
use sk_edge::PcgDice;
use std::alloc::Global;
use std::{env, fs, io, process};

/// How many connections `serve` serves at a time where its words don't say: as many as it can. `work` takes five by itself.
const LOOPS: &str = "64";

/// The most bytes of a machine's name, as Linux has them.
const LONGEST_HOST: usize = 64;

/// The words behind the program's name, as they were given.
fn given(rt: &HostRuntime) -> io::Result<Vec<String>> {
    let mut words = Vec::new(rt.alloc());
    for word in env::args(rt)?.skip(1) {
        words.push(word)?;
    }
    Ok(words)
}

/// Whether a word is this option, alone or with its value behind `=`.
fn names(words: &[String], option: &str) -> bool {
    words.iter().any(|word| match word.strip_prefix(option) {
        Some(rest) => rest.is_empty() || rest.starts_with('='),
        None => false,
    })
}

/// The machine's name, or `local` where the system tells none that a process may have.
fn host(rt: &HostRuntime) -> io::Result<String> {
    match fs::read_to_string(rt, "/proc/sys/kernel/hostname") {
        Ok(text) if is_name(text.trim_end().as_bytes(), LONGEST_HOST) => {
            Ok(String::from_str(rt.alloc(), text.trim_end())?)
        }
        _ => Ok(String::from_str(rt.alloc(), "local")?),
    }
}

/// A name for a process of workers, `host:pid:nonce` as Sidekiq's, with 48 bits of chance.
fn fresh_ident(rt: &HostRuntime, dice: &mut PcgDice) -> io::Result<String> {
    let nonce = dice.word() >> 16;
    let host = host(rt)?;
    let number = process::id(rt.process());
    Ok(format!(in rt.alloc(); "{host}:{number}:{nonce:012x}")?)
}

/// The option that the words leave to the program, with its value.
fn left_out(
    rt: &HostRuntime,
    words: &[String],
    dice: &mut PcgDice,
) -> io::Result<Option<(&'static str, String)>> {
    let [program, ..] = words else {
        return Ok(None);
    };
    match program.as_str() {
        "serve" if !names(words, "--loops") => {
            Ok(Some(("--loops", String::from_str(rt.alloc(), LOOPS)?)))
        }
        "work" if !names(words, "--ident") => Ok(Some(("--ident", fresh_ident(rt, dice)?))),
        _ => Ok(None),
    }
}

/// The words, with an option and its value right behind the program.
fn with_option(
    alloc: Global,
    words: Vec<String>,
    option: &str,
    value: String,
) -> io::Result<Vec<String>> {
    let mut rest = words.into_iter();
    let mut all = Vec::new(alloc);
    if let Some(program) = rest.next() {
        all.push(program)?;
    }
    all.push(String::from_str(alloc, option)?)?;
    all.push(value)?;
    for word in rest {
        all.push(word)?;
    }
    Ok(all)
}

/// The words that the program is run with. A word that isn't UTF-8 is invalid data.
pub fn words(rt: &HostRuntime, dice: &mut PcgDice) -> io::Result<Vec<String>> {
    let words = given(rt)?;
    match left_out(rt, &words, dice)? {
        Some((option, value)) => with_option(rt.alloc(), words, option, value),
        None => Ok(words),
    }
}
