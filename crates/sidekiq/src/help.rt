// What people ask of the program itself: its help, that of one of its commands, and its version. The top call refuses such words.
use crate::notice::USAGE;
use crate::relay_line::RELAY_HELP;
use sk_line::help_of;
use std::alloc::{AllocError, Global};

/// The version of the program.
const VERSION: &str = "0.1.0";

fn is_version(word: &String) -> bool {
    word.as_str() == "--version" || word.as_str() == "-V"
}

fn is_help(word: &String) -> bool {
    word.as_str() == "--help" || word.as_str() == "-h"
}

/// Whether one of the words asks for help. Behind `--` none does.
fn ask_help(words: &[String]) -> bool {
    words
        .iter()
        .take_while(|word| word.as_str() != "--")
        .any(|word| is_help(word))
}

/// A command's help, with the options of `work` that clap doesn't know.
fn with_relay_help(alloc: Global, words: &[String], text: String) -> Result<String, AllocError> {
    match words {
        [name, ..] if name.as_str() == "work" => format!(in alloc; "{text}\n{RELAY_HELP}"),
        _ => Ok(text),
    }
}

/// The help of the command that the words begin with, or of the program, where there is no such command.
fn help_for(alloc: Global, words: &[String]) -> Result<String, AllocError> {
    match help_of(alloc, words)? {
        Some(text) => with_relay_help(alloc, words, text),
        None => String::from_str(alloc, USAGE),
    }
}

/// What `help` tells, with these words behind it.
fn help_of_name(alloc: Global, words: &[String]) -> Result<String, AllocError> {
    let [name, ..] = words else {
        return String::from_str(alloc, USAGE);
    };
    let mut asked = Vec::new(alloc);
    asked.push(String::from_str(alloc, name.as_str())?)?;
    asked.push(String::from_str(alloc, "--help")?)?;
    help_for(alloc, &asked)
}

/// What is told of the words, where they ask to be told something.
fn text_for(alloc: Global, words: &[String]) -> Option<Result<String, AllocError>> {
    let [first, rest @ ..] = words else {
        return None;
    };
    if rest.is_empty() && is_version(first) {
        return Some(format!(in alloc; "sidekiq {VERSION}"));
    }
    if first.as_str() == "help" {
        return Some(help_of_name(alloc, rest));
    }
    if ask_help(words) {
        return Some(help_for(alloc, words));
    }
    None
}

/// What the words ask to be told. None where they ask that something be done.
pub fn told(alloc: Global, words: &[String]) -> Result<Option<String>, AllocError> {
    match text_for(alloc, words) {
        Some(text) => Ok(Some(text?)),
        None => Ok(None),
    }
}
