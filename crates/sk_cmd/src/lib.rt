//! Commands from words: every command of the store, with its arguments read, or the first rule that the words break.
#![tactic(auto)]

mod argument;
mod cmd_fault;
mod command;
mod counts;
mod forms;
mod hashes;
mod keys;
mod laws;
mod lists;
mod name_of;
mod options;
mod pairs;
mod read;
mod scores;
mod scripts;
mod sets;
mod sorted_sets;

pub use argument::{Expire, RangeOptions, Scored, SetOptions, Side};
pub use cmd_fault::{CmdFault, fault_reply};
pub use command::{Command, PlainCommand, ScriptCommand};
pub use laws::{one_command, some_command};
pub use pairs::{Pairs, Scores};
pub use read::read_command;
