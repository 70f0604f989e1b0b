// The subcommands that have options.
use crate::drill_line::drill_command;
use crate::help_lines::{
    DRILL_ABOUT, ITERATE_ABOUT, LIMIT_ABOUT, PIPE_ABOUT, PUSH_ABOUT, SERVE_ABOUT, SOAK_ABOUT,
    STATUS_ABOUT, WORK_ABOUT,
};
use crate::iterate_line::iterate_command;
use crate::limit_line::limit_command;
use crate::log_line::log_command;
use crate::log_serve_line::log_serve_command;
use crate::option::Options;
use crate::push_line::push_command;
use crate::soak_line::soak_command;
use crate::status_line::status_command;
use crate::work_line::work_command;
use std::alloc::Global;

/// A subcommand that has options.
#[derive(Clone, Copy)]
pub enum Subcommand {
    Serve,
    Work,
    Push,
    Drill,
    Pipe,
    Soak,
    Status,
    Limit,
    Iterate,
}

impl Subcommand {
    /// The subcommand with this name.
    pub fn named(name: &str) -> Option<Subcommand> {
        match name {
            "serve" => Some(Subcommand::Serve),
            "work" => Some(Subcommand::Work),
            "push" => Some(Subcommand::Push),
            "drill" => Some(Subcommand::Drill),
            "pipe" => Some(Subcommand::Pipe),
            "soak" => Some(Subcommand::Soak),
            "status" => Some(Subcommand::Status),
            "limit" => Some(Subcommand::Limit),
            "iterate" => Some(Subcommand::Iterate),
            _ => None,
        }
    }

    /// Its options.
    pub fn options<'a>(self, alloc: Global) -> Options<'a> {
        match self {
            Subcommand::Serve => log_serve_command(alloc),
            Subcommand::Work => work_command(alloc),
            Subcommand::Push => push_command(alloc),
            Subcommand::Drill => drill_command(alloc),
            Subcommand::Pipe => log_command(alloc),
            Subcommand::Soak => soak_command(alloc),
            Subcommand::Status => status_command(alloc),
            Subcommand::Limit => limit_command(alloc),
            Subcommand::Iterate => iterate_command(alloc),
        }
    }

    /// What help says of it.
    pub fn about(self) -> &'static str {
        match self {
            Subcommand::Serve => SERVE_ABOUT,
            Subcommand::Work => WORK_ABOUT,
            Subcommand::Push => PUSH_ABOUT,
            Subcommand::Drill => DRILL_ABOUT,
            Subcommand::Pipe => PIPE_ABOUT,
            Subcommand::Soak => SOAK_ABOUT,
            Subcommand::Status => STATUS_ABOUT,
            Subcommand::Limit => LIMIT_ABOUT,
            Subcommand::Iterate => ITERATE_ABOUT,
        }
    }
}
