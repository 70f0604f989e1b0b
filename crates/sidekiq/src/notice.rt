// What the program tells people on standard error: what it is about to do, and why it ended, where its output doesn't say so.
use sk_launcher::{Address, WorkSettings};
use sk_line::{
    DrillLine, LogLine, LogServeLine, ServeLine, help_of, read_drill, read_iterate, read_limit,
    read_log, read_log_serve, read_push, read_serve, read_status, read_work,
};
use sk_policy::QueueOrder;
use std::alloc::{AllocError, Global};
use std::io;
use std::io::ErrorKind;
use std::net::ToSocketAddrs;

/// What is told where the words begin with no program's name.
pub const USAGE: &str =
    "usage: sidekiq pipe | serve | work | push | status | limit | iterate | soak | drill | --version\n\n\
    pipe    commands on standard input, replies on standard output\n\
    serve   a server for Redis's clients\n\
    work    workers and a poller for a server\n\
    push    pushes one job to a server\n\
    status  asks a server for its page\n\
    limit   asks a limiter of a server for a slot or a grant\n\
    iterate runs items from the cursor that a server keeps\n\
    soak    makes a large run from a number\n\
    drill   the same in threads, with crashes, beside its journal\n\n\
    `sidekiq COMMAND --help` shows the options of one.";

/// What the words of a command line ask for, as far as people are told of it.
#[derive(Drop)]
pub enum Notice {
    Serve(ServeLine),
    /// `serve --log`.
    LogServe(LogServeLine),
    Work(WorkSettings),
    /// `push`, `status`, `limit` or `iterate`, of this store.
    Ask(Address),
    Drill(DrillLine),
    /// `pipe --log`.
    Log(LogLine),
    /// Other words, and words that are refused.
    Other,
}

// The names, with commas between them.
fn names(alloc: Global, order: &QueueOrder) -> Result<String, AllocError> {
    let mut text = String::new(alloc);
    for name in order.names() {
        if !text.is_empty() {
            text.push_str(", ")?;
        }
        text.push_str(name.text())?;
    }
    Ok(text)
}

// What `serve --log` asks for beside its file.
fn beside_log(line: &LogServeLine) -> ServeLine {
    ServeLine {
        port: line.port,
        loops: line.loops,
        sessions: line.sessions,
    }
}

fn going(rt: &HostRuntime, line: &ServeLine) -> io::Result<()> {
    eprintln!(rt;
        "sidekiq: going to serve at 127.0.0.1:{}, {} connections at a time; further ones wait",
        line.port, line.loops
    )
}

fn keeping(rt: &HostRuntime, file: &str) -> io::Result<()> {
    eprintln!(rt;
        "sidekiq: the store is kept in {file}; each reply is sent after what it tells is on the disk"
    )
}

fn serving(rt: &HostRuntime, line: &ServeLine) -> io::Result<()> {
    going(rt, line)?;
    eprintln!(rt;
        "sidekiq: all is kept in memory, and nothing outlives this process; the command SHUTDOWN ends it"
    )
}

// The same where replies don't wait for the disk, which has what was done every so many milliseconds.
fn keeping_later(rt: &HostRuntime, file: &str, millis: u32) -> io::Result<()> {
    eprintln!(rt; "sidekiq: the store is kept in {file}; no reply waits for the disk")?;
    eprintln!(rt;
        "sidekiq: a crash loses at most what was answered in the last {millis} milliseconds, and while the disk is written"
    )
}

fn serving_log(rt: &HostRuntime, line: &LogServeLine) -> io::Result<()> {
    going(rt, &beside_log(line))?;
    match line.sync_every {
        Some(millis) => keeping_later(rt, line.path.text(), millis)?,
        None => keeping(rt, line.path.text())?,
    }
    eprintln!(rt; "sidekiq: the command SHUTDOWN ends it")
}

fn working(rt: &HostRuntime, settings: &WorkSettings) -> io::Result<()> {
    eprintln!(rt;
        "sidekiq: working as {} for {}:{}, {} workers, queues {}",
        settings.ident.text(),
        settings.address.host.text(),
        settings.address.port,
        settings.threads,
        names(rt.alloc(), &settings.order)?
    )?;
    eprintln!(rt;
        "sidekiq: what it holds when it dies is given back by another's poller, a minute later"
    )
}

// Why there was no connection to this store.
fn unreachable(rt: &HostRuntime, address: &Address) -> io::Result<()> {
    let host = address.host.text();
    match (host, address.port).to_socket_addrs(rt) {
        Ok(_) => {
            eprintln!(rt;
                "sidekiq: no server at {host}:{}, or the connection was lost, or nothing came from it",
                address.port
            )
        }
        Err(_) => eprintln!(rt; "sidekiq: there is no host {host}"),
    }
}

// Why there is no server, or no longer one.
fn unserved(rt: &HostRuntime, line: &ServeLine, cause: Option<&io::Error>) -> io::Result<()> {
    match cause {
        Some(error) => eprintln!(rt;
            "sidekiq: can't serve at port {} with {} loops: {error}",
            line.port, line.loops
        ),
        None => eprintln!(rt; "sidekiq: the server at port {} has failed", line.port),
    }
}

// Why the file couldn't be opened, or what was of it afterwards.
fn unkept(rt: &HostRuntime, file: &str, cause: Option<&io::Error>) -> io::Result<()> {
    match cause {
        Some(error) if error.kind() == ErrorKind::WouldBlock => {
            eprintln!(rt; "sidekiq: can't open {file}: another process has it open")
        }
        Some(error) => eprintln!(rt; "sidekiq: can't open {file}: {error}"),
        None => eprintln!(rt;
            "sidekiq: {file} can't be read or written any more; no reply was sent for what isn't in it"
        ),
    }
}

// Why a server ended so.
fn served(
    rt: &HostRuntime,
    line: &ServeLine,
    status: u8,
    cause: Option<&io::Error>,
) -> io::Result<()> {
    match status {
        0 => eprintln!(rt; "sidekiq: the server has ended"),
        6 => unserved(rt, line, cause),
        _ => Ok(()),
    }
}

// Why workers ended so.
fn worked(rt: &HostRuntime, settings: &WorkSettings, status: u8) -> io::Result<()> {
    match status {
        0 => eprintln!(rt; "sidekiq: each worker has taken its turns"),
        6 => unreachable(rt, &settings.address),
        _ => Ok(()),
    }
}

// Why a question to a server ended so.
fn asked(rt: &HostRuntime, address: &Address, status: u8) -> io::Result<()> {
    match status {
        6 => unreachable(rt, address),
        _ => Ok(()),
    }
}

// Why a pipe or a server with a file ended so, where that is of its file.
fn logged(rt: &HostRuntime, file: &str, status: u8, cause: Option<&io::Error>) -> io::Result<()> {
    match status {
        10 => unkept(rt, file, cause),
        11 => eprintln!(rt;
            "sidekiq: {file} is not a log, or is damaged; nothing was written to it"
        ),
        12 => eprintln!(rt; "sidekiq: {file} is full (2^50 bytes)"),
        _ => Ok(()),
    }
}

// What was of a file that replies don't wait for.
fn kept_in_part(rt: &HostRuntime, file: &str) -> io::Result<()> {
    eprintln!(rt;
        "sidekiq: {file} can't be read or written any more; what was answered since it was last written may not be in it"
    )
}

// Why a server with a file ended so.
fn served_log(
    rt: &HostRuntime,
    line: &LogServeLine,
    status: u8,
    cause: Option<&io::Error>,
) -> io::Result<()> {
    served(rt, &beside_log(line), status, cause)?;
    let file = line.path.text();
    match (line.sync_every, status, cause) {
        (Some(_), 10, None) => kept_in_part(rt, file),
        _ => logged(rt, file, status, cause),
    }
}

// Tells of words that begin with no program's name, or with one that takes no others.
fn unknown(rt: &HostRuntime, words: &[String]) -> io::Result<()> {
    match words {
        [] => eprintln!(rt; "sidekiq: bad command line\n{USAGE}"),
        [name, ..] => eprintln!(rt; "sidekiq: bad command line: {name}\n{USAGE}"),
    }
}

// Tells why words were refused, or the help that they ask for.
fn refused(rt: &HostRuntime, words: &[String]) -> io::Result<()> {
    match help_of(rt.alloc(), words) {
        Ok(Some(text)) => eprintln!(rt; "{text}"),
        _ => unknown(rt, words),
    }
}

/// Tells that a word of the command line is no text.
pub fn unreadable_word(rt: &HostRuntime) -> io::Result<()> {
    eprintln!(rt; "sidekiq: bad command line: a word isn't UTF-8\n{USAGE}")
}

// What the words of one command ask for. Of those that are refused nothing is told here.

fn serve(alloc: Global, words: &[String]) -> Notice {
    match read_serve(alloc, words) {
        Ok(line) => Notice::Serve(line),
        Err(_) => log_serve(alloc, words),
    }
}

fn log_serve(alloc: Global, words: &[String]) -> Notice {
    match read_log_serve(alloc, words) {
        Ok(line) => Notice::LogServe(line),
        Err(_) => Notice::Other,
    }
}

fn work(alloc: Global, words: &[String], teams: u32) -> Notice {
    match read_work(alloc, words, teams) {
        Ok(settings) => Notice::Work(settings),
        Err(_) => Notice::Other,
    }
}

fn push(alloc: Global, words: &[String]) -> Notice {
    match read_push(alloc, words) {
        Ok(line) => Notice::Ask(line.address),
        Err(_) => Notice::Other,
    }
}

fn status(alloc: Global, words: &[String]) -> Notice {
    match read_status(alloc, words) {
        Ok(line) => Notice::Ask(line.address),
        Err(_) => Notice::Other,
    }
}

fn limit(alloc: Global, words: &[String]) -> Notice {
    match read_limit(alloc, words) {
        Ok(line) => Notice::Ask(line.address),
        Err(_) => Notice::Other,
    }
}

fn iterate(alloc: Global, words: &[String]) -> Notice {
    match read_iterate(alloc, words) {
        Ok(line) => Notice::Ask(line.address),
        Err(_) => Notice::Other,
    }
}

fn drill(alloc: Global, words: &[String], teams: u32) -> Notice {
    match read_drill(alloc, words, teams) {
        Ok(line) => Notice::Drill(line),
        Err(_) => Notice::Other,
    }
}

fn pipe(alloc: Global, words: &[String]) -> Notice {
    match read_log(alloc, words) {
        Ok(line) => Notice::Log(line),
        Err(_) => Notice::Other,
    }
}

// So many without one of them.
fn beside_one(loops: u32) -> usize {
    (loops as usize).saturating_sub(1)
}

// How many threads a server with a file starts beside its own: its loops but one, and one that stores what was logged, where no reply waits for that.
fn log_threads(line: &LogServeLine) -> usize {
    let others = beside_one(line.loops);
    match line.sync_every {
        Some(_) => others.saturating_add(1),
        None => others,
    }
}

impl Notice {
    /// What the words ask for, where `work` has so many teams.
    pub fn of(alloc: Global, words: &[String], teams: u32) -> Notice {
        let [name, ..] = words else {
            return Notice::Other;
        };
        match name.as_str() {
            "serve" => serve(alloc, words),
            "work" => work(alloc, words, teams),
            "push" => push(alloc, words),
            "status" => status(alloc, words),
            "limit" => limit(alloc, words),
            "iterate" => iterate(alloc, words),
            "drill" => drill(alloc, words, teams),
            "pipe" => pipe(alloc, words),
            _ => Notice::Other,
        }
    }

    /// How many threads the program starts beside its own, which takes part: none where it starts none at all.
    pub fn threads(&self) -> Option<usize> {
        match self {
            // a loop each
            Notice::Serve(line) => Some(beside_one(line.loops)),
            Notice::LogServe(line) => Some(log_threads(line)),
            // the poller, and a worker each
            Notice::Work(settings) => Some(settings.threads as usize),
            // who pushes, the poller, and a worker each
            Notice::Drill(line) => Some((line.workers as usize).saturating_add(1)),
            Notice::Ask(_) | Notice::Log(_) | Notice::Other => None,
        }
    }

    /// For how many seconds a server that is away is waited for.
    pub fn patience(&self) -> u32 {
        match self {
            Notice::Work(settings) => settings.patience,
            _ => 0,
        }
    }

    /// Whether a store is read from a file before connections are served.
    pub fn reads_store(&self) -> bool {
        match self {
            Notice::LogServe(_) => true,
            _ => false,
        }
    }

    /// Tells that the system doesn't give the program so many threads.
    pub fn crowded(&self, rt: &HostRuntime, threads: usize) -> io::Result<()> {
        eprintln!(rt;
            "sidekiq: the system doesn't give {threads} threads (see ulimit -u for their number, and ulimit -v for their stacks)"
        )
    }

    /// Tells what a server or workers are about to do, and where a file keeps the store.
    pub fn before(&self, rt: &HostRuntime) -> io::Result<()> {
        match self {
            Notice::Serve(line) => serving(rt, line),
            Notice::LogServe(line) => serving_log(rt, line),
            Notice::Work(settings) => working(rt, settings),
            Notice::Log(line) => keeping(rt, line.path.text()),
            Notice::Ask(_) | Notice::Drill(_) | Notice::Other => Ok(()),
        }
    }

    /// Tells why the program ended so, with the last error of its door or of its shelf.
    pub fn after(
        &self,
        rt: &HostRuntime,
        words: &[String],
        status: u8,
        cause: Option<&io::Error>,
    ) -> io::Result<()> {
        match status {
            2 => refused(rt, words),
            5 => eprintln!(rt; "sidekiq: out of memory"),
            _ => self.ended(rt, status, cause),
        }
    }

    // The same where the words were taken, and there was memory.
    fn ended(&self, rt: &HostRuntime, status: u8, cause: Option<&io::Error>) -> io::Result<()> {
        match self {
            Notice::Serve(line) => served(rt, line, status, cause),
            Notice::LogServe(line) => served_log(rt, line, status, cause),
            Notice::Work(settings) => worked(rt, settings, status),
            Notice::Ask(address) => asked(rt, address, status),
            Notice::Log(line) => logged(rt, line.path.text(), status, cause),
            Notice::Drill(_) | Notice::Other => Ok(()),
        }
    }
}
