// Which program the words of a command line name.
ghost use Rattle.std.specs.Prelude.{◌≡◌, map, string_bytes};
ghost use Rattle.std.specs.List.{list_any};
ghost use Rattle.sk_app.specs.Programs.{is_log, named, program_of};

/// A program beside `pipe` alone, which `sk_pipe` knows.
#[derive(Clone, Copy, Debug, PartialEq, Eq)]
pub enum Program {
    /// A server.
    Serve,
    /// Workers and a poller.
    Work,
    /// One job is pushed.
    Push,
    /// The page of a server is written.
    Status,
    /// A large run of a store.
    Soak,
    /// Threads at one store, with crashes.
    Drill,
    /// A limiter is asked for a slot or a grant.
    Limit,
    /// Items are run from a cursor on.
    Iterate,
    /// A pipe over a store that a file keeps.
    LogPipe,
    /// A server over a store that a file keeps.
    LogServe,
}

// The program with this name.
fn named(name: &str) -> Option<Program>
    ensures { result ≡ named name.now }
{
    if name == "serve" {
        return Some(Program::Serve);
    }
    if name == "work" {
        return Some(Program::Work);
    }
    if name == "push" {
        return Some(Program::Push);
    }
    if name == "status" {
        return Some(Program::Status);
    }
    if name == "soak" {
        return Some(Program::Soak);
    }
    if name == "drill" {
        return Some(Program::Drill);
    }
    if name == "limit" {
        return Some(Program::Limit);
    }
    if name == "iterate" {
        return Some(Program::Iterate);
    }
    None
}

// Whether the word is the option that names a file, alone or with its value behind `=`.
fn is_log(word: &[u8]) -> bool
    ensures { result ≡ is_log word.now }
{
    word == b"--log".as_slice() || word.starts_with(b"--log=")
}

// Whether one of the words is.
fn has_log(words: &[String]) -> bool
    ensures { result ≡ list_any is_log (map string_bytes words.now) }
{
    words.iter().any(|word| is_log(word.as_bytes()))
}

/// The program that the first word names; none where it is another word, or there is none, or it is `pipe` alone. `serve` has one for a line that names a file.
pub fn program_of(words: &[String]) -> Option<Program>
    ensures { result ≡ program_of (map string_bytes words.now) }
{
    match words {
        [name, _, ..] if name.as_str() == "pipe" => Some(Program::LogPipe),
        [name, rest @ ..] if name.as_str() == "serve" && has_log(rest) => Some(Program::LogServe),
        [name, ..] => named(name.as_str()),
        [] => None,
    }
}
