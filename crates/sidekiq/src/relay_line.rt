// The options of `work` that name another program, which runs the jobs: `--relay HOST:PORT`, `--relay-classes NAME,..` and `--relay-seconds COUNT`. They
// say what the workers' teams are, so the program reads them itself; the top call gets the other words, and the teams.
use sk_base::is_name;
use sk_base::limits::{LONGEST_NAME, MOST_SECONDS};
use std::alloc::{AllocError, Global};

/// For how many seconds nothing may come of a run where the words don't say: half an hour.
const SECONDS: u32 = 1800;

/// What help says of these options, below those that clap knows.
pub const RELAY_HELP: &str = "Jobs that another program runs (docs/OWN_JOBS.md):
      --relay <HOST:PORT>        Where it listens; these classes are then in the place of Note, Fail and Flip
      --relay-classes <NAME,..>  The classes that it runs: names, with commas
      --relay-seconds <COUNT>    For how long it may be silent at a run, 1 to 1000000000 [default: 1800]";

/// The other program: where it listens, which classes it runs, and for how many seconds it may be silent at a run.
#[derive(Drop)]
pub struct RelayLine {
    pub host: String,
    pub port: u16,
    pub classes: Vec<String>,
    pub seconds: u32,
}

/// Why words have no such line, and can't be done.
#[derive(Drop)]
pub enum RelayFault {
    /// A value breaks its rule, or is missing. What people are told of it.
    Refused(String),
    Memory,
}

impl From<AllocError> for RelayFault {
    fn from(_: AllocError) -> RelayFault {
        RelayFault::Memory
    }
}

/// One of the three options.
#[derive(Clone, Copy)]
enum RelayOption {
    Place,
    Classes,
    Seconds,
}

/// The words as they were given: the values of the three options, and all others.
#[derive(Drop)]
struct Sorted {
    place: Option<String>,
    classes: Option<String>,
    seconds: Option<String>,
    rest: Vec<String>,
    /// The option whose value the next word is.
    wanted: Option<RelayOption>,
    /// A word was `--`, behind which there are no options.
    is_over: bool,
}

// Words that can't be done, for this reason.
fn refused(alloc: Global, why: &str) -> RelayFault {
    let told = format!(in alloc;
        "sidekiq work: {why}\n\n{RELAY_HELP}\n\nFor more information, try 'sidekiq work --help'."
    );
    match told {
        Ok(text) => RelayFault::Refused(text),
        Err(_) => RelayFault::Memory,
    }
}

// The same of an option's value.
fn refused_value(alloc: Global, option: &str, value: &str) -> RelayFault {
    match format!(in alloc; "{option} can't be '{value}'") {
        Ok(why) => refused(alloc, &why),
        Err(_) => RelayFault::Memory,
    }
}

// The option that a word is, and the value behind its `=`.
fn option_of(word: &str) -> Option<(RelayOption, Option<&str>)> {
    let (name, value) = match word.split_once('=') {
        Some((name, value)) => (name, Some(value)),
        None => (word, None),
    };
    match name {
        "--relay" => Some((RelayOption::Place, value)),
        "--relay-classes" => Some((RelayOption::Classes, value)),
        "--relay-seconds" => Some((RelayOption::Seconds, value)),
        _ => None,
    }
}

impl Sorted {
    fn new(alloc: Global) -> Sorted {
        Sorted {
            place: None,
            classes: None,
            seconds: None,
            rest: Vec::new(alloc),
            wanted: None,
            is_over: false,
        }
    }

    // Keeps an option's value. Of two the last counts.
    fn keep(&mut self, option: RelayOption, value: String) {
        match option {
            RelayOption::Place => self.place = Some(value),
            RelayOption::Classes => self.classes = Some(value),
            RelayOption::Seconds => self.seconds = Some(value),
        }
    }

    // Puts the next word where it belongs.
    fn sort(&mut self, alloc: Global, word: String) -> Result<(), AllocError> {
        if let Some(option) = self.wanted.take() {
            self.keep(option, word);
            return Ok(());
        }
        self.is_over = self.is_over || word.as_str() == "--";
        if self.is_over {
            self.rest.push(word)?;
            return Ok(());
        }
        self.sort_option(alloc, word)
    }

    // The same of a word before `--` that is no option's value.
    fn sort_option(&mut self, alloc: Global, word: String) -> Result<(), AllocError> {
        match option_of(&word) {
            Some((option, Some(value))) => self.keep(option, String::from_str(alloc, value)?),
            Some((option, None)) => self.wanted = Some(option),
            None => self.rest.push(word)?,
        }
        Ok(())
    }
}

// The host and the port that a place is.
fn place_of(place: &str) -> Option<(&str, u16)> {
    let (host, port) = place.rsplit_once(':')?;
    match port.parse::<u16>() {
        Ok(port) if port > 0 && !host.is_empty() => Some((host, port)),
        _ => None,
    }
}

// The seconds that a text is.
fn seconds_of(text: Option<&String>) -> Option<u32> {
    let Some(text) = text else {
        return Some(SECONDS);
    };
    match text.as_str().parse::<u32>() {
        Ok(seconds) if 0 < seconds && seconds <= MOST_SECONDS => Some(seconds),
        _ => None,
    }
}

// The classes that a text names, each once.
fn classes_of(alloc: Global, text: &str) -> Result<Option<Vec<String>>, AllocError> {
    let mut classes: Vec<String> = Vec::new(alloc);
    for name in text.split(',') {
        let is_repeated = classes.iter().any(|class| class.as_str() == name);
        if is_repeated || !is_name(name.as_bytes(), LONGEST_NAME) {
            return Ok(None);
        }
        classes.push(String::from_str(alloc, name)?)?;
    }
    Ok(Some(classes))
}

// The classes that the words name.
fn named_classes(alloc: Global, sorted: &Sorted) -> Result<Vec<String>, RelayFault> {
    let text = sorted.classes.as_ref().map_or("", |text| text.as_str());
    match classes_of(alloc, text)? {
        Some(classes) => Ok(classes),
        None => Err(refused_value(alloc, "--relay-classes", text)),
    }
}

// The seconds that the words name.
fn named_seconds(alloc: Global, sorted: &Sorted) -> Result<u32, RelayFault> {
    match seconds_of(sorted.seconds.as_ref()) {
        Some(seconds) => Ok(seconds),
        None => {
            let text = sorted.seconds.as_ref().map_or("", |text| text.as_str());
            Err(refused_value(alloc, "--relay-seconds", text))
        }
    }
}

// The line that these values are, where the other program listens at this place.
fn line_at(alloc: Global, place: &str, sorted: &Sorted) -> Result<RelayLine, RelayFault> {
    let Some((host, port)) = place_of(place) else {
        return Err(refused_value(alloc, "--relay", place));
    };
    let classes = named_classes(alloc, sorted)?;
    let seconds = named_seconds(alloc, sorted)?;
    Ok(RelayLine {
        host: String::from_str(alloc, host)?,
        port,
        classes,
        seconds,
    })
}

// The line that the values are, if one of the options is there.
fn line_of(alloc: Global, sorted: &Sorted) -> Result<Option<RelayLine>, RelayFault> {
    if sorted.wanted.is_some() {
        return Err(refused(alloc, "the last option has no value"));
    }
    if let Some(place) = &sorted.place {
        return Ok(Some(line_at(alloc, place, sorted)?));
    }
    if sorted.classes.is_some() || sorted.seconds.is_some() {
        return Err(refused(alloc, "there is no --relay"));
    }
    Ok(None)
}

/// The words for the top call, and which program runs the jobs, if the words, which are those of `work`, name one.
pub fn with_relay(
    alloc: Global,
    words: Vec<String>,
) -> Result<(Vec<String>, Option<RelayLine>), RelayFault> {
    match words.first() {
        Some(name) if name.as_str() == "work" => {}
        _ => return Ok((words, None)),
    }
    let mut sorted = Sorted::new(alloc);
    for word in words {
        sorted.sort(alloc, word)?;
    }
    let line = line_of(alloc, &sorted)?;
    Ok((sorted.rest, line))
}
