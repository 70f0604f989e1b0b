// How the rows went: a line each, and how many there were and how many went wrong.
use sk_row_calls::Output;
use std::io;

/// How many rows there were, and how many went wrong.
#[derive(Drop)]
pub struct Report {
    pub rows: u64,
    pub wrong: u64,
}

impl Report {
    /// Prints how a row went, and counts it: `ok`, or what is wrong.
    pub fn add<R: Print>(&mut self, rt: &R, name: &str, wrong: Option<Output>) -> io::Result<()> {
        self.rows = self.rows.saturating_add(1);
        match wrong {
            None => println!(rt; "ok {name}"),
            Some(wrong) => {
                self.wrong = self.wrong.saturating_add(1);
                println!(rt; "{name}: {}", wrong.text()?)
            }
        }
    }

    /// Prints how many rows there were, and how many differ.
    pub fn print<R: Print>(&self, rt: &R) -> io::Result<()> {
        println!(rt; "{} rows, {} differ", self.rows, self.wrong)
    }
}
