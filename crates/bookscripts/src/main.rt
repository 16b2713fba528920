// Runs the calls of scripts on cash books: `bookscripts [--image | --table] [--capacity N] SCRIPT...`.
// The frame is that of the program counter. No plainer in a crate for both programs: each shared function would take the program's name, its usage and its noun.
#![tactic(auto)]

mod answers;
mod arguments;
mod books;
mod calls;
mod script;
mod show;

use anyhow::anyhow;
use arguments::{Capacity, NoCapacity, Settings, USUAL, UnknownOption, Word};
use books::report_script;
use cashbook::MOST_ROWS;
use std::process::ExitCode;
use std::{env, fs, io};

const USAGE: &str = "usage: bookscripts [--image | --table] [--capacity N] SCRIPT...";

fn main(rt: HostRuntime) -> anyhow::Result<ExitCode> {
    match run(&rt) {
        Ok(()) => Ok(ExitCode::SUCCESS),
        Err(error) => {
            eprintln!(rt; "bookscripts: {error}")?;
            Ok(ExitCode::FAILURE)
        }
    }
}

fn run(rt: &HostRuntime) -> anyhow::Result<()> {
    let mut words = env::args(rt)?.skip(1);
    let mut settings = USUAL;
    let mut scripts = Scripts { all: 0, unread: 0 };
    while let Some(text) = words.next() {
        match word_of(rt, text.as_str())? {
            Word::Book(book) => settings.book = book,
            Word::Capacity => settings.capacity = capacity_of(rt, words.next())?,
            Word::Script => scripts.run(rt, text.as_str(), settings)?,
        }
    }
    scripts.end()
}

// What a word is; where it is none, that is told, and the run ends. Here and below a match and no `or_else`, whose
// closure would only move the lines that tell it.
fn word_of(rt: &HostRuntime, text: &str) -> anyhow::Result<Word> {
    match text.parse::<Word>() {
        Ok(word) => Ok(word),
        Err(UnknownOption) => {
            eprintln!(rt; "bookscripts: unknown option {text}")?;
            Err(anyhow!(USAGE))
        }
    }
}

// The capacity that a word is; where it is none, that is told, and the run ends.
fn capacity_of(rt: &HostRuntime, word: Option<String>) -> anyhow::Result<Capacity> {
    let text = word.ok_or_else(|| anyhow!(USAGE))?;
    match text.as_str().parse::<Capacity>() {
        Ok(capacity) => Ok(capacity),
        Err(NoCapacity) => {
            eprintln!(rt;
                "bookscripts: the capacity is a number from 0 to {MOST_ROWS}, not {text}"
            )?;
            Err(anyhow!(USAGE))
        }
    }
}

// How many scripts were named, and how many of them could not be read.
#[derive(Clone, Copy)]
struct Scripts {
    all: usize,
    unread: usize,
}

impl Scripts {
    // Reads a script and runs its calls.
    fn run(&mut self, rt: &HostRuntime, path: &str, settings: Settings) -> anyhow::Result<()> {
        self.all = self.all.saturating_add(1);
        match read_script(rt, path)? {
            Some(script) => report_script(rt, path, script.as_str(), settings)?,
            None => self.unread = self.unread.saturating_add(1),
        }
        Ok(())
    }

    // What the run comes to.
    fn end(&self) -> anyhow::Result<()> {
        if self.all == 0 {
            return Err(anyhow!(USAGE));
        }
        if self.unread > 0 {
            return Err(anyhow!("not every script could be read"));
        }
        Ok(())
    }
}

// The text of a script; where it cannot be read, that is told, and there is none.
fn read_script(rt: &HostRuntime, path: &str) -> io::Result<Option<String>> {
    match fs::read_to_string(rt, path) {
        Ok(script) => Ok(Some(script)),
        Err(error) => {
            eprintln!(rt; "bookscripts: {path}: {error}")?;
            Ok(None)
        }
    }
}
