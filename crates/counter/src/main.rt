// The counter program: `counter check [--packed | --lines] FILE...`.
// The frame is that of the program bookscripts. No plainer in a crate for both programs: each shared function would take the program's name, its usage and its noun.
#![tactic(auto)]

mod arguments;
mod report;

use anyhow::anyhow;
use arguments::{Cutting, UnknownOption, Word};
use report::report_file;
use std::process::ExitCode;
use std::{env, fs, io};

const USAGE: &str = "usage: counter check [--packed | --lines] FILE...";

fn main(rt: HostRuntime) -> anyhow::Result<ExitCode> {
    match run(&rt) {
        Ok(()) => Ok(ExitCode::SUCCESS),
        Err(error) => {
            eprintln!(rt; "counter: {error}")?;
            Ok(ExitCode::FAILURE)
        }
    }
}

fn run(rt: &HostRuntime) -> anyhow::Result<()> {
    let mut words = env::args(rt)?.skip(1);
    if !words.next().is_some_and(|word| word.as_str() == "check") {
        return Err(anyhow!(USAGE));
    }
    let mut cutting = Cutting::Told;
    let mut files = Files { all: 0, unread: 0 };
    for text in words {
        match word_of(rt, text.as_str())? {
            Word::Option(chosen) => cutting = chosen,
            Word::File => files.check(rt, text.as_str(), cutting)?,
        }
    }
    files.end()
}

// What a word is; where it is none, that is told, and the run ends. Here and below a match and no `or_else`, whose
// closure would only move the lines that tell it.
fn word_of(rt: &HostRuntime, text: &str) -> anyhow::Result<Word> {
    match text.parse::<Word>() {
        Ok(word) => Ok(word),
        Err(UnknownOption) => {
            eprintln!(rt; "counter: unknown option {text}")?;
            Err(anyhow!(USAGE))
        }
    }
}

// How many files were named, and how many of them could not be read.
#[derive(Clone, Copy)]
struct Files {
    all: usize,
    unread: usize,
}

impl Files {
    // Reads a file and reports on it.
    fn check(&mut self, rt: &HostRuntime, path: &str, cutting: Cutting) -> anyhow::Result<()> {
        self.all = self.all.saturating_add(1);
        match read_file(rt, path)? {
            Some(file) => report_file(rt, path, file.as_slice(), cutting)?,
            None => self.unread = self.unread.saturating_add(1),
        }
        Ok(())
    }

    // What the run comes to.
    fn end(&self) -> anyhow::Result<()> {
        if self.all == 0 {
            return Err(anyhow!(USAGE));
        }
        if self.unread > 0 {
            return Err(anyhow!("not every file could be read"));
        }
        Ok(())
    }
}

// The bytes of a file; where it cannot be read, that is told, and there are none.
fn read_file(rt: &HostRuntime, path: &str) -> io::Result<Option<Vec<u8>>> {
    match fs::read(rt, path) {
        Ok(file) => Ok(Some(file)),
        Err(error) => {
            eprintln!(rt; "counter: {path}: {error}")?;
            Ok(None)
        }
    }
}
