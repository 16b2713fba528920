// The words of the command line.
use cashbook::MOST_ROWS;
use std::fmt;
use std::str::FromStr;

// What a book is kept on.
#[derive(Clone, Copy, PartialEq, Eq, Debug)]
pub enum BookKind {
    Image,
    Table,
}

impl fmt::Display for BookKind {
    fn fmt<W: fmt::Write>(&self, f: &mut fmt::Formatter<W>) -> fmt::Result {
        f.write_str(match self {
            BookKind::Image => "a book on an image",
            BookKind::Table => "a book on a table",
        })
    }
}

// Room for so many rows, up to the most that a book has.
#[derive(Clone, Copy, PartialEq, Eq, Debug)]
pub struct Capacity(pub u32);

// A word that is no such number.
#[derive(Clone, Copy, PartialEq, Eq, Debug)]
pub struct NoCapacity;

impl FromStr for Capacity {
    type Err = NoCapacity;

    fn from_str(text: &str) -> Result<Capacity, NoCapacity> {
        match text.parse::<u32>() {
            Ok(rows) if rows <= MOST_ROWS => Ok(Capacity(rows)),
            _ => Err(NoCapacity),
        }
    }
}

// What the words so far say of the scripts behind them.
#[derive(Clone, Copy, PartialEq, Eq, Debug)]
pub struct Settings {
    pub book: BookKind,
    pub capacity: Capacity,
}

// The settings where no word says others.
pub const USUAL: Settings = Settings {
    book: BookKind::Image,
    capacity: Capacity(100),
};

// What a word is.
#[derive(Clone, Copy, PartialEq, Eq, Debug)]
pub enum Word {
    Book(BookKind),
    // the next word is the capacity
    Capacity,
    Script,
}

// A word that looks like an option and is none, as in the program counter.
#[derive(Clone, Copy, PartialEq, Eq, Debug)]
pub struct UnknownOption;

impl FromStr for Word {
    type Err = UnknownOption;

    fn from_str(text: &str) -> Result<Word, UnknownOption> {
        match text {
            "--image" => Ok(Word::Book(BookKind::Image)),
            "--table" => Ok(Word::Book(BookKind::Table)),
            "--capacity" => Ok(Word::Capacity),
            _ if text.starts_with("--") => Err(UnknownOption),
            _ => Ok(Word::Script),
        }
    }
}
