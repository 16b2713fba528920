// The words of the command line.
use std::str::FromStr;

// How a file is cut into slots.
#[derive(Clone, Copy, PartialEq, Eq, Debug)]
pub enum Cutting {
    // in lines where the file has a line feed, else packed
    Told,
    Packed,
    Lines,
}

const LINE_FEED: u8 = 10;

impl Cutting {
    // Whether the slots of a file are its lines.
    pub fn is_in_lines(self, file: &[u8]) -> bool {
        match self {
            Cutting::Told => file.contains(&LINE_FEED),
            Cutting::Packed => false,
            Cutting::Lines => true,
        }
    }
}

// What a word behind the command is.
#[derive(Clone, Copy, PartialEq, Eq, Debug)]
pub enum Word {
    Option(Cutting),
    File,
}

// A word that looks like an option and is none.
#[derive(Clone, Copy, PartialEq, Eq, Debug)]
pub struct UnknownOption;

impl FromStr for Word {
    type Err = UnknownOption;

    fn from_str(text: &str) -> Result<Word, UnknownOption> {
        match text {
            "--packed" => Ok(Word::Option(Cutting::Packed)),
            "--lines" => Ok(Word::Option(Cutting::Lines)),
            _ if text.starts_with("--") => Err(UnknownOption),
            _ => Ok(Word::File),
        }
    }
}
