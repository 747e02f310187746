// What is wrong with an input, and the line that says so.
use crate::item::Item;
use crate::part::Scope;
use std::alloc::{AllocError, AllocFailed};
use std::fmt;

#[derive(Clone, Copy)]
pub enum Problem {
    LongInput,
    LongLine,
    UnknownItem,
    Again,
    NoValue,
    MoreWords,
    UnknownCall,
    NotHex,
    NotDecimal,
    OddDigits,
    LongAddress,
    // The greatest number that the item takes.
    TooLarge(u32),
    TooMuchData,
    NeitherYesNorNo,
    NoCall,
    Needed,
    NotTaken,
    Outside(Scope),
    TooManySectors,
    NoCallBefore,
    NoCallBehind,
    TakesNone,
    OutOfMemory,
}

impl fmt::Display for Problem {
    fn fmt<W: fmt::Write>(&self, f: &mut fmt::Formatter<W>) -> fmt::Result {
        f.write_str(match self {
            Problem::LongInput => "the input has more than 32767 bytes",
            Problem::LongLine => "the line has more than 1024 bytes",
            Problem::UnknownItem => "unknown item",
            Problem::Again => "given a second time",
            Problem::NoValue => "the value is missing",
            Problem::MoreWords => "more than one value",
            Problem::UnknownCall => "unknown call",
            Problem::NotHex => "not a hex number",
            Problem::NotDecimal => "not a decimal number",
            Problem::OddDigits => "an odd number of hex digits",
            Problem::LongAddress => "more than 8 hex digits",
            Problem::TooLarge(most) => return write!(f, "number too large, at most {most}"),
            Problem::TooMuchData => "more than 4096 bytes of data",
            Problem::NeitherYesNorNo => "neither yes nor no",
            Problem::NoCall => "no call is named",
            Problem::Needed => "missing, this call needs it",
            Problem::NotTaken => "this call does not take it",
            Problem::Outside(scope) => return write!(f, "outside of the {scope} on"),
            Problem::TooManySectors => "more than 300 sectors",
            Problem::NoCallBefore => "no call is named before it",
            Problem::NoCallBehind => "no call is named behind it",
            Problem::TakesNone => "takes no value",
            Problem::OutOfMemory => "out of memory",
        })
    }
}

impl From<AllocError> for Problem {
    fn from(_error: AllocError) -> Problem {
        Problem::OutOfMemory
    }
}

impl<T: Drop> From<AllocFailed<T>> for Problem {
    fn from(_error: AllocFailed<T>) -> Problem {
        Problem::OutOfMemory
    }
}

#[derive(Clone, Copy)]
pub struct Fault {
    pub line: usize,
    // The item that is at fault, where one is known.
    pub item: Option<Item>,
    pub problem: Problem,
}

impl Fault {
    pub fn new(line: usize, item: Option<Item>, problem: Problem) -> Fault {
        Fault {
            line,
            item,
            problem,
        }
    }
}

impl fmt::Display for Fault {
    fn fmt<W: fmt::Write>(&self, f: &mut fmt::Formatter<W>) -> fmt::Result {
        let Fault {
            line,
            item,
            problem,
        } = *self;
        match item {
            Some(item) => write!(f, "line {line}: {item}: {problem}"),
            None => write!(f, "line {line}: {problem}"),
        }
    }
}
