// A log of register accesses: what stands at each place of it, and its text.
// A place is a record's number from 0. A log is words, two a record, or their little-endian bytes.
#![tactic(auto)]

ghost use Rattle.std.specs.Prelude.{◌≡◌};
ghost use Rattle.access_log.specs.Log.{answer_of, answer_at, entry_at};

use zynq7000::qspi::Access;

mod printer;
mod reader;
mod words;

pub use printer::{ROOM, Rendered, render, render_words};
pub use reader::{Found, LogReader, accesses, found_at};

// A record that is no access (refusal 13), by its place.
#[derive(Clone, Copy, Debug, PartialEq, Eq)]
pub struct BadRecord {
    pub at: usize,
}

// What stands at a place of a log: an access, a record that is none, or nothing from the log's end on.
pub type Entry = Option<Result<Access, BadRecord>>;

// What stands at a place of a log of words.
pub fn entry_at(log: &[u32], at: usize) -> Entry
    ensures entry { result ≡ entry_at log.now at }
    ensures answer { answer_of result ≡ answer_at log.now at }
{
    let whole = log.len() / 2;
    if at < whole {
        let access = Access::of_words(log[at * 2], log[at * 2 + 1]);
        return Some(access.or(Err(BadRecord { at })));
    }
    if at == whole && log.len() % 2 != 0 {
        return Some(Err(BadRecord { at }));
    }
    None
}
