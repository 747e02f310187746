// A reader keeps the lent log and its place together, and gives the log's accesses one by one.
ghost use Rattle.std.specs.Prelude.{◌≡◌};
ghost use Rattle.access_log.specs.Log.{answer_of, answer_at, is_access};
ghost use Rattle.access_log.specs.Reader.{found_at, next_of, read_of, accesses_in};

use crate::{Entry, entry_at};

// What a reader finds at a place.
#[derive(Clone, Copy)]
pub struct Found {
    pub entry: Entry,
    // Where to read on: behind an access; the end and a record that 13 refuses stay.
    pub next: usize,
}

// What stands at a place of a log, and the place to read on from.
pub fn found_at(log: &[u32], at: usize) -> Found
    ensures found { result ≡ found_at log.now at }
    ensures answer { answer_of result.entry ≡ answer_at log.now at }
{
    let entry = entry_at(log, at);
    let next = if is_access(entry) { at + 1 } else { at };
    Found { entry, next }
}

fn is_access(entry: Entry) -> bool
    ensures access { result ≡ is_access entry }
{
    matches!(entry, Some(Ok(_)))
}

// A lent log and the place that is read next.
#[derive(Clone, Copy)]
pub struct LogReader<'a> {
    pub log: &'a [u32],
    pub at: usize,
}

// No `Iterator`: the clauses of `next` say what is given from the log's end or a refused record on, again and
// again, and a loop over an iterator without an end is not proved.
impl<'a> LogReader<'a> {
    // The next access; from the end or a record that 13 refuses on, the same again.
    pub fn next(&mut self) -> Entry
        ensures moved { self.new ≡ read_of self.old }
        ensures entry { result ≡ next_of self.old }
        ensures answer { answer_of result ≡ answer_at self.old.log.now self.old.at }
    {
        let found = found_at(self.log, self.at);
        self.at = found.next;
        found.entry
    }
}

// How many accesses stand in a log before its end or the first record that 13 refuses.
pub fn accesses(log: &[u32]) -> usize
    ensures accesses { result ≡ accesses_in log.now }
{
    let mut reader = LogReader { log, at: 0 };
    while is_access(reader.next()) {}
    reader.at
}
