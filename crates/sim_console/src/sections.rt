// The requests of a row as they stand in the text.
ghost use Rattle.std.specs.Prelude.{◌+◌, ◌-◌, ◌<◌, ◌≤◌, length};
ghost use Rattle.std.specs.Iterator.{at_most};

use crate::words::Words;

pub const LONGEST_LINE: usize = 1024;

// One request, and the line `then` behind it, which is empty behind the last one.
#[derive(Clone, Copy)]
pub struct Section<'a> {
    pub request: &'a [u8],
    pub then: &'a [u8],
}

// By a place in the text, of which the clauses `within` and `further` speak.
#[derive(Clone, Copy)]
pub struct Sections<'a> {
    input: &'a [u8],
    at: usize,
}

impl<'a> Sections<'a> {
    pub fn new(input: &'a [u8]) -> Sections<'a> {
        Sections { input, at: 0 }
    }
}

impl<'a> Iterator for Sections<'a> {
    type Item = Section<'a>;

    ghost remaining = { λ s. at_most (length s.input.now + 1 - s.at) };

    fn next(&mut self) -> Option<Section<'a>> {
        if self.input.len() < self.at {
            return None;
        }
        let end = request_end(self.input, self.at);
        let next = next_request(self.input, end);
        let request = &self.input[self.at..end];
        let then = &self.input[end..next.min(self.input.len())];
        self.at = next;
        Some(Section { request, then })
    }
}

// A line without its end: LF, or CR LF as some systems write it.
pub fn without_end(line: &[u8]) -> &[u8] {
    let line = line.strip_suffix(b"\n").unwrap_or(line);
    line.strip_suffix(b"\r").unwrap_or(line)
}

// The line that parts two requests.
fn is_then(line: &[u8]) -> bool {
    line.len() <= LONGEST_LINE && Words::new(line).next() == Some(b"then")
}

// Where the request ends that begins at a place: before a line `then`, or with the input.
fn request_end(input: &[u8], from: usize) -> usize
    requires { from ≤ length input.now }
    ensures within { (from ≤ result) × (result ≤ length input.now) }
{
    let mut end = from;
    for line in input[from..].split(|byte| *byte == b'\n') {
        if is_then(without_end(line)) {
            return end;
        }
        end += line.len() + 1;
    }
    input.len()
}

// Where the next request begins: behind the line `then`, or past the input, where there is none.
fn next_request(input: &[u8], end: usize) -> usize
    requires { end ≤ length input.now }
    ensures further { (end < result) × (result ≤ length input.now + 1) }
{
    match input[end..].iter().position(|byte| *byte == b'\n') {
        Some(len) => end + len + 1,
        None if end < input.len() => input.len(),
        None => end + 1,
    }
}
