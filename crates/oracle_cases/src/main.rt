// Replays a list of calls that the published Rust with U2's wait answered: each is made on the port, and its
// end printed in one line. The stored output is the Rust's. `oracle/list` makes both files, and has the same rules.
//
// Standard input, all numbers little-endian: how many reply words the dictionary has (two bytes, up to
// 256), the words, and records to the end. A record is 14 bytes and a body:
//
//    0  kind of call, by `kind`
//    1  flags, by kind
//    2  first argument, by kind
//    3  second argument, by kind
//    4  address or word (four bytes)
//    8  length of the data, of the buffer or of the list (two bytes, up to 768)
//   10  room of the log in words (two bytes, up to 4096)
//   12  length of the body (two bytes)
//   14  the body: a byte for each reply, up to 1024, its place in the dictionary; of the clock calls their
//       numbers, four bytes each; of `erase_sectors` its list before the replies, four bytes an entry
//
// Data byte i is 7 i plus the first argument, modulo 256. Log and buffer are filled with one word and one
// byte beforehand. Of an input that is no such list, `BAD` and the record's number are printed, and
// nothing after it: the record is short, its kind unknown, a length past the limit, a reply past the
// dictionary or a list past the body. 0 is also the number of a bad dictionary and of an input of 98,304
// bytes or more. The stored list ends in a short record.
#![tactic(auto)]

ghost use Rattle.std.specs.Prelude.{◌<◌, length, IfOk};

use fault::Fault;
use printing::tolerant::{Tolerant, ended};
use record::Record;
use std::alloc::Global;
use std::io;
use std::io::Read;

mod call;
mod ended;
mod fault;
mod kind;
mod record;

// An input of so many bytes is none that is replayed. Reading up to it is one call of std's,
// which a function for the programs would only rename.
const TOO_LONG: usize = 98304;

const MOST_WORDS: usize = 256;

// What the memory holds beforehand, by `oracle/list`. `trial_calls::memory` has the same two, a crate of which
// nothing else would be used here.
const UNTOUCHED: u32 = 0xA5A5_5A5A;

const UNTOUCHED_BYTE: u8 = 0x5A;

fn main(rt: HostRuntime) -> io::Result<()> {
    let mut input = Vec::new(rt.alloc());
    ended(rt.stdin().take(TOO_LONG as u64).read_to_end(&mut input))?;
    let rt = (Tolerant::new(&rt), rt.alloc());
    if input.len() == TOO_LONG {
        return bad(&rt, 0);
    }
    list(&rt, input.as_slice())
}

// The dictionary, then the records.
fn list(rt: &(impl Print + AllocGlobal), input: &[u8]) -> io::Result<()> {
    match dictionary(rt.alloc(), input) {
        Ok((words, rest)) => records(rt, rest, words.as_slice()),
        Err(Fault::Bad) => bad(rt, 0),
        Err(Fault::Io(error)) => Err(error),
    }
}

fn dictionary(alloc: Global, input: &[u8]) -> Result<(Vec<u32>, &[u8]), Fault> {
    let (count, rest) = input.split_first_chunk().ok_or(Fault::Bad)?;
    let count = usize::from(u16::from_le_bytes(*count));
    if MOST_WORDS < count {
        return Err(Fault::Bad);
    }
    let (words, rest) = rest.split_at_checked(count * 4).ok_or(Fault::Bad)?;
    Ok((record::words(alloc, words)?, rest))
}

// No `for`: what is left is known only once a record is replayed.
fn records(rt: &(impl Print + AllocGlobal), mut rest: &[u8], dictionary: &[u32]) -> io::Result<()> {
    let mut number = 0;
    while !rest.is_empty() {
        match replayed(rt, number, rest, dictionary) {
            Ok(behind) => rest = behind,
            Err(Fault::Bad) => return bad(rt, number),
            Err(Fault::Io(error)) => return Err(error),
        }
        number += 1;
    }
    Ok(())
}

// Replays the first record of the rest, and returns what stands behind it.
fn replayed<'a>(
    rt: &(impl Print + AllocGlobal),
    number: usize,
    rest: &'a [u8],
    dictionary: &[u32],
) -> Result<&'a [u8], Fault>
    ensures { IfOk result (λ behind. length behind.now < length rest.now) }
{
    let (record, behind) = Record::split_first(rest).ok_or(Fault::Bad)?;
    let mut buffer = [UNTOUCHED_BYTE; call::LENGTH];
    let mut log = [UNTOUCHED; call::ROOM];
    let ended = call::run(rt.alloc(), record, dictionary, &mut buffer, &mut log)?;
    ended.print(rt, number, record.kind, &log, &buffer)?;
    Ok(behind)
}

// One line, as in `cut_cases` and `call_cases`: a crate to share it would be longer than it.
fn bad(rt: &impl Print, number: usize) -> io::Result<()> {
    println!(rt; "BAD {number}")
}
