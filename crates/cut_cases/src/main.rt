// Makes rows of saves by `write_pages`, each call on a log behind those of the ones before, cut after every
// number of the row's accesses, and prints what the log up to the cut shows: the chunks finished, their
// bytes, and the chunks in doubt, with the first of them; then the last call made, its answer and its count.
//
// Standard input has the rows, of numbers that are little-endian. A row is the number of its calls (two
// bytes) and the calls. A call is 10 bytes, its data and its replies:
//
//    0  address (four bytes)
//    4  length of the data (two bytes)
//    6  room of its log in accesses (two bytes)
//    8  number of the replies (two bytes, up to 1,024)
//   10  the data, and the replies, four bytes each
//
// Of an input that is no such list, `BAD` and the row's number are printed, from 0 on, and nothing after it.
// 0 is also the number of an input of 32,768 bytes or more. The stored list ends in a short row. Input and
// output are made by `tools/cut_cases`: a simulated flash gave the replies, and an observer of its own has
// what the program must print.
#![tactic(auto)]

ghost use Rattle.std.specs.Prelude.{◌<◌, length, IfOk};

use fault::Fault;
use printing::tolerant::{Tolerant, ended};
use record::Call;
use std::io;
use std::io::Read;

mod fault;
mod print;
mod record;
mod row;

// An input of so many bytes is none that is shown. Reading up to it is one call of std's,
// which a function for the programs would only rename.
const TOO_LONG: usize = 32768;

// Accesses that the log of a row has room for.
const ROOM: usize = 2048;

// What the log holds beforehand: no record, so that the observer stops where a row did. It is the word of
// `trial_calls::memory`, a crate of which nothing else would be used here.
const UNTOUCHED: u32 = 0xA5A5_5A5A;

fn main(rt: HostRuntime) -> io::Result<()> {
    let mut input = Vec::new(rt.alloc());
    ended(rt.stdin().take(TOO_LONG as u64).read_to_end(&mut input))?;
    let rt = (Tolerant::new(&rt), rt.alloc());
    if input.len() == TOO_LONG {
        return print::bad(&rt, 0);
    }
    rows(&rt, input.as_slice())
}

// No `for`: what is left is known only once a row is shown.
fn rows(rt: &(impl Print + AllocGlobal), mut rest: &[u8]) -> io::Result<()> {
    let mut number = 0;
    while !rest.is_empty() {
        match shown(rt, number, rest) {
            Ok(behind) => rest = behind,
            Err(Fault::Bad) => return print::bad(rt, number),
            Err(Fault::Io(error)) => return Err(error),
        }
        number += 1;
    }
    Ok(())
}

// Shows the first row of the rest, the whole row and then its cuts, and returns what stands behind it.
fn shown<'a>(
    rt: &(impl Print + AllocGlobal),
    number: usize,
    rest: &'a [u8],
) -> Result<&'a [u8], Fault>
    ensures { IfOk result (λ behind. length behind.now < length rest.now) }
{
    let (row, behind) = record::first_row(rt.alloc(), rest)?;
    let row = row.as_slice();
    print::title(rt, number, row.len())?;
    let accesses = whole(rt, row)?;
    for k in 0..=accesses {
        cut(rt, k, row)?;
    }
    Ok(behind)
}

// Shows the calls, and returns the number of their accesses.
fn whole(rt: &(impl Print + AllocGlobal), row: &[Call<'_>]) -> io::Result<usize> {
    let mut log = [UNTOUCHED; ROOM * 2];
    let made = row::run(rt.alloc(), row, &mut log)?;
    for (number, (call, pages)) in row.iter().zip(made.calls.iter()).enumerate() {
        print::made(rt, number, call, pages)?;
    }
    Ok(made.used / 2)
}

// A cut leaves the log of so many accesses.
fn cut(rt: &(impl Print + AllocGlobal), k: usize, row: &[Call<'_>]) -> io::Result<()> {
    let mut log = [UNTOUCHED; ROOM * 2];
    let log = &mut log[..k.min(ROOM) * 2];
    let made = row::run(rt.alloc(), row, log)?;
    print::point(rt, k, log_observer::observe(log, k))?;
    print::at_hand(rt, made.calls.as_slice())
}
