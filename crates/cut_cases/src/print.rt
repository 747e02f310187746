// The lines.
use crate::record::Call;
use log_observer::{Doubt, Watch};
use power_cut::PagesRan;
use std::io;

// An address has its last six digits.
const ADDRESSES: u32 = 0x100_0000;

// One line, as in `call_cases` and `oracle_cases`: a crate to share it would be longer than it.
pub fn bad(rt: &impl Print, number: usize) -> io::Result<()> {
    println!(rt; "BAD {number}")
}

pub fn title(rt: &impl Print, number: usize, calls: usize) -> io::Result<()> {
    println!(rt; "row {number} calls {calls}")
}

// A call of the whole row.
pub fn made(rt: &impl Print, number: usize, call: &Call<'_>, pages: &PagesRan) -> io::Result<()> {
    let address = call.address % ADDRESSES;
    let length = call.data.len();
    let accesses = pages.ran.used / 2;
    let replies = pages.ran.replies;
    print!(rt;
        "call {number} at {address:06X} length {length} accesses {accesses} replies {replies}"
    )?;
    answer(rt, pages)
}

// What the log shows after so many accesses.
pub fn point(rt: &impl Print, k: usize, watch: Watch) -> io::Result<()> {
    print!(rt; "{k} finished {} bytes {}", watch.finished, watch.bytes)?;
    in_doubt(rt, watch.doubt)
}

fn in_doubt(rt: &impl Print, doubt: Doubt) -> io::Result<()> {
    let Some(first) = doubt.first else {
        return print!(rt; " doubt {}", doubt.chunks);
    };
    print!(rt;
        " doubt {} at {:06X} length {}",
        doubt.chunks,
        first.address % ADDRESSES,
        first.length
    )
}

// The last call made; a row of none has none.
pub fn at_hand(rt: &impl Print, made: &[PagesRan]) -> io::Result<()> {
    match made.split_last() {
        Some((last, before)) => {
            print!(rt; " call {}", before.len())?;
            answer(rt, last)
        }
        None => println!(rt),
    }
}

fn answer(rt: &impl Print, pages: &PagesRan) -> io::Result<()> {
    let number = pages.ran.answer as u32;
    let programmed = pages.programmed;
    println!(rt; " answer {number} programmed {programmed}")
}
