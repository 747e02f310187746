// The text of small logs, swept over each border of rule 13, of the record numbers and of a buffer,
// the entries of a log by place, and the number of accesses that lead one.
#![tactic(auto)]

use access_log::BadRecord;
use printing::tolerant::Tolerant;
use std::io::{Result, Write, writer};

// Three records: a write, a read, and a last one whose first word is no offset.
const LOG: [u8; 24] = [
    0x14, 0, 0, 0, 1, 0, 0, 0, 0x20, 1, 0, 0, 0xFE, 0xCA, 0xAD, 0xDE, 2, 0, 0, 0, 0, 0, 0, 0,
];

// First words far above 1FC.
const LARGE: [u32; 4] = [0x0001_0000, 0x8000_0000, 0xFFFF_FFFC, 0xFFFF_FFFF];

// Four accesses.
const FOUR: [u32; 8] = [0x14, 1, 0x120, 0xDEAD_CAFE, 0x80, 6, 0x1FC, 0xFFFF_FFFF];

// Numbers of the first record.
const NUMBERS: [u64; 6] = [
    0,
    9,
    99,
    9_999_999_999,
    9_999_999_999_999_999_999,
    18_446_744_073_709_551_614,
];

// First words 0 to 20F, some larger ones, the log cut at every byte, the numbers, the lengths around a
// buffer, the places of words, and every front of four records with a refused one at each place.
fn main(rt: HostRuntime) -> Result<()> {
    let rt = Tolerant::new(&rt);
    records(&rt)?;
    cuts(&rt)?;
    numbers(&rt)?;
    measures(&rt)?;
    places(&rt)?;
    leading(&rt, 0x102)?;
    leading(&rt, 0x200)
}

fn records(rt: &impl Print) -> Result<()> {
    for first in (0..0x210u32).chain(LARGE) {
        record(rt, first)?;
    }
    Ok(())
}

fn cuts(rt: &impl Print) -> Result<()> {
    for len in 0..=LOG.len() {
        cut(rt, len)?;
    }
    Ok(())
}

fn numbers(rt: &impl Print) -> Result<()> {
    for first in NUMBERS {
        numbered(rt, first)?;
    }
    Ok(())
}

fn measures(rt: &impl Print) -> Result<()> {
    for len in 4088..4105usize {
        measure(rt, len)?;
    }
    Ok(())
}

fn places(rt: &impl Print) -> Result<()> {
    for len in 0..4usize {
        places_among(rt, len)?;
    }
    Ok(())
}

fn places_among(rt: &impl Print, len: usize) -> Result<()> {
    for at in [0, 1, 2, usize::MAX] {
        place(rt, len, at)?;
    }
    Ok(())
}

// One record with its own first word as value, upside down.
fn record(rt: &impl Print, first: u32) -> Result<()> {
    let [a, b, c, d] = first.to_le_bytes();
    show(rt, &[a, b, c, d, d, c, b, a], 0)
}

// As many elements from the front as asked for, or all. `trial_calls::memory` has this too, but stands above
// the driver's calls: here `access_log` alone is named.
fn front<T>(log: &[T], len: usize) -> &[T] {
    log.get(..len).unwrap_or(log)
}

// The first bytes of the log: a tail of 1 to 7 bytes is a short record.
fn cut(rt: &impl Print, len: usize) -> Result<()> {
    println!(rt; "bytes {len}")?;
    show(rt, front(&LOG, len), 0)
}

// The third record is bad, and so has the number first + 2.
fn numbered(rt: &impl Print, first: u64) -> Result<()> {
    println!(rt; "from {first}")?;
    show(rt, &LOG, first)
}

// The length of the text of a log of zeros, and whether the log may go on: a buffer is 512 records.
fn measure(rt: &impl Print, len: usize) -> Result<()> {
    let log = [0u8; 4200];
    let mut text = [0u8; access_log::ROOM];
    let rendered = access_log::render(front(&log, len), 0, &mut text);
    let more = if rendered.more { " and more" } else { "" };
    println!(rt; "zeros {len}\n{}{more}", rendered.len)
}

// A place of a log of none to three words.
fn place(rt: &impl Print, len: usize, at: usize) -> Result<()> {
    println!(rt; "place {at}\nwords {len}")?;
    match access_log::entry_at(front(&[0x100, 7, 0x200], len), at) {
        Some(Ok(_)) => println!(rt; "access"),
        Some(Err(BadRecord { at })) => println!(rt; "bad at {at}"),
        None => println!(rt; "end"),
    }
}

// Four records, of which the one at a place has a first word that is none; at place 4 all are accesses.
fn refused(at: usize, first: u32) -> [u32; 8] {
    let mut words = FOUR;
    if at < 4 {
        words[at * 2] = first;
    }
    words
}

// The accesses that lead none to eight words of such records: what stands behind the refused one does
// not count.
fn leading(rt: &impl Print, first: u32) -> Result<()> {
    for at in 0..5usize {
        println!(rt; "refused at {at}")?;
        counts(rt, &refused(at, first))?;
    }
    Ok(())
}

fn counts(rt: &impl Print, words: &[u32]) -> Result<()> {
    for len in 0..8usize {
        print!(rt; "{} ", access_log::accesses(front(words, len)))?;
    }
    println!(rt; "{}", access_log::accesses(words))
}

fn show(rt: &impl Print, log: &[u8], first: u64) -> Result<()> {
    let mut text = [0u8; access_log::ROOM];
    let rendered = access_log::render(log, first, &mut text);
    writer(rt).write_all(&text[..rendered.len])
}
