// The lines of the cases: hex is upper case as in document 01, and an answer has its number and name there.
use crate::memory;
use printing::AnswerNumber;
use qspi_driver::state;
use qspi_driver::state::{Progress, StartRefused};
use qspi_script::Status;
use std::alloc::{AllocError, Global};
use std::{fmt, io};
use trial_calls::memory::UNTOUCHED;
use zynq7000::qspi::Access;

// How many of the words that a register got are printed.
const SHOWN: usize = 5;

// The answer of a call, with its number where it has one. A call that goes on is busy.
#[derive(Clone, Copy)]
pub struct Answered(pub Result<Status, StartRefused>);

impl fmt::Display for Answered {
    fn fmt<W: fmt::Write>(&self, f: &mut fmt::Formatter<W>) -> fmt::Result {
        match (state::number(self.0), self.0) {
            (Some(number), _) => write!(f, "{}", AnswerNumber(number)),
            (None, Err(StartRefused::ListMissing)) => write!(f, "ListMissing"),
            (None, _) => write!(f, "Busy"),
        }
    }
}

// The first entries of a list, and the last one where there are more.
pub fn list(rt: &impl Print, list: &[u32]) -> io::Result<()> {
    print!(rt; "erase_sectors [")?;
    for (at, addr) in list.iter().take(SHOWN).enumerate() {
        let before = if at == 0 { "" } else { " " };
        print!(rt; "{before}{addr:08X}")?;
    }
    if let Some([others @ .., last]) = list.get(SHOWN..) {
        print!(rt; " and {} more, last {last:08X}", others.len() + 1)?;
    }
    print!(rt; "]")
}

// The words of log and the replies that a call used.
pub fn used(rt: &impl Print, progress: Progress) -> io::Result<()> {
    print!(rt;
        "; used log words {}, replies {}",
        progress.used, progress.replies
    )
}

// How far memory was changed, in words or in bytes counted from 1 on.
pub fn changed(rt: &impl Print, memory: &str, unit: &str, last: Option<usize>) -> io::Result<()> {
    match last {
        Some(last) => print!(rt; "{memory} changed up to {unit} {}", last.wrapping_add(1)),
        None => print!(rt; "{memory} untouched"),
    }
}

// What a log holds after a call, with the last word that was changed.
pub fn log(rt: &impl Print, log: &[u32]) -> io::Result<()> {
    let last = memory::last_changed(log, UNTOUCHED);
    changed(rt, "; log", "word", last)
}

// The words that a log says a register got, on a line of their own.
pub fn written(
    rt: &(impl Print + AllocGlobal),
    name: &str,
    register: u8,
    log: &[u32],
) -> io::Result<()> {
    let words = words_written(rt.alloc(), register, log)?;
    if words.is_empty() {
        return Ok(());
    }
    print!(rt; "  {name}")?;
    for word in words.iter().take(SHOWN) {
        print!(rt; " {word:08X}")?;
    }
    if SHOWN < words.len() {
        print!(rt; " and {} more", words.len() - SHOWN)?;
    }
    println!(rt)
}

fn words_written(alloc: Global, register: u8, log: &[u32]) -> Result<Vec<u32>, AllocError> {
    let mut words = Vec::new(alloc);
    // By places: an `access_log::LogReader` is no iterator, which says why.
    for at in 0..access_log::accesses(log) {
        if let Some(Ok(Access::Write(offset, value))) = access_log::entry_at(log, at)
            && offset == register
        {
            words.push(value)?;
        }
    }
    Ok(words)
}
