// What is printed of a call: the log; the answer, or the cut; the used counts; `programmed` of
// `write_pages`; `finished` of this, `program` and `erase_sectors`; `in doubt` of these and
// `erase_sector`; the sectors of a list; and the register, id or bytes of a read that is done. Of a row each
// call has its number above it. The pages that changed come last. Of `cut all`, one line a cut.
use crate::call::Call;
use crate::flash::{Address, Flash, print_rows};
use printing::AnswerNumber;
use qspi_script::Status;
use std::fmt;
use std::io::{Result, Write, writer};
use zedboard_bsp::qspi_spansion::words::{bytes_of, top_byte};

// Words of log that are rendered at once.
const PORTION: usize = 1024;

// Which call is printed, and where in its row it stands.
#[derive(Clone, Copy, Debug)]
pub struct Case {
    pub call: Call,
    pub address: u32,
    // After how many accesses the power fails, where it does.
    pub cut: Option<usize>,
    // Its number in a row, from 1, unless it stands alone.
    pub number: Option<usize>,
    // The accesses of the row up to its end.
    pub made: usize,
    // No call is run behind it.
    pub is_last: bool,
}

// How a run ended, as far as it is printed.
#[derive(Clone, Copy)]
pub struct Ended {
    // None where the device could not go on.
    pub answer: Option<Status>,
    // The entry of a list that the answer is about.
    pub place: Option<u8>,
    pub used: usize,
    pub replies: usize,
    // The bytes that `write_pages` programmed, or the sectors that a list finished.
    pub counted: usize,
    // The sector whose erase command is out while the status loop has not ended.
    pub erasing: Option<u32>,
    // The last three replies.
    pub older: u32,
    pub old: u32,
    pub last: u32,
}

// The chunks that the log shows as finished, and their bytes.
#[derive(Clone, Copy, Debug, PartialEq, Eq)]
pub struct Finished {
    pub chunks: usize,
    pub bytes: usize,
}

// The memory that a call was lent, and the sectors of a list that the driver takes; of other calls there
// are none.
#[derive(Clone, Copy)]
pub struct Lent<'a> {
    pub list: &'a [u32],
    pub log: &'a [u32],
    pub buffer: &'a [u8],
}

// A run, with what the log shows of it and what it left in the flash. What was asked, how it ended and what is
// shown come from three places, and each function here takes those that it prints.
pub fn print_whole(
    rt: &impl Print,
    case: &Case,
    ended: &Ended,
    finished: Finished,
    lent: Lent<'_>,
    flash: Flash<'_>,
) -> Result<()> {
    let flash = flash.with_erased(ended.erasing);
    if let Some(number) = case.number {
        println!(rt; "call {number} {}", case.call)?;
    }
    print_accesses(rt, &lent.log[..ended.used.min(lent.log.len())])?;
    print_end(rt, case, ended)?;
    println!(rt; "used log words {}, replies {}", ended.used, ended.replies)?;
    print_chunks(rt, case.call, ended.counted, finished, flash)?;
    for &sector in lent.list {
        println!(rt; "sector {} {}", Address(sector), flash.holding(sector))?;
    }
    print_value(rt, case, ended, lent.buffer)?;
    if case.is_last {
        flash.print_pages(rt)?;
    }
    Ok(())
}

// A call's part of the line of a cut.
pub fn print_cut(
    rt: &impl Print,
    case: &Case,
    ended: &Ended,
    finished: Finished,
    list: &[u32],
    flash: Flash<'_>,
) -> Result<()> {
    print_cut_start(rt, case)?;
    if case.call.programs() {
        print!(rt; " finished {} bytes {}", finished.chunks, finished.bytes)?;
    }
    if case.call == Call::EraseSectors {
        print!(rt; " finished {}", ended.counted)?;
    }
    if case.is_last {
        print_cut_end(rt, case, list, flash.with_erased(ended.erasing))?;
    }
    Ok(())
}

// Says where the device could not go on.
pub fn print_refused(rt: &impl Print, made: usize) -> Result<()> {
    println!(rt; "the device could not go on after {made} accesses")
}

// No call follows one that 23 or 24 ended, or at which the device could not go on, which has no answer.
pub fn print_left_out(rt: &impl Print, number: usize, answer: Option<Status>) -> Result<()> {
    print!(rt; "no call follows call {number}: ")?;
    match answer {
        Some(status) => println!(rt; "it ended by {}", answer_number(status)),
        None => println!(rt; "the device could not go on"),
    }
}

fn print_accesses(rt: &impl Print, log: &[u32]) -> Result<()> {
    let mut output = writer(rt);
    let mut lines = [0u8; access_log::ROOM];
    for portion in log.chunks(PORTION) {
        let rendered = access_log::render_words(portion, 0, &mut lines);
        output.write_all(&lines[..rendered.len])?;
    }
    Ok(())
}

// ---- the end

fn answer_number(status: Status) -> AnswerNumber {
    AnswerNumber(status as u32)
}

// The answer, or the cut in its place.
fn print_end(rt: &impl Print, case: &Case, ended: &Ended) -> Result<()> {
    let made = case.made;
    let Some(answer) = ended.answer else {
        return print_refused(rt, made);
    };
    match case.cut {
        Some(cut) if cut == made => return println!(rt; "cut after {made} accesses"),
        Some(_) if case.is_last => println!(rt; "ended after {made} accesses, before the cut")?,
        _ => {}
    }
    println!(rt; "answer {}", answer_number(answer))?;
    if let Some(place) = ended.place {
        println!(rt; "place {place}")?;
    }
    Ok(())
}

// ---- the chunks

fn print_chunks(
    rt: &impl Print,
    call: Call,
    counted: usize,
    finished: Finished,
    flash: Flash<'_>,
) -> Result<()> {
    if call == Call::WritePages {
        println!(rt; "programmed {counted}")?;
    }
    if call.programs() {
        println!(rt; "finished {}, bytes {}", finished.chunks, finished.bytes)?;
    }
    if call == Call::EraseSectors {
        println!(rt; "finished {counted}")?;
    }
    if call.works() {
        match flash.doubt {
            Some(doubt) => println!(rt; "in doubt {doubt}")?,
            None => println!(rt; "in doubt none")?,
        }
    }
    Ok(())
}

// ---- what was read

// Bytes, a blank before each.
#[derive(Clone, Copy)]
struct Octets<'a>(&'a [u8]);

impl fmt::Display for Octets<'_> {
    fn fmt<W: fmt::Write>(&self, f: &mut fmt::Formatter<W>) -> fmt::Result {
        for byte in self.0 {
            write!(f, " {byte:02X}")?;
        }
        Ok(())
    }
}

// What a call that is done has read: a register, an id, or bytes of the array; any other has no buffer, and
// nothing is printed. An id stands behind the byte that came in while the command went out.
fn print_value(rt: &impl Print, case: &Case, ended: &Ended, buffer: &[u8]) -> Result<()> {
    if ended.answer != Some(Status::Done) {
        return Ok(());
    }
    let last = bytes_of(ended.last);
    match case.call {
        Call::ReadStatusRegister1 | Call::ReadConfigurationRegister => {
            println!(rt; "register {:02X}", top_byte(ended.last))
        }
        Call::ReadRdidBase => println!(rt; "id{}", Octets(&last[1..])),
        Call::ReadRdidExtended => {
            let older = bytes_of(ended.older);
            let old = bytes_of(ended.old);
            println!(rt;
                "id{}{}{}",
                Octets(&older[1..]),
                Octets(&old),
                Octets(&last[..1])
            )
        }
        _ => print_rows(rt, "read ", case.address, buffer, None),
    }
}

// ---- the line of a cut

// The cut before the first call, and a number before each in a row.
fn print_cut_start(rt: &impl Print, case: &Case) -> Result<()> {
    if let (Some(cut), None | Some(1)) = (case.cut, case.number) {
        print!(rt; "{cut}")?;
    }
    if let Some(number) = case.number {
        print!(rt; " call {number}")?;
    }
    Ok(())
}

// What the cut leaves, behind the call that it met.
fn print_cut_end(rt: &impl Print, case: &Case, list: &[u32], flash: Flash<'_>) -> Result<()> {
    if case.call.works() || case.number.is_some() {
        match flash.doubt {
            Some(doubt) => print!(rt; " doubt {doubt}")?,
            None => print!(rt; " doubt -")?,
        }
    }
    print!(rt; " pages {}", flash.changed_pages())?;
    if !list.is_empty() {
        print!(rt; " sectors")?;
    }
    for &sector in list {
        print!(rt; " {}", flash.holding(sector))?;
    }
    println!(rt; "")
}
