// Runs the calls of document 01 on replies drawn by the access that is due, and prints how each one ends,
// the used counts, and digests of the log and the buffer; then one digest of every cut of some of them.
//
// Standard input has the cases, a line of 21 bytes each, `CC AAAAAAAA BBBB S P`:
//
//   CC        the call, by its number in `record`
//   AAAAAAAA  its first input, in hex: an address, a word or a byte
//   BBBB      its second input, up to 512: a length, or a number by call
//   S         the style of the replies, of `trial_calls::reply`
//   P         what is printed: 0 a line, 1 its whole log too, 2 its cuts
//
// Of a line that is no such case, `BAD` and its number are printed, from 0 on, and nothing after it. 0 is
// also the number of an input of 8,192 bytes or more. `tools/expected_calls` makes the cases and, by a
// model, the stored output.
#![tactic(auto)]

use crate::cut::{CUTS, Cut};
use crate::memory::Memory;
use crate::record::{Case, Shows, Trial};
use printing::tolerant::{Tolerant, ended};
use qspi_operation::Op;
use std::alloc::{AllocError, Global};
use std::io::{Read, Result};
use trial_calls::digest;
use trial_calls::draw::Draw;
use trial_calls::memory::front;
use trial_calls::source::Source;
use zynq7000::qspi::Access;

mod cut;
mod memory;
mod print;
mod record;

// The bytes of an input that is too long. Reading up to it is one call of std's,
// which a function for the programs would only rename.
const TOO_LONG: usize = 8192;

fn main(rt: HostRuntime) -> Result<()> {
    let mut input = Vec::new(rt.alloc());
    ended(rt.reader().take(TOO_LONG as u64).read_to_end(&mut input))?;
    let rt = (Tolerant::new(&rt), rt.alloc());
    if input.len() < TOO_LONG {
        print_cases(&rt, &input)
    } else {
        print::bad(&rt, 0)
    }
}

fn print_cases(rt: &(impl Print + AllocGlobal), input: &[u8]) -> Result<()> {
    for (number, line) in (0..u32::MAX).zip(input.chunks(record::LENGTH)) {
        let Some(case) = Case::parse(line) else {
            return print::bad(rt, number);
        };
        print_case(rt, case, digest::mix(number, 1))?;
    }
    Ok(())
}

// The call on replies by the access due.
fn print_case(rt: &(impl Print + AllocGlobal), case: Case, seed: u32) -> Result<()> {
    let trial = case.trial;
    let mut memory = Memory::untouched();
    let mut replies = Vec::new(rt.alloc());
    let op = serve(
        trial,
        seed,
        &mut memory.buffer[..trial.buffer_len()],
        &mut memory.log,
        &mut replies,
    )?;
    match case.shows {
        Shows::Line => print::line(rt, trial, op, &memory, &replies),
        Shows::Whole => {
            print::line(rt, trial, op, &memory, &replies)?;
            print::accesses(rt, front(&memory.log, op.used))
        }
        Shows::Cuts => {
            for cut in CUTS {
                print::cut(rt, trial, op, cut, &replies)?;
            }
            Ok(())
        }
    }
}

// Steps a call to its end, for which the turns suffice: each step takes two words of log. The replies that
// it used are kept.
fn serve(
    trial: Trial,
    seed: u32,
    buffer: &mut [u8],
    log: &mut [u32],
    replies: &mut Vec<u32>,
) -> std::result::Result<Op, AllocError> {
    let data = memory::data();
    let lent_data = &data[..trial.data_len()];
    let mut op = trial.start(log.len());
    let mut source = Source::new(trial.style, Draw(seed));
    for _ in 0..2100 {
        let mut reply = None;
        if let Ok(Some(due)) = qspi_operation::due(op, lent_data) {
            let access = source.access(due);
            source = source.after(access);
            if let Access::Read(_, word) = access {
                replies.push(word)?;
                reply = Some(word);
            }
        }
        op = qspi_operation::step(op, lent_data, buffer, log, reply).op;
    }
    replies.truncate(op.replies);
    Ok(op)
}
