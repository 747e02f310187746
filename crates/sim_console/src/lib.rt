// Calls of the driver against the simulated controller and flash, as a row of requests on standard input
// says (`request`): they are run (`run`) and printed (`report`), or the one line is that says what is wrong
// (`fault`).
#![tactic(auto)]

use crate::fault::{Fault, Problem};
use crate::request::{CallRow, Cut};
use crate::run::Came;
use printing::tolerant::{Tolerant, ended};
use sim_report::run::print_refused;
use std::io;
use std::io::Read;

mod ended;
mod fault;
mod item;
mod numbers;
mod part;
mod reader;
mod report;
mod request;
mod run;
mod sections;
mod sectors;
mod words;

const INPUT: usize = 32768;

pub fn simulate_input<R: Input + Print + AllocGlobal>(rt: &R) {
    let mut input = Vec::new(rt.alloc());
    let read = ended(rt.reader().take(INPUT as u64).read_to_end(&mut input));
    let input = input.as_slice();
    if read.is_err() {
        print_fault(rt, Fault::new(last_line(input), None, Problem::OutOfMemory))
    } else if input.len() < INPUT {
        simulate_text(rt, input)
    } else {
        print_fault(rt, Fault::new(last_line(input), None, Problem::LongInput))
    }
}

fn print_fault(rt: &impl Print, fault: Fault) {
    let _ = println!(rt; "{fault}");
}

// The number of the last line.
fn last_line(input: &[u8]) -> usize {
    1 + input.iter().filter(|byte| **byte == b'\n').count()
}

// Requests that are at hand as text. Nothing fails but for memory that runs out, which is told in one line too.
pub fn simulate_text<R: Print + AllocGlobal>(rt: &R, input: &[u8]) {
    let calls = match reader::read(rt.alloc(), input) {
        Ok(calls) => calls,
        Err(fault) => return print_fault(rt, fault),
    };
    let tolerant = (Tolerant::new(rt), rt.alloc());
    if simulate(&tolerant, &calls).is_err() {
        print_fault(rt, Fault::new(last_line(input), None, Problem::OutOfMemory))
    }
}

fn simulate<R: Print + AllocGlobal>(rt: &R, calls: &CallRow) -> io::Result<()> {
    let cut = match calls.cut {
        Cut::Never => None,
        Cut::After(accesses) => Some(accesses),
        Cut::Every => return simulate_cuts(rt, calls),
    };
    let came = run::run(rt.alloc(), calls, cut, |call| call.print_whole(rt))?;
    print_left_out(rt, came)
}

// Every cut point, from 0 to all accesses of the row.
fn simulate_cuts<R: Print + AllocGlobal>(rt: &R, calls: &CallRow) -> io::Result<()> {
    let came = run::run(rt.alloc(), calls, None, |_| Ok(()))?;
    cut_lines(rt, calls, came.made)?;
    if came.answer.is_none() {
        print_refused(rt, came.made)?;
    }
    print_left_out(rt, came)
}

fn cut_lines<R: Print + AllocGlobal>(rt: &R, calls: &CallRow, all: usize) -> io::Result<()> {
    for cut in 0..=all {
        run::run(rt.alloc(), calls, Some(cut), |call| call.print_cut(rt))?;
    }
    Ok(())
}

// Says that a call is not run, where one is not.
fn print_left_out(rt: &impl Print, came: Came) -> io::Result<()> {
    if came.left_out {
        sim_report::run::print_left_out(rt, came.number, came.answer)?;
    }
    Ok(())
}
