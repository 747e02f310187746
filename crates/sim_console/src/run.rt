// The calls of a row against the simulated device, each on the device and the array as the one before left
// them, with a log of its own.
ghost use Rattle.std.specs.Prelude.{◌≤◌};

use crate::ended;
use crate::report::CallReport;
use crate::request::{CallRow, MOST_ACCESSES, Request};
use qspi_script::Status;
use simulated_device::Choices;
use simulated_device::row::{self, Followed, Row};
use std::alloc::{AllocError, Global};
use std::io;

// Two words to an access.
const WORDS: usize = 32768;

// How far a row came.
#[derive(Clone, Copy)]
pub struct Came {
    row: Row,
    // The accesses of all calls so far.
    pub made: usize,
    // The number of the last call that was run.
    pub number: usize,
    // How that ended, where the device could go on.
    pub answer: Option<Status>,
    // No call is run behind it.
    pub is_last: bool,
    // A call behind it is left out, since another one has ended the row, and not the cut.
    pub left_out: bool,
}

impl Came {
    fn start(calls: &CallRow, cut: Option<usize>) -> Came {
        let choices = Choices {
            busy_reads: calls.busy,
            gap: calls.gap,
            base: calls.base,
        };
        Came {
            // It takes a number of accesses: one that no row comes to, where nothing is cut.
            row: row::start(choices, cut.unwrap_or(usize::MAX)),
            made: 0,
            number: 0,
            answer: Some(Status::Done),
            is_last: false,
            left_out: false,
        }
    }

    // Behind one call more, in a row of so many.
    fn after(self, followed: Followed, calls: usize) -> Came {
        let row = followed.row;
        let ran = followed.ran;
        let number = self.number.saturating_add(1);
        let is_followed = number < calls;
        Came {
            row,
            made: self
                .made
                .saturating_add(self.row.left.saturating_sub(row.left)),
            number,
            answer: ran.answer,
            is_last: row.over || row.left == 0 || !is_followed,
            left_out: row.over && row.left != 0 && is_followed,
        }
    }
}

// What the calls of a row are lent: a log, the device's memory, and the part of the array.
#[derive(Drop)]
pub struct Memory {
    pub log: Vec<u32>,
    sent: [u8; 256],
    received: [u32; 128],
    pub array: Vec<u8>,
}

impl Memory {
    fn new(alloc: Global, array: &[u8]) -> Result<Memory, AllocError> {
        Ok(Memory {
            log: vec![in alloc; 0; WORDS]?,
            sent: [0; 256],
            received: [0; 128],
            array: array.to_vec(alloc)?,
        })
    }
}

// Runs the calls up to a cut point, from the array as it was before them, and shows each.
pub fn run<F: FnMut(&CallReport<'_>) -> io::Result<()>>(
    alloc: Global,
    calls: &CallRow,
    cut: Option<usize>,
    mut show: F,
) -> io::Result<Came>
    requires { F.IsAlwaysCallable show }
{
    let mut memory = Memory::new(alloc, calls.before.as_slice())?;
    let mut came = Came::start(calls, cut);
    for request in &calls.requests {
        let mut buffer = vec![in alloc; 0u8; request.length]?;
        let followed = follow(request, came.row, &mut buffer, &mut memory);
        came = came.after(followed, calls.requests.len());
        show(&CallReport {
            calls,
            request,
            cut,
            came,
            ended: ended::of_run(request, followed.ran),
            buffer: buffer.as_slice(),
            memory: &memory,
        })?;
        if came.is_last {
            break;
        }
    }
    Ok(came)
}

// The words of so many accesses.
fn words_of(accesses: usize, log: usize) -> usize
    ensures within { result ≤ log }
{
    (accesses.min(MOST_ACCESSES as usize) * 2).min(log)
}

// The call is lent its memory.
fn follow(request: &Request, row: Row, buffer: &mut [u8], memory: &mut Memory) -> Followed {
    let words = words_of(request.log, memory.log.len());
    let numbers = request.sectors.numbered();
    let count = request.sectors.as_slice().len();
    let data = if request.has_list() {
        numbers.get(..count).unwrap_or(&[])
    } else {
        request.data.as_slice()
    };
    row::follow(
        row,
        request.begin(words),
        request.replies.unwrap_or(usize::MAX),
        data,
        buffer,
        &mut memory.log[..words],
        &mut memory.sent,
        &mut memory.received,
        &mut memory.array,
    )
}
