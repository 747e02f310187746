// A row of calls (document 02, U2): each on the device and the array as the one before left them, and one
// cut point over the accesses of all.
ghost use Rattle.std.specs.Prelude.{◌≡◌};
ghost use Rattle.simulated_device.specs.Row.{row_start, is_stopped, may_make, is_over, row_after, followed, next};

use crate::run::Ran;
use crate::{Choices, Device, run};
use qspi_operation::Op;
use qspi_script::Status;

// Where a row stands: the device as the last call left it, the accesses until the power fails, and whether
// it is over.
#[derive(Clone, Copy)]
pub struct Row {
    pub device: Device,
    pub left: usize,
    pub over: bool,
}

// What a call of a row came to, and where the row then stands.
#[derive(Clone, Copy)]
pub struct Followed {
    pub ran: Ran,
    pub row: Row,
}

// Before the first call, with the power to fail after so many accesses.
pub fn start(choices: Choices, accesses: usize) -> Row
    ensures row { result ≡ row_start choices accesses }
{
    Row {
        device: crate::at_rest(choices),
        left: accesses,
        over: false,
    }
}

// Whether 23 or 24 ended it: chip select may be low, and words may wait. cut_cases has the same test, as it
// runs no device.
pub fn is_stopped(answer: Status) -> bool
    ensures stopped { result ≡ is_stopped answer }
{
    matches!(answer, Status::RepliesEnded | Status::LogFull)
}

// A row that is over is not followed.
fn may_make(row: Row) -> usize
    ensures accesses { result ≡ may_make row }
{
    if row.over { 0 } else { row.left }
}

// No call follows one that was stopped, or in which the device could not go on.
fn is_over(row: Row, ran: Ran) -> bool
    ensures over { result ≡ is_over row ran }
{
    row.over || ran.answer.is_none_or(|answer| is_stopped(answer))
}

// Each access takes two words of log.
fn row_after(row: Row, ran: Ran) -> Row
    ensures row { result ≡ row_after row ran }
{
    Row {
        device: ran.device,
        left: row.left.saturating_sub(ran.op.used / 2),
        over: is_over(row, ran),
    }
}

// The next call of a row, with a log of its own.
pub fn follow(
    row: Row,
    op: Op,
    replies: usize,
    data: &[u8],
    buffer: &mut [u8],
    log: &mut [u32],
    sent: &mut [u8],
    received: &mut [u32],
    array: &mut [u8],
) -> Followed
    ensures followed { result ≡ followed row (next row op replies «data».now buffer.old log.old sent.old received.old array.old).ran }
    ensures buffer { buffer.new ≡ (next row op replies «data».now buffer.old log.old sent.old received.old array.old).buffer }
    ensures log { log.new ≡ (next row op replies «data».now buffer.old log.old sent.old received.old array.old).log }
    ensures sent { sent.new ≡ (next row op replies «data».now buffer.old log.old sent.old received.old array.old).sent }
    ensures received { received.new ≡ (next row op replies «data».now buffer.old log.old sent.old received.old array.old).received }
    ensures array { array.new ≡ (next row op replies «data».now buffer.old log.old sent.old received.old array.old).array }
{
    let accesses = may_make(row);
    let ran = run::run(
        op, row.device, accesses, replies, data, buffer, log, sent, received, array,
    );
    Followed {
        ran,
        row: row_after(row, ran),
    }
}
