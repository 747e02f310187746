// The run of an order over replies; of a list its single erases in its order, each over the words and the
// replies that the one before left. Document 02, U1.
use crate::memory::{behind, behind_mut};
use crate::order::Order;
use qspi_calls::start;
use qspi_driver::state::{Progress, State};
use qspi_driver::{QspiSpansionS25Fl256SIoMode, state};
use qspi_operation::Op;
use qspi_script::Status;
use std::alloc::{AllocError, Global};
use trial_calls::call::Call;

// The memory goes in part by part, as `qspi_operation::run` takes it: a struct would be taken apart at once.
pub fn run(
    alloc: Global,
    order: &Order,
    data: &[u8],
    buffer: &mut [u8],
    log: &mut [u32],
    replies: &[u32],
) -> Result<Progress, AllocError> {
    let op = order.start(alloc)?;
    if order.call == Call::EraseSectors && qspi_operation::is_going(op.status) {
        return Ok(one_by_one(&order.list(alloc)?, log, replies));
    }
    Ok(progress(op, data, buffer, log, replies))
}

// An erase that is stopped is the last one.
fn one_by_one(list: &[u32], log: &mut [u32], replies: &[u32]) -> Progress {
    let mut total = QspiSpansionS25Fl256SIoMode::idle().answer();
    for sector in list {
        if !is_done(total) {
            break;
        }
        let log_left = behind_mut(log, total.used);
        let ran = erase(*sector, log_left, behind(replies, total.replies));
        total = sum(total, ran);
    }
    total
}

fn erase(sector: u32, log: &mut [u32], replies: &[u32]) -> Progress {
    let op = start::erase_sector(sector, log.len());
    progress(op, &[], &mut [], log, replies)
}

fn progress(op: Op, data: &[u8], buffer: &mut [u8], log: &mut [u32], replies: &[u32]) -> Progress {
    let stepped = qspi_operation::run(op, data, buffer, log, replies);
    state::answer_so_far(State { op: stepped.op })
}

fn is_done(progress: Progress) -> bool {
    progress.status == Status::Done
}

fn sum(before: Progress, ran: Progress) -> Progress {
    Progress {
        used: before.used.wrapping_add(ran.used),
        replies: before.replies.wrapping_add(ran.replies),
        counted: before.counted.wrapping_add(usize::from(is_done(ran))),
        ..ran
    }
}
