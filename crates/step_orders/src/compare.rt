// An order, under way or ended, beside the run of the same start over the replies that it used.
use crate::memory::{BYTES, LOG, Memory, behind, is_untouched};
use crate::order::Order;
use crate::run;
use crate::tally::{Summary, Tally};
use crate::walk::Left;
use qspi_driver::state::Progress;
use std::alloc::{AllocError, Global};
use trial_calls::digest::{digest, mix};
use trial_calls::memory::front;
use zynq7000::qspi::Access;

// One by one, as in `walk`: the order and its data are only read, and the tally is counted on.
pub fn compare(
    alloc: Global,
    order: &Order,
    data: &[u8],
    left: &Left,
    tally: &mut Tally,
) -> Result<(), AllocError> {
    let progress = left.progress;
    let log = front(&left.memory.log, progress.used);
    tally.note(mix(digest(&left.memory.buffer), digest(log)));
    let replies = replies_of(alloc, log)?;
    let mut fresh = Memory::untouched();
    let run_log = &mut fresh.log[..order.lent.log.min(LOG)];
    let ran = run::run(
        alloc,
        order,
        front(data, order.lent.data),
        &mut fresh.buffer[..order.lent.buffer.min(BYTES)],
        run_log,
        front(&replies, progress.replies),
    )?;
    if left.memory.buffer != fresh.buffer || !is_same(progress, ran, log, &fresh.log) {
        tally.differs.run = true;
    }
    if !is_untouched(behind(&left.memory.log, progress.used)) {
        tally.differs.memory = true;
    }
    Ok(())
}

// The replies that a log says were used.
fn replies_of(alloc: Global, log: &[u32]) -> Result<Vec<u32>, AllocError> {
    log.chunks(2).filter_map(reply_in).collect(alloc)
}

fn reply_in(words: &[u32]) -> Option<u32> {
    let [first, value] = words else { return None };
    match Access::of_words(*first, *value) {
        Ok(Access::Read(_, reply)) => Some(reply),
        _ => None,
    }
}

// The run has the same words first. Of a call that is under way it may go on, by writes, and stores no more.
fn is_same(progress: Progress, ran: Progress, log: &[u32], run_log: &[u32]) -> bool {
    if !run_log.starts_with(log) {
        return false;
    }
    if qspi_operation::is_going(progress.status) {
        return progress.replies == ran.replies;
    }
    is_untouched(behind(run_log, log.len())) && Summary::from(progress) == Summary::from(ran)
}
