// The turns of an order: right steps, and between them steps and starts that must change nothing.
use crate::memory::{BYTES, LOG, Memory};
use crate::order::Order;
use crate::tally::Tally;
use crate::turn::{Act, Turn};
use crate::{lengths, random};
use qspi_driver::QspiSpansionS25Fl256SIoMode;
use qspi_driver::state::{Progress, StartRefused};
use qspi_script::Status;
use std::alloc::{AllocError, Global};
use trial_calls::call::Call;
use trial_calls::memory::front;

// How an order was left, under way or ended, and its memory then.
#[derive(Drop)]
pub struct Left {
    pub progress: Progress,
    pub memory: Memory,
}

// An order over this data. A right step is lent the fronts of its memory.
pub fn walk(
    alloc: Global,
    order: &Order,
    data: &[u8],
    tally: &mut Tally,
) -> Result<Left, AllocError> {
    let mut memory = Memory::untouched();
    let mut driver = QspiSpansionS25Fl256SIoMode::idle();
    let idle = driver.answer();
    let answer = begin(alloc, order, &mut driver, tally)?;
    let mut turn = turned(
        Turn::first(order, idle),
        order,
        answer,
        &driver,
        data,
        &memory.log,
        tally,
    );
    // No `for`: a turn may cut down how many are left.
    let mut turns = order.turns;
    while 0 < turns {
        turns = turn.spared().min(turns - 1);
        let answer = match turn.act {
            Act::Step => {
                let log = &mut memory.log[..order.lent.log.min(LOG)];
                driver.step(
                    front(data, order.lent.data),
                    &mut memory.buffer[..order.lent.buffer.min(BYTES)],
                    log,
                    turn.reply(),
                )
            }
            Act::Aside => aside(turn, order, &mut driver, data, tally),
            Act::Begin => begin_other(alloc, &Order::any(turn.draw), &mut driver)?,
            Act::Missing => {
                let list = Order::drawn(Call::EraseSectors, turn.draw);
                driver.start(list.start(alloc)?)
            }
        };
        turn = turned(turn, order, answer, &driver, data, &memory.log, tally);
    }
    Ok(Left {
        progress: driver.answer(),
        memory,
    })
}

// The call is begun where none is under way; one of a list first without it. Order and driver stay apart: the
// one is only read, and the other is stepped while it is.
fn begin(
    alloc: Global,
    order: &Order,
    driver: &mut QspiSpansionS25Fl256SIoMode,
    tally: &mut Tally,
) -> Result<Result<Status, StartRefused>, AllocError> {
    let answer = driver.start(order.start(alloc)?);
    if order.call != Call::EraseSectors {
        return Ok(answer);
    }
    tally.missed(answer);
    begin_list(alloc, order, driver)
}

// The list is given up at once: no step is lent it again.
fn begin_list(
    alloc: Global,
    order: &Order,
    driver: &mut QspiSpansionS25Fl256SIoMode,
) -> Result<Result<Status, StartRefused>, AllocError> {
    Ok(driver.erase_sectors(&order.list(alloc)?, order.lent.log))
}

// The start of another call; of a list with it or without.
fn begin_other(
    alloc: Global,
    order: &Order,
    driver: &mut QspiSpansionS25Fl256SIoMode,
) -> Result<Result<Status, StartRefused>, AllocError> {
    if order.call == Call::EraseSectors && random::is_heads(order.draw) {
        begin_list(alloc, order, driver)
    } else {
        Ok(driver.start(order.start(alloc)?))
    }
}

// What the driver says after a turn. It is asked for the access that is due with another length of data too.
fn turned(
    turn: Turn,
    order: &Order,
    answer: Result<Status, StartRefused>,
    driver: &QspiSpansionS25Fl256SIoMode,
    data: &[u8],
    log: &[u32],
    tally: &mut Tally,
) -> Turn {
    let length = order.lent.data;
    let other = lengths::other(length, random::number(turn.draw) / 128);
    let due = driver.due(front(data, length));
    let due_otherwise = driver.due(front(data, other));
    let after = turn.next(order, driver.answer(), due);
    tally.turn(turn, answer, after, due_otherwise, log);
    after
}

// A step that is lent memory of its own, which is left alone.
fn aside(
    turn: Turn,
    order: &Order,
    driver: &mut QspiSpansionS25Fl256SIoMode,
    data: &[u8],
    tally: &mut Tally,
) -> Result<Status, StartRefused> {
    let mut memory = Memory::untouched();
    let lent = lengths::others(order.lent, turn.draw);
    let log = &mut memory.log[..lent.log.min(LOG)];
    let answer = driver.step(
        front(data, lent.data),
        &mut memory.buffer[..lent.buffer.min(BYTES)],
        log,
        turn.reply(),
    );
    if memory != Memory::untouched() {
        tally.differs.memory = true;
    }
    answer
}
