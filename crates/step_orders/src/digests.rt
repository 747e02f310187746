// What stands in a digest for what was seen: the numbers that the model of `tools/step_orders` has for it.
use qspi_driver::state::StartRefused;
use qspi_operation::LentLengthChanged;
use qspi_script::Status;
use qspi_transfer::Due;
use trial_calls::digest::{low_word, mix};
use zynq7000::qspi::{Access, LogWords};

// A number by its low 32 bits.
pub fn with_number(digest: u32, n: usize) -> u32 {
    mix(digest, low_word(n))
}

// Numbers of answers from 32 on are moved behind what is no answer.
pub fn of_status(status: Status) -> u32 {
    match status.number() {
        None => 32,
        Some(number) if number < 32 => number,
        Some(number) => number.wrapping_add(16),
    }
}

pub fn of_answer(answer: Result<Status, StartRefused>) -> u32 {
    match answer {
        Ok(status) => of_status(status),
        Err(StartRefused::Busy) => 33,
        Err(StartRefused::ListMissing) => 43,
    }
}

// The log words of the access that is due.
pub fn of_due(due: Option<Access>) -> LogWords {
    match due {
        Some(access) => access.words(),
        None => LogWords {
            first: 0x200,
            value: 0,
        },
    }
}

// The first log word of what a query is told.
pub fn of_query(due: Result<Option<Due>, LentLengthChanged>) -> u32 {
    match due {
        Ok(due) => of_due(due.map(with_no_value)).first,
        Err(LentLengthChanged) => 0x300,
    }
}

fn with_no_value(due: Due) -> Access {
    match due {
        Due::Read(offset) => Access::Read(offset, 0),
        Due::Write(offset, _) => Access::Write(offset, 0),
    }
}
