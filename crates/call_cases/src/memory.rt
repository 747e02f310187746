// The memory that a call is lent, and what it holds beforehand.
ghost use Rattle.std.specs.Prelude.{◌≤◌};

use crate::record::Trial;
use qspi_operation::Op;
use trial_calls::digest::{digest, low_word, mix};
use trial_calls::memory::front;

// Words of log, enough for every case.
pub const LOG: usize = 4096;

// Bytes of data, and of the buffer.
pub const BYTES: usize = 512;

pub type Memory = trial_calls::memory::Memory<BYTES, LOG>;

// Document 01's four bytes to program, and others.
pub fn data() -> [u8; BYTES] {
    let mut data = [0u8; BYTES];
    for (byte, place) in data.iter_mut().zip(0..u16::MAX) {
        *byte = programmed(place);
    }
    data
}

fn programmed(place: u16) -> u8 {
    match place {
        0 => 0xDE,
        1 => 0xAD,
        2 => 0xBE,
        3 => 0xEF,
        _ => ((place % 0x100 * 7 + 3) % 0x100) as u8,
    }
}

// The call on a list of replies, with so much room in its log, of which so many words count: the answer, the
// used counts and the memory as one number.
pub fn run(trial: Trial, words: usize, room: usize, replies: &[u32]) -> u32 {
    let data = data();
    let mut memory = Memory::untouched();
    let log = &mut memory.log[..room.min(LOG)];
    let ended = qspi_operation::run(
        trial.start(log.len()),
        &data[..trial.data_len()],
        &mut memory.buffer[..trial.buffer_len()],
        log,
        replies,
    );
    summary(ended.op, front(&memory.log, words), &memory.buffer)
}

fn summary(op: Op, log: &[u32], buffer: &[u8]) -> u32 {
    [
        op.status as u32,
        low_word(op.used),
        low_word(op.replies),
        digest(log),
        digest(buffer),
    ]
    .into_iter()
    .fold(1, mix)
}
