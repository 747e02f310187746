// The replies of a prompt device to a call. Document 01, "The flash, as defined here": config reads as
// last written with bit 16 zero, and each TX word gives an RX word, here at start.
use crate::call::Call;
use crate::{call, memory};
use qspi_driver::state;
use std::array;
use trial_calls::memory::front;
use zynq7000::qspi;
use zynq7000::qspi::Access;

// Bits 10, 14 and 15 are set.
const CONFIG: u32 = 0x8008_C4C1;

// Starts the words that were written.
const START: u32 = 1 << 16;

// Every RX word. Its top byte is a status without errors and not busy.
const RECEIVED: u32 = 0x0000_00C3;

// Replies to one erase.
const ERASE: usize = 18;

// The TX words that were written since the last start, the RX words that wait, and the last reply.
#[derive(Drop)]
struct Device {
    config: u32,
    written: u32,
    waiting: u32,
    reply: u32,
}

// The replies that a call uses, from the first on, and some that it does not.
pub fn replies<const N: usize>(call: Call) -> [u32; N] {
    let mut replies = [0; N];
    // By places: each reply is found by those before it.
    for at in 0..N {
        replies[at] = reply(call, &replies[..=at]);
    }
    replies
}

// Those to erases one after the other: each leaves the device as it was.
pub fn erase_replies<const N: usize>() -> [u32; N] {
    let one: [u32; ERASE] = replies(Call::Erase { addr: 0 });
    array::from_fn(|at| one[at % ERASE])
}

// A word received whose top byte is this status register.
pub fn status_word(status: u8) -> u32 {
    u32::from(status) * 0x100_0000 + RECEIVED
}

// The last of these replies as it should be: the call is run on them, and its log says what was asked.
fn reply(call: Call, replies: &[u32]) -> u32 {
    let mut buffer = [0; memory::BUFFER];
    let mut log = [0; memory::LOG];
    let driven = call.run(call::at_rest(), &mut buffer, &mut log, replies);
    let used = state::answer_so_far(driven.driver.state).used;
    last_reply(front(&log, used))
}

// What the device answers to the last read of a log.
fn last_reply(log: &[u32]) -> u32 {
    let mut device = Device {
        config: CONFIG,
        written: 0,
        waiting: 0,
        reply: 0,
    };
    // By places: an `access_log::LogReader` is no iterator, which says why.
    for at in 0..access_log::accesses(log) {
        match access_log::entry_at(log, at) {
            Some(Ok(Access::Read(offset, _))) => device.read(offset),
            Some(Ok(Access::Write(offset, value))) => device.write(offset, value),
            _ => {}
        }
    }
    device.reply
}

impl Device {
    fn read(&mut self, offset: u8) {
        self.reply = match offset {
            qspi::CONFIG => self.config,
            qspi::INTERRUPT_STATUS => self.status(),
            _ => {
                self.waiting = self.waiting.saturating_sub(1);
                RECEIVED
            }
        };
    }

    // Bit 4 says that a word waits.
    fn status(&self) -> u32 {
        if 0 < self.waiting { 0x10 } else { 0 }
    }

    fn write(&mut self, offset: u8, value: u32) {
        match offset {
            qspi::CONFIG => self.configure(value),
            qspi::TX_DATA_00 | qspi::TX_DATA_01 | qspi::TX_DATA_10 | qspi::TX_DATA_11 => {
                self.written = self.written.wrapping_add(1)
            }
            _ => {}
        }
    }

    fn configure(&mut self, value: u32) {
        self.config = value & !START;
        if value & START != 0 {
            self.waiting = self.waiting.wrapping_add(self.written);
            self.written = 0;
        }
    }
}
