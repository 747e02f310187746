// What is drawn for an order: its call's inputs and the lengths that it is lent, how its replies come and after
// how many they end, after how many turns it is left, and in how many turns two are no right step.
use crate::list;
use crate::random::{below, number};
use qspi_operation::Op;
use qspi_script::Lent;
use std::alloc::{AllocError, Global};
use trial_calls::call::{CALLS, Call};
use trial_calls::draw::Draw;
use trial_calls::reply::{STYLES, Style};

// More turns than any call takes.
pub const TURNS: usize = 4096;

#[derive(Clone, Copy)]
pub struct Order {
    pub call: Call,
    // The first input, and the second one: a length, or a number that is short.
    pub word: u32,
    pub length: usize,
    pub lent: Lent,
    pub style: Style,
    pub replies: usize,
    pub turns: usize,
    pub calm: usize,
    pub draw: Draw,
}

impl Order {
    pub fn drawn(call: Call, draw: Draw) -> Order {
        let picked = draw.next().next();
        let first = picked.next();
        let second = first.next();
        let room = second.next();
        let replies = room.next();
        let turns = replies.next();
        let pick = number(picked);
        let length = second_input(call, pick / 8 % 8, number(second));
        Order {
            call,
            word: first_input(call, pick % 8, first.word()),
            length,
            lent: lent(call, length, size(number(room), 40, 1500, 2000)),
            style: STYLES[pick / 64 % STYLES.len()],
            replies: size(number(replies), 16, 400, 1024),
            turns: size(number(turns), 16, 600, TURNS),
            calm: calm(pick / 512 % 3),
            draw: turns,
        }
    }

    // Of any call, to be begun while another is under way.
    pub fn any(draw: Draw) -> Order {
        Order::drawn(CALLS[number(draw) / 128 % CALLS.len()], draw)
    }

    pub fn start(&self, alloc: Global) -> Result<Op, AllocError> {
        let list = self.list(alloc)?;
        Ok(
            self.call
                .start(self.word, self.length, &list, self.lent.log),
        )
    }

    // The sectors of a list: no other call is lent one.
    pub fn list(&self, alloc: Global) -> Result<Vec<u32>, AllocError> {
        if self.call == Call::EraseSectors {
            list::drawn(alloc, self.word, self.length)
        } else {
            Ok(Vec::new(alloc))
        }
    }
}

// Two calls are lent data, the reads a buffer.
fn lent(call: Call, length: usize, log: usize) -> Lent {
    let none = Lent {
        data: 0,
        buffer: 0,
        log,
    };
    match call {
        Call::Program | Call::WritePages => Lent {
            data: length,
            ..none
        },
        Call::ReadPageRead | Call::ReadFastRead | Call::ReadFastReadDummy => Lent {
            buffer: length,
            ..none
        },
        _ => none,
    }
}

// The first input: a field that may be too wide, an address, a flag, or a word, of which a byte may be used.
fn first_input(call: Call, pick: usize, word: u32) -> u32 {
    match call {
        Call::Initialize | Call::New | Call::SetWriteProtection => field(pick, word),
        Call::EraseSector
        | Call::Program
        | Call::WritePages
        | Call::ReadPageRead
        | Call::ReadFastRead
        | Call::ReadFastReadDummy => address(pick, word),
        Call::EnableIoMode => word % 2,
        _ => word,
    }
}

fn field(pick: usize, word: u32) -> u32 {
    match pick {
        0..=3 => word % 4,
        4 => word % 9,
        5 | 6 => word % 65,
        _ => word % 0x100,
    }
}

// Any, one near the end of the flash or of the 32 bits, any within the flash, a quarter page's, or a sector's.
fn address(pick: usize, word: u32) -> u32 {
    match pick {
        0 => word,
        1 => 0xFF_FE00 + word % 0x200,
        2 => 0xFFFF_FE00 + word % 0x200,
        3 => word % 0x100_0000,
        4 | 5 => word % 0x4_0000 * 0x40,
        _ => word % 0x100 * 0x1_0000,
    }
}

// The second input: the entries of a list, a length, or a number by call.
fn second_input(call: Call, pick: usize, n: usize) -> usize {
    let a_few_words = n % 16 * 4;
    match call {
        Call::EraseSectors => list::length(pick, n),
        // Nine baud rates in four modes.
        Call::Initialize => length(pick, n, a_few_words) % 36,
        // Whole chunks.
        Call::WritePages => length(pick, n, n % 4 * 128 + 128),
        _ => length(pick, n, a_few_words),
    }
}

// Any, one near the greatest of `program` and of a read's chunk, one near two chunks of a read, one of whole
// words, a short one, or the one that is usual.
fn length(pick: usize, n: usize, usual: usize) -> usize {
    match pick {
        0 => n % 0x201,
        1 => 236 + n % 16,
        2 => 488 + n % 25,
        3 | 4 => n % 0x81 * 4,
        5 => n % 12,
        _ => usual,
    }
}

// Few, some, or enough.
fn size(n: usize, few: usize, some: usize, enough: usize) -> usize {
    match n % 8 {
        0 => below(n / 8, few),
        1 | 2 => below(n / 8, some),
        _ => enough,
    }
}

fn calm(n: usize) -> usize {
    match n {
        0 => 6,
        1 => 24,
        _ => 96,
    }
}
