// The memory that a call is lent: its sizes, what it is lent to program, and how far it was changed.
use std::array;

// Words of log and bytes of buffer, enough for every case.
pub const LOG: usize = 512;

pub const BUFFER: usize = 16;

// A word in the place of another.
pub fn set(words: &mut [u32], at: usize, word: u32) {
    if let Some(old) = words.get_mut(at) {
        *old = word;
    }
}

// All 255 sectors that are accepted, each far from the one before, and the first two again.
pub fn scattered() -> [u32; 257] {
    array::from_fn(|i| (i % 255 * 37 % 255 * 0x1_0000) as u32)
}

// What is lent to be programmed.
pub fn data() -> [u8; 256] {
    array::from_fn(|i| [0xDE, 0xAD, 0xBE, 0xEF][i % 4])
}

// The place of the last word or byte that was changed.
pub fn last_changed<T: Copy + PartialEq>(memory: &[T], untouched: T) -> Option<usize> {
    memory.iter().rposition(|item| *item != untouched)
}
