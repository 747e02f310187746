// The memory that a call is lent: what it holds beforehand, and whether it still does.
use crate::random;
use trial_calls::draw::Draw;
use trial_calls::memory::UNTOUCHED;

// Words of log, and bytes of data or buffer: more than any step is lent.
pub const LOG: usize = 2048;

pub const BYTES: usize = 544;

// Lent where it is a variable: slices of both arrays at once were tried behind a reference, and not proved.
pub type Memory = trial_calls::memory::Memory<BYTES, LOG>;

// What is lent to be programmed: bytes at random.
pub fn drawn(draw: Draw) -> [u8; BYTES] {
    let mut data = [0; BYTES];
    let mut draw = draw;
    for byte in data.iter_mut() {
        draw = draw.next();
        *byte = random::byte(draw);
    }
    data
}

// Those behind that many, where all may be fewer.
pub fn behind<T>(all: &[T], len: usize) -> &[T] {
    let len = len.min(all.len());
    &all[len..]
}

pub fn behind_mut<T>(all: &mut [T], len: usize) -> &mut [T] {
    let len = len.min(all.len());
    &mut all[len..]
}

// Whether words are what they were beforehand.
pub fn is_untouched(words: &[u32]) -> bool {
    words.iter().all(|word| *word == UNTOUCHED)
}
