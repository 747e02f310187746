// The list of an order: sectors each far from the one before, none twice, of which up to two entries are
// spoiled then.
use std::alloc::{AllocError, Global};

// Any, one near the greatest, one sector or none, or a few.
pub fn length(pick: usize, n: usize) -> usize {
    match pick {
        0 => n % 264,
        1 => 254 + n % 5,
        2 => n % 2,
        3 | 4 => n % 24,
        _ => n % 6,
    }
}

// So many entries by a word at random.
pub fn drawn(alloc: Global, word: u32, length: usize) -> Result<Vec<u32>, AllocError> {
    let n = word as usize;
    let mut list: Vec<u32> = (0..length).map(|i| sector(n, i)).collect(alloc)?;
    spoil(&mut list, n / 1020);
    Ok(list)
}

// All 255 are met before one comes again.
fn sector(n: usize, i: usize) -> u32 {
    ((n % 255 + distance(n, i) % 255) % 255 * 0x1_0000) as u32
}

// From the first sector on. No step has a divisor in common with 255; the last one goes back by one sector.
fn distance(n: usize, i: usize) -> usize {
    let step = match n / 255 % 4 {
        0 => 7,
        1 => 37,
        2 => 101,
        _ => 254,
    };
    i % 255 * step
}

// By the digits of a draw: a sector named again, out of range, not aligned, or two of these.
fn spoil(list: &mut [u32], n: usize) {
    if list.is_empty() {
        return;
    }
    let one = n / 8 % list.len();
    let other = n / 2112 % list.len();
    match n % 8 {
        3 => list[one] = out_of_range(n),
        4 => list[one] = unaligned(n),
        5 => list[one] = list[other],
        6 => {
            list[one] = list[other];
            list[other] = unaligned(n);
        }
        7 => {
            list[one] = unaligned(n);
            list[other] = out_of_range(n);
        }
        _ => {}
    }
}

fn out_of_range(n: usize) -> u32 {
    0xFF_0000 + (n / 8 % 2 * 4) as u32
}

fn unaligned(n: usize) -> u32 {
    1 + (n / 8 % 0xFFFF) as u32
}
