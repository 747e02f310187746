// The lengths that a call is lent, and others, of which one at least is not the same.
use crate::random;
use qspi_script::Lent;
use trial_calls::draw::Draw;

// By the digits of a draw: which of the three are others, how each is chosen, and how far it is.
pub fn others(lent: Lent, draw: Draw) -> Lent {
    let n = random::number(draw) / 128;
    let which = 1 + n % 7;
    Lent {
        data: either(which % 2 == 1, lent.data, n / 7),
        buffer: either(which / 2 % 2 == 1, lent.buffer, n / 35),
        log: either(which / 4 == 1, lent.log, n / 175),
    }
}

fn either(is_other: bool, length: usize, n: usize) -> usize {
    if is_other { other(length, n) } else { length }
}

// None, one less, one more, or any shorter or longer one.
pub fn other(length: usize, n: usize) -> usize {
    if length == 0 {
        return 1 + n / 5 % 8;
    }
    match n % 5 {
        0 => 0,
        1 => length - 1,
        2 => length.wrapping_add(1),
        3 => n / 5 % length,
        _ => length.wrapping_add(2 + n / 5 % 7),
    }
}
