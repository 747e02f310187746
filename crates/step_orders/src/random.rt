// What a draw decides.
use trial_calls::draw::Draw;

// A number to count or to measure with.
pub fn number(draw: Draw) -> usize {
    draw.word() as usize
}

pub fn byte(draw: Draw) -> u8 {
    (draw.word() % 0x100) as u8
}

// A toss of a coin.
pub fn is_heads(draw: Draw) -> bool {
    draw.0 / 0x100_0000 % 2 == 1
}

// 0 where nothing is below the bound.
pub fn below(n: usize, bound: usize) -> usize {
    if 0 < bound { n % bound } else { 0 }
}
