// The numbers and the bytes that words say. They are read by the digit, and not by `str::parse` and
// `from_str_radix`: a sign is refused, a bad digit and a great number have refusals of their own, the bad digit
// first, and the words are bytes that need not be text.
ghost use Rattle.std.specs.Prelude.{◌≤◌, IfOk};

use crate::fault::Problem;
use crate::words::Words;

// A decimal number, up to the greatest that there may be.
pub fn at_most(word: &[u8], most: u32) -> Result<u32, Problem>
    ensures { IfOk result (λ n. n ≤ most) }
{
    let mut value: u64 = 0;
    for byte in word {
        let digit = char::from(*byte).to_digit(10).ok_or(Problem::NotDecimal)?;
        value = value.saturating_mul(10).saturating_add(u64::from(digit));
    }
    if value <= u64::from(most) {
        Ok(value as u32)
    } else {
        Err(Problem::TooLarge(most))
    }
}

// A decimal number of 32 bits.
pub fn number(word: &[u8]) -> Result<u32, Problem> {
    at_most(word, u32::MAX)
}

// An address has eight hex digits at most.
pub fn address(word: &[u8]) -> Result<u32, Problem> {
    if word.len() <= 8 {
        hex(word)
    } else {
        Err(Problem::LongAddress)
    }
}

fn hex(digits: &[u8]) -> Result<u32, Problem> {
    let mut value = 0;
    for byte in digits {
        let digit = char::from(*byte).to_digit(16).ok_or(Problem::NotHex)?;
        value = value << 4 | digit;
    }
    Ok(value)
}

// Appends the bytes that words of pairs of hex digits say.
pub fn push_bytes(bytes: &mut Vec<u8>, words: Words<'_>) -> Result<(), Problem> {
    for word in words {
        push_pairs(bytes, word)?;
    }
    Ok(())
}

fn push_pairs(bytes: &mut Vec<u8>, word: &[u8]) -> Result<(), Problem> {
    if !word.iter().all(|byte| byte.is_ascii_hexdigit()) {
        return Err(Problem::NotHex);
    }
    if word.len() % 2 != 0 {
        return Err(Problem::OddDigits);
    }
    for pair in word.chunks_exact(2) {
        let value = hex(pair)?;
        bytes.push((value & 0xFF) as u8)?;
    }
    Ok(())
}
