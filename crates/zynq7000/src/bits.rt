// One bit of a register word, by its number: bit 0 is the lowest. Crates above pass a number below
// 32; `proofs/BitLaws.antt` shows that setting and clearing leave every other bit as it was.
// The number has no type of its own: each is a constant of a register, by which words are shifted too,
// so that a type would be taken apart at every use.
ghost use Rattle.std.specs.Prelude.{◌≡◌, ◌*◌, ◌^◌, ◌≤◌, ◌<◌};
ghost use Rattle.zynq7000.specs.Bits as spec;

// Whether the bit is set.
pub fn is_set(word: u32, at: u32) -> bool
    requires { at < 32 }
    ensures bit { result ≡ spec.is_set at word }
{
    (word >> at) % 2 == 1
}

// The word with the bit set.
pub fn put(word: u32, at: u32) -> u32
    requires { at < 32 }
    ensures word { result ≡ spec.put at word }
{
    if is_set(word, at) {
        word
    } else {
        word + (1 << at)
    }
}

// The word with the bit clear.
pub fn clear(word: u32, at: u32) -> u32
    requires { at < 32 }
    ensures word { result ≡ spec.clear at word }
{
    if !is_set(word, at) {
        word
    } else {
        word - (1 << at)
    }
}

// A one-bit field's part of a word.
pub fn flag(on: bool, at: u32) -> u32
    requires { at < 32 }
    ensures part { (result ≡ spec.flag_value on * 2 ^ at) × (result ≤ 2 ^ at) }
{
    if on { 1 << at } else { 0 }
}
