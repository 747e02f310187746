// The words of a log of little-endian bytes.
ghost use Rattle.std.specs.Prelude.{◌≡◌, ℕ, ◌+◌, ◌*◌, ◌/◌, ◌%◌, ◌<◌, ◌≤◌, length, take, slice_index};
ghost use Rattle.io.specs.Counts.{IsPrefixLen};
ghost use Rattle.access_log.specs.Log.{entry_at, entry_in, word_at};

// The records of a buffer, and their words.
pub const RECORDS: usize = 512;

pub const WORDS: usize = 1024;

// Puts the words of at most 512 records at the front of `words`, and returns how many there are: were they
// lent as the result, no clause could say that they stand there.
pub fn words_in(bytes: &[u8], words: &mut [u32; WORDS]) -> usize
    ensures counts { IsPrefixLen result words.new }
    ensures same { (at : ℕ) → at < 512 → entry_at (take result words.new) at ≡ entry_in bytes.now at }
{
    let count = word_count(bytes.len());
    put_words(words, bytes, count / 2 * 2);
    count
}

// How many words stand for so many bytes, of 512 records at most. A tail of 1 to 7 bytes is one word,
// so that a short record stays short.
fn word_count(bytes: usize) -> usize
    ensures within { (result ≤ 1024) × (result / 2 * 8 ≤ bytes) }
    ensures full { 512 ≤ bytes / 8 → result ≡ 1024 }
    ensures part { bytes / 8 < 512 → result ≡ bytes / 8 * 2 + (bytes % 8 + 7) / 8 }
{
    let whole = bytes / 8;
    if whole >= RECORDS {
        return WORDS;
    }
    whole * 2 + (bytes % 8).div_ceil(8)
}

// Puts the first words of a log of bytes at the front of `words`.
fn put_words(words: &mut [u32], bytes: &[u8], count: usize)
    requires { (count ≤ length words.old) × (count * 4 ≤ length bytes.now) }
    ensures words { (i : ℕ) → i < count → slice_index words.new i ≡ word_at bytes.now (i * 4) }
{
    // By place: the clause gives the word at each place, which a zip with chunks would have to be told back to.
    for i in 0..count {
        words[i] = word(bytes, i * 4);
    }
}

// The word that starts at a byte, low byte first.
fn word(bytes: &[u8], at: usize) -> u32
    requires { at + 4 ≤ length bytes.now }
    ensures word { result ≡ word_at bytes.now at }
{
    u32::from_le_bytes([bytes[at], bytes[at + 1], bytes[at + 2], bytes[at + 3]])
}
