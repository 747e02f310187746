// Digests: what a call left in its memory, as one number.
ghost use Rattle.std.specs.Prelude.{◌≡◌, ◌%◌, ◌^◌, ℕ, map};
ghost use Rattle.trial_calls.specs.Digests.{mixed, digest_of};

// What a digest is made of.
pub trait Word: Copy {
    ghost value: { Self → ℕ };

    fn word(self) -> u32
        ensures word { result ≡ value self };
}

impl Word for u32 {
    ghost value = { λ x. x };

    fn word(self) -> u32 {
        self
    }
}

impl Word for u8 {
    ghost value = { λ x. x };

    fn word(self) -> u32 {
        self as u32
    }
}

// One word more in a digest.
pub fn mix(digest: u32, word: u32) -> u32
    ensures digest { result ≡ mixed digest word }
{
    digest.wrapping_mul(65599).wrapping_add(word)
}

// A count by its low 32 bits.
pub fn low_word(count: usize) -> u32
    ensures low { result ≡ count % 2 ^ 32 }
{
    (count % 0x1_0000_0000) as u32
}

pub fn digest<W: Word>(words: &[W]) -> u32
    ensures digest { result ≡ digest_of (map W.value words.now) }
{
    words
        .iter()
        .fold(1, |digest, word| mix(digest, word.word()))
}
