// The memory that a call is lent in a trial, and what it holds beforehand.
ghost use Rattle.std.specs.Prelude.{◌≡◌, replicate, take};

// A word or a byte that a call leaves alone is seen by it: no access and no reply has these.
pub const UNTOUCHED: u32 = 0xA5A5_5A5A;

pub const UNTOUCHED_BYTE: u8 = 0x5A;

// So many bytes of data or buffer, and words of log.
#[derive(PartialEq, Eq, Drop)]
pub struct Memory<const BYTES: usize, const LOG: usize> {
    pub buffer: [u8; BYTES],
    pub log: [u32; LOG],
}

impl<const BYTES: usize, const LOG: usize> Memory<BYTES, LOG> {
    pub fn untouched() -> Memory<BYTES, LOG>
        ensures buffer { result.buffer ≡ replicate BYTES 0x5A }
        ensures log { result.log ≡ replicate LOG 0xA5A5_5A5A }
    {
        Memory {
            buffer: [UNTOUCHED_BYTE; BYTES],
            log: [UNTOUCHED; LOG],
        }
    }
}

// As many from the front as asked for, or all.
pub fn front<T>(all: &[T], len: usize) -> &[T]
    ensures front { result.now ≡ take len all.now }
{
    all.get(..len).unwrap_or(all)
}
