// The bytes of a reply go to their places in the lent buffer. Document 01: "The reply to the command
// word is dropped; with a dummy, the first byte of the next reply is dropped too."
ghost use Rattle.std.specs.Prelude.{◌≡◌, ◌+◌, ◌<◌};
ghost use Rattle.qspi_operation.specs.Store.{store_byte, store_reply, is_taking, is_reading, skipped, stored};

use crate::Op;
use qspi_script::{Place, Stage};
use qspi_transfer::Phase;

// One byte, by its place among the bytes after the first reply; the dummy byte and bytes past the
// chunk are dropped.
fn store_byte(buffer: &mut [u8], place: Place, dummy: u32, at: u32, byte: u8)
    ensures stored { buffer.new ≡ store_byte buffer.old place dummy at byte }
{
    if dummy <= at && at - dummy < place.chunk as u32 {
        let i = place.done.wrapping_add((at - dummy) as usize);
        if i < buffer.len() {
            buffer[i] = byte;
        }
    }
}

// The four bytes of a reply, low byte first.
fn store_reply(buffer: &mut [u8], place: Place, dummy: u32, at: u32, reply: u32)
    requires { at + 3 < 4294967296 }
    ensures stored { buffer.new ≡ store_reply buffer.old place dummy at reply }
{
    let [a, b, c, d] = reply.to_le_bytes();
    store_byte(buffer, place, dummy, at, a);
    store_byte(buffer, place, dummy, at + 1, b);
    store_byte(buffer, place, dummy, at + 2, c);
    store_byte(buffer, place, dummy, at + 3, d);
}

fn is_taking(phase: Phase) -> bool
    ensures taking { result ≡ is_taking phase }
{
    phase == Phase::Take
}

fn is_reading(stage: Stage) -> bool
    ensures reading { result ≡ is_reading stage }
{
    stage == Stage::Read
}

// How many bytes of the reply after the first are dropped.
fn dummy_bytes(dummy: bool) -> u32
    ensures count { result ≡ skipped dummy }
{
    dummy as u32
}

// What an access of a value does to the lent buffer: only a read's reply is stored.
pub fn store(buffer: &mut [u8], op: &Op, value: u32)
    ensures stored { buffer.new ≡ stored op.now.job op.now.place op.now.wire value buffer.old }
{
    let index = op.wire.read_index;
    if is_taking(op.wire.phase) && is_reading(op.place.stage) && 4 <= index {
        let dummy = dummy_bytes(op.job.reading.dummy);
        store_reply(buffer, op.place, dummy, index - 4, value);
    }
}
