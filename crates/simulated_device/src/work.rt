// What a command does when chip select rises: the latch, and the work of a page program or a sector erase.
ghost use Rattle.std.specs.Prelude.{◌≡◌, ◌+◌, ◌-◌, ◌≤◌, length};
ghost use Rattle.simulated_device.specs.Simulated.{programming, erasing, asked_for, within, done_byte, done_from, latched, outcome, executed, raised};

use crate::{Chip, Device, Refused, no_words, reply, with_config};
use zedboard_bsp::qspi_spansion::{PAGE_SIZE, SECTOR_SIZE};

// What becomes of the bytes of a target: FF, or old AND new, the first of the new ones at a place in it.
#[derive(Clone, Copy)]
pub enum Effect {
    Erase,
    Program(usize),
}

// What a command asks for: its effect on a part of the array.
#[derive(Clone, Copy)]
pub struct Work {
    pub target: u32,
    pub size: usize,
    pub effect: Effect,
}

// A program stays in its page.
fn programming(address: u32) -> Work
    ensures work { result ≡ programming address }
{
    Work {
        target: address / PAGE_SIZE as u32 * PAGE_SIZE as u32,
        size: PAGE_SIZE,
        effect: Effect::Program((address % PAGE_SIZE as u32) as usize),
    }
}

fn erasing(address: u32) -> Work
    ensures work { result ≡ erasing address }
{
    Work {
        target: address / SECTOR_SIZE as u32 * SECTOR_SIZE as u32,
        size: SECTOR_SIZE,
        effect: Effect::Erase,
    }
}

// Page program and sector erase need the latch, and data or an address. `sent` is longer than the `bytes` of it
// that count, here and below, and no slice of them: a device may count more than it is lent.
fn asked_for(chip: Chip, bytes: usize, sent: &[u8]) -> Option<Work>
    ensures work { result ≡ asked_for chip bytes sent.now }
{
    if chip.busy != 0 || !chip.latch {
        return None;
    }
    match reply::sent_at(sent, 0) {
        reply::PAGE_PROGRAM if 4 < bytes => Some(programming(reply::address(sent))),
        reply::SECTOR_ERASE if 3 < bytes => Some(erasing(reply::address(sent))),
        _ => None,
    }
}

// Whether all of it lies in the part of the array that is lent.
fn within(w: Work, base: u32, room: usize) -> bool
    ensures within { result ≡ within w base room }
{
    base <= w.target && w.size <= room && (w.target - base) as usize <= room - w.size
}

// A byte of the target afterwards: old AND new, or FF.
fn done_byte(effect: Effect, old: u8, i: usize, bytes: usize, sent: &[u8]) -> u8
    ensures byte { result ≡ done_byte effect old i bytes sent.now }
{
    match effect {
        Effect::Erase => 0xFF,
        Effect::Program(from) => {
            let place = (i % PAGE_SIZE + PAGE_SIZE - from % PAGE_SIZE) % PAGE_SIZE + 4;
            if place < bytes {
                old & reply::sent_at(sent, place)
            } else {
                old
            }
        }
    }
}

// The work is done on the array, from a place on.
fn done(w: Work, at: usize, bytes: usize, sent: &[u8], array: &mut [u8])
    requires { at + w.size ≤ length array.old }
    ensures array { array.new ≡ done_from w.size 0 w.effect at bytes sent.now array.old }
{
    // By place, since a byte becomes what its place in the work says (`done_byte`).
    for i in 0..w.size {
        array[at + i] = done_byte(w.effect, array[at + i], i, bytes, sent);
    }
}

// Write enable sets the latch, write disable clears it; while the chip is busy neither is obeyed.
fn latched(chip: Chip, bytes: usize, sent: &[u8]) -> Chip
    ensures chip { result ≡ latched chip bytes sent.now }
{
    if chip.busy != 0 || bytes == 0 {
        return chip;
    }
    match reply::sent_at(sent, 0) {
        reply::WRITE_ENABLE => Chip {
            latch: true,
            ..chip
        },
        reply::WRITE_DISABLE => Chip {
            latch: false,
            ..chip
        },
        _ => chip,
    }
}

// The command takes effect. Work outside of the lent part of the array is refused.
fn execute(d: Device, value: u32, sent: &[u8], array: &mut [u8]) -> Result<Device, Refused>
    ensures written { result ≡ outcome (executed d value sent.now array.old).written }
    ensures array { array.new ≡ (executed d value sent.now array.old).array }
{
    let bytes = d.tx.bytes;
    let base = d.choices.base;
    let chip = match asked_for(d.chip, bytes, sent) {
        Some(w) => {
            if !within(w, base, array.len()) {
                return Err(Refused { device: d });
            }
            done(w, (w.target - base) as usize, bytes, sent, array);
            Chip {
                latch: false,
                busy: d.choices.busy_reads,
            }
        }
        None => latched(d.chip, bytes, sent),
    };
    Ok(with_config(d, value, no_words(), chip))
}

// Chip select rises. Over a word that is not out it is refused: the driver is to wait for each of them.
pub fn raise(d: Device, value: u32, sent: &[u8], array: &mut [u8]) -> Result<Device, Refused>
    ensures written { result ≡ outcome (raised d value sent.now array.old).written }
    ensures array { array.new ≡ (raised d value sent.now array.old).array }
{
    let tx = d.tx;
    if tx.out == tx.written {
        execute(d, value, sent, array)
    } else {
        Err(Refused { device: d })
    }
}
