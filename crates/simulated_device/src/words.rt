// Words to the flash: how they are written, released by start, and go out.
ghost use Rattle.std.specs.Prelude.{◌≡◌, true, ◌+◌, ◌≤◌, length, take};
ghost use Rattle.std.proofs.lemmas.List.Edits.{sets};
ghost use Rattle.zedboard_bsp.specs.Words.{bytes_of};
ghost use Rattle.simulated_device.specs.Simulated.{sim_of, shown, can_go, word_out, waited, passed, width_at, outcome, sending, started};

use crate::{Chip, Device, Refused, Rx, Tx, is_high, reply, with_tx};
use zedboard_bsp::qspi_spansion::words::bytes_of;
use zynq7000::qspi::Config;
use zynq7000::{bits, qspi};

// ---- words go out

// A status read that showed busy counts: after the last of them the work is done.
fn shown(chip: Chip, command: u8) -> Chip
    ensures chip { result ≡ shown chip command }
{
    if command == reply::READ_STATUS {
        Chip {
            busy: chip.busy.saturating_sub(1),
            ..chip
        }
    } else {
        chip
    }
}

// Whether a word can go out: start released it, and there is room for its reply.
fn can_go(tx: Tx, rx: Rx, room: usize) -> bool
    ensures can { result ≡ can_go tx rx room }
{
    tx.out < tx.released && rx.put < room
}

// The next word goes out, and its reply waits.
fn word_out(d: Device, sent: &[u8], received: &mut [u32], array: &[u8]) -> Device
    requires { can_go d.tx d.rx (length received.old) ≡ true }
    ensures device { result ≡ (word_out (sim_of d sent.now received.old array.now)).device }
    ensures received { received.new ≡ (word_out (sim_of d sent.now received.old array.now)).received }
{
    let tx = d.tx;
    let rx = d.rx;
    received[rx.put] = reply::reply(d.chip, d.choices.base, sent, array, tx.out);
    Device {
        tx: Tx {
            out: tx.out + 1,
            pause: d.choices.gap,
            ..tx
        },
        rx: Rx {
            put: rx.put + 1,
            ..rx
        },
        chip: shown(d.chip, reply::sent_at(sent, 0)),
        ..d
    }
}

fn waited(tx: Tx) -> Tx
    ensures tx { result ≡ waited tx }
{
    Tx {
        pause: tx.pause.saturating_sub(1),
        ..tx
    }
}

// What happens between two accesses: a word goes out, where it is time.
pub fn pass(d: Device, sent: &[u8], received: &mut [u32], array: &[u8]) -> Device
    ensures device { result ≡ (passed (sim_of d sent.now received.old array.now)).device }
    ensures received { received.new ≡ (passed (sim_of d sent.now received.old array.now)).received }
{
    if d.tx.pause == 0 && can_go(d.tx, d.rx, received.len()) {
        return word_out(d, sent, received, array);
    }
    with_tx(d, waited(d.tx))
}

// ---- words are written

// The bytes of a TX word at an offset. 0 where it is none, and no `None`: `send` counts that many of any offset.
pub fn width(offset: u8) -> usize
    ensures width { result ≡ width_at offset }
{
    match offset {
        qspi::TX_DATA_00 => 4,
        qspi::TX_DATA_01 => 1,
        qspi::TX_DATA_10 => 2,
        qspi::TX_DATA_11 => 3,
        _ => 0,
    }
}

// The lowest bytes of a word, low byte first.
fn put_word(sent: &mut [u8], at: usize, word: u32, width: usize)
    requires room { at + 4 ≤ length sent.old }
    requires narrow { width ≤ 4 }
    ensures bytes { sent.new ≡ sets sent.old at (take width (bytes_of word)) }
{
    sent[at..at + width].copy_from_slice(&bytes_of(word)[..width]);
}

// A TX word is written. While chip select is high, or where there is no room, it is not taken.
pub fn send(d: Device, offset: u8, value: u32, sent: &mut [u8]) -> Result<Device, Refused>
    ensures written { result ≡ outcome (sending d offset value sent.old).written }
    ensures sent { sent.new ≡ (sending d offset value sent.old).sent }
{
    let tx = d.tx;
    if is_high(d.config) || sent.len() < 4 || sent.len() - 4 < tx.bytes || tx.bytes < tx.written {
        return Err(Refused { device: d });
    }
    let width = width(offset);
    put_word(sent, tx.bytes, value, width);
    let tx = Tx {
        bytes: tx.bytes + width,
        written: tx.written + 1,
        ..tx
    };
    Ok(with_tx(d, tx))
}

// Start releases the words that wait for it.
pub fn started(tx: Tx, value: u32) -> Tx
    ensures tx { result ≡ started tx value }
{
    if bits::is_set(value, Config::MANUAL_START_COMMAND) {
        Tx {
            released: tx.written,
            ..tx
        }
    } else {
        tx
    }
}
