// A controller with the flash behind it, to run the driver against on any machine: one device of those
// that document 01, "The flash, as defined here", allows. Its memory is lent: the bytes sent since chip
// select fell, the RX words, and a part of the array, outside of which every byte is FF. `Tx` and `Rx` count
// what is used of it, in place of a `Vec`, so that `read` and `write` cannot run out of memory. Each function is lent only
// the parts that it uses, by `&` where it leaves them alone, and not all three in one struct.
#![tactic(auto)]

ghost use Rattle.std.specs.Prelude.{◌≡◌, ◌<◌};
ghost use Rattle.power_cut.specs.Controller.{high};
ghost use Rattle.simulated_device.specs.Simulated.{no_words, nothing_received, at_rest, with_tx, with_rx, with_config, sim_of, passed, after_take, taken_from, interrupt_status, answered, read_of, outcome, configured, write_of};

use crate::work::raise;
use zynq7000::qspi::Config;
use zynq7000::{bits, qspi};

pub mod reply;
pub mod row;
pub mod run;
pub mod words;
pub mod work;

// The device's choices: how many status reads show the work of a program or an erase, and how many
// accesses lie between two words that go out. The array from an address on is lent.
#[derive(Clone, Copy)]
pub struct Choices {
    pub busy_reads: u32,
    pub gap: u32,
    pub base: u32,
}

// The bytes written since chip select fell, the words that they came in, how many of these start
// released, how many are out, and the accesses until the next one goes out.
#[derive(Clone, Copy)]
pub struct Tx {
    pub bytes: usize,
    pub written: usize,
    pub released: usize,
    pub out: usize,
    pub pause: u32,
}

// The RX words that were put into the lent memory, and those of them that were read.
#[derive(Clone, Copy)]
pub struct Rx {
    pub put: usize,
    pub taken: usize,
}

// The write enable latch, and how many status reads still show that work goes on.
#[derive(Clone, Copy)]
pub struct Chip {
    pub latch: bool,
    pub busy: u32,
}

#[derive(Clone, Copy)]
pub struct Device {
    pub config: u32,
    pub tx: Tx,
    pub rx: Rx,
    pub chip: Chip,
    pub choices: Choices,
}

// Bits 10, 14 and 15 are set, as in document 01's example.
const CONFIG_AT_REST: u32 = 0x8008_C4C1;

pub fn no_words() -> Tx
    ensures tx { result ≡ no_words }
{
    Tx {
        bytes: 0,
        written: 0,
        released: 0,
        out: 0,
        pause: 0,
    }
}

fn nothing_received() -> Rx
    ensures rx { result ≡ nothing_received }
{
    Rx { put: 0, taken: 0 }
}

// The device at the start of a run.
pub fn at_rest(choices: Choices) -> Device
    ensures device { result ≡ at_rest choices }
{
    Device {
        config: CONFIG_AT_REST,
        tx: no_words(),
        rx: nothing_received(),
        chip: Chip {
            latch: false,
            busy: 0,
        },
        choices,
    }
}

pub fn with_tx(d: Device, words: Tx) -> Device
    ensures device { result ≡ with_tx d words }
{
    Device { tx: words, ..d }
}

fn with_rx(d: Device, rx: Rx) -> Device
    ensures device { result ≡ with_rx d rx }
{
    Device { rx, ..d }
}

// ---- reads

#[derive(Clone, Copy)]
pub struct Given {
    pub device: Device,
    pub value: u32,
}

// After the last word that waits, the lent memory serves from its start again.
fn after_take(rx: Rx) -> Rx
    requires { rx.taken < rx.put }
    ensures rx { result ≡ after_take rx }
{
    let taken = rx.taken + 1;
    if taken < rx.put {
        Rx { taken, ..rx }
    } else {
        nothing_received()
    }
}

// The word that waits longest is read, or 0 where none waits.
fn take(d: Device, received: &[u32]) -> Given
    ensures given { result ≡ taken_from d received.now }
{
    let rx = d.rx;
    if rx.taken < rx.put && rx.taken < received.len() {
        Given {
            device: with_rx(d, after_take(rx)),
            value: received[rx.taken],
        }
    } else {
        Given {
            device: d,
            value: 0,
        }
    }
}

// Bit 4 says that a word waits.
fn interrupt_status(rx: Rx) -> u32
    ensures status { result ≡ interrupt_status rx }
{
    if rx.taken < rx.put { 0x10 } else { 0 }
}

fn answered(d: Device, offset: u8, received: &[u32]) -> Given
    ensures given { result ≡ answered d offset received.now }
{
    let value = match offset {
        qspi::CONFIG => d.config,
        qspi::INTERRUPT_STATUS => interrupt_status(d.rx),
        qspi::RX_DATA => return take(d, received),
        _ => 0,
    };
    Given { device: d, value }
}

// A read of a register.
pub fn read(d: Device, offset: u8, sent: &[u8], received: &mut [u32], array: &[u8]) -> Given
    ensures given { result ≡ read_of (sim_of d sent.now received.old array.now) offset }
    ensures received { received.new ≡ (passed (sim_of d sent.now received.old array.now)).received }
{
    let x = words::pass(d, sent, received, array);
    answered(x, offset, received)
}

// ---- writes

// What this device can not do: then the access is not made. A pause may have passed, or a word gone out, before
// that was seen.
#[derive(Clone, Copy)]
pub struct Refused {
    pub device: Device,
}

// Chip select is low while bit 10 is clear.
pub fn is_high(config: u32) -> bool
    ensures high { result ≡ high config }
{
    bits::is_set(config, Config::PERIPHERAL_CHIP_SELECT)
}

// Config as it reads from now on: with bit 16 zero.
pub fn with_config(d: Device, config: u32, tx: Tx, chip: Chip) -> Device
    ensures device { result ≡ with_config d config tx chip }
{
    Device {
        config: bits::clear(config, Config::MANUAL_START_COMMAND),
        tx,
        chip,
        ..d
    }
}

fn configure(d: Device, value: u32, sent: &[u8], array: &mut [u8]) -> Result<Device, Refused>
    ensures written { result ≡ outcome (configured d value sent.now array.old).written }
    ensures array { array.new ≡ (configured d value sent.now array.old).array }
{
    if is_high(d.config) {
        return Ok(with_config(d, value, d.tx, d.chip));
    }
    if is_high(value) {
        return raise(d, value, sent, array);
    }
    Ok(with_config(d, value, words::started(d.tx, value), d.chip))
}

// A write of a register.
pub fn write(
    d: Device,
    offset: u8,
    value: u32,
    sent: &mut [u8],
    received: &mut [u32],
    array: &mut [u8],
) -> Result<Device, Refused>
    ensures written { result ≡ outcome (write_of (sim_of d sent.old received.old array.old) offset value).written }
    ensures sent { sent.new ≡ (write_of (sim_of d sent.old received.old array.old) offset value).sent }
    ensures received { received.new ≡ (write_of (sim_of d sent.old received.old array.old) offset value).received }
    ensures array { array.new ≡ (write_of (sim_of d sent.old received.old array.old) offset value).array }
{
    let x = words::pass(d, sent, received, array);
    if offset == qspi::CONFIG {
        return configure(x, value, sent, array);
    }
    if words::width(offset) == 0 {
        return Ok(x);
    }
    words::send(x, offset, value, sent)
}
