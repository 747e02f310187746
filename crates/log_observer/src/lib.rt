// What a log of the flash path shows by itself: the chunks that `write_pages` finished, and those in
// doubt. Document 01, "The flash, as defined here". The log alone is read, so that whoever finds one
// after a power cut can tell what the flash holds.
#![tactic(auto)]

ghost use Rattle.std.specs.Prelude.{◌≡◌, ◌-◌};
ghost use Rattle.log_observer.specs.Watching.{no_doubt, just_open, fresh, head_with, push, send_one, send_two, send_three, send_four, take_reply, is_program, is_status_read, is_clean, address_in, joined, commanded, raised, with_transfer, finish, closed, enabled, configured, wrote, has_read, watched, watch_of};

use access_log::entry_at;
use zedboard_bsp::qspi_spansion::{RegisterId, StatusRegister1, words};
use zynq7000::qspi::{Access, Config};
use zynq7000::{bits, qspi};

// Where a chunk lies in the flash.
#[derive(Clone, Copy)]
pub struct Extent {
    pub address: u32,
    pub length: u32,
}

// The chunks in doubt: the first of them by its place in the flash, if any; how many they are, and their
// bytes (both modulo 2^32), which `see` adds up whether or not a first stands beside them. Of a run of
// `write_pages` there is never a second one, nor of a row of them while the flash reports no error.
#[derive(Clone, Copy)]
pub struct Doubt {
    pub first: Option<Extent>,
    pub chunks: u32,
    pub bytes: u32,
}

// What lies between a write of 1 and a write of 0 to SPI enable: how many bytes were sent (modulo
// 2^32), the first four of them with the first lowest, and the RX word read last.
#[derive(Clone, Copy)]
pub struct Transfer {
    pub sent: u32,
    pub head: u32,
    pub reply: u32,
}

// What is seen so far: the transfer at hand, if any; whether chip select is high; the chunks in doubt; how
// many chunks are finished, and their bytes (both modulo 2^32).
#[derive(Clone, Copy)]
pub struct Watch {
    pub transfer: Option<Transfer>,
    pub up: bool,
    pub doubt: Doubt,
    pub finished: u32,
    pub bytes: u32,
}

// Before the first RX word of a transfer is read: a status that shows busy, so that none counts as
// clean that nobody read.
const UNREAD: u32 = 0x0100_0000;

fn no_doubt() -> Doubt
    ensures doubt { result ≡ no_doubt }
{
    Doubt {
        first: None,
        chunks: 0,
        bytes: 0,
    }
}

fn just_open() -> Transfer
    ensures transfer { result ≡ just_open }
{
    Transfer {
        sent: 0,
        head: 0,
        reply: UNREAD,
    }
}

// The first four bytes, where one more comes behind so many.
fn head_with(head: u32, sent: u32, byte: u8) -> u32
    ensures head { result ≡ head_with head sent byte }
{
    let one = byte as u32;
    match sent {
        0 => one,
        1 => head.wrapping_add(one * 0x100),
        2 => head.wrapping_add(one * 0x1_0000),
        3 => head.wrapping_add(one * 0x100_0000),
        _ => head,
    }
}

// A byte is sent. Outside a transfer it belongs to none.
fn push(t: Option<Transfer>, byte: u8) -> Option<Transfer>
    ensures transfer { result ≡ push t byte }
{
    t.map(|t| Transfer {
        sent: t.sent.wrapping_add(1),
        head: head_with(t.head, t.sent, byte),
        ..t
    })
}

// A word of one to four bytes is sent, low byte first: each function is the one before it and a byte more,
// which no count of bytes would say more plainly.
fn send_one(t: Option<Transfer>, word: u32) -> Option<Transfer>
    ensures transfer { result ≡ send_one t word }
{
    push(t, word.to_le_bytes()[0])
}

fn send_two(t: Option<Transfer>, word: u32) -> Option<Transfer>
    ensures transfer { result ≡ send_two t word }
{
    push(send_one(t, word), word.to_le_bytes()[1])
}

fn send_three(t: Option<Transfer>, word: u32) -> Option<Transfer>
    ensures transfer { result ≡ send_three t word }
{
    push(send_two(t, word), word.to_le_bytes()[2])
}

fn send_four(t: Option<Transfer>, word: u32) -> Option<Transfer>
    ensures transfer { result ≡ send_four t word }
{
    push(send_three(t, word), word.to_le_bytes()[3])
}

// An RX word is read.
fn take_reply(t: Option<Transfer>, reply: u32) -> Option<Transfer>
    ensures transfer { result ≡ take_reply t reply }
{
    t.map(|t| Transfer { reply, ..t })
}

// Whether the transfer is a page program with data: the command, three bytes of address, and more.
fn is_program(t: Transfer) -> bool
    ensures program { result ≡ is_program t }
{
    4 < t.sent && t.head % 0x100 == RegisterId::PageProgram as u32
}

// Whether the top byte of the reply is the status: 05 was sent first, and a byte after it.
fn is_status_read(t: Transfer) -> bool
    ensures status { result ≡ is_status_read t }
{
    1 < t.sent && t.head % 0x100 == RegisterId::ReadStatus1 as u32
}

// Whether it is a status transfer with error bit and bit 0 clear.
fn is_clean(t: Option<Transfer>) -> bool
    ensures clean { result ≡ is_clean t }
{
    let Some(t) = t else { return false };
    let status = StatusRegister1(words::top_byte(t.reply));
    is_status_read(t) && !status.programming_error() && !status.write_in_progress()
}

// The address behind the command, high byte first.
fn address_in(head: u32) -> u32
    ensures address { result ≡ address_in head }
{
    let [_, high, middle, low] = head.to_le_bytes();
    u32::from_be_bytes([0, high, middle, low])
}

// The bytes behind command and address.
fn data_length(sent: u32) -> u32
    ensures length { result ≡ sent - 4 }
{
    sent.saturating_sub(4)
}

// One more in doubt.
fn joined(doubt: Doubt, address: u32, length: u32) -> Doubt
    ensures doubt { result ≡ joined doubt address length }
{
    Doubt {
        first: doubt.first.or(Some(Extent { address, length })),
        chunks: doubt.chunks.wrapping_add(1),
        bytes: doubt.bytes.wrapping_add(length),
    }
}

// The chunk of a page program is in doubt too; other commands leave those that are.
fn commanded(t: Option<Transfer>, doubt: Doubt) -> Doubt
    ensures doubt { result ≡ commanded t doubt }
{
    match t {
        Some(t) if is_program(t) => joined(doubt, address_in(t.head), data_length(t.sent)),
        _ => doubt,
    }
}

// The chunks in doubt, where chip select was and is high or low: a page program is in doubt once it
// rises.
fn raised(was: bool, is: bool, t: Option<Transfer>, doubt: Doubt) -> Doubt
    ensures doubt { result ≡ raised was is t doubt }
{
    if !was && is {
        commanded(t, doubt)
    } else {
        doubt
    }
}

fn with_transfer(w: Watch, transfer: Option<Transfer>) -> Watch
    ensures watch { result ≡ with_transfer w transfer }
{
    Watch { transfer, ..w }
}

// A clean status transfer closes: what was in doubt is finished.
fn finish(w: Watch) -> Watch
    ensures watch { result ≡ finish w }
{
    Watch {
        transfer: None,
        doubt: no_doubt(),
        finished: w.finished.wrapping_add(w.doubt.chunks),
        bytes: w.bytes.wrapping_add(w.doubt.bytes),
        ..w
    }
}

// Another one closes: what is in doubt still is.
fn closed(w: Watch) -> Watch
    ensures watch { result ≡ closed w }
{
    if is_clean(w.transfer) {
        finish(w)
    } else {
        with_transfer(w, None)
    }
}

// SPI enable is written.
fn enabled(w: Watch, value: u32) -> Watch
    ensures watch { result ≡ enabled w value }
{
    if value == 0 {
        closed(w)
    } else {
        with_transfer(w, Some(just_open()))
    }
}

// Config is written.
fn configured(w: Watch, value: u32) -> Watch
    ensures watch { result ≡ configured w value }
{
    let high = bits::is_set(value, Config::PERIPHERAL_CHIP_SELECT);
    Watch {
        up: high,
        doubt: raised(w.up, high, w.transfer, w.doubt),
        ..w
    }
}

fn wrote(w: Watch, offset: u8, value: u32) -> Watch
    ensures watch { result ≡ wrote w offset value }
{
    match offset {
        qspi::CONFIG => configured(w, value),
        qspi::SPI_ENABLE => enabled(w, value),
        qspi::TX_DATA_00 => with_transfer(w, send_four(w.transfer, value)),
        qspi::TX_DATA_01 => with_transfer(w, send_one(w.transfer, value)),
        qspi::TX_DATA_10 => with_transfer(w, send_two(w.transfer, value)),
        qspi::TX_DATA_11 => with_transfer(w, send_three(w.transfer, value)),
        _ => w,
    }
}

fn has_read(w: Watch, offset: u8, value: u32) -> Watch
    ensures watch { result ≡ has_read w offset value }
{
    if offset == qspi::RX_DATA {
        with_transfer(w, take_reply(w.transfer, value))
    } else {
        w
    }
}

// What is seen after one more access.
pub fn see(watch: Watch, access: Access) -> Watch
    ensures watch { result ≡ watched watch access }
{
    match access {
        Access::Read(offset, value) => has_read(watch, offset, value),
        Access::Write(offset, value) => wrote(watch, offset, value),
    }
}

// Before the first access: chip select is high.
fn start() -> Watch
    ensures watch { result ≡ fresh }
{
    Watch {
        transfer: None,
        up: true,
        doubt: no_doubt(),
        finished: 0,
        bytes: 0,
    }
}

// What so many accesses of a log show, from its beginning. It stops where the log ends or a record is
// no access.
pub fn observe(log: &[u32], accesses: usize) -> Watch
    ensures watch { result ≡ watch_of log.now accesses }
{
    let mut watch = start();
    // By place, as the clause counts: a reader would keep the same place beside the count of the loop.
    for at in 0..accesses {
        match entry_at(log, at) {
            Some(Ok(access)) => watch = see(watch, access),
            // One arm for both was tried: its proof has no name for which of the two came.
            Some(Err(_)) => return watch,
            None => return watch,
        }
    }
    watch
}
