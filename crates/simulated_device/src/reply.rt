// What the controller receives while a word goes out: status, data of the array, or the id.
ghost use Rattle.std.specs.Prelude.{◌≡◌, get_or};
ghost use Rattle.simulated_device.specs.Replies.{byte_at, address_in, status_of, data_byte, read_reply, id_reply, reply_of};

use crate::Chip;
use zedboard_bsp::qspi_spansion::RegisterId;
use zedboard_bsp::qspi_spansion::words::data_word;

// The commands that the flash knows, by the byte that is sent first: constants, as a `match` on that byte takes.
pub const PAGE_PROGRAM: u8 = RegisterId::PageProgram as u8;

pub const READ: u8 = RegisterId::Read as u8;

pub const WRITE_DISABLE: u8 = RegisterId::WriteDisable as u8;

pub const READ_STATUS: u8 = RegisterId::ReadStatus1 as u8;

pub const WRITE_ENABLE: u8 = RegisterId::WriteEnable as u8;

pub const FAST_READ: u8 = RegisterId::FastRead as u8;

pub const READ_ID: u8 = RegisterId::ReadId as u8;

pub const SECTOR_ERASE: u8 = RegisterId::SectorErase as u8;

// `array` and `base` are no struct: one would be built in `reply`, and only `byte_at` would look into it.

// The byte of the array at an address.
fn byte_at(array: &[u8], base: u32, address: u32) -> u8
    ensures byte { result ≡ byte_at array.now base address }
{
    match address.checked_sub(base) {
        Some(at) => array.get(at as usize).copied().unwrap_or(0xFF),
        None => 0xFF,
    }
}

// The byte sent at a place, 0 where there is none.
pub fn sent_at(sent: &[u8], at: usize) -> u8
    ensures byte { result ≡ get_or sent.now at 0 }
{
    sent.get(at).copied().unwrap_or(0)
}

// The address behind the command, high byte first.
pub fn address(sent: &[u8]) -> u32
    ensures address { result ≡ address_in sent.now }
{
    let high = sent_at(sent, 1);
    let middle = sent_at(sent, 2);
    let low = sent_at(sent, 3);
    u32::from_be_bytes([0, high, middle, low])
}

// Status register 1: busy in bit 0, the latch in bit 1.
fn status(chip: Chip) -> u8
    ensures status { result ≡ status_of chip }
{
    if 0 < chip.busy {
        return 0x01;
    }
    if chip.latch { 0x02 } else { 0x00 }
}

// A data byte of a read, so many bytes behind the command.
fn data_byte(array: &[u8], base: u32, address: u32, header: usize, at: usize) -> u8
    ensures byte { result ≡ data_byte array.now base address header at }
{
    if at < header {
        return 0;
    }
    let further = ((at - header) % 0x100_0000) as u32;
    byte_at(array, base, (address % 0x100_0000 + further) % 0x100_0000)
}

// The reply to a word of a read, of which so many bytes stand before the data.
fn read_reply(array: &[u8], base: u32, address: u32, header: usize, words: usize) -> u32
    ensures reply { result ≡ read_reply array.now base address header words }
{
    let at = words % 0x100_0000 * 4;
    data_word(
        data_byte(array, base, address, header, at),
        data_byte(array, base, address, header, at + 1),
        data_byte(array, base, address, header, at + 2),
        data_byte(array, base, address, header, at + 3),
    )
}

// The id: manufacturer, device, length of what follows, sectors, family, model.
fn id_reply(words: usize) -> u32
    ensures reply { result ≡ id_reply words }
{
    match words {
        0 => 0x1902_0100,
        1 => 0x3080_014D,
        _ => 0x0000_0030,
    }
}

// The reply to a word of a transfer, of which so many words went out before.
pub fn reply(chip: Chip, base: u32, sent: &[u8], array: &[u8], words: usize) -> u32
    ensures reply { result ≡ reply_of chip base sent.now array.now words }
{
    match sent_at(sent, 0) {
        READ_STATUS => {
            let byte = status(chip);
            data_word(byte, byte, byte, byte)
        }
        READ => read_reply(array, base, address(sent), 4, words),
        FAST_READ => read_reply(array, base, address(sent), 5, words),
        READ_ID => id_reply(words),
        _ => 0,
    }
}
