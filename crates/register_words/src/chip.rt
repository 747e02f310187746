// What the flash chip's leaf functions answer: every byte as an id's code and as a register,
// the words of commands, and an id from its replies.
use std::fmt;
use std::io::Result;
use zedboard_bsp::qspi_spansion::device_id::{BaseDeviceId, ExtendedDeviceId, UnknownCode};
use zedboard_bsp::qspi_spansion::{RegisterId, registers, words};

pub fn answers(rt: &impl Print) -> Result<()> {
    for b in 0..=255u8 {
        codes(rt, b)?;
        updates(rt, b)?;
    }
    commands(rt)?;
    id(rt)
}

// What a byte is as a code of an id: 0 and the code, or 11 and the byte.
#[derive(Clone, Copy)]
struct Code(std::result::Result<u8, UnknownCode>);

impl fmt::Display for Code {
    fn fmt<W: fmt::Write>(&self, f: &mut fmt::Formatter<W>) -> fmt::Result {
        match self.0 {
            Ok(code) => write!(f, "0 {code:02x}"),
            Err(UnknownCode(b)) => write!(f, "11 {b:02x}"),
        }
    }
}

fn interface(id: BaseDeviceId) -> Code {
    Code(id.memory_interface_type().map(|known| known as u8))
}

fn density(id: BaseDeviceId) -> Code {
    Code(id.density().map(|known| known as u8))
}

fn sector(id: ExtendedDeviceId) -> Code {
    Code(id.sector_arch().map(|known| known as u8))
}

// A byte as each code of an id.
fn codes(rt: &impl Print, b: u8) -> Result<()> {
    let base = BaseDeviceId::new(0x01, u16::from_be_bytes([b, b]));
    let extended = ExtendedDeviceId::from_replies(0, b as u32 * 256, 0);
    let interface = interface(base);
    let density = density(base);
    let sector = sector(extended);
    println!(rt; "code {b:02x} interface {interface} density {density} sector {sector}")
}

// A byte as each register: protection 5, and `new` with quad bit, latency 2 and no protection.
fn updates(rt: &impl Print, b: u8) -> Result<()> {
    let protected = registers::protected(b, 5);
    let cr = registers::configured_cr(true, Some(2), b);
    let sr = registers::configured_sr(true, b);
    print!(rt; "register {b:02x} {protected:02x} {cr:02x} {sr:02x}")?;
    if registers::update_needed(true, Some(2), true, b, b) {
        print!(rt; " needed")?;
    }
    println!(rt)
}

fn line(rt: &impl Print, name: &str, word: u32) -> Result<()> {
    println!(rt; "{name} {word:08x}")
}

// The words of 01's station cases, an address above 24 bits, the writes of registers, a reply.
fn commands(rt: &impl Print) -> Result<()> {
    let erase = words::command_word(RegisterId::SectorErase, 0x030000);
    line(rt, "erase 030000", erase)?;
    let program = words::command_word(RegisterId::PageProgram, 0x000100);
    line(rt, "program 000100", program)?;
    line(rt, "data", words::data_word(0xDE, 0xAD, 0xBE, 0xEF))?;
    let read = words::command_word(RegisterId::Read, 0x000102);
    line(rt, "read 000102", read)?;
    let read = words::command_word(RegisterId::Read, 0x1234567);
    line(rt, "read 1234567", read)?;
    let enable = words::command_only(RegisterId::WriteEnable);
    line(rt, "write enable", enable)?;
    line(rt, "write status 9C", words::write_status_word(0x9C))?;
    let both = words::write_registers_word(0x9C, 0x02);
    line(rt, "write registers 9C 02", both)?;
    line(rt, "top byte 12345678", words::top_byte(0x12345678) as u32)
}

// An id from replies with the bytes FF 01 02 19, 4D 01 80 30, 30.
fn id(rt: &impl Print) -> Result<()> {
    let extended = ExtendedDeviceId::from_replies(0x190201FF, 0x3080014D, 0x00000030);
    let base = extended.base_id();
    print!(rt;
        "id {:02x} {:04x}",
        base.manufacturer_id(),
        base.device_id_raw()
    )?;
    print!(rt; " interface {} density {}", interface(base), density(base))?;
    print!(rt;
        " {:02x} sector {}",
        extended.id_cfi_len(),
        sector(extended)
    )?;
    let [first, second] = extended.model_number();
    let family = extended.family_id();
    println!(rt; " {family:02x} {first:02x} {second:02x}")
}
