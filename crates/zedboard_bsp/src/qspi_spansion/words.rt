// The words of commands and replies: bytes on the wire, the first in the word's lowest byte.
ghost use Rattle.std.specs.Prelude.{◌≡◌, [], ◌∷◌};
ghost use Rattle.zedboard_bsp.specs.Words.{word_of, bytes_of, top_byte, command_only, command_word, write_status_word, write_registers_word};

use crate::qspi_spansion::RegisterId;

// The word of four bytes in the order sent.
pub fn data_word(a: u8, b: u8, c: u8, d: u8) -> u32
    ensures word { result ≡ word_of (a ∷ b ∷ c ∷ d ∷ []) }
{
    u32::from_le_bytes([a, b, c, d])
}

// A command without an address.
pub fn command_only(command: RegisterId) -> u32
    ensures word { result ≡ command_only command }
{
    command.raw_value() as u32
}

// A command and the low 24 bits of its address, high byte first.
pub fn command_word(command: RegisterId, addr: u32) -> u32
    ensures word { result ≡ command_word command addr }
{
    let [_, high, middle, low] = addr.to_be_bytes();
    data_word(command.raw_value(), high, middle, low)
}

// WRR of the status register alone.
pub fn write_status_word(sr: u8) -> u32
    ensures word { result ≡ write_status_word sr }
{
    data_word(RegisterId::WriteRegisters.raw_value(), sr, 0, 0)
}

// WRR of the status and the configuration register.
pub fn write_registers_word(sr: u8, cr: u8) -> u32
    ensures word { result ≡ write_registers_word sr cr }
{
    data_word(RegisterId::WriteRegisters.raw_value(), sr, cr, 0)
}

// The status or configuration byte of a reply: little-endian, so the second byte received is on top.
pub fn top_byte(reply: u32) -> u8
    ensures byte { result ≡ top_byte reply }
{
    reply.to_le_bytes()[3]
}

// The bytes of a word in the order sent or received.
pub fn bytes_of(word: u32) -> [u8; 4]
    ensures bytes { result ≡ bytes_of word }
{
    word.to_le_bytes()
}
