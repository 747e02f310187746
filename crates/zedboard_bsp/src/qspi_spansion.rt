// The Spansion S25FL256S, after the Rust file `zedboard-bsp/src/qspi_spansion.rs`: command bytes, and
// the fields of status register 1 and configuration register 1.
ghost use Rattle.std.specs.Prelude.{◌≡◌};
ghost use Rattle.zynq7000.specs.Bits.{is_set};
ghost use Rattle.zynq7000.specs.Qspi.{lows, lowest};
ghost use Rattle.zedboard_bsp.specs.Registers.{field_value};
ghost use Rattle.zedboard_bsp.specs.Spansion.{command_byte, status_table, config_table, programming_error, erase_error, block_protection, write_in_progress};

use zynq7000::bits;
use zynq7000_hal::qspi::{OperatingMode, QspiDeviceCombination, QspiVendor};

pub mod device_id;
pub mod limits;
pub mod registers;
pub mod words;

// 4 bytes are reserved for command byte and address. Rounded down at a 16 byte boundary; the
// datasheet recommends it, says the Rust.
pub const MAX_DATA_BYTES_PER_WRITE: usize = 240;
// Crosses no page boundary and does not exceed the FIFO.
pub const RECOMMENDED_PROGRAM_PAGE_SIZE: usize = 128;

pub const PAGE_SIZE: usize = 0x100;

pub const SECTOR_SIZE: usize = 0x10000;
// So many sectors are erased by one call at most.
pub const LONGEST_LIST: usize = 256;
// The largest end that is accepted, the Rust's `u24::MAX`: one below the end of the array
// (docs/DIFFERENCES.md).
pub const LAST_END: usize = 0xFF_FFFF;
// A read may end where 32 bits end.
pub const ADDRESS_SPAN: u64 = 0x1_0000_0000;

// The ZedBoard's revision F has one such chip.
pub const QSPI_DEV_COMBINATION_REV_F: QspiDeviceCombination = QspiDeviceCombination {
    vendor: QspiVendor::WinbondAndSpansion,
    operating_mode: OperatingMode::FastReadQuadOutput,
    two_devices: false,
};

// The commands in use.
#[derive(Clone, Copy)]
pub enum RegisterId {
    // WRR
    WriteRegisters = 0x01,
    // PP
    PageProgram = 0x02,
    // READ
    Read = 0x03,
    // WRDI
    WriteDisable = 0x04,
    // RDSR1
    ReadStatus1 = 0x05,
    // WREN
    WriteEnable = 0x06,
    // RDSR2
    ReadStatus2 = 0x07,
    // FAST_READ
    FastRead = 0x0B,
    // CLSR
    ClearStatus = 0x30,
    // RDCR
    ReadConfig = 0x35,
    // RDID
    ReadId = 0x9F,
    // SE
    SectorErase = 0xD8,
}

impl RegisterId {
    // The command's byte.
    pub fn raw_value(self) -> u8
        ensures byte { result ≡ command_byte self }
    {
        self as u8
    }
}

// Status register 1: the lowest bit of each field.
#[derive(Clone, Copy)]
pub struct StatusRegister1(pub u8);

impl StatusRegister1 {
    // SRWD
    pub const STATUS_REGISTER_WRITE_DISABLE: u32 = 7;
    // P_ERR
    pub const PROGRAMMING_ERROR: u32 = 6;
    // E_ERR
    pub const ERASE_ERROR: u32 = 5;
    // BP, three bits
    pub const BLOCK_PROTECTION: u32 = 2;
    // WEL
    pub const WRITE_ENABLE_LATCH: u32 = 1;
    // WIP
    pub const WRITE_IN_PROGRESS: u32 = 0;

    // The lowest bits of the fields, from bit 7 down. As in `zynq7000`, each register lists its own constants.
    pub fn field_bits() -> [u32; 6]
        ensures table { result ≡ lows status_table }
    {
        [
            Self::STATUS_REGISTER_WRITE_DISABLE,
            Self::PROGRAMMING_ERROR,
            Self::ERASE_ERROR,
            Self::BLOCK_PROTECTION,
            Self::WRITE_ENABLE_LATCH,
            Self::WRITE_IN_PROGRESS,
        ]
    }

    pub fn programming_error(self) -> bool
        ensures bit { result ≡ is_set (lowest programming_error) self.0 }
    {
        bits::is_set(self.0 as u32, Self::PROGRAMMING_ERROR)
    }

    pub fn erase_error(self) -> bool
        ensures bit { result ≡ is_set (lowest erase_error) self.0 }
    {
        bits::is_set(self.0 as u32, Self::ERASE_ERROR)
    }

    pub fn block_protection(self) -> u8
        ensures field { result ≡ field_value block_protection self.0 }
    {
        (self.0 >> Self::BLOCK_PROTECTION) % 8
    }

    pub fn write_in_progress(self) -> bool
        ensures bit { result ≡ is_set (lowest write_in_progress) self.0 }
    {
        bits::is_set(self.0 as u32, Self::WRITE_IN_PROGRESS)
    }
}

// Configuration register 1: the lowest bit of each field. Bit 4 has none.
#[derive(Clone, Copy)]
pub struct ConfigRegister1(pub u8);

impl ConfigRegister1 {
    // LC, two bits
    pub const LATENCY_CODE: u32 = 6;
    // Can not be set back to 0.
    pub const TBPROT: u32 = 5;

    pub const BPNV: u32 = 3;
    // Can not be set back to 0.
    pub const TBPARM: u32 = 2;

    pub const QUAD: u32 = 1;

    pub const FREEZE: u32 = 0;

    // The lowest bits of the fields, from bit 7 down.
    pub fn field_bits() -> [u32; 6]
        ensures table { result ≡ lows config_table }
    {
        [
            Self::LATENCY_CODE,
            Self::TBPROT,
            Self::BPNV,
            Self::TBPARM,
            Self::QUAD,
            Self::FREEZE,
        ]
    }
}
