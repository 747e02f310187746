// Codes of the boundary: what they stand for, and a code that is wider than its field or not listed. They are read
// by functions and no `TryFrom<u8>`: that would belong to zynq7000, whose types they are, and it lies below the
// crates of both refusals.
ghost use Rattle.std.specs.Prelude.{◌≡◌, get_or};
ghost use Rattle.zynq7000_hal.specs.Clocks.{baud_values};
ghost use Rattle.qspi_abi.specs.Codes.{source_at, divisor_within, config_at, instruction_at, vendor_of, code_number};

use zedboard_bsp::qspi_spansion::device_id::UnknownCode;
use zynq7000::qspi::{BaudRateDivisor, InstructionCode};
use zynq7000::slcr::clocks::SrcSelIo;
use zynq7000_hal::qspi::{BaudRateConfig, ClockConfig, FieldTooWide, QspiVendor};

// The numbers of a code that is not listed, and of one that is wider than its field.
pub const UNKNOWN_CODE: u32 = 11;

pub const FIELD_TOO_WIDE: u32 = 12;

pub fn source(code: u8) -> Result<SrcSelIo, FieldTooWide>
    ensures source { result ≡ source_at code }
{
    match code {
        0 => Ok(SrcSelIo::IoPll),
        1 => Ok(SrcSelIo::IoPllAlt),
        2 => Ok(SrcSelIo::ArmPll),
        3 => Ok(SrcSelIo::DdrPll),
        _ => Err(FieldTooWide),
    }
}

fn divisor(code: u8) -> Result<BaudRateDivisor, FieldTooWide>
    ensures divisor { result ≡ divisor_within code }
{
    match code {
        0 => Ok(BaudRateDivisor::_2),
        1 => Ok(BaudRateDivisor::_4),
        2 => Ok(BaudRateDivisor::_8),
        3 => Ok(BaudRateDivisor::_16),
        4 => Ok(BaudRateDivisor::_32),
        5 => Ok(BaudRateDivisor::_64),
        6 => Ok(BaudRateDivisor::_128),
        7 => Ok(BaudRateDivisor::_256),
        _ => Err(FieldTooWide),
    }
}

// A divisor's code is refused with loopback too, which has no divisor.
pub fn clock_config(
    src_sel: u8,
    ref_clk_div: u8,
    loopback: bool,
    baud_rate_div: u8,
) -> Result<ClockConfig, FieldTooWide>
    ensures config { result ≡ config_at src_sel ref_clk_div loopback baud_rate_div }
{
    let src_sel = source(src_sel)?;
    let divisor = divisor(baud_rate_div)?;
    Ok(ClockConfig {
        src_sel,
        ref_clk_div,
        baud_rate_config: if loopback {
            BaudRateConfig::WithLoopback
        } else {
            BaudRateConfig::WithoutLoopback(divisor)
        },
    })
}

// The read instruction of a command byte.
pub fn instruction(code: u8) -> Result<InstructionCode, UnknownCode>
    ensures instruction { result ≡ instruction_at code }
{
    match code {
        0x03 => Ok(InstructionCode::Read),
        0x0B => Ok(InstructionCode::FastRead),
        0x3B => Ok(InstructionCode::FastReadDualOutput),
        0x6B => Ok(InstructionCode::FastReadQuadOutput),
        0xBB => Ok(InstructionCode::FastReadDualIo),
        0xEB => Ok(InstructionCode::FastReadQuadIo),
        _ => Err(UnknownCode(code)),
    }
}

pub fn vendor(micron: bool) -> QspiVendor
    ensures vendor { result ≡ vendor_of micron }
{
    if micron {
        QspiVendor::Micron
    } else {
        QspiVendor::WinbondAndSpansion
    }
}

// 1 with loopback, 0 without.
pub fn loopback_number(config: BaudRateConfig) -> u32
    ensures number { result ≡ get_or (baud_values config) 0 0 }
{
    match config {
        BaudRateConfig::WithLoopback => 1,
        BaudRateConfig::WithoutLoopback(_) => 0,
    }
}

// 0 for a listed code of an id.
pub fn number<T: Copy>(code: Result<T, UnknownCode>) -> u32
    ensures number { result ≡ code_number code }
{
    match code {
        Ok(_) => 0,
        Err(_) => UNKNOWN_CODE,
    }
}
