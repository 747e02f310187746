// Prints the register map and the words that need no operation: offsets, fields and commands, all 24
// presets, the linear words of I/O mode, and the words of `initialize`; then what the flash chip's functions
// answer (`chip`).
#![tactic(auto)]

use printing::tolerant::Tolerant;
use std::io::Result;
use zedboard_bsp::qspi_spansion::{
    ConfigRegister1, QSPI_DEV_COMBINATION_REV_F, RegisterId, StatusRegister1,
};
use zynq7000::qspi::{
    BaudRateDivisor, Config, InstructionCode, InterruptStatus, LinearQspiConfig,
    LoopbackMasterClockDelay, Register, SpiEnable,
};
use zynq7000::slcr::clocks::{SingleCommonPeriphIoClockControl, SrcSelIo};
use zynq7000_hal::qspi;
use zynq7000_hal::qspi::{
    BaudRateConfig, ClockConfig, FieldTooWide, QspiDeviceCombination, QspiVendor,
};

mod chip;

const REGISTERS: [Register; 12] = [
    Register::Config,
    Register::InterruptStatus,
    Register::SpiEnable,
    Register::TxData00,
    Register::RxData,
    Register::TxFifoThreshold,
    Register::RxFifoThreshold,
    Register::LoopbackMasterClockDelay,
    Register::TxData01,
    Register::TxData10,
    Register::TxData11,
    Register::LinearQspiConfig,
];

const MODES: [InstructionCode; 6] = [
    InstructionCode::Read,
    InstructionCode::FastRead,
    InstructionCode::FastReadDualOutput,
    InstructionCode::FastReadQuadOutput,
    InstructionCode::FastReadDualIo,
    InstructionCode::FastReadQuadIo,
];

const BAUD_RATES: [BaudRateConfig; 9] = [
    BaudRateConfig::WithoutLoopback(BaudRateDivisor::_2),
    BaudRateConfig::WithoutLoopback(BaudRateDivisor::_4),
    BaudRateConfig::WithoutLoopback(BaudRateDivisor::_8),
    BaudRateConfig::WithoutLoopback(BaudRateDivisor::_16),
    BaudRateConfig::WithoutLoopback(BaudRateDivisor::_32),
    BaudRateConfig::WithoutLoopback(BaudRateDivisor::_64),
    BaudRateConfig::WithoutLoopback(BaudRateDivisor::_128),
    BaudRateConfig::WithoutLoopback(BaudRateDivisor::_256),
    BaudRateConfig::WithLoopback,
];

// Phase and polarity of each mode.
const PHASES_AND_POLARITIES: [(bool, bool); 4] = [
    (false, false),
    (false, true),
    (true, false),
    (true, true),
];

// Divisors around 0 and 63, each with a source.
const CLOCKS: [(u8, SrcSelIo); 7] = [
    (0, SrcSelIo::IoPll),
    (1, SrcSelIo::IoPllAlt),
    (62, SrcSelIo::ArmPll),
    (63, SrcSelIo::DdrPll),
    (64, SrcSelIo::IoPll),
    (65, SrcSelIo::IoPllAlt),
    (255, SrcSelIo::ArmPll),
];

const COMMANDS: [RegisterId; 12] = [
    RegisterId::WriteRegisters,
    RegisterId::PageProgram,
    RegisterId::Read,
    RegisterId::WriteDisable,
    RegisterId::ReadStatus1,
    RegisterId::WriteEnable,
    RegisterId::ReadStatus2,
    RegisterId::FastRead,
    RegisterId::ClearStatus,
    RegisterId::ReadConfig,
    RegisterId::ReadId,
    RegisterId::SectorErase,
];

fn main(rt: HostRuntime) -> Result<()> {
    let rt = Tolerant::new(&rt);
    words(
        &rt,
        "register",
        &REGISTERS.map(|register| register.offset() as u32),
    )?;
    presets(&rt)?;
    io_modes(&rt)?;
    baud_rates(&rt)?;
    clocks(&rt)?;
    fields(&rt)?;
    words(
        &rt,
        "command",
        &COMMANDS.map(|command| command.raw_value() as u32),
    )?;
    let config = qspi::linear_mode_config_for_common_devices(QSPI_DEV_COMBINATION_REV_F);
    line(&rt, "revision F", 0, config.0)?;
    chip::answers(&rt)
}

fn line(rt: &impl Print, name: &str, n: usize, word: u32) -> Result<()> {
    println!(rt; "{name} {n} {word:08x}")
}

// A line for each word of a list.
fn words(rt: &impl Print, name: &str, words: &[u32]) -> Result<()> {
    for (i, word) in words.iter().enumerate() {
        line(rt, name, i, *word)?;
    }
    Ok(())
}

// Six modes for one device, six for two, of Winbond and Spansion and then of Micron. The number that is printed
// says which: loops over vendors, devices and modes, one in the other, would have to make it up again.
fn presets(rt: &impl Print) -> Result<()> {
    for i in 0..24 {
        let config = qspi::linear_mode_config_for_common_devices(QspiDeviceCombination {
            vendor: if i < 12 {
                QspiVendor::WinbondAndSpansion
            } else {
                QspiVendor::Micron
            },
            operating_mode: MODES[i % 6],
            two_devices: i / 6 % 2 == 1,
        });
        line(rt, "preset", i, config.0)?;
    }
    Ok(())
}

fn io_modes(rt: &impl Print) -> Result<()> {
    line(rt, "io mode", 0, qspi::io_mode_config(false).0)?;
    line(rt, "io mode", 1, qspi::io_mode_config(true).0)
}

fn initialize(
    rt: &impl Print,
    clock_config: ClockConfig,
    phase: bool,
    polarity: bool,
) -> Result<()> {
    match qspi::initialize_words(clock_config, phase, polarity) {
        Err(FieldTooWide) => print!(rt; " refused 12")?,
        Ok(words) => {
            print!(rt; " {:08x} {:08x}", words.lqspi_clk_ctrl, words.config)?;
            if let Some(word) = words.loopback {
                print!(rt; " {word:08x}")?;
            }
        }
    }
    println!(rt)
}

// Each baud rate, the last with loopback, in each mode of phase and polarity.
fn baud_rates(rt: &impl Print) -> Result<()> {
    for (i, baud_rate_config) in BAUD_RATES.iter().enumerate() {
        let clock_config = ClockConfig {
            src_sel: SrcSelIo::IoPll,
            ref_clk_div: 5,
            baud_rate_config: *baud_rate_config,
        };
        modes(rt, i, clock_config)?;
    }
    Ok(())
}

fn modes(rt: &impl Print, i: usize, clock_config: ClockConfig) -> Result<()> {
    for (mode, (phase, polarity)) in PHASES_AND_POLARITIES.iter().enumerate() {
        print!(rt; "baud {i} mode {mode}")?;
        initialize(rt, clock_config, *phase, *polarity)?;
    }
    Ok(())
}

fn clocks(rt: &impl Print) -> Result<()> {
    for (i, (ref_clk_div, src_sel)) in CLOCKS.iter().enumerate() {
        let clock_config = ClockConfig {
            src_sel: *src_sel,
            ref_clk_div: *ref_clk_div,
            baud_rate_config: BaudRateConfig::WithLoopback,
        };
        print!(rt; "clock {i}")?;
        initialize(rt, clock_config, false, false)?;
    }
    Ok(())
}

// The lowest bits of each register's fields.
fn fields(rt: &impl Print) -> Result<()> {
    bits(rt, 0, &Config::field_bits())?;
    bits(rt, 1, &InterruptStatus::field_bits())?;
    bits(rt, 2, &SpiEnable::field_bits())?;
    bits(rt, 3, &LoopbackMasterClockDelay::field_bits())?;
    bits(rt, 4, &LinearQspiConfig::field_bits())?;
    bits(rt, 5, &SingleCommonPeriphIoClockControl::field_bits())?;
    bits(rt, 6, &StatusRegister1::field_bits())?;
    bits(rt, 7, &ConfigRegister1::field_bits())
}

fn bits(rt: &impl Print, n: usize, lows: &[u32]) -> Result<()> {
    print!(rt; "fields {n}")?;
    for low in lows {
        print!(rt; " {low}")?;
    }
    println!(rt)
}
