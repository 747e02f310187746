// The QSPI controller, after the Rust module `zynq7000-hal/src/qspi/mod.rs`: the clock calculation,
// the linear mode presets and the words that `initialize` and `enable_io_mode` write.
ghost use Rattle.std.specs.Prelude.{◌≡◌, ◌<◌, ◌≤◌};
ghost use Rattle.zynq7000.specs.Number.{number};
ghost use Rattle.zynq7000.specs.Qspi.{divisor_of, after_each, config_table, config_word, linear_word};
ghost use Rattle.zynq7000.specs.Slcr.{source_code, clock_control_word};
ghost use Rattle.zynq7000_hal.specs.Fifo.{prefilled};
ghost use Rattle.zynq7000_hal.specs.Clocks.{smallest_power_not_below, refusal_of, answer_of, baud_answer, calculate_answer, loopback_answer, baud_of};
ghost use Rattle.zynq7000_hal.specs.Presets.{preset_of, sends_mode, dummy_bytes, io_mode_config};
ghost use Rattle.zynq7000_hal.specs.Initialize.{initial_config, written_words, loopback_words, initialized_answer, initialize_answer};

use crate::clocks::Clocks;
use zynq7000::bits;
use zynq7000::qspi::{
    BaudRateDivisor, Config, InstructionCode, LinearQspiConfig, LoopbackMasterClockDelay,
};
use zynq7000::slcr::clocks::{SingleCommonPeriphIoClockControl, SrcSelIo};

mod lqspi_configs;

// Depth of the TX and RX FIFO in 32 bit words.
pub const FIFO_DEPTH: usize = 63;
// A command sequence in I/O mode is limited by the depth of the TX FIFO, 252 bytes.
pub const MAX_BYTES_PER_TRANSFER_IO_MODE: usize = FIFO_DEPTH * 4;

// How many of the words behind the command word are written before start: all, or until the FIFO is
// full.
pub fn prefill(fifo_writes: u32) -> u32
    ensures count { result ≡ prefilled fifo_writes }
{
    fifo_writes.min(FIFO_DEPTH as u32 - 1)
}

// Why there is no clock configuration, by the refusal's number.
#[derive(Clone, Copy, Debug, PartialEq, Eq)]
pub enum ClockCalculationError {
    // The QSPI reference clock is below the CPU 1x clock.
    RefClockSmallerThanCpu1xClock = 7,
    // The reference clock divisor is out of range.
    RefDivOutOfRange = 6,
    // A clock to divide by is 0.
    ZeroClock = 8,
    // Twice the loopback target does not fit 32 bits.
    TargetTooFast = 9,
    // The baud rate divisor would have to be above 256.
    BaudDivOutOfRange = 31,
}

impl ClockCalculationError {
    // The refusal's number.
    pub fn number(self) -> u8
        ensures number { result ≡ number (refusal_of self) }
    {
        self as u8
    }
}

// Baud rate configuration.
#[derive(Clone, Copy)]
pub enum BaudRateConfig {
    // Loopback clock mode, which requires a baud rate divisor of 2.
    WithLoopback,
    // No loopback clock, with the given baud rate divisor.
    WithoutLoopback(BaudRateDivisor),
}

impl BaudRateConfig {
    pub fn baud_rate_divisor(self) -> BaudRateDivisor
        ensures divisor { result ≡ baud_of self }
    {
        match self {
            BaudRateConfig::WithLoopback => BaudRateDivisor::_2,
            BaudRateConfig::WithoutLoopback(divisor) => divisor,
        }
    }
}

// QSPI clock configuration.
#[derive(Clone, Copy)]
pub struct ClockConfig {
    // Reference clock source.
    pub src_sel: SrcSelIo,
    // Reference clock divisor, six bits.
    pub ref_clk_div: u8,
    // Baud rate configuration.
    pub baud_rate_config: BaudRateConfig,
}

// The smallest power of two from 2 to 256 that is not below the quotient.
fn baud_rate_div(quotient: u32) -> BaudRateDivisor
    requires { quotient ≤ 256 }
    ensures divisor { divisor_of result ≡ smallest_power_not_below quotient }
{
    match quotient {
        0..=2 => BaudRateDivisor::_2,
        3..=4 => BaudRateDivisor::_4,
        5..=8 => BaudRateDivisor::_8,
        9..=16 => BaudRateDivisor::_16,
        17..=32 => BaudRateDivisor::_32,
        33..=64 => BaudRateDivisor::_64,
        65..=128 => BaudRateDivisor::_128,
        _ => BaudRateDivisor::_256,
    }
}

// The interface's part of `calculate`, with a divided reference clock.
fn baud_rate(
    src_sel: SrcSelIo,
    ref_clk_div: u8,
    qspi_ref_clk: u32,
    cpu_1x_clk: u32,
    interface_target: u32,
) -> Result<ClockConfig, ClockCalculationError>
    ensures answer { answer_of result ≡ baud_answer src_sel ref_clk_div qspi_ref_clk cpu_1x_clk interface_target }
{
    if qspi_ref_clk < cpu_1x_clk {
        return Err(ClockCalculationError::RefClockSmallerThanCpu1xClock);
    }
    if interface_target == 0 {
        return Err(ClockCalculationError::ZeroClock);
    }
    let quotient = qspi_ref_clk.div_ceil(interface_target);
    if 256 < quotient {
        return Err(ClockCalculationError::BaudDivOutOfRange);
    }
    Ok(ClockConfig {
        src_sel,
        ref_clk_div,
        baud_rate_config: BaudRateConfig::WithoutLoopback(baud_rate_div(quotient)),
    })
}

impl ClockConfig {
    // The clock divisor for an interface clock in loopback mode, where the baud rate divisor is 2.
    #[tactic(auto, using(crate::proofs::ClockLaws::div_ceil_rounds))]
    pub fn calculate_with_loopback(
        src_sel: SrcSelIo,
        clocks: Clocks,
        target_qspi_interface_clock: u32,
    ) -> Result<ClockConfig, ClockCalculationError>
        ensures answer { answer_of result ≡ loopback_answer src_sel clocks target_qspi_interface_clock }
    {
        if 0x7FFF_FFFF < target_qspi_interface_clock {
            return Err(ClockCalculationError::TargetTooFast);
        }
        if target_qspi_interface_clock == 0 {
            return Err(ClockCalculationError::ZeroClock);
        }
        let target_ref_clock = target_qspi_interface_clock * 2;
        let ref_clk_div = clocks.ref_clk(src_sel).div_ceil(target_ref_clock);
        if 63 < ref_clk_div {
            return Err(ClockCalculationError::RefDivOutOfRange);
        }
        Ok(ClockConfig {
            src_sel,
            ref_clk_div: ref_clk_div as u8,
            baud_rate_config: BaudRateConfig::WithLoopback,
        })
    }

    // The clock and baud rate divisors for a reference clock and an interface clock.
    pub fn calculate(
        src_sel: SrcSelIo,
        clocks: Clocks,
        target_qspi_ref_clock: u32,
        target_qspi_interface_clock: u32,
    ) -> Result<ClockConfig, ClockCalculationError>
        ensures answer { answer_of result ≡ calculate_answer src_sel clocks target_qspi_ref_clock target_qspi_interface_clock }
    {
        let ref_clk = clocks.ref_clk(src_sel);
        if target_qspi_ref_clock == 0 {
            return Err(ClockCalculationError::ZeroClock);
        }
        let ref_clk_div = ref_clk.div_ceil(target_qspi_ref_clock);
        if 63 < ref_clk_div {
            return Err(ClockCalculationError::RefDivOutOfRange);
        }
        if ref_clk == 0 {
            return Err(ClockCalculationError::ZeroClock);
        }
        let qspi_ref_clk = ref_clk / ref_clk_div;
        baud_rate(
            src_sel,
            ref_clk_div as u8,
            qspi_ref_clk,
            clocks.cpu_1x_clk,
            target_qspi_interface_clock,
        )
    }
}

// QSPI flash vendor, which determines the linear mode configuration.
#[derive(Clone, Copy)]
pub enum QspiVendor {
    // Winbond or Spansion.
    WinbondAndSpansion,
    Micron,
}

// Read instruction used in linear addressing mode.
pub type OperatingMode = InstructionCode;

// QSPI flash setup, used to derive the linear mode configuration.
#[derive(Clone, Copy)]
pub struct QspiDeviceCombination {
    // Flash vendor.
    pub vendor: QspiVendor,
    // Read instruction.
    pub operating_mode: OperatingMode,
    // Two flash devices are used.
    pub two_devices: bool,
}

// Linear mode configuration for common QSPI flash devices.
pub fn linear_mode_config_for_common_devices(
    dev_combination: QspiDeviceCombination,
) -> LinearQspiConfig
    ensures preset { result.0 ≡ linear_word (preset_of dev_combination) }
{
    let mode = dev_combination.operating_mode;
    lqspi_configs::linear_read(
        mode,
        sends_mode(mode),
        dummy_bytes(dev_combination.vendor, mode),
        dev_combination.two_devices,
    )
}

// Whether mode bits follow the address: they do where it goes over several lines.
fn sends_mode(mode: OperatingMode) -> bool
    ensures mode { result ≡ sends_mode mode }
{
    matches!(
        mode,
        InstructionCode::FastReadDualIo | InstructionCode::FastReadQuadIo
    )
}

// The dummy bytes between address and data, a line for each row of UG585's table 12-3.
fn dummy_bytes(vendor: QspiVendor, mode: OperatingMode) -> u32
    ensures dummies { (result ≡ dummy_bytes vendor mode) × (result < 8) }
{
    match (mode, vendor) {
        (InstructionCode::Read, _) => 0,
        (InstructionCode::FastRead, _) => 1,
        (InstructionCode::FastReadDualOutput, _) => 1,
        (InstructionCode::FastReadQuadOutput, _) => 1,
        (InstructionCode::FastReadDualIo, QspiVendor::WinbondAndSpansion) => 0,
        (InstructionCode::FastReadDualIo, QspiVendor::Micron) => 1,
        (InstructionCode::FastReadQuadIo, QspiVendor::WinbondAndSpansion) => 2,
        (InstructionCode::FastReadQuadIo, QspiVendor::Micron) => 4,
    }
}

// What `enable_io_mode` writes to the linear configuration register: reset values, which do not
// matter in this mode, but for the memories.
pub fn io_mode_config(dual_flash: bool) -> LinearQspiConfig
    ensures config { result.0 ≡ linear_word (io_mode_config dual_flash) }
{
    LinearQspiConfig(
        bits::flag(dual_flash, LinearQspiConfig::BOTH_MEMORIES)
            + bits::flag(dual_flash, LinearQspiConfig::SEPARATE_MEMORY_BUS)
            + (1 << LinearQspiConfig::MODE_ON)
            + (0xA0 << LinearQspiConfig::MODE_BITS)
            + (2 << LinearQspiConfig::NUM_DUMMY_BYTES)
            + InstructionCode::FastReadQuadIo.raw_value(),
    )
}

// The words of `initialize`: the clock control word that it returns, and what it writes to the QSPI
// block.
#[derive(Clone, Copy)]
pub struct InitializeWords {
    pub lqspi_clk_ctrl: u32,
    pub config: u32,
    // To the loopback delay register, where it is written at all.
    pub loopback: Option<u32>,
}

// The clock divisor is wider than its six bits (refusal 12).
#[derive(Clone, Copy, Debug, PartialEq, Eq)]
pub struct FieldTooWide;

// The config word of `initialize` after each field, put together in the order of UG585's table of the
// register, from bit 31 down: the field's bits, its name there and its value. The last is the word that
// is written.
pub fn config_by_field(divisor: BaudRateDivisor, phase: bool, polarity: bool) -> [u32; 12]
    ensures each { result ≡ after_each config_table (config_word (initial_config divisor phase polarity)) }
{
    // 31 ifmode: 1, the flash memory interface.
    let interface_mode = 1 << Config::INTERFACE_MODE;
    // 30:27 reserved.
    // 26 endian: 0, low byte first.
    let edianness = interface_mode + (0 << Config::EDIANNESS);
    // 25:20 reserved.
    // 19 Holdb_dr: 1, the HOLD_B/WP_B pin is driven.
    let holdb_dr = edianness + (1 << Config::HOLDB_DR);
    // 18:17 reserved.
    // 16 Man_start_com: 0, nothing is started.
    let manual_start_command = holdb_dr + (0 << Config::MANUAL_START_COMMAND);
    // 15 Man_start_en: 0, the controller starts by itself.
    let manual_start_enable = manual_start_command + (0 << Config::MANUAL_START_ENABLE);
    // 14 Manual_CS: 0, the controller drives chip select.
    let manual_cs = manual_start_enable + (0 << Config::MANUAL_CS);
    // 13:11 reserved.
    // 10 PCS: 0, without a meaning while bit 14 is 0.
    let peripheral_chip_select = manual_cs + (0 << Config::PERIPHERAL_CHIP_SELECT);
    // 9 reserved.
    // 8 REF_CLK: 0, as it must be.
    // 7:6 FIFO_WIDTH: 3, words of 32 bits.
    let fifo_width = peripheral_chip_select + (3 << Config::FIFO_WIDTH);
    // 5:3 BAUD_RATE_DIV: the divisor's code.
    let baud_rate_div = fifo_width + (divisor.raw_value() << Config::BAUD_RATE_DIV);
    // 2 CLK_PH: the phase.
    let clock_phase = baud_rate_div + bits::flag(phase, Config::CLOCK_PHASE);
    // 1 CLK_POL: the polarity.
    let clock_polarity = clock_phase + bits::flag(polarity, Config::CLOCK_POLARITY);
    // 0 MODE_SEL: 1, as it must be.
    let mode_select = clock_polarity + (1 << Config::MODE_SELECT);
    [
        interface_mode,
        edianness,
        holdb_dr,
        manual_start_command,
        manual_start_enable,
        manual_cs,
        peripheral_chip_select,
        fifo_width,
        baud_rate_div,
        clock_phase,
        clock_polarity,
        mode_select,
    ]
}

// The config word of `initialize`.
fn config_word(divisor: BaudRateDivisor, phase: bool, polarity: bool) -> u32
    ensures word { result ≡ config_word (initial_config divisor phase polarity) }
{
    let words = config_by_field(divisor, phase, polarity);
    words[11]
}

fn clk_ctrl_word(divisor: u8, source: SrcSelIo) -> u32
    requires { divisor < 64 }
    ensures word { result ≡ clock_control_word divisor (source_code source) 1 }
{
    ((divisor as u32) << SingleCommonPeriphIoClockControl::DIVISOR)
        + (source.raw_value() << SingleCommonPeriphIoClockControl::SRCSEL)
        + (1 << SingleCommonPeriphIoClockControl::CLK_ACT)
}

fn loopback_write(config: BaudRateConfig) -> Option<u32>
    ensures write { written_words result ≡ loopback_words config }
{
    match config {
        BaudRateConfig::WithLoopback => Some(1 << LoopbackMasterClockDelay::USE_LOOPBACK),
        BaudRateConfig::WithoutLoopback(_) => None,
    }
}

// The words of `initialize` for a clock configuration, a phase and a polarity: two flags, since an enum of the
// four modes would be taken apart into the register's two bits again.
pub fn initialize_words(
    clock_config: ClockConfig,
    phase: bool,
    polarity: bool,
) -> Result<InitializeWords, FieldTooWide>
    ensures answer { initialized_answer result ≡ initialize_answer clock_config phase polarity }
{
    let divisor = clock_config.ref_clk_div;
    let baud_rate_config = clock_config.baud_rate_config;
    if 63 < divisor {
        return Err(FieldTooWide);
    }
    Ok(InitializeWords {
        lqspi_clk_ctrl: clk_ctrl_word(divisor, clock_config.src_sel),
        config: config_word(baud_rate_config.baud_rate_divisor(), phase, polarity),
        loopback: loopback_write(baud_rate_config),
    })
}
