// The calls of the Rust's `QspiLowLevel` that write registers and send nothing, access by access.
ghost use Rattle.std.specs.Prelude.{◌≡◌};
ghost use Rattle.qspi_transfer.specs.LowLevel.{automatic, manual, initialize_due, linear_due, io_mode_due, disable_due, sequence_due, sequence_more};

use crate::Due;
use zynq7000::qspi::{Config, LoopbackMasterClockDelay};
use zynq7000::{bits, qspi};

#[derive(Clone, Copy, PartialEq, Eq)]
pub enum Sequence {
    Initialize,
    InitializeWithLoopback,
    EnableLinearAddressing,
    EnableIoMode,
    Disable,
}

impl Sequence {
    // How many accesses follow the first.
    pub fn more(self) -> u32
        ensures count { result ≡ sequence_more self }
    {
        match self {
            Sequence::Initialize => 0,
            Sequence::InitializeWithLoopback => 1,
            Sequence::EnableLinearAddressing => 3,
            Sequence::EnableIoMode => 4,
            Sequence::Disable => 2,
        }
    }
}

// The config word, then with loopback the loopback delay.
fn initialize_due(at: u32, word: u32) -> Due
    ensures due { result ≡ initialize_due at word }
{
    match at {
        0 => Due::Write(qspi::CONFIG, word),
        _ => Due::Write(
            qspi::LOOPBACK_MASTER_CLOCK_DELAY,
            1 << LoopbackMasterClockDelay::USE_LOOPBACK,
        ),
    }
}

// Start and chip select are the controller's in this mode: the manual wants these bits 0, says the Rust.
fn linear_config(config: u32) -> u32
    ensures word { result ≡ automatic config }
{
    bits::clear(
        bits::clear(
            bits::clear(config, Config::MANUAL_START_ENABLE),
            Config::MANUAL_CS,
        ),
        Config::PERIPHERAL_CHIP_SELECT,
    )
}

// Start and chip select are the program's in this mode.
fn io_config(config: u32) -> u32
    ensures word { result ≡ manual config }
{
    bits::put(
        bits::put(config, Config::MANUAL_START_ENABLE),
        Config::MANUAL_CS,
    )
}

fn enable_linear_addressing_due(at: u32, config: u32, word: u32) -> Due
    ensures due { result ≡ linear_due at config word }
{
    match at {
        0 => Due::Write(qspi::SPI_ENABLE, 0),
        1 => Due::Read(qspi::CONFIG),
        2 => Due::Write(qspi::CONFIG, linear_config(config)),
        _ => Due::Write(qspi::LINEAR_QSPI_CONFIG, word),
    }
}

fn enable_io_mode_due(at: u32, config: u32, word: u32) -> Due
    ensures due { result ≡ io_mode_due at config word }
{
    match at {
        0 => Due::Read(qspi::CONFIG),
        1 => Due::Write(qspi::CONFIG, io_config(config)),
        2 => Due::Write(qspi::RX_FIFO_THRESHOLD, 1),
        3 => Due::Write(qspi::TX_FIFO_THRESHOLD, 1),
        _ => Due::Write(qspi::LINEAR_QSPI_CONFIG, word),
    }
}

fn disable_due(at: u32, config: u32) -> Due
    ensures due { result ≡ disable_due at config }
{
    match at {
        0 => Due::Write(qspi::SPI_ENABLE, 0),
        1 => Due::Read(qspi::CONFIG),
        _ => Due::Write(
            qspi::CONFIG,
            bits::put(config, Config::PERIPHERAL_CHIP_SELECT),
        ),
    }
}

// The access at a place of a call, by the config word last read and the call's own word. They are no struct: the
// definitions take them one by one, and a sequence is handed only those that it uses.
pub fn due(sequence: Sequence, at: u32, config: u32, word: u32) -> Due
    ensures due { result ≡ sequence_due sequence at config word }
{
    match sequence {
        Sequence::Initialize | Sequence::InitializeWithLoopback => initialize_due(at, word),
        Sequence::EnableLinearAddressing => enable_linear_addressing_due(at, config, word),
        Sequence::EnableIoMode => enable_io_mode_due(at, config, word),
        Sequence::Disable => disable_due(at, config),
    }
}
