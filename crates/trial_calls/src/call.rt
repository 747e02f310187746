// The calls by name, and the start of each.
ghost use Rattle.std.specs.Prelude.{◌≡◌, Some};
ghost use Rattle.trial_calls.specs.Names.{call_name};
ghost use Rattle.trial_calls.specs.Starts.{config_of, clock_of, baud_of, start_of};

use qspi_calls::start;
use qspi_calls::start::Config;
use qspi_operation::Op;
use std::fmt;
use zynq7000::qspi::BaudRateDivisor;
use zynq7000::slcr::clocks::SrcSelIo;
use zynq7000_hal::qspi::{BaudRateConfig, ClockConfig};

// `read_fast_read` counts as two, without a dummy byte and with one.
#[derive(Clone, Copy, Debug, PartialEq, Eq)]
pub enum Call {
    Initialize,
    EnableLinearAddressing,
    EnableIoMode,
    Disable,
    WriteEnable,
    WriteDisable,
    ClearStatus,
    WriteStatus,
    WriteStatusAndConfigRegister,
    ReadStatusRegister1,
    ReadConfigurationRegister,
    ReadRdidBase,
    ReadRdidExtended,
    New,
    SetWriteProtection,
    EraseSector,
    Program,
    WritePages,
    ReadPageRead,
    ReadFastRead,
    ReadFastReadDummy,
    EraseSectors,
}

pub const CALLS: [Call; 22] = [
    Call::Initialize,
    Call::EnableLinearAddressing,
    Call::EnableIoMode,
    Call::Disable,
    Call::WriteEnable,
    Call::WriteDisable,
    Call::ClearStatus,
    Call::WriteStatus,
    Call::WriteStatusAndConfigRegister,
    Call::ReadStatusRegister1,
    Call::ReadConfigurationRegister,
    Call::ReadRdidBase,
    Call::ReadRdidExtended,
    Call::New,
    Call::SetWriteProtection,
    Call::EraseSector,
    Call::Program,
    Call::WritePages,
    Call::ReadPageRead,
    Call::ReadFastRead,
    Call::ReadFastReadDummy,
    Call::EraseSectors,
];

impl Call {
    // The Rust's name.
    pub fn name(self) -> &'static str
        ensures name { result.now ≡ call_name self }
    {
        match self {
            Call::Initialize => "initialize",
            Call::EnableLinearAddressing => "enable_linear_addressing",
            Call::EnableIoMode => "enable_io_mode",
            Call::Disable => "disable",
            Call::WriteEnable => "write_enable",
            Call::WriteDisable => "write_disable",
            Call::ClearStatus => "clear_status",
            Call::WriteStatus => "write_status",
            Call::WriteStatusAndConfigRegister => "write_status_and_config_register",
            Call::ReadStatusRegister1 => "read_status_register_1",
            Call::ReadConfigurationRegister => "read_configuration_register",
            Call::ReadRdidBase => "read_rdid_base",
            Call::ReadRdidExtended => "read_rdid_extended",
            Call::New => "new",
            Call::SetWriteProtection => "set_write_protection",
            Call::EraseSector => "erase_sector",
            Call::Program => "program",
            Call::WritePages => "write_pages",
            Call::ReadPageRead => "read_page_read",
            Call::ReadFastRead => "read_fast_read",
            Call::ReadFastReadDummy => "read_fast_read_dummy",
            Call::EraseSectors => "erase_sectors",
        }
    }

    // The call's start over a log of so many words. `a` is an address, a word, a byte or a flag, `b` a length,
    // a byte or a choice of settings, as the call has it; only `EraseSectors` takes the list.
    pub fn start(self, a: u32, b: usize, list: &[u32], log: usize) -> Op
        ensures start { result ≡ start_of self a b list.now log }
    {
        let low = (a % 0x100) as u8;
        match self {
            Call::Initialize => start::initialize(
                clock(low, b / 4),
                b / 2 % 2 == 1,
                b % 2 == 1,
                log,
            ),
            Call::EnableLinearAddressing => start::enable_linear_addressing(a, log),
            Call::EnableIoMode => start::enable_io_mode(a == 1, log),
            Call::Disable => start::disable(log),
            Call::WriteEnable => start::write_enable(log),
            Call::WriteDisable => start::write_disable(log),
            Call::ClearStatus => start::clear_status(log),
            Call::WriteStatus => start::write_status(low, log),
            Call::WriteStatusAndConfigRegister => {
                start::write_status_and_config_register(low, (b % 0x100) as u8, log)
            }
            Call::ReadStatusRegister1 => start::read_status_register_1(log),
            Call::ReadConfigurationRegister => start::read_configuration_register(log),
            Call::ReadRdidBase => start::read_rdid_base(log),
            Call::ReadRdidExtended => start::read_rdid_extended(log),
            Call::New => start::new(config(low, b), log),
            Call::SetWriteProtection => start::set_write_protection(low, log),
            Call::EraseSector => start::erase_sector(a, log),
            Call::Program => start::program(a, b, log),
            Call::WritePages => start::write_pages(a, b, log),
            Call::ReadPageRead => start::read_page_read(a, b, log),
            Call::ReadFastRead => start::read_fast_read(a, false, b, log),
            Call::ReadFastReadDummy => start::read_fast_read(a, true, b, log),
            Call::EraseSectors => start::erase_sectors(list, log),
        }
    }
}

impl fmt::Display for Call {
    ghost output = { λ call. Some (call_name call) };

    fn fmt<W: fmt::Write>(&self, f: &mut fmt::Formatter<W>) -> fmt::Result {
        f.write_str(self.name())
    }
}

fn clock(ref_clk_div: u8, baud: usize) -> ClockConfig
    ensures clock { result ≡ clock_of ref_clk_div baud }
{
    ClockConfig {
        src_sel: SrcSelIo::IoPll,
        ref_clk_div,
        baud_rate_config: baud_rate_config(baud),
    }
}

// `config_words` and `register_words` list them too: neither names this crate, and zynq7000 has no list.
const DIVISORS: [BaudRateDivisor; 8] = [
    BaudRateDivisor::_2,
    BaudRateDivisor::_4,
    BaudRateDivisor::_8,
    BaudRateDivisor::_16,
    BaudRateDivisor::_32,
    BaudRateDivisor::_64,
    BaudRateDivisor::_128,
    BaudRateDivisor::_256,
];

// Behind the last divisor stands loopback.
fn baud_rate_config(place: usize) -> BaudRateConfig
    ensures config { result ≡ baud_of place }
{
    match DIVISORS.get(place) {
        Some(divisor) => BaudRateConfig::WithoutLoopback(*divisor),
        None => BaudRateConfig::WithLoopback,
    }
}

// What is asked for by bits: 0 quad, 1 no protection, 2 a latency.
fn config(code: u8, wanted: usize) -> Config
    ensures config { result ≡ config_of code wanted }
{
    Config {
        set_quad_bit_if_necessary: wanted % 2 == 1,
        latency_config: (wanted / 4 % 2 == 1).then_some(code),
        clear_write_protection: wanted / 2 % 2 == 1,
    }
}
