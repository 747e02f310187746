// The exports of the static library, for programs in C and Rust: numbers and slices in, a struct of numbers
// out. `include/qspi.h` declares them and says what the numbers are. Each calls the function of its name in
// `qspi_abi` and promises the same. Names, numbers and flags are C's, and stay as the header declares them:
// no enum, Option or Result crosses this boundary.
#![tactic(auto)]

ghost use Rattle.std.specs.Prelude.{◌≡◌, true, false, ◌/◌, length};
ghost use Rattle.zynq7000_hal.specs.Clocks.{calculate_answer, loopback_answer};
ghost use Rattle.qspi_operation.specs.Points.{answered_of};
ghost use Rattle.qspi_operation.specs.Machine.{called};
ghost use Rattle.qspi_calls.specs.Calls as call;
ghost use Rattle.qspi_calls.specs.Promise.{logged_of, buffered_of};
ghost use Rattle.qspi_abi.specs.Codes as codes;
ghost use Rattle.qspi_abi.specs.Numbers as numbers;
ghost use Rattle.qspi_calls.specs.OneByOne.{Accepted};
ghost use Rattle.qspi_abi.specs.Saved.{SavedNumbers};
ghost use Rattle.qspi_abi.specs.Cleared.{SingleNumbers, ClearedNumbers};

use qspi_abi::{
    QspiClockConfig, QspiIdRan, QspiLongIdRan, QspiPagesRan, QspiPreset, QspiRan, QspiSectorsRan,
    QspiValueRan,
};

#[unsafe(no_mangle)]
pub extern "C" fn qspi_calculate(
    src_sel: u8,
    io_ref_clk: u32,
    arm_ref_clk: u32,
    ddr_ref_clk: u32,
    cpu_1x_clk: u32,
    target_qspi_ref_clock: u32,
    target_qspi_interface_clock: u32,
) -> QspiClockConfig
    ensures config { result ≡ numbers.clock_config (codes.from_source src_sel (λ s. calculate_answer s (record { io_ref_clk = io_ref_clk; arm_ref_clk = arm_ref_clk; ddr_ref_clk = ddr_ref_clk; cpu_1x_clk = cpu_1x_clk }) target_qspi_ref_clock target_qspi_interface_clock)) }
{
    qspi_abi::qspi_calculate(
        src_sel,
        io_ref_clk,
        arm_ref_clk,
        ddr_ref_clk,
        cpu_1x_clk,
        target_qspi_ref_clock,
        target_qspi_interface_clock,
    )
}

#[unsafe(no_mangle)]
pub extern "C" fn qspi_calculate_with_loopback(
    src_sel: u8,
    io_ref_clk: u32,
    arm_ref_clk: u32,
    ddr_ref_clk: u32,
    cpu_1x_clk: u32,
    target_qspi_interface_clock: u32,
) -> QspiClockConfig
    ensures config { result ≡ numbers.clock_config (codes.from_source src_sel (λ s. loopback_answer s (record { io_ref_clk = io_ref_clk; arm_ref_clk = arm_ref_clk; ddr_ref_clk = ddr_ref_clk; cpu_1x_clk = cpu_1x_clk }) target_qspi_interface_clock)) }
{
    qspi_abi::qspi_calculate_with_loopback(
        src_sel,
        io_ref_clk,
        arm_ref_clk,
        ddr_ref_clk,
        cpu_1x_clk,
        target_qspi_interface_clock,
    )
}

#[unsafe(no_mangle)]
pub extern "C" fn qspi_linear_mode_config(
    micron: bool,
    operating_mode: u8,
    two_devices: bool,
) -> QspiPreset
    ensures config { result ≡ numbers.linear_config (codes.preset_answer micron operating_mode two_devices) }
{
    qspi_abi::qspi_linear_mode_config(micron, operating_mode, two_devices)
}

#[unsafe(no_mangle)]
pub extern "C" fn qspi_initialize(
    src_sel: u8,
    ref_clk_div: u8,
    loopback: bool,
    baud_rate_div: u8,
    phase: bool,
    polarity: bool,
    replies: &[u32],
    log: &mut [u32],
) -> QspiValueRan
    ensures ran { result ≡ numbers.valued (answered_of (called (codes.initialize src_sel ref_clk_div loopback baud_rate_div phase polarity) (length log.old / 2) replies.now)) }
    ensures logged { log.new ≡ logged_of (called (codes.initialize src_sel ref_clk_div loopback baud_rate_div phase polarity) (length log.old / 2) replies.now) log.old }
{
    qspi_abi::qspi_initialize(
        src_sel,
        ref_clk_div,
        loopback,
        baud_rate_div,
        phase,
        polarity,
        replies,
        log,
    )
}

#[unsafe(no_mangle)]
pub extern "C" fn qspi_new(
    set_quad_bit_if_necessary: bool,
    set_latency: bool,
    latency: u8,
    clear_write_protection: bool,
    replies: &[u32],
    log: &mut [u32],
) -> QspiRan
    ensures ran { result ≡ numbers.ran (answered_of (called (call.new_call (record { set_quad_bit_if_necessary = set_quad_bit_if_necessary; latency_config = codes.latency_of set_latency latency; clear_write_protection = clear_write_protection })) (length log.old / 2) replies.now)) }
    ensures logged { log.new ≡ logged_of (called (call.new_call (record { set_quad_bit_if_necessary = set_quad_bit_if_necessary; latency_config = codes.latency_of set_latency latency; clear_write_protection = clear_write_protection })) (length log.old / 2) replies.now) log.old }
{
    qspi_abi::qspi_new(
        set_quad_bit_if_necessary,
        set_latency,
        latency,
        clear_write_protection,
        replies,
        log,
    )
}

#[unsafe(no_mangle)]
pub extern "C" fn qspi_enable_linear_addressing(
    config: u32,
    replies: &[u32],
    log: &mut [u32],
) -> QspiRan
    ensures ran { result ≡ numbers.ran (answered_of (called (call.enable_linear_addressing config) (length log.old / 2) replies.now)) }
    ensures logged { log.new ≡ logged_of (called (call.enable_linear_addressing config) (length log.old / 2) replies.now) log.old }
{
    qspi_abi::qspi_enable_linear_addressing(config, replies, log)
}

#[unsafe(no_mangle)]
pub extern "C" fn qspi_enable_io_mode(dual_flash: bool, replies: &[u32], log: &mut [u32]) -> QspiRan
    ensures ran { result ≡ numbers.ran (answered_of (called (call.enable_io_mode dual_flash) (length log.old / 2) replies.now)) }
    ensures logged { log.new ≡ logged_of (called (call.enable_io_mode dual_flash) (length log.old / 2) replies.now) log.old }
{
    qspi_abi::qspi_enable_io_mode(dual_flash, replies, log)
}

#[unsafe(no_mangle)]
pub extern "C" fn qspi_disable(replies: &[u32], log: &mut [u32]) -> QspiRan
    ensures ran { result ≡ numbers.ran (answered_of (called call.disable (length log.old / 2) replies.now)) }
    ensures logged { log.new ≡ logged_of (called call.disable (length log.old / 2) replies.now) log.old }
{
    qspi_abi::qspi_disable(replies, log)
}

#[unsafe(no_mangle)]
pub extern "C" fn qspi_set_write_protection(
    protection: u8,
    replies: &[u32],
    log: &mut [u32],
) -> QspiRan
    ensures ran { result ≡ numbers.ran (answered_of (called (call.set_write_protection protection) (length log.old / 2) replies.now)) }
    ensures logged { log.new ≡ logged_of (called (call.set_write_protection protection) (length log.old / 2) replies.now) log.old }
{
    qspi_abi::qspi_set_write_protection(protection, replies, log)
}

#[unsafe(no_mangle)]
pub extern "C" fn qspi_write_enable(replies: &[u32], log: &mut [u32]) -> QspiRan
    ensures ran { result ≡ numbers.ran (answered_of (called call.write_enable (length log.old / 2) replies.now)) }
    ensures logged { log.new ≡ logged_of (called call.write_enable (length log.old / 2) replies.now) log.old }
{
    qspi_abi::qspi_write_enable(replies, log)
}

#[unsafe(no_mangle)]
pub extern "C" fn qspi_write_disable(replies: &[u32], log: &mut [u32]) -> QspiRan
    ensures ran { result ≡ numbers.ran (answered_of (called call.write_disable (length log.old / 2) replies.now)) }
    ensures logged { log.new ≡ logged_of (called call.write_disable (length log.old / 2) replies.now) log.old }
{
    qspi_abi::qspi_write_disable(replies, log)
}

#[unsafe(no_mangle)]
pub extern "C" fn qspi_clear_status(replies: &[u32], log: &mut [u32]) -> QspiRan
    ensures ran { result ≡ numbers.ran (answered_of (called call.clear_status (length log.old / 2) replies.now)) }
    ensures logged { log.new ≡ logged_of (called call.clear_status (length log.old / 2) replies.now) log.old }
{
    qspi_abi::qspi_clear_status(replies, log)
}

#[unsafe(no_mangle)]
pub extern "C" fn qspi_write_status(sr: u8, replies: &[u32], log: &mut [u32]) -> QspiRan
    ensures ran { result ≡ numbers.ran (answered_of (called (call.write_status sr) (length log.old / 2) replies.now)) }
    ensures logged { log.new ≡ logged_of (called (call.write_status sr) (length log.old / 2) replies.now) log.old }
{
    qspi_abi::qspi_write_status(sr, replies, log)
}

#[unsafe(no_mangle)]
pub extern "C" fn qspi_write_status_and_config_register(
    sr: u8,
    cr: u8,
    replies: &[u32],
    log: &mut [u32],
) -> QspiRan
    ensures ran { result ≡ numbers.ran (answered_of (called (call.write_registers sr cr) (length log.old / 2) replies.now)) }
    ensures logged { log.new ≡ logged_of (called (call.write_registers sr cr) (length log.old / 2) replies.now) log.old }
{
    qspi_abi::qspi_write_status_and_config_register(sr, cr, replies, log)
}

#[unsafe(no_mangle)]
pub extern "C" fn qspi_erase_sector(addr: u32, replies: &[u32], log: &mut [u32]) -> QspiRan
    ensures ran { result ≡ numbers.ran (answered_of (called (call.erase_sector addr) (length log.old / 2) replies.now)) }
    ensures logged { log.new ≡ logged_of (called (call.erase_sector addr) (length log.old / 2) replies.now) log.old }
{
    qspi_abi::qspi_erase_sector(addr, replies, log)
}

#[unsafe(no_mangle)]
pub extern "C" fn qspi_erase_sectors(
    list: &[u32],
    replies: &[u32],
    log: &mut [u32],
) -> QspiSectorsRan
    ensures ran { result ≡ numbers.sectors (answered_of (called (call.erase_sectors list.now) (length log.old / 2) replies.now)) }
    ensures logged { log.new ≡ logged_of (called (call.erase_sectors list.now) (length log.old / 2) replies.now) log.old }
    ensures singles { Accepted list.now → SingleNumbers list.now (length log.old / 2) replies.now log.old result log.new }
    ensures shown { ClearedNumbers list.now result log.new }
{
    qspi_abi::qspi_erase_sectors(list, replies, log)
}

#[unsafe(no_mangle)]
pub extern "C" fn qspi_program(addr: u32, data: &[u8], replies: &[u32], log: &mut [u32]) -> QspiRan
    ensures ran { result ≡ numbers.ran (answered_of (called (call.program addr «data».now) (length log.old / 2) replies.now)) }
    ensures logged { log.new ≡ logged_of (called (call.program addr «data».now) (length log.old / 2) replies.now) log.old }
{
    qspi_abi::qspi_program(addr, data, replies, log)
}

#[unsafe(no_mangle)]
pub extern "C" fn qspi_read_page_read(
    addr: u32,
    buffer: &mut [u8],
    replies: &[u32],
    log: &mut [u32],
) -> QspiRan
    ensures ran { result ≡ numbers.ran (answered_of (called (call.read false false addr (length buffer.old)) (length log.old / 2) replies.now)) }
    ensures logged { log.new ≡ logged_of (called (call.read false false addr (length buffer.old)) (length log.old / 2) replies.now) log.old }
    ensures stored { buffer.new ≡ buffered_of (called (call.read false false addr (length buffer.old)) (length log.old / 2) replies.now) buffer.old }
{
    qspi_abi::qspi_read_page_read(addr, buffer, replies, log)
}

#[unsafe(no_mangle)]
pub extern "C" fn qspi_read_fast_read(
    addr: u32,
    dummy_byte: bool,
    buffer: &mut [u8],
    replies: &[u32],
    log: &mut [u32],
) -> QspiRan
    ensures ran { result ≡ numbers.ran (answered_of (called (call.read true dummy_byte addr (length buffer.old)) (length log.old / 2) replies.now)) }
    ensures logged { log.new ≡ logged_of (called (call.read true dummy_byte addr (length buffer.old)) (length log.old / 2) replies.now) log.old }
    ensures stored { buffer.new ≡ buffered_of (called (call.read true dummy_byte addr (length buffer.old)) (length log.old / 2) replies.now) buffer.old }
{
    qspi_abi::qspi_read_fast_read(addr, dummy_byte, buffer, replies, log)
}

#[unsafe(no_mangle)]
pub extern "C" fn qspi_read_status_register_1(replies: &[u32], log: &mut [u32]) -> QspiValueRan
    ensures ran { result ≡ numbers.valued (answered_of (called call.read_status (length log.old / 2) replies.now)) }
    ensures logged { log.new ≡ logged_of (called call.read_status (length log.old / 2) replies.now) log.old }
{
    qspi_abi::qspi_read_status_register_1(replies, log)
}

#[unsafe(no_mangle)]
pub extern "C" fn qspi_read_configuration_register(replies: &[u32], log: &mut [u32]) -> QspiValueRan
    ensures ran { result ≡ numbers.valued (answered_of (called call.read_config (length log.old / 2) replies.now)) }
    ensures logged { log.new ≡ logged_of (called call.read_config (length log.old / 2) replies.now) log.old }
{
    qspi_abi::qspi_read_configuration_register(replies, log)
}

#[unsafe(no_mangle)]
pub extern "C" fn qspi_read_rdid_base(replies: &[u32], log: &mut [u32]) -> QspiIdRan
    ensures ran { result ≡ numbers.identified (answered_of (called call.read_id (length log.old / 2) replies.now)) }
    ensures logged { log.new ≡ logged_of (called call.read_id (length log.old / 2) replies.now) log.old }
{
    qspi_abi::qspi_read_rdid_base(replies, log)
}

#[unsafe(no_mangle)]
pub extern "C" fn qspi_read_rdid_extended(replies: &[u32], log: &mut [u32]) -> QspiLongIdRan
    ensures ran { result ≡ numbers.identified_at_length (answered_of (called call.read_long_id (length log.old / 2) replies.now)) }
    ensures logged { log.new ≡ logged_of (called call.read_long_id (length log.old / 2) replies.now) log.old }
{
    qspi_abi::qspi_read_rdid_extended(replies, log)
}

#[unsafe(no_mangle)]
pub extern "C" fn qspi_write_pages(
    addr: u32,
    data: &[u8],
    replies: &[u32],
    log: &mut [u32],
) -> QspiPagesRan
    ensures ran { result ≡ numbers.pages (answered_of (called (call.write_pages addr «data».now) (length log.old / 2) replies.now)) }
    ensures logged { log.new ≡ logged_of (called (call.write_pages addr «data».now) (length log.old / 2) replies.now) log.old }
    ensures cut { SavedNumbers addr «data».now result log.new }
{
    qspi_abi::qspi_write_pages(addr, data, replies, log)
}
