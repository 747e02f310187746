// The driver's calls with numbers and slices in, a struct of numbers out: what `qspi_abi_c` exports to C and
// Rust. `include/qspi.h` declares these functions and says what the numbers are. Each runs one call from
// its start to its end over the replies and the log lent; any input gets an answer. The structs are C's: an
// answer's number stands beside its values, which are 0 where it has none, and an id's codes are numbers. So are
// the parameters: a flag stands beside the value that it is about.
#![tactic(auto)]

ghost use Rattle.std.specs.Prelude.{◌≡◌, true, false, ℕ, ◌/◌, length, List, [], Ok};
ghost use Rattle.zynq7000_hal.specs.Clocks.{answer_of, calculate_answer, loopback_answer};
ghost use Rattle.zynq7000.specs.Qspi.{linear_word};
ghost use Rattle.zynq7000_hal.specs.Presets.{preset as preset_words};
ghost use Rattle.zedboard_bsp.specs.DeviceId.{base_bytes, extended_bytes, reply_bytes, long_reply_bytes};
ghost use Rattle.qspi_script.specs.Answer.{said_by};
ghost use Rattle.qspi_operation.specs.Points.{answered_of};
ghost use Rattle.qspi_operation.specs.Follows.{answer_by};
ghost use Rattle.qspi_operation.specs.Machine.{called};
ghost use Rattle.qspi_calls.specs.Calls as call;
ghost use Rattle.qspi_calls.specs.Promise.{kept_of, logged_of, buffered_of};
ghost use Rattle.power_cut.specs.Promise.{answer_of as pages_answer};
ghost use Rattle.qspi_abi.specs.Codes as codes;
ghost use Rattle.qspi_abi.specs.Numbers as numbers;
ghost use Rattle.qspi_calls.specs.OneByOne.{Accepted};
ghost use Rattle.power_cut.specs.SectorPromise.{sectors_answer};
ghost use Rattle.qspi_abi.specs.Saved.{SavedNumbers};
ghost use Rattle.qspi_abi.specs.Cleared.{SingleNumbers, ClearedNumbers};

use power_cut::{PagesRan, SectorsRan};
use qspi_calls::start::Config;
use qspi_calls::{run, start};
use qspi_operation::{Op, Stepped};
use qspi_script::Status;
use zedboard_bsp::qspi_spansion::device_id::{BaseDeviceId, ExtendedDeviceId, UnknownCode};
use zynq7000::qspi::InstructionCode;
use zynq7000_hal::clocks::Clocks;
use zynq7000_hal::qspi;
use zynq7000_hal::qspi::{ClockCalculationError, ClockConfig, QspiDeviceCombination};

mod codes;

#[repr(C)]
#[derive(Clone, Copy)]
pub struct QspiRan {
    pub answer: u32,
    pub used: usize,
    pub replies: usize,
}

#[repr(C)]
#[derive(Clone, Copy)]
pub struct QspiPagesRan {
    pub answer: u32,
    pub programmed: usize,
    pub used: usize,
    pub replies: usize,
}

#[repr(C)]
#[derive(Clone, Copy)]
pub struct QspiSectorsRan {
    pub answer: u32,
    pub place: u32,
    pub finished: usize,
    pub used: usize,
    pub replies: usize,
}

#[repr(C)]
#[derive(Clone, Copy)]
pub struct QspiValueRan {
    pub answer: u32,
    pub value: u32,
    pub used: usize,
    pub replies: usize,
}

#[repr(C)]
#[derive(Clone, Copy)]
pub struct QspiIdRan {
    pub answer: u32,
    pub manufacturer_id: u32,
    pub device_id: u32,
    pub memory_interface_type: u32,
    pub density: u32,
    pub used: usize,
    pub replies: usize,
}

#[repr(C)]
#[derive(Clone, Copy)]
pub struct QspiLongIdRan {
    pub answer: u32,
    pub manufacturer_id: u32,
    pub device_id: u32,
    pub memory_interface_type: u32,
    pub density: u32,
    pub id_cfi_len: u32,
    pub sector_arch_raw: u32,
    pub sector_arch: u32,
    pub family_id: u32,
    pub model_number: u32,
    pub used: usize,
    pub replies: usize,
}

#[repr(C)]
#[derive(Clone, Copy)]
pub struct QspiClockConfig {
    pub answer: u32,
    pub src_sel: u32,
    pub ref_clk_div: u32,
    pub loopback: u32,
    pub baud_rate_divisor: u32,
}

#[repr(C)]
#[derive(Clone, Copy)]
pub struct QspiPreset {
    pub answer: u32,
    pub value: u32,
}

// Stands for the number of a call that goes on; no run ends so.
const GOES_ON: u32 = 0xFFFF_FFFF;

// The number of an answer, whatever its values.
fn number_of(answer: Status) -> u32
    ensures number { (vs : List ℕ) → result ≡ numbers.answer_number (said_by answer vs) }
{
    answer.number().unwrap_or(GOES_ON)
}

impl From<Stepped> for QspiRan {
    ghost from_gives = { λ s r. r ≡ numbers.ran (answer_by s) };

    fn from(s: Stepped) -> Self {
        QspiRan {
            answer: number_of(s.answer),
            used: s.op.used,
            replies: s.op.replies,
        }
    }
}

impl From<Stepped> for QspiValueRan {
    ghost from_gives = { λ s r. r ≡ numbers.valued (answer_by s) };

    fn from(s: Stepped) -> Self {
        QspiValueRan {
            answer: number_of(s.answer),
            value: run::value(s),
            used: s.op.used,
            replies: s.op.replies,
        }
    }
}

impl From<PagesRan> for QspiPagesRan {
    ghost from_gives = { λ pages r. r ≡ numbers.pages (pages_answer pages) };

    fn from(pages: PagesRan) -> Self {
        let ran = pages.ran;
        QspiPagesRan {
            answer: number_of(ran.answer),
            programmed: pages.programmed,
            used: ran.used,
            replies: ran.replies,
        }
    }
}

impl From<SectorsRan> for QspiSectorsRan {
    ghost from_gives = { λ sectors r. r ≡ numbers.with_place (sectors_answer sectors) sectors.place };

    fn from(sectors: SectorsRan) -> Self {
        let ran = sectors.ran;
        QspiSectorsRan {
            answer: number_of(ran.answer),
            place: sectors.place,
            finished: sectors.finished,
            used: ran.used,
            replies: ran.replies,
        }
    }
}

// A call that is lent replies and a log, from its start to its end.
fn command(op: Op, replies: &[u32], log: &mut [u32]) -> QspiRan
    ensures called { numbers.Commands op log.old replies.now result log.new }
{
    QspiRan::from(run::command(op, replies, log))
}

// One that gives a number: a register of the chip, or the SLCR clock word. One generic function for this and
// `command` would leave what either promises to be shown at each call.
fn valued(op: Op, replies: &[u32], log: &mut [u32]) -> QspiValueRan
    ensures called { numbers.Gives op log.old replies.now result log.new }
{
    QspiValueRan::from(run::command(op, replies, log))
}

// One that is lent a buffer too.
fn read(op: Op, buffer: &mut [u8], replies: &[u32], log: &mut [u32]) -> QspiRan
    ensures called { numbers.Reads op buffer.old log.old replies.now result buffer.new log.new }
{
    QspiRan::from(qspi_operation::run(op, &[], buffer, log, replies))
}

// The id that the replies carry, where the call is done.
fn id_of(s: Stepped) -> BaseDeviceId
    ensures id { base_bytes result ≡ reply_bytes (kept_of s.answer s.op.wire.last) }
{
    BaseDeviceId::from_reply(run::kept(s.answer, s.op.wire.last))
}

fn long_id_of(s: Stepped) -> ExtendedDeviceId
    ensures id { extended_bytes result ≡ long_reply_bytes (kept_of s.answer s.op.wire.older) (kept_of s.answer s.op.wire.old) (kept_of s.answer s.op.wire.last) }
{
    let wire = s.op.wire;
    ExtendedDeviceId::from_replies(
        run::kept(s.answer, wire.older),
        run::kept(s.answer, wire.old),
        run::kept(s.answer, wire.last),
    )
}

fn id_out(s: Stepped, id: BaseDeviceId) -> QspiIdRan
    ensures numbers { result ≡ numbers.with_id (answer_by s) (base_bytes id) }
{
    QspiIdRan {
        answer: number_of(s.answer),
        manufacturer_id: id.manufacturer_id() as u32,
        device_id: id.device_id_raw() as u32,
        memory_interface_type: codes::number(id.memory_interface_type()),
        density: codes::number(id.density()),
        used: s.op.used,
        replies: s.op.replies,
    }
}

fn long_id_out(s: Stepped, long: ExtendedDeviceId) -> QspiLongIdRan
    ensures numbers { result ≡ numbers.with_long_id (answer_by s) (extended_bytes long) }
{
    let id = long.base_id();
    QspiLongIdRan {
        answer: number_of(s.answer),
        manufacturer_id: id.manufacturer_id() as u32,
        device_id: id.device_id_raw() as u32,
        memory_interface_type: codes::number(id.memory_interface_type()),
        density: codes::number(id.density()),
        id_cfi_len: long.id_cfi_len() as u32,
        sector_arch_raw: long.sector_arch_raw() as u32,
        sector_arch: codes::number(long.sector_arch()),
        family_id: long.family_id() as u32,
        model_number: u16::from_be_bytes(long.model_number_raw()) as u32,
        used: s.op.used,
        replies: s.op.replies,
    }
}

fn clock_refused(answer: u32) -> QspiClockConfig
    ensures numbers { result ≡ numbers.clock_config (record { number = answer; values = [] }) }
{
    QspiClockConfig {
        answer,
        src_sel: 0,
        ref_clk_div: 0,
        loopback: 0,
        baud_rate_divisor: 0,
    }
}

impl From<ClockConfig> for QspiClockConfig {
    ghost from_gives = { λ config r. r ≡ numbers.clock_config (answer_of (Ok config)) };

    fn from(config: ClockConfig) -> Self {
        let baud_rate = config.baud_rate_config;
        QspiClockConfig {
            answer: 0,
            src_sel: config.src_sel.raw_value(),
            ref_clk_div: config.ref_clk_div as u32,
            loopback: codes::loopback_number(baud_rate),
            baud_rate_divisor: baud_rate.baud_rate_divisor().divisor(),
        }
    }
}

impl From<Result<ClockConfig, ClockCalculationError>> for QspiClockConfig {
    ghost from_gives = { λ calculation r. r ≡ numbers.clock_config (answer_of calculation) };

    fn from(calculation: Result<ClockConfig, ClockCalculationError>) -> Self {
        match calculation {
            Ok(config) => config.into(),
            Err(error) => clock_refused(error.number() as u32),
        }
    }
}

#[unsafe(no_mangle)]
pub extern "C" fn qspi_calculate(
    src_sel: u8,
    io_ref_clk: u32,
    arm_ref_clk: u32,
    ddr_ref_clk: u32,
    cpu_1x_clk: u32,
    target_qspi_ref_clock: u32,
    target_qspi_interface_clock: u32,
) -> QspiClockConfig
    ensures config { result ≡ numbers.clock_config (codes.from_source src_sel (λ s. calculate_answer s (record { io_ref_clk = io_ref_clk; arm_ref_clk = arm_ref_clk; ddr_ref_clk = ddr_ref_clk; cpu_1x_clk = cpu_1x_clk }) target_qspi_ref_clock target_qspi_interface_clock)) }
{
    let Ok(source) = codes::source(src_sel) else {
        return clock_refused(codes::FIELD_TOO_WIDE);
    };
    let clocks = Clocks {
        io_ref_clk,
        arm_ref_clk,
        ddr_ref_clk,
        cpu_1x_clk,
    };
    QspiClockConfig::from(ClockConfig::calculate(
        source,
        clocks,
        target_qspi_ref_clock,
        target_qspi_interface_clock,
    ))
}

#[unsafe(no_mangle)]
pub extern "C" fn qspi_calculate_with_loopback(
    src_sel: u8,
    io_ref_clk: u32,
    arm_ref_clk: u32,
    ddr_ref_clk: u32,
    cpu_1x_clk: u32,
    target_qspi_interface_clock: u32,
) -> QspiClockConfig
    ensures config { result ≡ numbers.clock_config (codes.from_source src_sel (λ s. loopback_answer s (record { io_ref_clk = io_ref_clk; arm_ref_clk = arm_ref_clk; ddr_ref_clk = ddr_ref_clk; cpu_1x_clk = cpu_1x_clk }) target_qspi_interface_clock)) }
{
    let Ok(source) = codes::source(src_sel) else {
        return clock_refused(codes::FIELD_TOO_WIDE);
    };
    let clocks = Clocks {
        io_ref_clk,
        arm_ref_clk,
        ddr_ref_clk,
        cpu_1x_clk,
    };
    QspiClockConfig::from(ClockConfig::calculate_with_loopback(
        source,
        clocks,
        target_qspi_interface_clock,
    ))
}

// The preset of a read instruction.
fn preset(micron: bool, operating_mode: InstructionCode, two_devices: bool) -> QspiPreset
    ensures config { result ≡ record { answer = 0; value = linear_word (preset_words (codes.vendor_of micron) operating_mode two_devices) } }
{
    let combination = QspiDeviceCombination {
        vendor: codes::vendor(micron),
        operating_mode,
        two_devices,
    };
    let config = qspi::linear_mode_config_for_common_devices(combination);
    QspiPreset {
        answer: 0,
        value: config.0,
    }
}

#[unsafe(no_mangle)]
pub extern "C" fn qspi_linear_mode_config(
    micron: bool,
    operating_mode: u8,
    two_devices: bool,
) -> QspiPreset
    ensures config { result ≡ numbers.linear_config (codes.preset_answer micron operating_mode two_devices) }
{
    match codes::instruction(operating_mode) {
        Ok(instruction) => preset(micron, instruction, two_devices),
        Err(UnknownCode(byte)) => QspiPreset {
            answer: codes::UNKNOWN_CODE,
            value: byte as u32,
        },
    }
}

fn initialize(
    clock_config: ClockConfig,
    phase: bool,
    polarity: bool,
    replies: &[u32],
    log: &mut [u32],
) -> QspiValueRan
    ensures ran { result ≡ numbers.valued (answered_of (called (call.initialize clock_config phase polarity) (length log.old / 2) replies.now)) }
    ensures logged { log.new ≡ logged_of (called (call.initialize clock_config phase polarity) (length log.old / 2) replies.now) log.old }
{
    let op = start::initialize(clock_config, phase, polarity, log.len());
    valued(op, replies, log)
}

#[unsafe(no_mangle)]
pub extern "C" fn qspi_initialize(
    src_sel: u8,
    ref_clk_div: u8,
    loopback: bool,
    baud_rate_div: u8,
    phase: bool,
    polarity: bool,
    replies: &[u32],
    log: &mut [u32],
) -> QspiValueRan
    ensures ran { result ≡ numbers.valued (answered_of (called (codes.initialize src_sel ref_clk_div loopback baud_rate_div phase polarity) (length log.old / 2) replies.now)) }
    ensures logged { log.new ≡ logged_of (called (codes.initialize src_sel ref_clk_div loopback baud_rate_div phase polarity) (length log.old / 2) replies.now) log.old }
{
    match codes::clock_config(src_sel, ref_clk_div, loopback, baud_rate_div) {
        Ok(config) => initialize(config, phase, polarity, replies, log),
        Err(_) => QspiValueRan {
            answer: codes::FIELD_TOO_WIDE,
            value: 0,
            used: 0,
            replies: 0,
        },
    }
}

#[unsafe(no_mangle)]
pub extern "C" fn qspi_new(
    set_quad_bit_if_necessary: bool,
    set_latency: bool,
    latency: u8,
    clear_write_protection: bool,
    replies: &[u32],
    log: &mut [u32],
) -> QspiRan
    ensures ran { result ≡ numbers.ran (answered_of (called (call.new_call (record { set_quad_bit_if_necessary = set_quad_bit_if_necessary; latency_config = codes.latency_of set_latency latency; clear_write_protection = clear_write_protection })) (length log.old / 2) replies.now)) }
    ensures logged { log.new ≡ logged_of (called (call.new_call (record { set_quad_bit_if_necessary = set_quad_bit_if_necessary; latency_config = codes.latency_of set_latency latency; clear_write_protection = clear_write_protection })) (length log.old / 2) replies.now) log.old }
{
    let config = Config {
        set_quad_bit_if_necessary,
        latency_config: set_latency.then_some(latency),
        clear_write_protection,
    };
    let op = start::new(config, log.len());
    command(op, replies, log)
}

#[unsafe(no_mangle)]
pub extern "C" fn qspi_enable_linear_addressing(
    config: u32,
    replies: &[u32],
    log: &mut [u32],
) -> QspiRan
    ensures ran { result ≡ numbers.ran (answered_of (called (call.enable_linear_addressing config) (length log.old / 2) replies.now)) }
    ensures logged { log.new ≡ logged_of (called (call.enable_linear_addressing config) (length log.old / 2) replies.now) log.old }
{
    let op = start::enable_linear_addressing(config, log.len());
    command(op, replies, log)
}

#[unsafe(no_mangle)]
pub extern "C" fn qspi_enable_io_mode(dual_flash: bool, replies: &[u32], log: &mut [u32]) -> QspiRan
    ensures ran { result ≡ numbers.ran (answered_of (called (call.enable_io_mode dual_flash) (length log.old / 2) replies.now)) }
    ensures logged { log.new ≡ logged_of (called (call.enable_io_mode dual_flash) (length log.old / 2) replies.now) log.old }
{
    let op = start::enable_io_mode(dual_flash, log.len());
    command(op, replies, log)
}

#[unsafe(no_mangle)]
pub extern "C" fn qspi_disable(replies: &[u32], log: &mut [u32]) -> QspiRan
    ensures ran { result ≡ numbers.ran (answered_of (called call.disable (length log.old / 2) replies.now)) }
    ensures logged { log.new ≡ logged_of (called call.disable (length log.old / 2) replies.now) log.old }
{
    let op = start::disable(log.len());
    command(op, replies, log)
}

#[unsafe(no_mangle)]
pub extern "C" fn qspi_set_write_protection(
    protection: u8,
    replies: &[u32],
    log: &mut [u32],
) -> QspiRan
    ensures ran { result ≡ numbers.ran (answered_of (called (call.set_write_protection protection) (length log.old / 2) replies.now)) }
    ensures logged { log.new ≡ logged_of (called (call.set_write_protection protection) (length log.old / 2) replies.now) log.old }
{
    let op = start::set_write_protection(protection, log.len());
    command(op, replies, log)
}

#[unsafe(no_mangle)]
pub extern "C" fn qspi_write_enable(replies: &[u32], log: &mut [u32]) -> QspiRan
    ensures ran { result ≡ numbers.ran (answered_of (called call.write_enable (length log.old / 2) replies.now)) }
    ensures logged { log.new ≡ logged_of (called call.write_enable (length log.old / 2) replies.now) log.old }
{
    let op = start::write_enable(log.len());
    command(op, replies, log)
}

#[unsafe(no_mangle)]
pub extern "C" fn qspi_write_disable(replies: &[u32], log: &mut [u32]) -> QspiRan
    ensures ran { result ≡ numbers.ran (answered_of (called call.write_disable (length log.old / 2) replies.now)) }
    ensures logged { log.new ≡ logged_of (called call.write_disable (length log.old / 2) replies.now) log.old }
{
    let op = start::write_disable(log.len());
    command(op, replies, log)
}

#[unsafe(no_mangle)]
pub extern "C" fn qspi_clear_status(replies: &[u32], log: &mut [u32]) -> QspiRan
    ensures ran { result ≡ numbers.ran (answered_of (called call.clear_status (length log.old / 2) replies.now)) }
    ensures logged { log.new ≡ logged_of (called call.clear_status (length log.old / 2) replies.now) log.old }
{
    let op = start::clear_status(log.len());
    command(op, replies, log)
}

#[unsafe(no_mangle)]
pub extern "C" fn qspi_write_status(sr: u8, replies: &[u32], log: &mut [u32]) -> QspiRan
    ensures ran { result ≡ numbers.ran (answered_of (called (call.write_status sr) (length log.old / 2) replies.now)) }
    ensures logged { log.new ≡ logged_of (called (call.write_status sr) (length log.old / 2) replies.now) log.old }
{
    let op = start::write_status(sr, log.len());
    command(op, replies, log)
}

#[unsafe(no_mangle)]
pub extern "C" fn qspi_write_status_and_config_register(
    sr: u8,
    cr: u8,
    replies: &[u32],
    log: &mut [u32],
) -> QspiRan
    ensures ran { result ≡ numbers.ran (answered_of (called (call.write_registers sr cr) (length log.old / 2) replies.now)) }
    ensures logged { log.new ≡ logged_of (called (call.write_registers sr cr) (length log.old / 2) replies.now) log.old }
{
    let op = start::write_status_and_config_register(sr, cr, log.len());
    command(op, replies, log)
}

#[unsafe(no_mangle)]
pub extern "C" fn qspi_erase_sector(addr: u32, replies: &[u32], log: &mut [u32]) -> QspiRan
    ensures ran { result ≡ numbers.ran (answered_of (called (call.erase_sector addr) (length log.old / 2) replies.now)) }
    ensures logged { log.new ≡ logged_of (called (call.erase_sector addr) (length log.old / 2) replies.now) log.old }
{
    let op = start::erase_sector(addr, log.len());
    command(op, replies, log)
}

#[unsafe(no_mangle)]
pub extern "C" fn qspi_erase_sectors(
    list: &[u32],
    replies: &[u32],
    log: &mut [u32],
) -> QspiSectorsRan
    ensures ran { result ≡ numbers.sectors (answered_of (called (call.erase_sectors list.now) (length log.old / 2) replies.now)) }
    ensures logged { log.new ≡ logged_of (called (call.erase_sectors list.now) (length log.old / 2) replies.now) log.old }
    ensures singles { Accepted list.now → SingleNumbers list.now (length log.old / 2) replies.now log.old result log.new }
    ensures shown { ClearedNumbers list.now result log.new }
{
    QspiSectorsRan::from(power_cut::erase_sectors(list, replies, log))
}

#[unsafe(no_mangle)]
pub extern "C" fn qspi_program(addr: u32, data: &[u8], replies: &[u32], log: &mut [u32]) -> QspiRan
    ensures ran { result ≡ numbers.ran (answered_of (called (call.program addr «data».now) (length log.old / 2) replies.now)) }
    ensures logged { log.new ≡ logged_of (called (call.program addr «data».now) (length log.old / 2) replies.now) log.old }
{
    let op = start::program(addr, data.len(), log.len());
    QspiRan::from(qspi_operation::run(op, data, &mut [], log, replies))
}

#[unsafe(no_mangle)]
pub extern "C" fn qspi_read_page_read(
    addr: u32,
    buffer: &mut [u8],
    replies: &[u32],
    log: &mut [u32],
) -> QspiRan
    ensures ran { result ≡ numbers.ran (answered_of (called (call.read false false addr (length buffer.old)) (length log.old / 2) replies.now)) }
    ensures logged { log.new ≡ logged_of (called (call.read false false addr (length buffer.old)) (length log.old / 2) replies.now) log.old }
    ensures stored { buffer.new ≡ buffered_of (called (call.read false false addr (length buffer.old)) (length log.old / 2) replies.now) buffer.old }
{
    let op = start::read_page_read(addr, buffer.len(), log.len());
    read(op, buffer, replies, log)
}

#[unsafe(no_mangle)]
pub extern "C" fn qspi_read_fast_read(
    addr: u32,
    dummy_byte: bool,
    buffer: &mut [u8],
    replies: &[u32],
    log: &mut [u32],
) -> QspiRan
    ensures ran { result ≡ numbers.ran (answered_of (called (call.read true dummy_byte addr (length buffer.old)) (length log.old / 2) replies.now)) }
    ensures logged { log.new ≡ logged_of (called (call.read true dummy_byte addr (length buffer.old)) (length log.old / 2) replies.now) log.old }
    ensures stored { buffer.new ≡ buffered_of (called (call.read true dummy_byte addr (length buffer.old)) (length log.old / 2) replies.now) buffer.old }
{
    let op = start::read_fast_read(addr, dummy_byte, buffer.len(), log.len());
    read(op, buffer, replies, log)
}

#[unsafe(no_mangle)]
pub extern "C" fn qspi_read_status_register_1(replies: &[u32], log: &mut [u32]) -> QspiValueRan
    ensures ran { result ≡ numbers.valued (answered_of (called call.read_status (length log.old / 2) replies.now)) }
    ensures logged { log.new ≡ logged_of (called call.read_status (length log.old / 2) replies.now) log.old }
{
    let op = start::read_status_register_1(log.len());
    valued(op, replies, log)
}

#[unsafe(no_mangle)]
pub extern "C" fn qspi_read_configuration_register(replies: &[u32], log: &mut [u32]) -> QspiValueRan
    ensures ran { result ≡ numbers.valued (answered_of (called call.read_config (length log.old / 2) replies.now)) }
    ensures logged { log.new ≡ logged_of (called call.read_config (length log.old / 2) replies.now) log.old }
{
    let op = start::read_configuration_register(log.len());
    valued(op, replies, log)
}

#[unsafe(no_mangle)]
pub extern "C" fn qspi_read_rdid_base(replies: &[u32], log: &mut [u32]) -> QspiIdRan
    ensures ran { result ≡ numbers.identified (answered_of (called call.read_id (length log.old / 2) replies.now)) }
    ensures logged { log.new ≡ logged_of (called call.read_id (length log.old / 2) replies.now) log.old }
{
    let op = start::read_rdid_base(log.len());
    let s = run::command(op, replies, log);
    id_out(s, id_of(s))
}

#[unsafe(no_mangle)]
pub extern "C" fn qspi_read_rdid_extended(replies: &[u32], log: &mut [u32]) -> QspiLongIdRan
    ensures ran { result ≡ numbers.identified_at_length (answered_of (called call.read_long_id (length log.old / 2) replies.now)) }
    ensures logged { log.new ≡ logged_of (called call.read_long_id (length log.old / 2) replies.now) log.old }
{
    let op = start::read_rdid_extended(log.len());
    let s = run::command(op, replies, log);
    long_id_out(s, long_id_of(s))
}

#[unsafe(no_mangle)]
pub extern "C" fn qspi_write_pages(
    addr: u32,
    data: &[u8],
    replies: &[u32],
    log: &mut [u32],
) -> QspiPagesRan
    ensures ran { result ≡ numbers.pages (answered_of (called (call.write_pages addr «data».now) (length log.old / 2) replies.now)) }
    ensures logged { log.new ≡ logged_of (called (call.write_pages addr «data».now) (length log.old / 2) replies.now) log.old }
    ensures cut { SavedNumbers addr «data».now result log.new }
{
    QspiPagesRan::from(power_cut::write_pages(addr, data, replies, log))
}
