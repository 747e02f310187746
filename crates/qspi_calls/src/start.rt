// How the calls start: the input is tested, and the operation is refused, ended, or going on. Names are
// the Rust's, of `QspiLowLevel` and `QspiSpansionS25Fl256SIoMode`. `log`, `data` and `buffer` are the
// lengths of the memory that the steps will be lent. They and what is asked for are plain numbers, as in the
// Rust's calls.
ghost use Rattle.std.specs.Prelude.{◌≡◌, true, false, is_some};
ghost use Rattle.qspi_calls.specs.Starts as spec;
ghost use Rattle.qspi_calls.specs.Calls as call;
ghost use Rattle.qspi_calls.specs.Begins.{Begins, BeginsWith, BeginsInto, BeginsList};
ghost use Rattle.qspi_transfer.specs.declared.low_level.Sequence.TheVariants as sequence;
ghost use Rattle.qspi_script.specs.declared.Stage.TheVariants as stage;
ghost use Rattle.qspi_script.specs.declared.Gives.TheVariants as gives;

use crate::sectors;
use qspi_operation::Op;
use qspi_script::{
    Gives, Job, Lent, LowLevel, Place, Purpose, Reading, Script, Sequel, Stage, Status, Turned,
    Wanted,
};
use qspi_transfer::low_level::Sequence;
use qspi_transfer::{Phase, Wire};
use zedboard_bsp::qspi_spansion::limits;
use zynq7000_hal::qspi::{BaudRateConfig, ClockConfig, FieldTooWide};

// What the status and configuration registers are to be set to by `new`: the latency code stays as it is read
// where none is given.
#[derive(Clone, Copy)]
pub struct Config {
    pub set_quad_bit_if_necessary: bool,
    pub latency_config: Option<u8>,
    pub clear_write_protection: bool,
}

const NOTHING_WANTED: Wanted = Wanted {
    quad: false,
    latency: None,
    clear: false,
    protection: 0,
};

const NO_REGISTERS: LowLevel = LowLevel {
    sequence: Sequence::Disable,
    word: 0,
    clock: 0,
};

// One transfer that gives nothing: what each script differs from.
const ONE_TRANSFER: Script = Script {
    after_enable: Stage::End,
    after_clear: Stage::End,
    after_disable: Status::Done,
    erasing: false,
    sequel: Sequel::Once,
    purpose: Purpose::Answer,
    gives: Gives::Nothing,
};

// A script of one transfer, or of register accesses, and what the call gives.
fn plain(gives: Gives) -> Script
    ensures script { result ≡ spec.plain gives }
{
    Script {
        gives,
        ..ONE_TRANSFER
    }
}

// A call that is lent only a log.
fn command(script: Script, log: usize) -> Job
    ensures job { result ≡ spec.command_job script log }
{
    Job {
        lent: Lent {
            data: 0,
            buffer: 0,
            log,
        },
        script,
        addr: 0,
        reading: Reading {
            fast: false,
            dummy: false,
        },
        wanted: NOTHING_WANTED,
        low_level: NO_REGISTERS,
    }
}

// At the beginning of a stage, with nothing at hand.
fn at(stage: Stage) -> Place
    ensures place { result ≡ spec.place_at stage 0 0 0 }
{
    Place {
        stage,
        done: 0,
        chunk: 0,
        sr: 0,
        cr: 0,
    }
}

// Where a turn leads: its first access is due, or none is.
fn opened(job: Job, turned: Turned) -> Op
    ensures start { result ≡ spec.opened job turned }
{
    Op {
        job,
        place: turned.place,
        wire: Wire::begin(Phase::DrainStatus),
        used: 0,
        replies: 0,
        status: turned.status,
    }
}

// The first access of a transfer is due.
fn going(job: Job, place: Place) -> Op
    ensures start { result ≡ spec.going job place }
{
    let status = Status::Going;
    opened(job, Turned { place, status })
}

// No access is due.
fn over(job: Job, status: Status) -> Op
    ensures start { result ≡ spec.over job status }
{
    let place = at(Stage::End);
    opened(job, Turned { place, status })
}

fn one_transfer(stage: Stage, gives: Gives, log: usize) -> Op
    ensures start { result ≡ spec.one_transfer stage gives log }
{
    going(command(plain(gives), log), at(stage))
}

pub fn write_enable(log: usize) -> Op
    ensures start { result ≡ spec.one_transfer stage.Enable gives.Nothing log }
    ensures begins { Begins log call.write_enable result }
{
    one_transfer(Stage::Enable, Gives::Nothing, log)
}

pub fn write_disable(log: usize) -> Op
    ensures start { result ≡ spec.one_transfer stage.Disable gives.Nothing log }
    ensures begins { Begins log call.write_disable result }
{
    one_transfer(Stage::Disable, Gives::Nothing, log)
}

pub fn clear_status(log: usize) -> Op
    ensures start { result ≡ spec.one_transfer stage.Clear gives.Nothing log }
    ensures begins { Begins log call.clear_status result }
{
    one_transfer(Stage::Clear, Gives::Nothing, log)
}

pub fn read_status_register_1(log: usize) -> Op
    ensures start { result ≡ spec.one_transfer stage.ReadStatus gives.Register log }
    ensures begins { Begins log call.read_status result }
{
    one_transfer(Stage::ReadStatus, Gives::Register, log)
}

pub fn read_configuration_register(log: usize) -> Op
    ensures start { result ≡ spec.one_transfer stage.ReadConfig gives.Register log }
    ensures begins { Begins log call.read_config result }
{
    one_transfer(Stage::ReadConfig, Gives::Register, log)
}

pub fn read_rdid_base(log: usize) -> Op
    ensures start { result ≡ spec.one_transfer stage.ReadId gives.Id log }
    ensures begins { Begins log call.read_id result }
{
    one_transfer(Stage::ReadId, Gives::Id, log)
}

pub fn read_rdid_extended(log: usize) -> Op
    ensures start { result ≡ spec.one_transfer stage.ReadLongId gives.LongId log }
    ensures begins { Begins log call.read_long_id result }
{
    one_transfer(Stage::ReadLongId, Gives::LongId, log)
}

fn enabled(stage: Stage) -> Script
    ensures script { result ≡ spec.enabled stage }
{
    Script {
        after_enable: stage,
        ..ONE_TRANSFER
    }
}

pub fn write_status(sr: u8, log: usize) -> Op
    ensures start { result ≡ spec.enabled_then stage.WriteStatus sr 0 log }
    ensures begins { Begins log (call.write_status sr) result }
{
    let enable = Place {
        sr,
        ..at(Stage::Enable)
    };
    going(command(enabled(Stage::WriteStatus), log), enable)
}

pub fn write_status_and_config_register(sr: u8, cr: u8, log: usize) -> Op
    ensures start { result ≡ spec.enabled_then stage.WriteRegisters sr cr log }
    ensures begins { Begins log (call.write_registers sr cr) result }
{
    let enable = Place {
        sr,
        cr,
        ..at(Stage::Enable)
    };
    going(command(enabled(Stage::WriteRegisters), log), enable)
}

// What is to be written to both registers once they are read.
fn updating(after_clear: Stage, purpose: Purpose, wanted: Wanted, log: usize) -> Job
    ensures job { result ≡ spec.updating_job after_clear purpose wanted log }
{
    let script = Script {
        after_clear,
        purpose,
        ..enabled(Stage::WriteRegisters)
    };
    Job {
        wanted,
        ..command(script, log)
    }
}

// Where `new` begins: at the registers, or at the end where it reads none.
fn may_update(wanted: Wanted) -> Stage
    ensures stage { result ≡ spec.may_update wanted.quad (is_some wanted.latency) wanted.clear }
{
    if wanted.quad || wanted.latency.is_some() || wanted.clear {
        Stage::ReadConfig
    } else {
        Stage::End
    }
}

pub fn new(config: Config, log: usize) -> Op
    ensures start { result ≡ spec.new_of config log }
    ensures begins { Begins log (call.new_call config) result }
{
    let latency = config.latency_config;
    let wanted = Wanted {
        quad: config.set_quad_bit_if_necessary,
        latency,
        clear: config.clear_write_protection,
        ..NOTHING_WANTED
    };
    let job = updating(may_update(wanted), Purpose::Configure, wanted, log);
    if latency.is_some_and(|code| 3 < code) {
        over(job, Status::FieldTooWide)
    } else {
        going(job, at(Stage::Clear))
    }
}

pub fn set_write_protection(protection: u8, log: usize) -> Op
    ensures start { result ≡ spec.set_write_protection protection log }
    ensures begins { Begins log (call.set_write_protection protection) result }
{
    let wanted = Wanted {
        protection,
        ..NOTHING_WANTED
    };
    let job = updating(Stage::End, Purpose::Protect, wanted, log);
    if 7 < protection {
        over(job, Status::FieldTooWide)
    } else {
        going(job, at(Stage::ReadStatus))
    }
}

// A script of write enable, the work, and its status until it is settled.
fn works(stage: Stage, erasing: bool, sequel: Sequel, failure: Status, gives: Gives) -> Script
    ensures script { result ≡ spec.works stage erasing sequel failure gives }
{
    Script {
        after_clear: Stage::Disable,
        after_disable: failure,
        erasing,
        sequel,
        gives,
        ..enabled(stage)
    }
}

fn working(script: Script, addr: u32, data: usize, log: usize) -> Job
    ensures job { result ≡ spec.job_of (spec.lent «data» 0 log) script addr }
{
    let job = command(script, log);
    let lent = Lent { data, ..job.lent };
    Job { lent, addr, ..job }
}

// Sector erases: one of them, or those of a list.
fn erasing(sequel: Sequel, gives: Gives) -> Script
    ensures script { result ≡ spec.erases sequel gives }
{
    works(Stage::Erase, true, sequel, Status::EraseErrorBitSet, gives)
}

pub fn erase_sector(addr: u32, log: usize) -> Op
    ensures start { result ≡ spec.erase_sector addr log }
    ensures begins { Begins log (call.erase_sector addr) result }
{
    let job = working(erasing(Sequel::Once, Gives::Nothing), addr, 0, log);
    let status = sectors::sector_status(addr);
    if qspi_operation::is_going(status) {
        going(job, at(Stage::Enable))
    } else {
        over(job, status)
    }
}

// A list of so many sectors.
fn listing(gives: Gives, count: usize, log: usize) -> Job
    ensures job { result ≡ spec.list_job gives count log }
{
    working(erasing(Sequel::Sectors, gives), 0, count, log)
}

// 33, then 1 and 2 at the first place that meets either, then 32: on all entries, before any access. Its
// steps are lent the list as data, as `sectors::numbered` has it, a byte an entry. What a driver is lent
// can change between two steps: qspi_driver keeps a copy, and its steps are lent that one.
pub fn erase_sectors(list: &[u32], log: usize) -> Op
    ensures start { result ≡ spec.erase_sectors_of list.now log }
    ensures begins { BeginsList list.now log result }
{
    let count = list.len();
    if limits::list_too_long(count) {
        return over(listing(Gives::Nothing, count, log), Status::ListTooLong);
    }
    if let Some(bad) = sectors::first_refused(list) {
        let status = sectors::sector_status(list[bad]);
        return over(listing(Gives::Place(bad as u8), count, log), status);
    }
    if let Some(again) = sectors::first_repeat(list) {
        return over(
            listing(Gives::Place(again as u8), count, log),
            Status::RepeatedSector,
        );
    }
    let job = listing(Gives::Nothing, count, log);
    opened(job, job.next_sector(at(Stage::Enable)))
}

// Page programs: one of them, or the chunks of `write_pages`.
fn programming(sequel: Sequel, addr: u32, data: usize, log: usize) -> Job
    ensures job { result ≡ spec.programs_job sequel addr «data» log }
{
    let script = works(
        Stage::Program,
        false,
        sequel,
        Status::ProgrammingErrorBitSet,
        Gives::Nothing,
    );
    working(script, addr, data, log)
}

pub fn program(addr: u32, data: usize, log: usize) -> Op
    ensures start { result ≡ spec.program_of addr «data» log }
    ensures begins { BeginsWith «data» log (call.program addr) result }
{
    let job = programming(Sequel::Once, addr, data, log);
    if limits::out_of_range(addr, data) {
        return over(job, Status::OutOfRange);
    }
    if limits::too_large(data) {
        return over(job, Status::DataTooLarge);
    }
    if data % 4 != 0 {
        return over(job, Status::NotAligned);
    }
    if limits::crosses_page(addr, data) {
        return over(job, Status::CrossesPageBoundary);
    }
    let enable = Place {
        chunk: data as u8,
        ..at(Stage::Enable)
    };
    going(job, enable)
}

// 1 on the whole length, before any chunk; then each chunk when its turn comes.
pub fn write_pages(addr: u32, data: usize, log: usize) -> Op
    ensures start { result ≡ spec.write_pages_of addr «data» log }
    ensures begins { BeginsWith «data» log (call.write_pages addr) result }
{
    let job = programming(Sequel::Pages, addr, data, log);
    if limits::out_of_range(addr, data) {
        return over(job, Status::OutOfRange);
    }
    opened(job, job.next_page(at(Stage::Enable)))
}

fn read(addr: u32, fast: bool, dummy: bool, buffer: usize, log: usize) -> Op
    ensures start { result ≡ spec.read_of addr fast dummy buffer log }
{
    let job = command(ONE_TRANSFER, log);
    let lent = Lent { buffer, ..job.lent };
    let reading = Reading { fast, dummy };
    let job = Job {
        lent,
        addr,
        reading,
        ..job
    };
    if limits::spans_too_far(addr, buffer) {
        return over(job, Status::AddressSpan);
    }
    if buffer == 0 {
        return over(job, Status::Done);
    }
    let first = Place {
        chunk: qspi_script::next_chunk(buffer, 0, dummy),
        ..at(Stage::Read)
    };
    going(job, first)
}

pub fn read_page_read(addr: u32, buffer: usize, log: usize) -> Op
    ensures start { result ≡ spec.read_of addr false false buffer log }
    ensures begins { BeginsInto buffer log (call.read false false addr buffer) result }
{
    read(addr, false, false, buffer, log)
}

pub fn read_fast_read(addr: u32, dummy_byte: bool, buffer: usize, log: usize) -> Op
    ensures start { result ≡ spec.read_of addr true dummy_byte buffer log }
    ensures begins { BeginsInto buffer log (call.read true dummy_byte addr buffer) result }
{
    read(addr, true, dummy_byte, buffer, log)
}

// A call that sends nothing.
fn registers_job(sequence: Sequence, word: u32, gives: Gives, clock: u32, log: usize) -> Job
    ensures job { result ≡ spec.registers_job sequence word gives clock log }
{
    let low_level = LowLevel {
        sequence,
        word,
        clock,
    };
    Job {
        low_level,
        ..command(plain(gives), log)
    }
}

fn registers(sequence: Sequence, word: u32, gives: Gives, clock: u32, log: usize) -> Op
    ensures start { result ≡ spec.registers_of sequence word gives clock log }
{
    let job = registers_job(sequence, word, gives, clock, log);
    Op {
        wire: Wire::begin(Phase::Registers),
        ..going(job, at(Stage::Registers))
    }
}

// With loopback there is one access more.
fn sequence_of(config: BaudRateConfig) -> Sequence
    ensures sequence { result ≡ spec.initializing config }
{
    match config {
        BaudRateConfig::WithLoopback => Sequence::InitializeWithLoopback,
        BaudRateConfig::WithoutLoopback(_) => Sequence::Initialize,
    }
}

pub fn initialize(clock_config: ClockConfig, phase: bool, polarity: bool, log: usize) -> Op
    ensures start { result ≡ spec.initialize_of clock_config phase polarity log }
    ensures begins { Begins log (call.initialize clock_config phase polarity) result }
{
    let sequence = sequence_of(clock_config.baud_rate_config);
    match zynq7000_hal::qspi::initialize_words(clock_config, phase, polarity) {
        Ok(words) => {
            let clock = words.lqspi_clk_ctrl;
            registers(sequence, words.config, Gives::Clock, clock, log)
        }
        Err(FieldTooWide) => over(
            registers_job(Sequence::Initialize, 0, Gives::Nothing, 0, log),
            Status::FieldTooWide,
        ),
    }
}

pub fn enable_linear_addressing(config: u32, log: usize) -> Op
    ensures start { result ≡ spec.registers_of sequence.EnableLinearAddressing config gives.Nothing 0 log }
    ensures begins { Begins log (call.enable_linear_addressing config) result }
{
    registers(
        Sequence::EnableLinearAddressing,
        config,
        Gives::Nothing,
        0,
        log,
    )
}

pub fn enable_io_mode(dual_flash: bool, log: usize) -> Op
    ensures start { result ≡ spec.enable_io_mode dual_flash log }
    ensures begins { Begins log (call.enable_io_mode dual_flash) result }
{
    let config = zynq7000_hal::qspi::io_mode_config(dual_flash);
    registers(Sequence::EnableIoMode, config.0, Gives::Nothing, 0, log)
}

pub fn disable(log: usize) -> Op
    ensures start { result ≡ spec.registers_of sequence.Disable 0 gives.Nothing 0 log }
    ensures begins { Begins log call.disable result }
{
    registers(Sequence::Disable, 0, Gives::Nothing, 0, log)
}
