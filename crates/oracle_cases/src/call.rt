// A call of each kind on the port.
ghost use Rattle.std.specs.Prelude.{◌≤◌};

use crate::ended::Ended;
use crate::fault::Fault;
use crate::kind::{Call, Kind};
use crate::record;
use crate::record::Record;
use std::alloc::{AllocError, Global};

// The most bytes of data and of buffer, entries of a list, words of log, and replies that a call is lent.
pub const LENGTH: usize = 768;

pub const ROOM: usize = 4096;

const REPLIES: usize = 1024;

// Makes the call, which may change so much of the buffer and of the log as it is lent.
pub fn run(
    alloc: Global,
    record: Record<'_>,
    dictionary: &[u32],
    buffer: &mut [u8; LENGTH],
    log: &mut [u32; ROOM],
) -> Result<Ended, Fault> {
    match record.kind {
        Kind::Calculate => calculate(alloc, record),
        Kind::CalculateWithLoopback => calculate_with_loopback(alloc, record),
        Kind::Lent(call) => {
            let buffer = buffer
                .get_mut(..usize::from(record.length))
                .ok_or(Fault::Bad)?;
            let log = log.get_mut(..usize::from(record.room)).ok_or(Fault::Bad)?;
            lent(alloc, call, record, dictionary, buffer, log)
        }
    }
}

fn calculate(alloc: Global, record: Record<'_>) -> Result<Ended, Fault> {
    let numbers = record::words(alloc, record.body)?;
    let [io, arm, ddr, cpu_1x, reference, interface] = *numbers.as_slice() else {
        return Err(Fault::Bad);
    };
    let config = qspi_abi::qspi_calculate(record.first, io, arm, ddr, cpu_1x, reference, interface);
    Ok(Ended::clock(alloc, config)?)
}

fn calculate_with_loopback(alloc: Global, record: Record<'_>) -> Result<Ended, Fault> {
    let numbers = record::words(alloc, record.body)?;
    let [io, arm, ddr, cpu_1x, interface] = *numbers.as_slice() else {
        return Err(Fault::Bad);
    };
    let config = qspi_abi::qspi_calculate_with_loopback(
        record.first,
        io,
        arm,
        ddr,
        cpu_1x,
        interface,
    );
    Ok(Ended::clock(alloc, config)?)
}

// Words of the list that stands before the replies: one kind has one.
fn listed(call: Call, record: Record<'_>) -> usize
    ensures most { result ≤ 768 }
{
    match call {
        Call::EraseSectors => usize::from(record.length).min(LENGTH),
        _ => 0,
    }
}

fn lent(
    alloc: Global,
    call: Call,
    record: Record<'_>,
    dictionary: &[u32],
    buffer: &mut [u8],
    log: &mut [u32],
) -> Result<Ended, Fault> {
    let listed = listed(call, record) * 4;
    let (list, places) = record.body.split_at_checked(listed).ok_or(Fault::Bad)?;
    if REPLIES < places.len() {
        return Err(Fault::Bad);
    }
    let list = record::words(alloc, list)?;
    let replies = record::words_at(alloc, places, dictionary)?;
    Ok(made(
        alloc,
        call,
        record,
        list.as_slice(),
        replies.as_slice(),
        buffer,
        log,
    )?)
}

fn made(
    alloc: Global,
    call: Call,
    record: Record<'_>,
    list: &[u32],
    replies: &[u32],
    buffer: &mut [u8],
    log: &mut [u32],
) -> Result<Ended, AllocError> {
    let Record {
        first,
        second,
        word,
        ..
    } = record;
    let [flag_1, flag_2, flag_4] = [1, 2, 4].map(|bit| record.has_flag(bit));
    let data = record.data(alloc)?;
    let data = data.as_slice();
    match call {
        Call::LinearModeConfig => {
            Ended::preset(
                alloc,
                qspi_abi::qspi_linear_mode_config(flag_1, first, flag_2),
            )
        }
        // The first argument has the codes of source and divisor.
        Call::Initialize => Ended::value(
            alloc,
            qspi_abi::qspi_initialize(
                first % 4,
                second,
                flag_1,
                first / 4,
                flag_2,
                flag_4,
                replies,
                log,
            ),
        ),
        Call::EnableLinearAddressing => {
            Ended::command(
                alloc,
                qspi_abi::qspi_enable_linear_addressing(word, replies, log),
            )
        }
        Call::EnableIoMode => {
            Ended::command(alloc, qspi_abi::qspi_enable_io_mode(flag_1, replies, log))
        }
        Call::Disable => Ended::command(alloc, qspi_abi::qspi_disable(replies, log)),
        Call::New => Ended::command(
            alloc,
            qspi_abi::qspi_new(flag_1, flag_2, first, flag_4, replies, log),
        ),
        Call::WriteEnable => Ended::command(alloc, qspi_abi::qspi_write_enable(replies, log)),
        Call::WriteDisable => Ended::command(alloc, qspi_abi::qspi_write_disable(replies, log)),
        Call::ClearStatus => Ended::command(alloc, qspi_abi::qspi_clear_status(replies, log)),
        Call::WriteStatus => {
            Ended::command(alloc, qspi_abi::qspi_write_status(first, replies, log))
        }
        Call::WriteBoth => Ended::command(
            alloc,
            qspi_abi::qspi_write_status_and_config_register(first, second, replies, log),
        ),
        Call::ReadStatusRegister1 => {
            Ended::value(alloc, qspi_abi::qspi_read_status_register_1(replies, log))
        }
        Call::ReadConfigurationRegister => {
            Ended::value(
                alloc,
                qspi_abi::qspi_read_configuration_register(replies, log),
            )
        }
        Call::ReadRdidBase => Ended::id(alloc, qspi_abi::qspi_read_rdid_base(replies, log)),
        Call::ReadRdidExtended => {
            Ended::long_id(alloc, qspi_abi::qspi_read_rdid_extended(replies, log))
        }
        Call::EraseSector => {
            Ended::command(alloc, qspi_abi::qspi_erase_sector(word, replies, log))
        }
        Call::Program => { Ended::command(alloc, qspi_abi::qspi_program(word, data, replies, log)) }
        Call::WritePages => {
            Ended::pages(alloc, qspi_abi::qspi_write_pages(word, data, replies, log))
        }
        Call::ReadPageRead => {
            Ended::command(
                alloc,
                qspi_abi::qspi_read_page_read(word, buffer, replies, log),
            )
        }
        Call::ReadFastRead => Ended::command(
            alloc,
            qspi_abi::qspi_read_fast_read(word, flag_1, buffer, replies, log),
        ),
        Call::EraseSectors => {
            Ended::sectors(alloc, qspi_abi::qspi_erase_sectors(list, replies, log))
        }
    }
}
