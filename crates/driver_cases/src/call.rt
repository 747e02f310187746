// The calls of the station cases, and a whole one through the driver.
use crate::memory;
use crate::memory::LOG;
use qspi_calls::start;
use qspi_driver::state::{SectorList, State};
use qspi_driver::{Driven, QspiSpansionS25Fl256SIoMode};
use qspi_operation::Op;
use std::fmt;
use trial_calls::memory::UNTOUCHED_BYTE;

// Each case has its call's inputs in its variant, and there are an empty read and a mode among them:
// `trial_calls::call::Call` names the calls without inputs.
#[derive(Clone, Copy)]
pub enum Call {
    Erase { addr: u32 },
    Program { addr: u32, length: usize },
    WritePages { addr: u32, length: usize },
    Read { addr: u32, length: usize },
    EmptyRead { addr: u32 },
    IoMode { dual_flash: bool },
}

impl fmt::Display for Call {
    fn fmt<W: fmt::Write>(&self, f: &mut fmt::Formatter<W>) -> fmt::Result {
        match *self {
            Call::Erase { addr } => write!(f, "erase {addr:06X}"),
            Call::Program { addr, length } => {
                write!(f, "program {length} bytes of DE AD BE EF at {addr:06X}")
            }
            Call::WritePages { addr, length } => {
                write!(f, "write_pages of {length} bytes at {addr:06X}")
            }
            Call::Read { addr, length } => write!(f, "read of {length} byte at {addr:06X}"),
            Call::EmptyRead { addr } => write!(f, "empty read at {addr:06X}"),
            Call::IoMode { dual_flash: false } => write!(f, "io mode, one flash"),
            Call::IoMode { dual_flash: true } => write!(f, "io mode, dual flash"),
        }
    }
}

impl Call {
    // The whole call: it is lent the data or the buffer of its length, and an empty one of the other.
    pub fn run(
        self,
        driver: QspiSpansionS25Fl256SIoMode,
        buffer: &mut [u8],
        log: &mut [u32],
        replies: &[u32],
    ) -> Driven {
        let data = memory::data();
        let given = self.data_length().min(data.len());
        let read = self.buffer_length().min(buffer.len());
        qspi_driver::drive(
            driver,
            self.begun(),
            &data[..given],
            &mut buffer[..read],
            log,
            replies,
        )
    }

    fn begun(self) -> Op {
        match self {
            Call::Erase { addr } => start::erase_sector(addr, LOG),
            Call::Program { addr, length } => start::program(addr, length, LOG),
            Call::WritePages { addr, length } => start::write_pages(addr, length, LOG),
            Call::Read { addr, length } => start::read_page_read(addr, length, LOG),
            Call::EmptyRead { addr } => start::read_page_read(addr, 0, LOG),
            Call::IoMode { dual_flash } => start::enable_io_mode(dual_flash, LOG),
        }
    }

    fn data_length(self) -> usize {
        match self {
            Call::Program { length, .. } | Call::WritePages { length, .. } => length,
            _ => 0,
        }
    }

    fn buffer_length(self) -> usize {
        match self {
            Call::Read { length, .. } => length,
            _ => 0,
        }
    }
}

// A driver at rest. Its list is seen where it is changed.
pub fn at_rest() -> QspiSpansionS25Fl256SIoMode {
    QspiSpansionS25Fl256SIoMode {
        list: SectorList {
            numbers: [UNTOUCHED_BYTE; 256],
        },
        ..QspiSpansionS25Fl256SIoMode::idle()
    }
}

// A driver whose call has not ended.
pub fn under_way() -> QspiSpansionS25Fl256SIoMode {
    QspiSpansionS25Fl256SIoMode {
        state: State {
            op: start::write_enable(LOG),
        },
        ..at_rest()
    }
}

// A list as any other call is begun, so that the driver is lent none.
pub fn drive_list(list: &[u32], log: &mut [u32], replies: &[u32]) -> Driven {
    let op = start::erase_sectors(list, log.len());
    qspi_driver::drive(at_rest(), op, &[], &mut [], log, replies)
}
