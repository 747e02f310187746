// Runs the station cases of document 01 and cases of lists of sectors through the driver's methods and prints
// the answer of each, the used counts, how far the call changed log and buffer, and the words that it sent,
// read from its log.
// The stored output is made by `tools/driver_cases`, which has the same cases from the paper.
#![tactic(auto)]

use crate::call::Call;
use crate::memory::{BUFFER, LOG};
use crate::print::Answered;
use printing::tolerant::Tolerant;
use qspi_driver::{QspiSpansionS25Fl256SIoMode, state};
use std::io;
use trial_calls::memory::{UNTOUCHED, UNTOUCHED_BYTE, front};
use zynq7000::qspi;

mod call;
mod clock;
mod device;
mod lists;
mod memory;
mod print;

// Replies of the device, enough for every case.
const REPLIES: usize = 256;

const ARRAY_CASES: [Call; 15] = [
    Call::Erase { addr: 0x00FE_0000 },
    Call::Erase { addr: 0x00FF_0000 },
    Call::Erase { addr: 0x0003_0000 },
    Call::Erase { addr: 0x0003_0004 },
    Call::Program {
        addr: 0x0000_0100,
        length: 4,
    },
    Call::Program {
        addr: 0x0000_00F0,
        length: 16,
    },
    Call::Program {
        addr: 0x0000_00F0,
        length: 20,
    },
    Call::Program {
        addr: 0x0000_0000,
        length: 241,
    },
    Call::Program {
        addr: 0x00FF_FFFB,
        length: 4,
    },
    Call::Program {
        addr: 0x00FF_FFFC,
        length: 4,
    },
    Call::WritePages {
        addr: 0x0000_0040,
        length: 256,
    },
    Call::WritePages {
        addr: 0x0000_00C0,
        length: 256,
    },
    Call::WritePages {
        addr: 0x0000_0000,
        length: 130,
    },
    Call::Read {
        addr: 0x0000_0102,
        length: 1,
    },
    Call::EmptyRead { addr: 0x0000_0102 },
];

const IO_MODES: [Call; 2] = [
    Call::IoMode { dual_flash: false },
    Call::IoMode { dual_flash: true },
];

fn main(rt: HostRuntime) -> io::Result<()> {
    let rt = (Tolerant::new(&rt), rt.alloc());
    cases(&rt, &ARRAY_CASES)?;
    clock::inputs(&rt)?;
    clock::interfaces(&rt, &[5000000, 2500000, 781250, 781249])?;
    clock::loopbacks(&rt, &[7936508, 7936507])?;
    cases(&rt, &IO_MODES)?;
    erase_while_busy(&rt, 0x0003_0000)?;
    lists::cases(&rt)
}

fn cases(rt: &(impl Print + AllocGlobal), calls: &[Call]) -> io::Result<()> {
    for call in calls {
        case(rt, *call)?;
    }
    Ok(())
}

fn case(rt: &(impl Print + AllocGlobal), call: Call) -> io::Result<()> {
    print!(rt; "{call}")?;
    show(rt, call, call::at_rest())
}

// The driver has a call at hand that has not ended: the next one is not begun.
fn erase_while_busy(rt: &(impl Print + AllocGlobal), addr: u32) -> io::Result<()> {
    let call = Call::Erase { addr };
    print!(rt; "{call} while a write enable is under way")?;
    show(rt, call, call::under_way())
}

// A call on the replies of a prompt device: the answer, the bytes that `write_pages` counts, the used counts, and
// what the memory holds afterwards.
fn show(
    rt: &(impl Print + AllocGlobal),
    call: Call,
    driver: QspiSpansionS25Fl256SIoMode,
) -> io::Result<()> {
    let replies: [u32; REPLIES] = device::replies(call);
    let mut buffer = [UNTOUCHED_BYTE; BUFFER];
    let mut log = [UNTOUCHED; LOG];
    let driven = call.run(driver, &mut buffer, &mut log, &replies);
    let progress = state::answer_so_far(driven.driver.state);
    print!(rt; ": {}", Answered(driven.answer))?;
    if let Call::WritePages { .. } = call {
        print!(rt; ", programmed {}", progress.counted)?;
    }
    print::used(rt, progress)?;
    print::log(rt, &log)?;
    let last = memory::last_changed(&buffer, UNTOUCHED_BYTE);
    print::changed(rt, ", buffer", "byte", last)?;
    println!(rt)?;
    let made = front(&log, progress.used);
    print::written(rt, "sends", qspi::TX_DATA_00, made)?;
    print::written(rt, "A0 gets", qspi::LINEAR_QSPI_CONFIG, made)
}
