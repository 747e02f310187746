// The cases of `erase_sectors`: document 02, U1. A list is erased through the driver on the replies of a prompt
// device, of which one may be another, and the replies or the log may end early.
use crate::print::Answered;
use crate::{call, device, memory, print};
use qspi_driver::{Driven, state};
use qspi_script::Gives;
use std::io;
use trial_calls::digest::digest;
use trial_calls::memory::{UNTOUCHED, UNTOUCHED_BYTE, front};
use zynq7000::qspi;

// Enough for the 255 sectors that are accepted: on a prompt device one logs 72 words and uses 18 replies.
const LOG: usize = 18432;

const REPLIES: usize = 4608;

// In another order than that of the sectors, the first and the last one among them.
const THREE: [u32; 3] = [0x00FE_0000, 0x0000_0000, 0x0003_0000];

const ACCEPTED: [&[u32]; 4] = [&[], &[0x00FE_0000], &[0x0003_0000, 0x0001_0000], &THREE];

// 1 before 2 at one place, and the first place before a later one.
const REFUSED: [&[u32]; 4] = [
    &[0x00FF_0004],
    &[0x0003_0000, 0x00FF_0004, 0x0001_0000],
    &[0x0003_0000, 0x00FF_0000, 0x0003_0004],
    &[0x0003_0000, 0x0003_0004, 0x00FF_0000],
];

// 1 and 2 before 32, wherever the repeat is.
const REFUSED_BESIDE_REPEATS: [&[u32]; 7] = [
    &[0x00FF_0000, 0x0003_0000, 0x0003_0000],
    &[0x0003_0004, 0x0003_0000, 0x0003_0000],
    &[0x0003_0000, 0x0003_0000, 0x00FF_0000],
    &[0x0003_0000, 0x0003_0000, 0x0003_0004],
    &[0x0003_0000, 0x00FF_0000, 0x0003_0000],
    &[0x00FF_0000, 0x00FF_0000],
    &[0x0003_0004, 0x0003_0004],
];

// No repeats of the sector that the low bits name.
const FAR_OUT_OF_RANGE: [&[u32]; 2] = [&[0x0003_0000, 0x0103_0000], &[0x0003_0000, 0xFFFF_0000]];

const REPEATED: [&[u32]; 7] = [
    &[0x0003_0000, 0x0003_0000, 0x0001_0000],
    &[0x0001_0000, 0x0003_0000, 0x0003_0000],
    &[0x0003_0000, 0x0001_0000, 0x0003_0000],
    &[0x0003_0000, 0x0003_0000, 0x0003_0000],
    &[0x0001_0000, 0x0003_0000, 0x0003_0000, 0x0001_0000],
    &[0x0001_0000, 0x0003_0000, 0x0001_0000, 0x0003_0000],
    &[0x0000_0000, 0x00FE_0000, 0x0000_0000],
];

// All sectors; 256 entries, which are always refused, at the last place at worst; and too many: so many entries
// of the scattered sectors, with one in the place of another.
const LONG: [(usize, usize, u32); 10] = [
    (255, 0, 0x0000_0000),
    (255, 254, 0x00FF_0000),
    (256, 255, 0x00FF_0000),
    (256, 255, 0x0003_0004),
    (256, 255, 0x0000_0000),
    (256, 255, 0x00DA_0000),
    (256, 0, 0xFFFF_FFFF),
    (257, 0, 0x00FF_0004),
    (257, 256, 0x0003_0004),
    (257, 256, 0x0000_0000),
];

// At each of three sectors bit 5, with and without busy; bit 6, which is not looked at; and busy.
const STATUSES: [(u8, u8); 7] = [
    (0, 0x20),
    (1, 0x20),
    (2, 0x20),
    (1, 0x21),
    (1, 0x40),
    (1, 0x01),
    (2, 0x01),
];

// What a list is erased on: so many words of log, so many replies, and of these maybe one that shows another
// status register.
#[derive(Clone, Copy)]
struct Bounds {
    log: usize,
    replies: usize,
    shows: Option<Shows>,
}

#[derive(Clone, Copy)]
struct Shows {
    at: usize,
    status: u8,
}

const PLAIN: Bounds = Bounds {
    log: LOG,
    replies: REPLIES,
    shows: None,
};

pub fn cases(rt: &(impl Print + AllocGlobal)) -> io::Result<()> {
    all_plain(rt, &ACCEPTED)?;
    all_plain(rt, &REFUSED)?;
    all_plain(rt, &REFUSED_BESIDE_REPEATS)?;
    all_plain(rt, &FAR_OUT_OF_RANGE)?;
    all_plain(rt, &REPEATED)?;
    all_long(rt)?;
    all_short_of_log(rt)?;
    all_statuses(rt)?;
    all_ends(rt)?;
    not_begun(rt)
}

fn all_plain(rt: &(impl Print + AllocGlobal), lists: &[&[u32]]) -> io::Result<()> {
    for list in lists {
        erase(rt, list, PLAIN)?;
    }
    Ok(())
}

fn all_long(rt: &(impl Print + AllocGlobal)) -> io::Result<()> {
    for (length, place, addr) in LONG {
        let mut list = memory::scattered();
        memory::set(&mut list, place, addr);
        erase(rt, front(&list, length), PLAIN)?;
    }
    Ok(())
}

// All sectors on a log that seven fill.
fn all_short_of_log(rt: &(impl Print + AllocGlobal)) -> io::Result<()> {
    let list = memory::scattered();
    erase(rt, front(&list, 255), Bounds { log: 512, ..PLAIN })
}

fn all_statuses(rt: &(impl Print + AllocGlobal)) -> io::Result<()> {
    for (sector, status) in STATUSES {
        erase(rt, &THREE, showing(sector, status))?;
    }
    Ok(())
}

fn all_ends(rt: &(impl Print + AllocGlobal)) -> io::Result<()> {
    for sector in 0..3 {
        ends(rt, sector)?;
    }
    Ok(())
}

// The third transfer of a sector reads the status: its fifth reply has it.
fn showing(sector: u8, status: u8) -> Bounds {
    let at = usize::from(sector) * 18 + 16;
    Bounds {
        shows: Some(Shows { at, status }),
        ..PLAIN
    }
}

// In the closing of a sector's clean status, where the sector is not counted, and where that is closed.
fn ends(rt: &(impl Print + AllocGlobal), sector: u8) -> io::Result<()> {
    let finished = usize::from(sector) + 1;
    let log = finished * 72;
    let replies = finished * 18;
    erase(
        rt,
        &THREE,
        Bounds {
            replies: replies - 1,
            ..PLAIN
        },
    )?;
    erase(rt, &THREE, Bounds { replies, ..PLAIN })?;
    for log in [log - 6, log - 2, log - 1, log, log + 1] {
        erase(rt, &THREE, Bounds { log, ..PLAIN })?;
    }
    erase(
        rt,
        &THREE,
        Bounds {
            log,
            replies,
            ..PLAIN
        },
    )
}

// A list on a prompt device within these bounds.
fn erase(rt: &(impl Print + AllocGlobal), list: &[u32], bounds: Bounds) -> io::Result<()> {
    print::list(rt, list)?;
    within(rt, bounds)?;
    let mut replies: [u32; REPLIES] = device::erase_replies();
    if let Some(shows) = bounds.shows {
        memory::set(&mut replies, shows.at, device::status_word(shows.status));
    }
    let mut log = [UNTOUCHED; LOG];
    let driven = qspi_driver::erase_sectors(
        call::at_rest(),
        list,
        front(&replies, bounds.replies),
        &mut log[..bounds.log.min(LOG)],
    );
    result(rt, driven)?;
    left(rt, driven, &log)
}

// The bounds that are not those of a plain case.
fn within(rt: &impl Print, bounds: Bounds) -> io::Result<()> {
    if bounds.log < LOG {
        print!(rt; ", log words {}", bounds.log)?;
    }
    if bounds.replies < REPLIES {
        print!(rt; ", replies lent {}", bounds.replies)?;
    }
    if let Some(shows) = bounds.shows {
        print!(rt; ", reply {} shows status {:02X}", shows.at, shows.status)?;
    }
    Ok(())
}

// The answer, the place that it is given for, the sectors finished, and the used counts.
fn result(rt: &impl Print, driven: Driven) -> io::Result<()> {
    let progress = state::answer_so_far(driven.driver.state);
    print!(rt; ": {}", Answered(driven.answer))?;
    if let Gives::Place(place) = progress.gives {
        print!(rt; ", place {place}")?;
    }
    print!(rt; ", finished {}", progress.counted)?;
    print::used(rt, progress)
}

// What the log holds afterwards.
fn left(rt: &(impl Print + AllocGlobal), driven: Driven, log: &[u32]) -> io::Result<()> {
    let used = state::answer_so_far(driven.driver.state).used;
    let made = front(log, used);
    print::log(rt, log)?;
    if 0 < used {
        print!(rt; ", digest {:08X}", digest(made))?;
    }
    println!(rt)?;
    print::written(rt, "sends", qspi::TX_DATA_00, made)
}

// Starts that change nothing: while a call is under way, and of a list that is not lent.
fn not_begun(rt: &impl Print) -> io::Result<()> {
    while_busy(rt, &THREE)?;
    without_list(rt, &THREE)?;
    without_list(rt, &[])?;
    without_list(rt, &[0x00FF_0004])?;
    without_list(rt, &memory::scattered())
}

fn while_busy(rt: &impl Print, list: &[u32]) -> io::Result<()> {
    print::list(rt, list)?;
    print!(rt; " while a write enable is under way")?;
    let mut log = [UNTOUCHED; memory::LOG];
    let driven = qspi_driver::erase_sectors(call::under_way(), list, &[0; 32], &mut log);
    result(rt, driven)?;
    untouched(rt, driven, &log)
}

fn without_list(rt: &impl Print, list: &[u32]) -> io::Result<()> {
    print::list(rt, list)?;
    print!(rt; " begun without the list")?;
    let mut log = [UNTOUCHED; memory::LOG];
    let driven = call::drive_list(list, &mut log, &[0; 32]);
    result(rt, driven)?;
    untouched(rt, driven, &log)
}

// With the list that the driver keeps.
fn untouched(rt: &impl Print, driven: Driven, log: &[u32]) -> io::Result<()> {
    let numbers = driven.driver.list.numbers;
    print::log(rt, log)?;
    let kept = memory::last_changed(&numbers, UNTOUCHED_BYTE);
    print::changed(rt, ", kept list", "byte", kept)?;
    println!(rt)
}
