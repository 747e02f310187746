// `write_pages` and `erase_sectors` from their start to their end: data or list are lent once, and one
// operation is stepped over replies and a log. The contract of `write_pages` states what a power cut can
// leave in the flash, that of `erase_sectors` which sectors its log shows finished.
#![tactic(auto)]

ghost use Rattle.std.specs.Prelude.{◌≡◌, ◌/◌, length};
ghost use Rattle.qspi_script.specs.Answer.{values_in};
ghost use Rattle.qspi_operation.specs.Machine.{called};
ghost use Rattle.qspi_operation.specs.Points.{answered_of};
ghost use Rattle.qspi_calls.specs.Calls as call;
ghost use Rattle.qspi_calls.specs.OneByOne.{Accepted, SingleErases};
ghost use Rattle.qspi_calls.specs.Promise.{logged_of, one_of};
ghost use Rattle.power_cut.specs.Promise.{Saved, answer_of};
ghost use Rattle.power_cut.specs.SectorPromise.{Cleared, sectors_answer};

use qspi_calls::run::Ran;
use qspi_calls::{run, sectors, start};
use zedboard_bsp::qspi_spansion::LONGEST_LIST;

// How it ended, the used counts, and the bytes of the chunks that ended clean.
#[derive(Clone, Copy)]
pub struct PagesRan {
    pub ran: Ran,
    pub programmed: usize,
}

pub fn write_pages(addr: u32, data: &[u8], replies: &[u32], log: &mut [u32]) -> PagesRan
    ensures answer { answer_of result ≡ answered_of (called (call.write_pages addr «data».now) (length log.old / 2) replies.now) }
    ensures logged { log.new ≡ logged_of (called (call.write_pages addr «data».now) (length log.old / 2) replies.now) log.old }
    ensures cut { Saved addr «data».now result log.new }
{
    let op = start::write_pages(addr, data.len(), log.len());
    let mut buffer = [0u8; 0];
    let s = qspi_operation::run(op, data, &mut buffer, log, replies);
    let programmed = qspi_operation::counted(s.op);
    let ran = run::finish(s);
    PagesRan { ran, programmed }
}

// How it ended, the used counts, the sectors that ended clean, and the place of the entry that the list was
// refused for: 0 and no `None` where it was refused for none, as clause `place` says.
#[derive(Clone, Copy)]
pub struct SectorsRan {
    pub ran: Ran,
    pub finished: usize,
    pub place: u32,
}

pub fn erase_sectors(list: &[u32], replies: &[u32], log: &mut [u32]) -> SectorsRan
    ensures answer { sectors_answer result ≡ answered_of (called (call.erase_sectors list.now) (length log.old / 2) replies.now) }
    ensures place { result.place ≡ one_of (values_in (answered_of (called (call.erase_sectors list.now) (length log.old / 2) replies.now)).says) }
    ensures logged { log.new ≡ logged_of (called (call.erase_sectors list.now) (length log.old / 2) replies.now) log.old }
    ensures singles { Accepted list.now → SingleErases list.now (length log.old / 2) replies.now log.old result.ran.answer result.finished log.new }
    ensures shown { Cleared list.now result log.new }
{
    let op = start::erase_sectors(list, log.len());
    let numbers = sectors::numbered(list);
    // All of them: a longer list is refused before any access, whatever its run is lent.
    let count = list.len().min(LONGEST_LIST);
    let mut buffer = [0u8; 0];
    let s = qspi_operation::run(op, &numbers[..count], &mut buffer, log, replies);
    let finished = qspi_operation::counted(s.op);
    let place = run::value(s);
    let ran = run::finish(s);
    SectorsRan {
        ran,
        finished,
        place,
    }
}
