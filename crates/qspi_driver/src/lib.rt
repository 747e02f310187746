// The outer layer: one small driver state, lent by `&mut` to each start and step and updated. A method
// takes it apart and calls the covered function of `state`; `drive` runs a whole call by the same ones.
#![tactic(auto)]

ghost use Rattle.std.specs.Prelude.{◌≡◌, true, false, length};
ghost use Rattle.qspi_operation.specs.Step.{is_going, due_of, log_of, buffer_of};
ghost use Rattle.qspi_operation.specs.Follows.{DueFollows};
ghost use Rattle.qspi_driver.specs.State.{begun_of, begun_list_of, lent_to, stepped_of, progress_of};
ghost use Rattle.qspi_driver.specs.Promise.{Started, Steps, AnswerFollows, Drives};
ghost use Rattle.qspi_driver.specs.Driver.{idle, driver_of, finished_of, driven_of, list_driven_of};
ghost use Rattle.qspi_driver.specs.Saved.{Saves, Untouched};
ghost use Rattle.qspi_driver.specs.Cleared.{ListStarted, Clears};

use crate::state::{Progress, SectorList, StartRefused, State};
use qspi_calls::start;
use qspi_operation::{LentLengthChanged, Op};
use qspi_script::Status;
use qspi_transfer::Due;
use zedboard_bsp::qspi_spansion::LONGEST_LIST;

pub mod state;

// The flash chip's driver in I/O mode, with the Rust's name.
#[derive(Clone, Copy)]
pub struct QspiSpansionS25Fl256SIoMode {
    pub state: State,
    pub list: SectorList,
}

impl QspiSpansionS25Fl256SIoMode {
    // A driver with no operation at hand.
    pub fn idle() -> QspiSpansionS25Fl256SIoMode
        ensures driver { result ≡ idle }
    {
        let op = start::read_page_read(0, 0, 0);
        let numbers = [0u8; LONGEST_LIST];
        QspiSpansionS25Fl256SIoMode {
            state: State { op },
            list: SectorList { numbers },
        }
    }

    // Begins a call: `op` is what a function of `qspi_calls::start` gave. While the operation at hand has
    // not ended the answer is `Busy`, and of a list of sectors it is `ListMissing`: nothing is changed.
    pub fn start(&mut self, op: Op) -> Result<Status, StartRefused>
        ensures state { self.new ≡ driver_of (begun_of self.old.state op).state self.old.list }
        ensures answer { result ≡ (begun_of self.old.state op).answer }
        ensures begins { Started self.old.state.op op result self.new.state.op }
    {
        let s = state::begin(self.state, op);
        self.state = s.state;
        s.answer
    }

    // Begins the erase of a list of sectors, whose numbers are kept beside the operation: no step is lent
    // the list again. While the operation at hand has not ended the answer is `Busy`, and nothing is changed.
    pub fn erase_sectors(&mut self, list: &[u32], log: usize) -> Result<Status, StartRefused>
        ensures state { self.new ≡ driver_of (begun_list_of self.old.state self.old.list list.now log).state (begun_list_of self.old.state self.old.list list.now log).list }
        ensures answer { result ≡ (begun_list_of self.old.state self.old.list list.now log).answer }
        ensures begins { ListStarted self.old.state list.now log result self.new.state self.new.list }
    {
        let s = state::begin_list(self.state, self.list, list, log);
        self.state = s.state;
        self.list = s.list;
        s.answer
    }

    // The access that is due, without effect.
    pub fn due(&self, data: &[u8]) -> Result<Option<Due>, LentLengthChanged>
        ensures due { result ≡ due_of self.now.state.op (lent_to self.now.state.op self.now.list.numbers «data».now) }
        ensures follows { DueFollows self.now.state.op (lent_to self.now.state.op self.now.list.numbers «data».now) result }
    {
        state::due(self.state, &self.list.numbers, data)
    }

    // The answer so far.
    pub fn answer(&self) -> Progress
        ensures progress { result ≡ progress_of self.now.state.op }
        ensures follows { AnswerFollows self.now.state.op result }
    {
        state::answer_so_far(self.state)
    }

    // A step of the operation at hand: it makes and logs one access, or answers 23, 24 or 25, or repeats the
    // answer of one that has ended. A call without data or without a read buffer is lent an empty one; a list
    // of sectors is lent the driver's own copy, and with data beside it the answer is 25.
    pub fn step(
        &mut self,
        data: &[u8],
        buffer: &mut [u8],
        log: &mut [u32],
        reply: Option<u32>,
    ) -> Result<Status, StartRefused>
        ensures state { self.new ≡ driver_of (stepped_of self.old.state (lent_to self.old.state.op self.old.list.numbers «data».now) (length buffer.old) (length log.old) reply).state self.old.list }
        ensures answer { result ≡ (stepped_of self.old.state (lent_to self.old.state.op self.old.list.numbers «data».now) (length buffer.old) (length log.old) reply).answer }
        ensures stored { buffer.new ≡ buffer_of self.old.state.op (lent_to self.old.state.op self.old.list.numbers «data».now) buffer.old (length log.old) reply }
        ensures logged { log.new ≡ log_of self.old.state.op (lent_to self.old.state.op self.old.list.numbers «data».now) (length buffer.old) log.old reply }
        ensures follows { Steps self.old.state.op (lent_to self.old.state.op self.old.list.numbers «data».now) buffer.old log.old reply result self.new.state.op buffer.new log.new }
    {
        let s = state::step(self.state, &self.list.numbers, data, buffer, log, reply);
        self.state = s.state;
        s.answer
    }
}

// The driver after a whole call, and what the call answered.
#[derive(Clone, Copy)]
pub struct Driven {
    pub driver: QspiSpansionS25Fl256SIoMode,
    pub answer: Result<Status, StartRefused>,
}

// The rest of a call that was begun: it is stepped to its end, the replies in order. State and list are
// taken apart: in one struct, of which a step is lent the list, the operation would not stay in registers.
fn finish(
    driver: QspiSpansionS25Fl256SIoMode,
    begun: Result<Status, StartRefused>,
    data: &[u8],
    buffer: &mut [u8],
    log: &mut [u32],
    replies: &[u32],
) -> Driven
    ensures driver { result.driver ≡ (finished_of driver begun «data».now replies.now buffer.old log.old).driver }
    ensures answer { result.answer ≡ (finished_of driver begun «data».now replies.now buffer.old log.old).answer }
    ensures stored { buffer.new ≡ (finished_of driver begun «data».now replies.now buffer.old log.old).buffer }
    ensures logged { log.new ≡ (finished_of driver begun «data».now replies.now buffer.old log.old).log }
{
    let list = driver.list;
    let mut at_hand = driver.state;
    let mut answer = begun;
    while state::is_under_way(answer) {
        let reply = state::next_reply(at_hand, replies);
        let s = state::step(at_hand, &list.numbers, data, buffer, log, reply);
        at_hand = s.state;
        answer = s.answer;
    }
    Driven {
        driver: QspiSpansionS25Fl256SIoMode {
            state: at_hand,
            list,
        },
        answer,
    }
}

// A whole call: `op` is begun and stepped to its end, the replies in order, for a caller that has the driver
// by value.
pub fn drive(
    driver: QspiSpansionS25Fl256SIoMode,
    op: Op,
    data: &[u8],
    buffer: &mut [u8],
    log: &mut [u32],
    replies: &[u32],
) -> Driven
    ensures driver { result.driver ≡ (driven_of driver op «data».now replies.now buffer.old log.old).driver }
    ensures answer { result.answer ≡ (driven_of driver op «data».now replies.now buffer.old log.old).answer }
    ensures stored { buffer.new ≡ (driven_of driver op «data».now replies.now buffer.old log.old).buffer }
    ensures logged { log.new ≡ (driven_of driver op «data».now replies.now buffer.old log.old).log }
    ensures drives { Drives driver op «data».now buffer.old log.old replies.now result buffer.new log.new }
{
    let acted = state::begin(driver.state, op);
    let begun = QspiSpansionS25Fl256SIoMode {
        state: acted.state,
        ..driver
    };
    finish(begun, acted.answer, data, buffer, log, replies)
}

// A save through the driver. Its contract states what a power cut can leave in the flash.
pub fn write_pages(
    driver: QspiSpansionS25Fl256SIoMode,
    addr: u32,
    data: &[u8],
    replies: &[u32],
    log: &mut [u32],
) -> Driven
    ensures saves { is_going driver.state.op.status ≡ false → Saves addr «data».now replies.now log.old result log.new }
    ensures busy { is_going driver.state.op.status ≡ true → Untouched driver log.old result log.new }
{
    let op = start::write_pages(addr, data.len(), log.len());
    drive(driver, op, data, &mut [], log, replies)
}

// A list of sectors, erased from the first to the last through the driver, which keeps the list. Its
// contract states that it is the single erases one by one, and which sectors its log shows finished.
pub fn erase_sectors(
    driver: QspiSpansionS25Fl256SIoMode,
    list: &[u32],
    replies: &[u32],
    log: &mut [u32],
) -> Driven
    ensures driver { result.driver ≡ (list_driven_of driver list.now replies.now log.old).driver }
    ensures answer { result.answer ≡ (list_driven_of driver list.now replies.now log.old).answer }
    ensures logged { log.new ≡ (list_driven_of driver list.now replies.now log.old).log }
    ensures clears { is_going driver.state.op.status ≡ false → Clears list.now replies.now log.old result log.new }
    ensures busy { is_going driver.state.op.status ≡ true → Untouched driver log.old result log.new }
{
    let acted = state::begin_list(driver.state, driver.list, list, log.len());
    let begun = QspiSpansionS25Fl256SIoMode {
        state: acted.state,
        list: acted.list,
    };
    finish(begun, acted.answer, &[], &mut [], log, replies)
}
