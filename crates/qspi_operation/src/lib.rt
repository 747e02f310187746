// An operation as a state by value: the access that is due, the step that makes and logs it, and a run
// over replies and a log. Document 01, "What changes shape" and "What the state can bring on".
#![tactic(auto)]

ghost use Rattle.std.specs.Prelude.{◌≡◌, ◌+◌, ◌≤◌, length, nat_le};
ghost use Rattle.zynq7000.specs.Number as paper;
ghost use Rattle.qspi_transfer.specs.Wire.{fresh_wire, pick_wire, wire_next};
ghost use Rattle.qspi_transfer.specs.declared.Phase.TheVariants.{DrainStatus};
ghost use Rattle.qspi_script.specs.Stages.{frame_of};
ghost use Rattle.qspi_script.specs.declared.Status.TheVariants.{Going};
ghost use Rattle.qspi_operation.specs.Step.{is_going, register_access, send_access, turned_on, access_of, due_of, asked_answer, answered, same_lengths, going, stopped, counted, written, reply_of, step_of, log_of, buffer_of, counted_of, erases_list};
ghost use Rattle.qspi_operation.specs.Follows.{StepFollows, DueFollows, RunFollows};
ghost use Rattle.qspi_operation.specs.Pass.{verdict_on, refused, stands_for, Onward};
ghost use Rattle.qspi_operation.specs.Run.{run_of, Ran};

use qspi_script::{Job, Place, Sequel, Status, Turned};
use qspi_transfer::{Due, Frame, Phase, Wire, low_level};
use zynq7000::qspi::Config;
use zynq7000::{bits, qspi};

pub mod store;

// The call, where it stands, the used counts (log words, replies), and its answer so far.
#[derive(Clone, Copy)]
pub struct Op {
    pub job: Job,
    pub place: Place,
    pub wire: Wire,
    pub used: usize,
    pub replies: usize,
    pub status: Status,
}

// The data lent now has another length than the call was lent at its start: the access due is not known.
#[derive(Clone, Copy)]
pub struct LentLengthChanged;

impl LentLengthChanged {
    // Document 01's number.
    pub fn number(self) -> u32
        ensures number { result ≡ paper.number paper.LentLengthChanged }
    {
        Status::LentLengthChanged as u32
    }
}

// The number of what `due` answers, where it is refused.
pub fn refusal_number(asked: Result<Option<Due>, LentLengthChanged>) -> Option<u32>
    ensures number { result ≡ (asked_answer asked).number }
{
    match asked {
        Ok(_) => None,
        Err(changed) => Some(changed.number()),
    }
}

// The operation after a step, and what the step answers.
#[derive(Clone, Copy)]
pub struct Stepped {
    pub op: Op,
    pub answer: Status,
}

// One access, as its two log words, and whether it used a reply. It is no `Access`: the log, the buffer, the wire
// and the count of replies each take a part as it is, and each would match an `Access` first.
#[derive(Clone, Copy)]
struct Accessed {
    first: u32,
    value: u32,
    read: bool,
}

// Why a step of an operation that is going on makes no access.
#[derive(Clone, Copy)]
enum NoAccess {
    LentLengthChanged,
    LogFull,
    RepliesEnded,
}

// What an access leaves of the transfer at hand, nothing if it was its last one, and the used counts.
#[derive(Clone, Copy)]
struct Passed {
    wire: Option<Wire>,
    used: usize,
    replies: usize,
}

pub fn is_going(status: Status) -> bool
    ensures going { result ≡ is_going status }
{
    status == Status::Going
}

impl Op {
    // The access of a register call.
    fn register_access(&self) -> Due
        ensures due { result ≡ register_access self.now.job self.now.wire }
    {
        let call = self.job.low_level;
        low_level::due(call.sequence, self.wire.sent, self.wire.config, call.word)
    }

    // The word that a transfer sends next.
    fn send(&self, data: &[u8]) -> Due
        ensures due { result ≡ send_access self.now.job self.now.place self.now.wire «data».now }
    {
        let word = self.job.due_word(self.place, self.wire.sent, data);
        Due::Write(self.job.frame(self.place).port, word)
    }

    // The access of an operation that is going on.
    fn access(&self, data: &[u8]) -> Due
        ensures due { result ≡ access_of self.now.job self.now.place self.now.wire «data».now }
    {
        let config = self.wire.config;
        match self.wire.phase {
            Phase::DrainStatus | Phase::Wait | Phase::WaitAgain => {
                Due::Read(qspi::INTERRUPT_STATUS)
            }
            Phase::DrainData | Phase::Take => Due::Read(qspi::RX_DATA),
            Phase::OpenRead | Phase::StartRead | Phase::CloseRead => Due::Read(qspi::CONFIG),
            Phase::OpenWrite => Due::Write(
                qspi::CONFIG,
                bits::clear(config, Config::PERIPHERAL_CHIP_SELECT),
            ),
            Phase::StartWrite => Due::Write(
                qspi::CONFIG,
                bits::put(config, Config::MANUAL_START_COMMAND),
            ),
            Phase::CloseWrite => Due::Write(
                qspi::CONFIG,
                bits::put(config, Config::PERIPHERAL_CHIP_SELECT),
            ),
            Phase::Enable => Due::Write(qspi::SPI_ENABLE, 1),
            Phase::Disable => Due::Write(qspi::SPI_ENABLE, 0),
            Phase::Send => self.send(data),
            Phase::Registers => self.register_access(),
        }
    }

    // Whether the memory has the lengths that were lent at the start.
    fn was_lent(&self, data: usize, buffer: usize, log: usize) -> bool
        ensures same { result ≡ same_lengths self.now.job «data» buffer log }
    {
        let lent = self.job.lent;
        data == lent.data && buffer == lent.buffer && log == lent.log
    }

    // The access that a step makes of an operation that is going on: 25, then 24, then 23.
    fn judged(
        &self,
        data: &[u8],
        buffer: usize,
        room: usize,
        replies: &[u32],
        at: usize,
    ) -> Result<Accessed, NoAccess>
        ensures verdict { verdict_on result ≡ going self.now «data».now buffer room (reply_of replies.now at) }
    {
        if !self.was_lent(data.len(), buffer, room) {
            return Err(NoAccess::LentLengthChanged);
        }
        if !has_room(self.used, room) {
            return Err(NoAccess::LogFull);
        }
        answer_by(self.access(data), replies, at)
    }

    // Ended without an access.
    fn stopped(self, status: Status) -> Stepped
        ensures stepped { result ≡ stopped self status }
    {
        let op = Op { status, ..self };
        Stepped { op, answer: status }
    }

    // No access was made: 25 ends nothing.
    fn refused(self, why: NoAccess) -> Stepped
        ensures stepped { result ≡ refused why self }
    {
        match why {
            NoAccess::LentLengthChanged => Stepped {
                op: self,
                answer: Status::LentLengthChanged,
            },
            NoAccess::LogFull => self.stopped(Status::LogFull),
            NoAccess::RepliesEnded => self.stopped(Status::RepliesEnded),
        }
    }

    // After the last access of a transfer.
    fn turned(self, used: usize, replies: usize) -> Stepped
        ensures stepped { result ≡ turned_on self used replies }
    {
        let Turned { place, status } = self.job.turn(self.place, self.wire.last);
        let op = Op {
            place,
            wire: wire_after(status, self.wire),
            used,
            replies,
            status,
            ..self
        };
        Stepped { op, answer: status }
    }
}

// The access that is due, by the data lent, asked for without effect; none where the operation has ended.
pub fn due(op: Op, data: &[u8]) -> Result<Option<Due>, LentLengthChanged>
    ensures due { result ≡ due_of op «data».now }
    ensures follows { DueFollows op «data».now result }
{
    if !is_going(op.status) {
        return Ok(None);
    }
    if data.len() != op.job.lent.data {
        return Err(LentLengthChanged);
    }
    Ok(Some(op.access(data)))
}

// A read uses the reply at a place; a write uses none.
fn answer_by(due: Due, replies: &[u32], at: usize) -> Result<Accessed, NoAccess>
    ensures verdict { verdict_on result ≡ answered due (reply_of replies.now at) }
{
    match due {
        Due::Read(offset) => match replies.get(at) {
            Some(&value) => Ok(Accessed {
                first: 0x100 + offset as u32,
                value,
                read: true,
            }),
            None => Err(NoAccess::RepliesEnded),
        },
        Due::Write(offset, value) => Ok(Accessed {
            first: offset as u32,
            value,
            read: false,
        }),
    }
}

// Whether two words of log are left.
fn has_room(used: usize, room: usize) -> bool
    ensures room { result ≡ nat_le (used + 2) room }
{
    2 <= room && used <= room - 2
}

// The wire of the next transfer; after the last one the replies stay for the answer.
fn wire_after(status: Status, wire: Wire) -> Wire
    ensures wire { result ≡ pick_wire (is_going status) (fresh_wire DrainStatus) wire }
{
    if is_going(status) {
        Wire::begin(Phase::DrainStatus)
    } else {
        wire
    }
}

// A reply is counted where the access was a read.
fn count(read: bool, replies: usize) -> usize
    ensures count { result ≡ counted read replies }
{
    if read {
        replies.wrapping_add(1)
    } else {
        replies
    }
}

// An access goes into the log.
fn put(log: &mut [u32], at: usize, first: u32, value: u32)
    requires { at + 2 ≤ length log.old }
    ensures logged { log.new ≡ written log.old at first value }
{
    log[at] = first;
    log[at + 1] = value;
}

// One access of an operation that is going on, or none, where the frame of its transfer is at hand. Data,
// buffer, log, replies and the place among them are handed on one by one, in all of this file: callers lend each
// by itself, and a clause speaks of what becomes of each.
fn pass(
    op: &Op,
    frame: Frame,
    data: &[u8],
    buffer: &mut [u8],
    log: &mut [u32],
    replies: &[u32],
    at: usize,
) -> Result<Passed, NoAccess>
    requires { (frame ≡ frame_of op.now.job op.now.place) × (op.now.status ≡ Going) }
    ensures stands { stands_for result op.now ≡ step_of op.now «data».now (length buffer.old) (length log.old) (reply_of replies.now at) }
    ensures logged { log.new ≡ log_of op.now «data».now (length buffer.old) log.old (reply_of replies.now at) }
    ensures stored { buffer.new ≡ buffer_of op.now «data».now buffer.old (length log.old) (reply_of replies.now at) }
{
    let made = op.judged(data, buffer.len(), log.len(), replies, at)?;
    put(log, op.used, made.first, made.value);
    store::store(buffer, op, made.value);
    Ok(Passed {
        wire: op.wire.advance(frame, made.value),
        used: op.used + 2,
        replies: count(made.read, op.replies),
    })
}

// One step of an operation, where the reply is the one at a place of the replies.
pub fn step_at(
    mut op: Op,
    data: &[u8],
    buffer: &mut [u8],
    log: &mut [u32],
    replies: &[u32],
    at: usize,
) -> Stepped
    ensures state { result ≡ step_of op «data».now (length buffer.old) (length log.old) (reply_of replies.now at) }
    ensures logged { log.new ≡ log_of op «data».now (length buffer.old) log.old (reply_of replies.now at) }
    ensures stored { buffer.new ≡ buffer_of op «data».now buffer.old (length log.old) (reply_of replies.now at) }
    ensures follows { StepFollows op «data».now buffer.old log.old (reply_of replies.now at) result buffer.new log.new }
{
    if !is_going(op.status) {
        return Stepped {
            op,
            answer: op.status,
        };
    }
    let passed = match pass(&op, op.job.frame(op.place), data, buffer, log, replies, at) {
        Ok(passed) => passed,
        Err(why) => return op.refused(why),
    };
    match passed.wire {
        Some(next) => {
            op.wire = next;
            op.used = passed.used;
            op.replies = passed.replies;
            Stepped {
                op,
                answer: Status::Going,
            }
        }
        None => op.turned(passed.used, passed.replies),
    }
}

// One step of an operation, which is handed one reply or none.
pub fn step(op: Op, data: &[u8], buffer: &mut [u8], log: &mut [u32], reply: Option<u32>) -> Stepped
    ensures state { result ≡ step_of op «data».now (length buffer.old) (length log.old) reply }
    ensures logged { log.new ≡ log_of op «data».now (length buffer.old) log.old reply }
    ensures stored { buffer.new ≡ buffer_of op «data».now buffer.old (length log.old) reply }
    ensures follows { StepFollows op «data».now buffer.old log.old reply result buffer.new log.new }
{
    match reply {
        Some(word) => {
            let one = [word];
            step_at(op, data, buffer, log, &one, 0)
        }
        None => {
            let none = [0u32; 0];
            step_at(op, data, buffer, log, &none, 0)
        }
    }
}

// The accesses of the transfer at hand, to its last one or to where the run stops. Its wire and the used
// counts change in place: an operation that is made anew in each turn takes its padding along.
fn transfer(op: Op, data: &[u8], buffer: &mut [u8], log: &mut [u32], replies: &[u32]) -> Stepped
    requires { op.status ≡ Going }
    ensures onward { Onward op «data».now replies.now buffer.old log.old result buffer.new log.new }
{
    let frame = op.job.frame(op.place);
    let mut o = op;
    loop {
        let passed = match pass(&o, frame, data, buffer, log, replies, o.replies) {
            Ok(passed) => passed,
            Err(why) => return o.refused(why),
        };
        let Some(next) = passed.wire else {
            return o.turned(passed.used, passed.replies);
        };
        o.wire = next;
        o.used = passed.used;
        o.replies = passed.replies;
    }
}

// Steps an operation to its end, the replies in order.
pub fn run(op: Op, data: &[u8], buffer: &mut [u8], log: &mut [u32], replies: &[u32]) -> Stepped
    ensures ran { Ran result buffer.new log.new (run_of op «data».now replies.now buffer.old log.old) }
    ensures follows { RunFollows op «data».now buffer.old log.old replies.now result buffer.new log.new }
{
    let mut o = op;
    let mut answer = op.status;
    while is_going(answer) {
        let s = transfer(o, data, buffer, log, replies);
        o = s.op;
        answer = s.answer;
    }
    Stepped { op: o, answer }
}

// What the answer counts: the bytes of the chunks of `write_pages` that ended clean, or the sectors of a
// list that did.
pub fn counted(op: Op) -> usize
    ensures count { result ≡ counted_of op }
{
    match op.job.script.sequel {
        Sequel::Once => 0,
        Sequel::Pages | Sequel::Sectors => op.place.done,
    }
}

// Whether an operation erases a list of sectors, which it is lent as its data.
pub fn erases_list(op: Op) -> bool
    ensures list { result ≡ erases_list op }
{
    op.job.script.sequel == Sequel::Sectors
}
