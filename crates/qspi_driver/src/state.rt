// The driver state by value: what a start and a step make of it. The methods that are lent the driver
// take it apart and call these.
ghost use Rattle.std.specs.Prelude.{◌≡◌, length, ℕ, [], ◌∷◌};
ghost use Rattle.zedboard_bsp.specs.Words.{top_byte};
ghost use Rattle.zedboard_bsp.specs.DeviceId.{base_bytes, extended_bytes, reply_bytes, long_reply_bytes};
ghost use Rattle.qspi_script.specs.declared.Gives.TheVariants as gives;
ghost use Rattle.qspi_operation.specs.Step.{due_of, log_of, buffer_of, reply_of};
ghost use Rattle.qspi_operation.specs.Follows.{DueFollows};
ghost use Rattle.qspi_driver.specs.State.{number_in, begun_of, begun_list_of, lent_to, acted_by, stepped_of, progress_of, values_given, place_given, is_under_way};
ghost use Rattle.qspi_driver.specs.Promise.{Started, Steps, AnswerFollows};
ghost use Rattle.qspi_driver.specs.Cleared.{ListStarted};

use qspi_calls::{run, sectors, start};
use qspi_operation::{LentLengthChanged, Op, Stepped};
use qspi_script::{Gives, Status};
use qspi_transfer::Due;
use zedboard_bsp::qspi_spansion::device_id::{BaseDeviceId, ExtendedDeviceId};
use zedboard_bsp::qspi_spansion::{LONGEST_LIST, words};

// What the driver knows between two accesses: the operation at hand.
#[derive(Clone, Copy)]
pub struct State {
    pub op: Op,
}

// The list of sectors as it was lent at the start of `erase_sectors`, a byte a sector: its number. There is no
// heap on the board, so there is room for the longest; how many they are says the operation.
#[derive(Clone, Copy)]
pub struct SectorList {
    pub numbers: [u8; LONGEST_LIST],
}

// Why a start begins nothing: nothing is changed then.
#[derive(Clone, Copy, PartialEq, Eq)]
pub enum StartRefused {
    // The operation at hand has not ended.
    Busy,
    // A list of sectors is begun without its list; `erase_sectors` begins one.
    ListMissing,
}

// Document 01's number, where the answer has one.
pub fn number(answer: Result<Status, StartRefused>) -> Option<u32>
    ensures number { result ≡ number_in answer }
{
    match answer {
        Ok(status) => status.number(),
        Err(_) => None,
    }
}

// The state after a start or a step, and its answer: the status of the operation at hand. Both answer in one
// type, so that a caller begins a call and goes on with it by one answer; a step is not refused.
#[derive(Clone, Copy)]
pub struct Acted {
    pub state: State,
    pub answer: Result<Status, StartRefused>,
}

// The same after a start of a list, with the list that is kept.
#[derive(Clone, Copy)]
pub struct ListActed {
    pub state: State,
    pub list: SectorList,
    pub answer: Result<Status, StartRefused>,
}

// The answer so far: status, used counts (log words, replies), what it counts (bytes programmed by
// `write_pages`, sectors finished of a list), and of an answer with values what it gives: the SLCR clock
// word, the place of an entry, and the last three replies, of which a register's byte or an id is made. These
// are no enum of values: `register`, the ids and `lqspi_clk_ctrl` promise what they give of any answer.
#[derive(Clone, Copy)]
pub struct Progress {
    pub status: Status,
    pub used: usize,
    pub replies: usize,
    pub counted: usize,
    pub gives: Gives,
    pub clock: u32,
    pub older: u32,
    pub old: u32,
    pub last: u32,
}

impl Progress {
    // The byte of `read_status_register_1` or `read_configuration_register`.
    pub fn register(self) -> u8
        ensures byte { result ≡ top_byte self.last }
        ensures value { self.gives ≡ gives.Register → values_given self ≡ result ∷ [] }
    {
        words::top_byte(self.last)
    }

    // The id of `read_rdid_base`.
    pub fn base_device_id(self) -> BaseDeviceId
        ensures bytes { base_bytes result ≡ reply_bytes self.last }
        ensures values { self.gives ≡ gives.Id → values_given self ≡ base_bytes result }
    {
        BaseDeviceId::from_reply(self.last)
    }

    // The id of `read_rdid_extended`.
    pub fn extended_device_id(self) -> ExtendedDeviceId
        ensures bytes { extended_bytes result ≡ long_reply_bytes self.older self.old self.last }
        ensures values { self.gives ≡ gives.LongId → values_given self ≡ extended_bytes result }
    {
        ExtendedDeviceId::from_replies(self.older, self.old, self.last)
    }

    // The SLCR clock word of `initialize`; 0 for any other call.
    pub fn lqspi_clk_ctrl(self) -> u32
        ensures word { result ≡ self.clock }
        ensures value { self.gives ≡ gives.Clock → values_given self ≡ result ∷ [] }
    {
        self.clock
    }

    // The place, from 0, of the entry that a list of sectors was refused for; 0 for any other answer, and no
    // `Option`: clause `place` says 0 of those, and `gives` tells which answers have a place.
    pub fn place(self) -> u8
        ensures place { result ≡ place_given self.gives }
        ensures value { (n : ℕ) → self.gives ≡ gives.Place n → values_given self ≡ result ∷ [] }
    {
        match self.gives {
            Gives::Place(at) => at,
            _ => 0,
        }
    }
}

// Begins a call, unless one is under way or the call is of a list, which `begin_list` begins.
pub fn begin(state: State, op: Op) -> Acted
    ensures acted { (result ≡ begun_of state op) × Started state.op op result.answer result.state.op }
{
    if qspi_operation::is_going(state.op.status) {
        return Acted {
            state,
            answer: Err(StartRefused::Busy),
        };
    }
    if qspi_operation::erases_list(op) {
        return Acted {
            state,
            answer: Err(StartRefused::ListMissing),
        };
    }
    Acted {
        state: State { op },
        answer: Ok(op.status),
    }
}

// Begins a list of sectors, unless a call is under way: its numbers are kept beside the operation.
pub fn begin_list(state: State, kept: SectorList, list: &[u32], log: usize) -> ListActed
    ensures acted { (result ≡ begun_list_of state kept list.now log) × ListStarted state list.now log result.answer result.state result.list }
{
    if qspi_operation::is_going(state.op.status) {
        let answer = Err(StartRefused::Busy);
        return ListActed {
            state,
            list: kept,
            answer,
        };
    }
    let begun = start::erase_sectors(list, log);
    let numbers = sectors::numbered(list);
    ListActed {
        state: State { op: begun },
        list: SectorList { numbers },
        answer: Ok(begun.status),
    }
}

// What the operation at hand is lent: a list of sectors its own copy, as far as it is long, and no other
// data with it; any other operation the caller's data. Three functions take state, list and data one by one:
// a struct of them would be made for each call, and taken apart in it.
fn lent_to<'a>(state: State, list: &'a [u8], data: &'a [u8]) -> &'a [u8]
    ensures lent { result.now ≡ lent_to state.op list.now «data».now }
{
    if !qspi_operation::erases_list(state.op) {
        return data;
    }
    if 0 < data.len() {
        return &list[..0];
    }
    let n = state.op.job.lent.data;
    if n < list.len() { &list[..n] } else { list }
}

// The access that is due.
pub fn due<'a>(
    state: State,
    list: &'a [u8],
    data: &'a [u8],
) -> Result<Option<Due>, LentLengthChanged>
    ensures due { (result ≡ due_of state.op (lent_to state.op list.now «data».now)) × DueFollows state.op (lent_to state.op list.now «data».now) result }
{
    let lent = lent_to(state, list, data);
    qspi_operation::due(state.op, lent)
}

pub fn answer_so_far(state: State) -> Progress
    ensures progress { (result ≡ progress_of state.op) × AnswerFollows state.op result }
{
    let op = state.op;
    let status = op.status;
    let wire = op.wire;
    Progress {
        status,
        used: op.used,
        replies: op.replies,
        counted: qspi_operation::counted(op),
        gives: run::given(status, op.job.script.gives),
        clock: run::kept(status, op.job.low_level.clock),
        older: run::kept(status, wire.older),
        old: run::kept(status, wire.old),
        last: run::kept(status, wire.last),
    }
}

// The state that holds a stepped operation.
fn holding(stepped: Stepped) -> Acted
    ensures acted { result ≡ acted_by stepped }
{
    Acted {
        state: State { op: stepped.op },
        answer: Ok(stepped.answer),
    }
}

// A step of the operation at hand. A call without data or without a read buffer is lent an empty one.
pub fn step<'a>(
    state: State,
    list: &'a [u8],
    data: &'a [u8],
    buffer: &mut [u8],
    log: &mut [u32],
    reply: Option<u32>,
) -> Acted
    ensures acted { (result ≡ stepped_of state (lent_to state.op list.now «data».now) (length buffer.old) (length log.old) reply) × (buffer.new ≡ buffer_of state.op (lent_to state.op list.now «data».now) buffer.old (length log.old) reply) × (log.new ≡ log_of state.op (lent_to state.op list.now «data».now) (length buffer.old) log.old reply) × Steps state.op (lent_to state.op list.now «data».now) buffer.old log.old reply result.answer result.state.op buffer.new log.new }
{
    let lent = lent_to(state, list, data);
    holding(qspi_operation::step(state.op, lent, buffer, log, reply))
}

// The next one of the replies that was not used, or none.
pub fn next_reply(state: State, replies: &[u32]) -> Option<u32>
    ensures reply { result ≡ reply_of replies.now state.op.replies }
{
    replies.get(state.op.replies).copied()
}

// Whether a call is under way: a step is due.
pub fn is_under_way(answer: Result<Status, StartRefused>) -> bool
    ensures way { result ≡ is_under_way answer }
{
    matches!(answer, Ok(Status::Going))
}
