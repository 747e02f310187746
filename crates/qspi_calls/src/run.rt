// A call from its start to its end: its run where only replies and a log are lent, and what it hands back.
ghost use Rattle.std.specs.Prelude.{◌≡◌};
ghost use Rattle.qspi_script.specs.Answer.{values_in};
ghost use Rattle.qspi_operation.specs.Follows.{RunFollows, answer_by};
ghost use Rattle.qspi_calls.specs.Values as values;
ghost use Rattle.qspi_calls.specs.Promise.{nothing, handed, kept_of, given_of, one_of};

use qspi_operation::{Op, Stepped};
use qspi_script::{Gives, Status};
use zedboard_bsp::qspi_spansion::words;

// How a call ended, and the used counts: log words and replies.
#[derive(Clone, Copy)]
pub struct Ran {
    pub answer: Status,
    pub used: usize,
    pub replies: usize,
}

// What a run hands back.
pub fn finish(s: Stepped) -> Ran
    ensures ran { result ≡ handed s }
{
    Ran {
        answer: s.answer,
        used: s.op.used,
        replies: s.op.replies,
    }
}

// Whether an answer has values: that of a call that is done, or refused for an entry of a list.
fn has_values(status: Status) -> bool
    ensures values { result ≡ values.has_values status }
{
    matches!(
        status,
        Status::Done | Status::OutOfRange | Status::Alignment | Status::RepeatedSector
    )
}

// A reply, where the answer has values: what its value is made of. 0 where it has none, as the clause says.
pub fn kept(answer: Status, reply: u32) -> u32
    ensures kept { result ≡ kept_of answer reply }
{
    if has_values(answer) { reply } else { 0 }
}

// What a call gives, where its answer has values.
pub fn given(answer: Status, gives: Gives) -> Gives
    ensures given { result ≡ given_of answer gives }
{
    if has_values(answer) {
        gives
    } else {
        Gives::Nothing
    }
}

// The one value of an answer: a register's byte, the SLCR clock word, or the place of an entry of a list. 0
// where it has none, and where it has more, as an id: C is handed a word, and clause `value` says this one.
pub fn value(s: Stepped) -> u32
    ensures value { result ≡ one_of (values_in (answer_by s).says) }
{
    let job = s.op.job;
    match given(s.answer, job.script.gives) {
        Gives::Nothing | Gives::Id | Gives::LongId => 0,
        Gives::Register => words::top_byte(s.op.wire.last) as u32,
        Gives::Clock => job.low_level.clock,
        Gives::Place(at) => at as u32,
    }
}

// A run of a call that is lent only replies and a log.
pub fn command(op: Op, replies: &[u32], log: &mut [u32]) -> Stepped
    ensures follows { RunFollows op nothing nothing log.old replies.now result nothing log.new }
    ensures job { result.op.job ≡ op.job }
{
    let data = [0u8; 0];
    let mut buffer = [0u8; 0];
    qspi_operation::run(op, &data, &mut buffer, log, replies)
}
