// A call of the driver against the device, access by access.
ghost use Rattle.std.specs.Prelude.{◌≡◌};
ghost use Rattle.qspi_operation.specs.Step.{same_lengths};
ghost use Rattle.simulated_device.specs.Simulated.{sim_of};
ghost use Rattle.simulated_device.specs.Running.{met_of, met_on, due_in, beginning, turns};

use crate::{Device, Refused};
use qspi_operation::{LentLengthChanged, Op};
use qspi_script::Status;
use qspi_transfer::Due;

// Where a run stands: the operation, its answer, none where the device could not go on, and the device.
#[derive(Clone, Copy)]
pub struct Ran {
    pub op: Op,
    pub answer: Option<Status>,
    pub device: Device,
}

// What the device has for the access that is due.
#[derive(Clone, Copy)]
pub struct Met {
    pub device: Device,
    pub reply: Option<u32>,
}

// Whether each lent length is the one of the start: qspi_operation keeps its own of this to itself.
fn same_lengths(op: Op, data: usize, buffer: usize, log: usize) -> bool
    ensures same { result ≡ same_lengths op.job «data» buffer log }
{
    let lent = op.job.lent;
    data == lent.data && buffer == lent.buffer && log == lent.log
}

// Another lent length than at the start is answered 25, and no room 24: the device sees nothing of it.
fn due_in(op: Op, data: &[u8], buffer: usize, log: usize) -> Result<Option<Due>, LentLengthChanged>
    ensures due { result ≡ due_in op «data».now buffer log }
{
    if !same_lengths(op, data.len(), buffer, log) || log.saturating_sub(op.used) < 2 {
        return Ok(None);
    }
    qspi_operation::due(op, data)
}

// A read gets a reply where one is left, and a write that the device refuses is not made.
fn meet(
    due: Result<Option<Due>, LentLengthChanged>,
    is_left: bool,
    device: Device,
    sent: &mut [u8],
    received: &mut [u32],
    array: &mut [u8],
) -> Result<Met, Refused>
    ensures met { result ≡ met_of (met_on due is_left (sim_of device sent.old received.old array.old)) }
    ensures sent { sent.new ≡ (met_on due is_left (sim_of device sent.old received.old array.old)).sim.sent }
    ensures received { received.new ≡ (met_on due is_left (sim_of device sent.old received.old array.old)).sim.received }
    ensures array { array.new ≡ (met_on due is_left (sim_of device sent.old received.old array.old)).sim.array }
{
    match due {
        Ok(Some(Due::Read(offset))) if is_left => {
            let given = crate::read(device, offset, sent, received, array);
            Ok(Met {
                device: given.device,
                reply: Some(given.value),
            })
        }
        Ok(Some(Due::Write(offset, value))) => {
            let device = crate::write(device, offset, value, sent, received, array)?;
            Ok(Met {
                device,
                reply: None,
            })
        }
        _ => Ok(Met {
            device,
            reply: None,
        }),
    }
}

// Steps a call to its end, or until the power fails after so many accesses: each read with the reply that
// the device gives, so many of them at most.
pub fn run(
    mut op: Op,
    mut device: Device,
    accesses: usize,
    replies: usize,
    data: &[u8],
    buffer: &mut [u8],
    log: &mut [u32],
    sent: &mut [u8],
    received: &mut [u32],
    array: &mut [u8],
) -> Ran
    ensures ran { result ≡ (turns accesses replies «data».now (beginning op device buffer.old log.old sent.old received.old array.old)).ran }
    ensures buffer { buffer.new ≡ (turns accesses replies «data».now (beginning op device buffer.old log.old sent.old received.old array.old)).buffer }
    ensures log { log.new ≡ (turns accesses replies «data».now (beginning op device buffer.old log.old sent.old received.old array.old)).log }
    ensures sent { sent.new ≡ (turns accesses replies «data».now (beginning op device buffer.old log.old sent.old received.old array.old)).sent }
    ensures received { received.new ≡ (turns accesses replies «data».now (beginning op device buffer.old log.old sent.old received.old array.old)).received }
    ensures array { array.new ≡ (turns accesses replies «data».now (beginning op device buffer.old log.old sent.old received.old array.old)).array }
{
    let mut answer = op.status;
    for _ in 0..accesses {
        if !qspi_operation::is_going(answer) {
            break;
        }
        let due = due_in(op, data, buffer.len(), log.len());
        let met = match meet(due, op.replies < replies, device, sent, received, array) {
            Ok(met) => met,
            Err(refused) => {
                return Ran {
                    op,
                    answer: None,
                    device: refused.device,
                };
            }
        };
        device = met.device;
        let s = qspi_operation::step(op, data, buffer, log, met.reply);
        op = s.op;
        answer = s.answer;
    }
    Ran {
        op,
        answer: Some(answer),
        device,
    }
}
