// The lines of the cases.
use crate::cut::Cut;
use crate::memory::{LOG, Memory, run};
use crate::record::Trial;
use qspi_operation::Op;
use qspi_script::Status;
use std::fmt;
use std::io::Result;
use trial_calls::call::Call;
use trial_calls::digest::digest;
use zedboard_bsp::qspi_spansion::device_id::{BaseDeviceId, ExtendedDeviceId};
use zedboard_bsp::qspi_spansion::words;

// One line, as in `cut_cases` and `oracle_cases`: a crate to share it would be longer than it.
pub fn bad(rt: &impl Print, number: u32) -> Result<()> {
    println!(rt; "BAD {number}")
}

impl fmt::Display for Trial {
    fn fmt<W: fmt::Write>(&self, f: &mut fmt::Formatter<W>) -> fmt::Result {
        let Trial { call, a, b, style } = *self;
        write!(f, "{call} {a:08x} {b} style {}", style as u8)
    }
}

// How the call ended, and digests: of the log, of the buffer, and of the run on the replies that it used.
pub fn line(rt: &impl Print, trial: Trial, op: Op, memory: &Memory, replies: &[u32]) -> Result<()> {
    let answer = op.status as u32;
    print!(rt;
        "{trial} -> {answer} used {} replies {}",
        op.used, op.replies
    )?;
    let log = digest(&memory.log);
    let buffer = digest(&memory.buffer);
    let again = run(trial, LOG, LOG, replies);
    print!(rt; " log {log:08x} buffer {buffer:08x} run {again:08x}")?;
    if op.status == Status::Done {
        value(rt, trial.call, op)?;
    }
    println!(rt; "")
}

// What a call that is done has read, by its last three replies.
fn value(rt: &impl Print, call: Call, op: Op) -> Result<()> {
    let wire = op.wire;
    match call {
        Call::ReadStatusRegister1 | Call::ReadConfigurationRegister => {
            print!(rt; " value {:02x}", words::top_byte(wire.last))
        }
        Call::ReadRdidBase => base(rt, BaseDeviceId::from_reply(wire.last)),
        Call::ReadRdidExtended => extended(
            rt,
            ExtendedDeviceId::from_replies(wire.older, wire.old, wire.last),
        ),
        _ => Ok(()),
    }
}

fn base(rt: &impl Print, id: BaseDeviceId) -> Result<()> {
    let [high, low] = id.device_id_raw().to_be_bytes();
    print!(rt; " id {:02x} {high:02x} {low:02x}", id.manufacturer_id())
}

fn extended(rt: &impl Print, id: ExtendedDeviceId) -> Result<()> {
    base(rt, id.base_id())?;
    let bytes = [id.id_cfi_len(), id.sector_arch_raw(), id.family_id()];
    for byte in bytes.iter().chain(&id.model_number_raw()) {
        print!(rt; " {byte:02x}")?;
    }
    Ok(())
}

// Two words an access: the register, and the value.
pub fn accesses(rt: &impl Print, log: &[u32]) -> Result<()> {
    for access in log.chunks_exact(2) {
        if let &[register, value] = access {
            let kind = if register < 0x100 { 'W' } else { 'R' };
            println!(rt; "{kind} {:02x} {value:08x}", register % 0x100)?;
        }
    }
    Ok(())
}

pub fn cut(rt: &impl Print, trial: Trial, op: Op, cut: Cut, replies: &[u32]) -> Result<()> {
    let points = cut.points(replies.len(), op.used);
    print!(rt;
        "cut {} {trial} -> {} points {points}",
        cut as u8, op.status as u32
    )?;
    println!(rt; " digest {:08x}", cut.digest(trial, points, replies))
}
