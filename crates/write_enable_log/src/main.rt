// Runs write enable on document 01's six replies and prints the log, one line an access.
#![tactic(auto)]

use printing::tolerant::Tolerant;
use qspi_calls::start;
use std::io::{Result, Write, writer};

// A drain with nothing to drain, config, config, ready, the reply, config.
const REPLIES: [u32; 6] = [0, 0x8008_C4C1, 0x8008_C0C1, 0x10, 0xFF00_0000, 0x8008_C0C1];

fn main(rt: HostRuntime) -> Result<()> {
    let mut log = [0u32; 24];
    let op = start::write_enable(log.len());
    let ended = qspi_operation::run(op, &[], &mut [], &mut log, &REPLIES);
    let used = ended.op.used.min(log.len());
    print(&Tolerant::new(&rt), &log[..used])
}

fn print(rt: &impl Print, log: &[u32]) -> Result<()> {
    let mut text = [0u8; access_log::ROOM];
    let rendered = access_log::render_words(log, 0, &mut text);
    writer(rt).write_all(&text[..rendered.len])
}
