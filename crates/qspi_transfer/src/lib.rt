// Where one transfer of the QSPI controller stands, after the transfer guard of the Rust file
// `zynq7000-hal/src/qspi/mod.rs`: the phase, and what comes after each access. Document 01, "One
// transfer, access by access".
#![tactic(auto)]

ghost use Rattle.std.specs.Prelude.{◌≡◌, nat_lt};
ghost use Rattle.zynq7000.specs.Bits.{is_set};
ghost use Rattle.zynq7000.specs.Qspi.{rx_above_threshold};
ghost use Rattle.qspi_transfer.specs.Wire.{choose, at_phase, config_read, word_sent, reply_taken, register_done, wire_next, fresh_wire};

use zynq7000::qspi::InterruptStatus;

pub mod low_level;

// The access that is due: a read of a register, or a write of a value to it.
#[derive(Clone, Copy, PartialEq, Eq)]
pub enum Due {
    Read(u8),
    Write(u8, u32),
}

// What is due: a register access of the transfer, by its place in it. `Registers` is an access of a
// call that writes registers and sends nothing.
#[derive(Clone, Copy, PartialEq, Eq)]
pub enum Phase {
    DrainStatus,
    DrainData,
    OpenRead,
    OpenWrite,
    Enable,
    Send,
    StartRead,
    StartWrite,
    Wait,
    WaitAgain,
    Take,
    CloseRead,
    CloseWrite,
    Disable,
    Registers,
}

// The size of a transfer: its TX register, how many words follow the first, how many bytes of replies
// are taken, and whether a reply is taken after two status reads in a row. For `Registers`, `words` is
// how many accesses follow the first: it bounds `sent` in either case.
#[derive(Clone, Copy)]
pub struct Frame {
    pub port: u8,
    pub words: u32,
    pub bytes: u32,
    pub twice: bool,
}

// Where a transfer stands: the config word last read, the words sent, the bytes of replies taken, and
// the last three replies.
#[derive(Clone, Copy)]
pub struct Wire {
    pub phase: Phase,
    pub config: u32,
    pub sent: u32,
    pub read_index: u32,
    pub older: u32,
    pub old: u32,
    pub last: u32,
}

// One of two phases.
fn either(yes: bool, a: Phase, b: Phase) -> Phase
    ensures choice { result ≡ choose yes a b }
{
    if yes { a } else { b }
}

// One of two phases, by whether an RX word waits.
fn poll(status: u32, ready: Phase, not_yet: Phase) -> Phase
    ensures choice { result ≡ choose (is_set rx_above_threshold status) ready not_yet }
{
    if InterruptStatus(status).rx_above_threshold() {
        ready
    } else {
        not_yet
    }
}

// One of two phases, by whether a count is below its end.
fn below(count: u32, end: u32, more: Phase, enough: Phase) -> Phase
    ensures choice { result ≡ choose (nat_lt count end) more enough }
{
    if count < end { more } else { enough }
}

impl Wire {
    // A transfer, or a call that sends nothing, before its first access.
    pub fn begin(phase: Phase) -> Wire
        ensures wire { result ≡ fresh_wire phase }
    {
        Wire {
            phase,
            config: 0,
            sent: 0,
            read_index: 0,
            older: 0,
            old: 0,
            last: 0,
        }
    }

    // The transfer after an access, whose value is the word that was read or written; none if it was the
    // last access.
    pub fn advance(self, f: Frame, value: u32) -> Option<Wire>
        ensures moved { result ≡ wire_next self f value }
    {
        let next = match self.phase {
            Phase::DrainStatus => self.at(poll(value, Phase::DrainData, Phase::OpenRead)),
            Phase::DrainData => self.at(Phase::DrainStatus),
            Phase::OpenRead => self.with_config(Phase::OpenWrite, value),
            Phase::OpenWrite => self.at(Phase::Enable),
            Phase::Enable => self.at(Phase::Send),
            Phase::Send => self.after_word(f),
            Phase::StartRead => self.with_config(Phase::StartWrite, value),
            Phase::StartWrite => {
                let phase = below(self.read_index, f.bytes, Phase::Wait, Phase::CloseRead);
                self.at(phase)
            }
            Phase::Wait => {
                let ready = either(f.twice, Phase::WaitAgain, Phase::Take);
                self.at(poll(value, ready, Phase::Wait))
            }
            Phase::WaitAgain => self.at(poll(value, Phase::Take, Phase::Wait)),
            Phase::Take => self.after_reply(f, value),
            Phase::CloseRead => self.with_config(Phase::CloseWrite, value),
            Phase::CloseWrite => self.at(Phase::Disable),
            Phase::Disable => return None,
            Phase::Registers => return self.after_register(f, value),
        };
        Some(next)
    }

    // The same transfer at another phase.
    fn at(self, phase: Phase) -> Wire
        ensures wire { result ≡ at_phase self phase }
    {
        Wire { phase, ..self }
    }

    // A config word was read.
    fn with_config(self, phase: Phase, config: u32) -> Wire
        ensures wire { result ≡ config_read self phase config }
    {
        Wire {
            phase,
            config,
            ..self
        }
    }

    // A word was written: the next one, or the start.
    fn after_word(self, f: Frame) -> Wire
        ensures wire { result ≡ word_sent self f }
    {
        if self.sent < f.words {
            Wire {
                phase: Phase::Send,
                sent: self.sent + 1,
                ..self
            }
        } else {
            self.at(Phase::StartRead)
        }
    }

    // A reply was taken. Replies are counted in bytes, each adding 4 by a wrapping add as in the Rust.
    fn after_reply(self, f: Frame, reply: u32) -> Wire
        ensures wire { result ≡ reply_taken self f reply }
    {
        let read_index = self.read_index.wrapping_add(4);
        let phase = below(read_index, f.bytes, Phase::Wait, Phase::CloseRead);
        Wire {
            phase,
            read_index,
            older: self.old,
            old: self.last,
            last: reply,
            ..self
        }
    }

    // An access of a call that sends nothing was made: the next one, or the end.
    fn after_register(self, f: Frame, value: u32) -> Option<Wire>
        ensures moved { result ≡ register_done self f value }
    {
        if self.sent < f.words {
            Some(Wire {
                phase: Phase::Registers,
                config: value,
                sent: self.sent + 1,
                ..self
            })
        } else {
            None
        }
    }
}
