// Replies as they are drawn, in eight styles.
ghost use Rattle.std.specs.Prelude.{◌≡◌};
ghost use Rattle.trial_calls.specs.Replies.{is_ready, status_of, config_of, received_of, reply_of};

use crate::draw::Draw;
use zynq7000::qspi;

// The style that replies are drawn in. `Prompt` has each status ready and clean as soon as it is asked for. In
// the others config and status are words at random, a status is ready at once three times in four, in `Slow`
// every other time; and of data received, whose top byte may be a status, bits 6, 5 and 0 are as the names say.
#[derive(Clone, Copy, Debug, PartialEq, Eq)]
pub enum Style {
    Prompt,
    Clean,
    // Bit 0 is as it was drawn.
    Busy,
    // Any byte.
    Anything,
    // All three bits are set.
    BusyWithErrors,
    ProgrammingError,
    EraseError,
    Slow,
}

pub const STYLES: [Style; 8] = [
    Style::Prompt,
    Style::Clean,
    Style::Busy,
    Style::Anything,
    Style::BusyWithErrors,
    Style::ProgrammingError,
    Style::EraseError,
    Style::Slow,
];

impl Style {
    // The reply to a read of a register, where the controller is enabled or not yet.
    pub fn reply(self, draw: Draw, enabled: bool, offset: u8) -> u32
        ensures reply { result ≡ reply_of self draw.0 enabled offset }
    {
        match offset {
            qspi::INTERRUPT_STATUS => self.status(draw, enabled),
            qspi::CONFIG => self.config(draw),
            _ => self.received(draw.word()),
        }
    }

    // Whether a status read has bit 4 set. Before the controller is enabled it says that there is a word to
    // drain.
    fn is_ready(self, draw: Draw, enabled: bool) -> bool
        ensures ready { result ≡ is_ready self enabled draw.0 }
    {
        match self {
            Style::Slow => draw.0 / 0x800_0000 % 2 == 1,
            _ if enabled => draw.0 / 0x400_0000 % 4 != 0,
            _ => draw.0 / 0x800_0000 % 2 == 1,
        }
    }

    fn status(self, draw: Draw, enabled: bool) -> u32
        ensures status { result ≡ status_of self enabled draw.0 }
    {
        match self {
            Style::Prompt if enabled => 0x10,
            Style::Prompt => 0,
            _ if self.is_ready(draw, enabled) => draw.word() | 0x10,
            _ => draw.word() & 0xFFFF_FFEF,
        }
    }

    fn config(self, draw: Draw) -> u32
        ensures config { result ≡ config_of self draw.0 }
    {
        match self {
            Style::Prompt => 0x8008_C4C1,
            _ => draw.word(),
        }
    }

    fn received(self, word: u32) -> u32
        ensures received { result ≡ received_of self word }
    {
        match self {
            Style::Busy => word & 0x9FFF_FFFF,
            Style::Anything => word,
            Style::BusyWithErrors => word | 0x6100_0000,
            Style::ProgrammingError => (word & 0x9EFF_FFFF) | 0x4000_0000,
            Style::EraseError => (word & 0x9EFF_FFFF) | 0x2000_0000,
            Style::Prompt | Style::Clean | Style::Slow => word & 0x9EFF_FFFF,
        }
    }
}
