// A case as a line of the input.
ghost use Rattle.std.specs.Prelude.{◌≤◌};

use crate::memory::BYTES;
use qspi_operation::Op;
use trial_calls::call::{CALLS, Call};
use trial_calls::reply::{STYLES, Style};

// Bytes of a line, with its end.
pub const LENGTH: usize = 21;

// A call, its inputs, and how its replies come.
#[derive(Clone, Copy)]
pub struct Trial {
    pub call: Call,
    pub a: u32,
    pub b: usize,
    pub style: Style,
}

impl Trial {
    // The call's start, over a log of so many words.
    pub fn start(self, log: usize) -> Op {
        self.call.start(self.a, self.b, &[], log)
    }

    // How much it is lent of the data.
    pub fn data_len(self) -> usize
        ensures within { result ≤ 512 }
    {
        match self.call {
            Call::Program => self.b.min(BYTES),
            _ => 0,
        }
    }

    // How much it is lent of the buffer.
    pub fn buffer_len(self) -> usize
        ensures within { result ≤ 512 }
    {
        match self.call {
            Call::ReadPageRead | Call::ReadFastRead | Call::ReadFastReadDummy => self.b.min(BYTES),
            _ => 0,
        }
    }
}

// What is printed of a call.
#[derive(Clone, Copy, Debug, PartialEq, Eq)]
pub enum Shows {
    Line,
    // Its log too.
    Whole,
    Cuts,
}

#[derive(Clone, Copy)]
pub struct Case {
    pub trial: Trial,
    pub shows: Shows,
}

impl Case {
    pub fn parse(line: &[u8]) -> Option<Case> {
        let call = call(field(line, 0, 2, 10)?)?;
        let a = field(line, 3, 11, 16)?;
        let b = field(line, 12, 16, 10)? as usize;
        let style = *STYLES.get(field(line, 17, 18, 10)? as usize)?;
        let shows = match field(line, 19, 20, 10)? {
            0 => Shows::Line,
            1 => Shows::Whole,
            2 => Shows::Cuts,
            _ => return None,
        };
        if BYTES < b {
            return None;
        }
        let trial = Trial { call, a, b, style };
        Some(Case { trial, shows })
    }
}

// The call of a number. `write_pages` and a list of sectors have none.
fn call(number: u32) -> Option<Call> {
    CALLS
        .iter()
        .copied()
        .filter(|call| !matches!(call, Call::WritePages | Call::EraseSectors))
        .nth(number as usize)
}

// The number whose digits stand from one place to another, with a blank or the line's end behind.
fn field(line: &[u8], from: usize, to: usize, radix: u32) -> Option<u32> {
    if b' ' < *line.get(to)? {
        return None;
    }
    let mut value: u32 = 0;
    for &byte in line.get(from..to)? {
        value = value.checked_mul(radix)?.checked_add(digit(byte, radix)?)?;
    }
    Some(value)
}

// The value of a digit, upper case in hex.
fn digit(byte: u8, radix: u32) -> Option<u32> {
    match byte {
        b'0'..=b'9' => Some((byte - b'0') as u32),
        b'A'..=b'F' if radix == 16 => Some((byte - b'A' + 10) as u32),
        _ => None,
    }
}
