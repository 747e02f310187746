// The list of `erase_sectors`, as a request says it.
ghost use Rattle.std.specs.Prelude.{◌<◌, ◌≤◌, vec_len};

use crate::fault::Problem;
use crate::numbers;
use qspi_calls::start;
use qspi_operation::Op;
use qspi_script::Status;
use std::alloc::Global;
use zedboard_bsp::qspi_spansion::{LONGEST_LIST, SECTOR_SIZE, limits};

// More than a call takes, so that its refusal can be asked for.
const MOST_SECTORS: usize = 300;

// Behind the last sector.
pub const ARRAY_END: u32 = 0x100_0000;

const SECTOR: u32 = SECTOR_SIZE as u32;

// The sector of an address, which has 24 bits in the flash.
pub fn sector_of(address: u32) -> u32
    ensures sector { result < 16777216 }
{
    address % ARRAY_END / SECTOR * SECTOR
}

#[derive(Drop)]
pub struct SectorList {
    entries: Vec<u32>,
    ghost fits: { vec_len entries ≤ 300 },
}

impl SectorList {
    pub fn new(alloc: Global) -> SectorList {
        SectorList {
            entries: Vec::new(alloc),
        }
    }

    pub fn as_slice(&self) -> &[u32] {
        self.entries.as_slice()
    }

    // One entry more, as a word says it.
    pub fn add(&mut self, word: &[u8]) -> Result<(), Problem> {
        if MOST_SECTORS <= self.entries.len() {
            return Err(Problem::TooManySectors);
        }
        let entry = numbers::address(word)?;
        self.entries.push(entry)?;
        Ok(())
    }

    pub fn begin(&self, log: usize) -> Op {
        start::erase_sectors(self.as_slice(), log)
    }

    // The list as its operation is lent it.
    pub fn numbered(&self) -> [u8; LONGEST_LIST] {
        qspi_calls::sectors::numbered(self.as_slice())
    }

    // The sectors that the driver takes: all of them or none.
    pub fn taken(&self) -> &[u32] {
        if self.begin(0).status == Status::Going {
            self.as_slice()
        } else {
            &[]
        }
    }

    // The lowest sector of those in range, or else the first of the flash.
    pub fn base(&self) -> u32
        ensures base { result < 16777216 }
    {
        let in_range = self
            .entries
            .iter()
            .filter(|addr| !limits::out_of_range(**addr, SECTOR_SIZE));
        in_range.map(|addr| sector_of(*addr)).min().unwrap_or(0)
    }

    // Behind the highest sector.
    pub fn end(&self) -> usize {
        self.entries
            .iter()
            .map(|addr| *addr as usize + SECTOR_SIZE)
            .max()
            .unwrap_or(0)
    }
}
