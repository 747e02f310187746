// The part of the array that is lent to a row of calls: from their lowest sector on.
ghost use Rattle.std.specs.Prelude.{◌<◌, ◌≤◌};

use crate::fault::{Fault, Problem};
use crate::item::Item;
use crate::request::Request;
use crate::sectors::ARRAY_END;
use std::fmt;
use zedboard_bsp::qspi_spansion::SECTOR_SIZE;

// What the part is taken from, which says how long it is.
#[derive(Clone, Copy, PartialEq, Eq)]
pub enum Scope {
    Call,
    List,
    Row,
}

impl Scope {
    pub fn of(requests: &[Request]) -> Scope {
        match requests {
            [only] => {
                if only.has_list() {
                    Scope::List
                } else {
                    Scope::Call
                }
            }
            _ => Scope::Row,
        }
    }

    // Two sectors to one call, and eight to a list or to a row.
    pub fn size(self) -> usize
        ensures most { result ≤ 524288 }
    {
        match self {
            Scope::Call => 2 * SECTOR_SIZE,
            Scope::List | Scope::Row => 8 * SECTOR_SIZE,
        }
    }
}

impl fmt::Display for Scope {
    fn fmt<W: fmt::Write>(&self, f: &mut fmt::Formatter<W>) -> fmt::Result {
        let size = self.size();
        write!(f, "{size} bytes from the ")?;
        f.write_str(match self {
            Scope::Call => "start of the call's sector",
            Scope::List => "list's lowest sector",
            Scope::Row => "row's lowest sector",
        })
    }
}

// What a line says that the flash holds beforehand, from an address on.
#[derive(Drop)]
pub struct Holding {
    pub line: usize,
    pub address: u32,
    pub bytes: Vec<u8>,
}

#[derive(Clone, Copy)]
pub struct Part {
    pub base: u32,
    scope: Scope,
}

// Where the part begins: at the lowest sector of the calls, or at that of the last one, where none is
// taken.
fn base_of(requests: &[Request]) -> u32
    ensures base { result < 16777216 }
{
    let located = requests.iter().filter(|request| request.is_located());
    match (located.map(|request| request.base()).min(), requests.last()) {
        (Some(lowest), _) => lowest,
        (None, Some(last)) => last.base(),
        (None, None) => 0,
    }
}

impl Part {
    // The part for a row, in which all has to lie that the row programs or erases.
    pub fn of(requests: &[Request]) -> Result<Part, Fault> {
        let part = Part {
            base: base_of(requests),
            scope: Scope::of(requests),
        };
        // From the back, so that of calls that end at one place it is the first.
        let located = requests.iter().rev().filter(|request| request.is_located());
        match located.max_by_key(|request| request.work_end()) {
            Some(highest) if part.end() < highest.work_end() => Err(Fault::new(
                highest.place_line,
                Some(Item::of_place(highest.call)),
                Problem::Outside(part.scope),
            )),
            _ => Ok(part),
        }
    }

    // The part ends with the array at the latest.
    fn end(self) -> usize {
        (self.base as usize + self.scope.size()).min(ARRAY_END as usize)
    }

    pub fn size(self) -> usize {
        self.scope.size()
    }

    // Puts into the part what the flash holds there.
    pub fn put(self, array: &mut [u8], holding: &Holding) -> Result<(), Problem> {
        let base = self.base as usize;
        let from = holding.address as usize;
        let len = holding.bytes.len();
        if from < base || self.end() < from + len {
            return Err(Problem::Outside(self.scope));
        }
        let start = from - base;
        let cells = array
            .get_mut(start..start + len)
            .ok_or(Problem::Outside(self.scope))?;
        cells.copy_from_slice(holding.bytes.as_slice());
        Ok(())
    }
}
