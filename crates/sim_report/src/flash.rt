// The part of the flash that a row of calls works on, and what is printed of it.
use std::fmt;
use std::io::Result;
use zedboard_bsp::qspi_spansion::{PAGE_SIZE, SECTOR_SIZE};

// An address has six digits in the flash. Reads take greater ones too.
#[derive(Clone, Copy, Debug, PartialEq, Eq)]
pub(crate) struct Address(pub(crate) u32);

impl fmt::Display for Address {
    fn fmt<W: fmt::Write>(&self, f: &mut fmt::Formatter<W>) -> fmt::Result {
        let address = self.0;
        if address < 0x100_0000 {
            write!(f, "{address:06X}")
        } else {
            write!(f, "{address:08X}")
        }
    }
}

// Bytes of the flash from an address on.
#[derive(Clone, Copy, Debug, PartialEq, Eq)]
pub struct Span {
    pub address: u32,
    pub length: u32,
}

impl Span {
    fn contains(self, address: u32) -> bool {
        self.address <= address && address - self.address < self.length
    }

    // Whether a page, by its address, has a byte of it.
    fn touches(self, page: u32) -> bool {
        let page = page as usize;
        let from = self.address as usize;
        from < page + PAGE_SIZE && page < from + self.length as usize
    }
}

impl fmt::Display for Span {
    fn fmt<W: fmt::Write>(&self, f: &mut fmt::Formatter<W>) -> fmt::Result {
        let address = Address(self.address);
        let length = self.length;
        if length < 0x100 {
            write!(f, "{address} {length:02X}")
        } else {
            write!(f, "{address} {length:05X}")
        }
    }
}

// What a sector holds: FF throughout, what it held before, or neither; in doubt it may hold anything.
#[derive(Clone, Copy, Debug, PartialEq, Eq)]
pub(crate) enum Holding {
    Erased,
    Before,
    Mixed,
    InDoubt,
}

impl fmt::Display for Holding {
    fn fmt<W: fmt::Write>(&self, f: &mut fmt::Formatter<W>) -> fmt::Result {
        f.write_str(match self {
            Holding::Erased => "FF",
            Holding::Before => "before",
            Holding::Mixed => "mixed",
            Holding::InDoubt => "??",
        })
    }
}

// A part of the flash from an address on, before a row of calls and after it.
#[derive(Clone, Copy)]
pub struct Flash<'a> {
    pub base: u32,
    pub before: &'a [u8],
    pub after: &'a [u8],
    // What may hold anything.
    pub doubt: Option<Span>,
}

impl Flash<'_> {
    // A sector that is being erased is in doubt, whatever else is.
    pub(crate) fn with_erased(self, sector: Option<u32>) -> Self {
        match sector {
            Some(address) => Flash {
                doubt: Some(Span {
                    address,
                    length: SECTOR_SIZE as u32,
                }),
                ..self
            },
            None => self,
        }
    }

    fn is_doubtful(self, address: u32) -> bool {
        self.doubt.is_some_and(|doubt| doubt.contains(address))
    }

    // Whether a page changed, or may have.
    fn is_changed(self, page: u32, before: &[u8], after: &[u8]) -> bool {
        before != after || self.doubt.is_some_and(|doubt| doubt.touches(page))
    }

    // The pages of a sector in doubt are not printed: nothing is known of any byte.
    fn is_printed(self, page: u32) -> bool {
        !self.doubt.is_some_and(|doubt| PAGE_SIZE < doubt.length as usize && doubt.touches(page))
    }

    pub(crate) fn changed_pages(self) -> usize {
        (self.base..u32::MAX)
            .step_by(PAGE_SIZE)
            .zip(self.before.chunks_exact(PAGE_SIZE))
            .zip(self.after.chunks_exact(PAGE_SIZE))
            .filter(|((page, before), after)| self.is_changed(*page, before, after))
            .count()
    }

    pub(crate) fn print_pages(self, rt: &impl Print) -> Result<()> {
        if self.changed_pages() == 0 {
            return println!(rt; "no page changed");
        }
        // The pages of `changed_pages` once more: one function that returned this chain to both was tried, and
        // the proof of the loop over what it returned did not close.
        let pages = (self.base..u32::MAX)
            .step_by(PAGE_SIZE)
            .zip(self.before.chunks_exact(PAGE_SIZE))
            .zip(self.after.chunks_exact(PAGE_SIZE));
        for ((page, before), after) in pages {
            if self.is_changed(page, before, after) && self.is_printed(page) {
                println!(rt; "page {}", Address(page))?;
                print_rows(rt, "", page, after, self.doubt)?;
            }
        }
        Ok(())
    }

    // What a sector holds, by its address.
    pub(crate) fn holding(self, sector: u32) -> Holding {
        if self.is_doubtful(sector) {
            return Holding::InDoubt;
        }
        let from = sector.wrapping_sub(self.base) as usize;
        let before = self.before.get(from..from + SECTOR_SIZE);
        let after = self.after.get(from..from + SECTOR_SIZE).unwrap_or(&[]);
        if after.iter().all(|&byte| byte == 0xFF) {
            Holding::Erased
        } else if before == Some(after) {
            Holding::Before
        } else {
            Holding::Mixed
        }
    }
}

// Bytes from an address on, sixteen a line, of which those in doubt are not known.
pub(crate) fn print_rows(
    rt: &impl Print,
    name: &str,
    address: u32,
    bytes: &[u8],
    doubt: Option<Span>,
) -> Result<()> {
    let starts = (address..=u32::MAX).step_by(16);
    for (start, row) in starts.zip(bytes.chunks(16)) {
        print!(rt; "{name}{}", Address(start))?;
        print_row(rt, start, row, doubt)?;
    }
    Ok(())
}

fn print_row(rt: &impl Print, start: u32, row: &[u8], doubt: Option<Span>) -> Result<()> {
    for (at, byte) in (start..=u32::MAX).zip(row) {
        if doubt.is_some_and(|doubt| doubt.contains(at)) {
            print!(rt; " ??")?;
        } else {
            print!(rt; " {byte:02X}")?;
        }
    }
    println!(rt; "")
}
