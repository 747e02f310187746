// A request, one item a line; a row of them, apart by lines `then`. Words are apart by spaces; blank lines
// and those that begin with # are skipped. Each item stands there once at most, but for `data`, `sectors` and
// `holds`. A line has up to 1024 bytes, all of them up to 32767.
//
//   call NAME        one of `sim_report::call`
//   address HEX      up to eight digits
//   data HEX ..      pairs of digits; further lines are appended; up to 4096 bytes, or none
//   sectors HEX ..   addresses, for `erase_sectors`; further lines are appended; up to 300, or none
//   length N         bytes to read, up to 4096
//   dummy yes|no     whether `read_fast_read` drops a dummy byte, as the flash sends one; yes by default
//   busy N           status reads that show busy after a program or an erase; 0 by default
//   gap N            accesses between two words that go out; 0 by default
//   log N            room for so many accesses; 16384 by default and at most
//   replies N        how many replies there are; no limit by default
//   cut K | cut all  the power fails after K accesses | after every number of accesses
//   holds HEX HEX .. bytes that the flash holds beforehand, from an address on; FF elsewhere
//   then             a call follows, on the device and the array as the one before leaves them
//
// `busy`, `gap`, `cut` and `holds` are said of the whole row, with any of its calls, and a cut point counts the
// accesses of all; the other items are each call's own.
ghost use Rattle.std.specs.Prelude.{◌<◌};

use crate::item::Item;
use crate::sectors::{SectorList, sector_of};
use qspi_calls::start;
use qspi_operation::Op;
use qspi_script::Status;
use sim_report::call::Call;
use zedboard_bsp::qspi_spansion::SECTOR_SIZE;

// Bytes of data, or to be read.
pub const MOST_BYTES: u32 = 4096;

// Accesses that the log has room for.
pub const MOST_ACCESSES: u32 = 16384;

// After how many accesses the power fails.
#[derive(Clone, Copy)]
pub enum Cut {
    Never,
    After(usize),
    // After every number of accesses, one after the other.
    Every,
}

// What a call does not take is at its default, and changes nothing: with an enum of what each call takes, every
// reader of a field would match the calls again, and name the same default there.
#[derive(Drop)]
pub struct Request {
    pub call: Call,
    // 0 for a call that takes none and looks at none: an Option would be unwrapped at each start, to 0.
    pub address: u32,
    pub data: Vec<u8>,
    pub length: usize,
    pub dummy: bool,
    pub log: usize,
    // How many there are, where that is limited.
    pub replies: Option<usize>,
    pub sectors: SectorList,
    // The line that says where the call lies: 0 only of one that lies nowhere, of which no fault tells.
    pub place_line: usize,
}

// A row of calls, the choices of the device, and the part of the array from `base` on as it is before them.
#[derive(Drop)]
pub struct CallRow {
    pub requests: Vec<Request>,
    pub busy: u32,
    pub gap: u32,
    pub cut: Cut,
    pub base: u32,
    pub before: Vec<u8>,
}

impl Request {
    pub fn has_list(&self) -> bool {
        self.call == Call::EraseSectors
    }

    // The operation, with a log of so many words.
    pub fn begin(&self, log: usize) -> Op {
        let address = self.address;
        let data = self.data.len();
        let buffer = self.length;
        match self.call {
            Call::WriteEnable => start::write_enable(log),
            Call::WriteDisable => start::write_disable(log),
            Call::ClearStatus => start::clear_status(log),
            Call::Disable => start::disable(log),
            Call::ReadStatusRegister1 => start::read_status_register_1(log),
            Call::ReadConfigurationRegister => start::read_configuration_register(log),
            Call::ReadRdidBase => start::read_rdid_base(log),
            Call::ReadRdidExtended => start::read_rdid_extended(log),
            Call::EraseSector => start::erase_sector(address, log),
            Call::Program => start::program(address, data, log),
            Call::WritePages => start::write_pages(address, data, log),
            Call::ReadPageRead => start::read_page_read(address, buffer, log),
            Call::ReadFastRead => start::read_fast_read(address, self.dummy, buffer, log),
            Call::EraseSectors => self.sectors.begin(log),
        }
    }

    // Whether the call lies anywhere: it names a place, and is not refused at its start.
    pub fn is_located(&self) -> bool {
        Item::of_place(self.call).is_taken_by(self.call) && self.begin(0).status == Status::Going
    }

    // The lowest sector of the call.
    pub fn base(&self) -> u32
        ensures base { result < 16777216 }
    {
        if self.has_list() {
            self.sectors.base()
        } else {
            sector_of(self.address)
        }
    }

    // Where the bytes end that the call programs or erases.
    pub fn work_end(&self) -> usize {
        let address = self.address as usize;
        match self.call {
            Call::EraseSectors => self.sectors.end(),
            Call::EraseSector => address + SECTOR_SIZE,
            Call::Program | Call::WritePages => address + self.data.len(),
            _ => 0,
        }
    }

    // The sector that is erased after so many: the call's own, or that of its list, as long as there is one.
    pub fn sector_at_hand(&self, done: usize) -> Option<u32> {
        if self.has_list() {
            self.sectors.as_slice().get(done).copied()
        } else {
            Some(self.address)
        }
    }
}
